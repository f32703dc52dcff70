// The declarations of a text, one after the other: what is stray and what stops is told here, once (Quaigh's src/io/blif.rs:
// build_name_to_sig).
#![tactic(auto)]

ghost use Rattle.std.specs.Prelude.{◌≡◌, ◌<◌, length};
ghost use Rattle.blif_text.specs.Between.Walk.{StmtsAt};
ghost use Rattle.blif_declarations.specs.Between.Rows.{LinesAt};
ghost use Rattle.blif_declarations.specs.Between.Declarations.{declared_by, behind_row, NextIs};

use blif_text::{Block, Keyword, Run, has_leading_dot, keyword_of, names_run, row_end, token};

// How many cube lines stand at a place, and the place behind them.
#[derive(Clone, Copy)]
struct Lines {
    count: usize,
    end: usize,
}

// A declaration by its places in the tokens: runs of names, a latch with the tokens behind its names, a cover with its lines; or
// that there is none, at a stray cube line and at `.exdc`.
#[derive(Clone, Copy)]
pub enum Declaration {
    Model,
    Inputs(Run),
    Outputs(Run),
    Latch(Run),
    Cover(Block),
    End,
    None,
}

// A declaration, and the place where the walk goes on.
#[derive(Clone, Copy)]
pub struct Next {
    pub declaration: Declaration,
    pub at: usize,
}

// The cube lines that stand directly at a place.
fn cube_lines(text: &[u8], tokens: &[u32], at: usize) -> Lines
    requires { StmtsAt text.now tokens.now (length tokens.now) at }
    ensures { LinesAt text.now tokens.now (length tokens.now) at result.count result.end }
{
    let mut count = 0;
    let mut i = at;
    while i < tokens.len() {
        if has_leading_dot(token(text, tokens[i])) {
            return Lines { count, end: i };
        }
        count += 1;
        i = row_end(tokens, i);
    }
    Lines { count, end: i }
}

// What the row with this keyword declares, with its names and the cube lines behind it, and the place where the walk goes on: behind them, or behind
// all n tokens.
fn declared_by(keyword: Keyword, names: Run, lines: Lines, n: usize) -> Next
    ensures { (result.declaration ≡ declared_by keyword names lines.count) × (result.at ≡ behind_row keyword lines.end n) }
{
    let mut at = lines.end;
    let declaration = match keyword {
        Keyword::Model => Declaration::Model,
        Keyword::Inputs => Declaration::Inputs(names),
        Keyword::Outputs => Declaration::Outputs(names),
        Keyword::Latch => Declaration::Latch(names),
        Keyword::Names => Declaration::Cover(Block {
            first: names.first,
            names: names.count,
            lines: lines.count,
        }),
        Keyword::End => {
            at = n;
            Declaration::End
        }
        Keyword::Exdc => {
            at = n;
            Declaration::None
        }
        Keyword::Unsupported => Declaration::None,
        Keyword::Cube => Declaration::None,
    };
    Next { declaration, at }
}

// What the row at a place declares, and the place behind it and the cube lines that follow: a cover's are counted, others passed over. Behind
// `.end` and `.exdc` all is passed over.
pub fn next_declaration(text: &[u8], tokens: &[u32], at: usize) -> Next
    requires { StmtsAt text.now tokens.now (length tokens.now) at × (at < length tokens.now) }
    ensures { NextIs text.now tokens.now (length tokens.now) at result.declaration result.at }
{
    let keyword = keyword_of(token(text, tokens[at]));
    let end = row_end(tokens, at);
    let lines = cube_lines(text, tokens, end);
    declared_by(keyword, names_run(at, end), lines, tokens.len())
}
