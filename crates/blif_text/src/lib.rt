// BLIF text: lines, tokens, keywords and statements, as places in the caller's text (Quaigh's src/io/blif.rs).
#![tactic(auto)]

ghost use Rattle.std.specs.Prelude.{◌≡◌, false, eqb, [], ◌∷◌, ◌+◌, ◌*◌, ◌≤◌, ◌<◌, length, get_or};
ghost use Rattle.lists.specs.Lists.{any, overwrite};
ghost use Rattle.lists.specs.Between.Lists.{overwrite_at};
ghost use Rattle.blif_text.specs.Lines.{is_blank, max_text};
ghost use Rattle.blif_text.specs.Between.Places.{max_tokens, token_cell, is_first, token_start, token_length, InText, token_of, tokens_of, token_cells, TokensMarked};
ghost use Rattle.blif_text.specs.Keywords.{leading_dot, keyword_of};
ghost use Rattle.blif_text.specs.Between.PlacedStatements.{RowTo, names_run, start_of, latch_statement, statement_of, statement_at, refusal_in};
ghost use Rattle.blif_text.specs.Statements.{init_of, init_among, parsed, first_bad};
ghost use Rattle.blif_text.specs.Decls.{columns};
ghost use Rattle.blif_text.specs.Between.Walk.{Inside};
ghost use Rattle.blif_text.specs.Between.Blocks.{block_width, first_name, name_count, line_count};
ghost use Rattle.blif_text.specs.Between.Scan.{ends_word, other_than, NoneTo, FirstTo, LineAfter, StopOf, WordPut, ScanAt, Scanned};

use lists::equal;
use refusals::Refusal;

pub const MAX_TEXT: usize = 32768;

// The cells of a block's record: first name, name count, line count.
pub const BLOCK_CELLS: usize = 3;

// How far the scan has come: the place, how many tokens are marked, and whether the next one is a statement's first.
#[derive(Clone, Copy)]
struct Marks {
    at: usize,
    count: usize,
    fresh: bool,
}

// A latch or a cover by places: the token of its first name, how many names a cover has (a latch is told by none), and
// how many cube lines; of a latch, how many tokens stand behind `.latch`.
#[derive(Clone, Copy)]
pub struct Block {
    pub first: usize,
    pub names: usize,
    pub lines: usize,
}

// What a statement's first token says.
#[derive(Clone, Copy)]
pub enum Keyword {
    Model,
    Inputs,
    Outputs,
    Latch,
    Names,
    End,
    Exdc,
    Unsupported,
    Cube,
}

// A run of token cells.
#[derive(Clone, Copy)]
pub struct Run {
    pub first: usize,
    pub count: usize,
}

// A statement by the places of its names: a run of token cells, for a latch with those behind its names.
#[derive(Clone, Copy)]
pub enum Statement {
    Model,
    End,
    Exdc,
    Inputs(Run),
    Outputs(Run),
    Names(Run),
    Latch(Run),
    Cube(Run),
}

// Blanks are 9 to 13 and 32.
#[tactic(auto, unfolding(crate::specs::Lines::is_blank))]
pub fn is_blank(c: u8) -> bool
    ensures { result ≡ is_blank c }
{
    matches!(c, b'\t'..=b'\r' | b' ')
}

// Whether a byte ends a word: a blank, or the start of a comment.
#[tactic(auto, unfolding(crate::specs::Lines::is_blank, crate::specs::Between::Scan::ends_word))]
fn ends_word(c: u8) -> bool
    ensures { result ≡ ends_word c }
{
    c == b'#' || is_blank(c)
}

// The place of the first byte from at on that ends a word, or the text's length.
fn word_end(text: &[u8], at: usize) -> usize
    requires { at ≤ length text.now }
    ensures { FirstTo ends_word text.now at result }
{
    for i in at..text.len() {
        if ends_word(text[i]) {
            return i;
        }
    }
    text.len()
}

// The place behind the run of this byte from at on.
fn run_end(text: &[u8], at: usize, byte: u8) -> usize
    requires { at ≤ length text.now }
    ensures { FirstTo (other_than byte) text.now at result }
{
    for i in at..text.len() {
        if text[i] != byte {
            return i;
        }
    }
    text.len()
}

// Whether an LF is among these bytes.
fn has_line_end(block: &[u8]) -> bool
    ensures { result ≡ any (eqb 10) block.now }
{
    let mut found = false;
    for &byte in block {
        found |= byte == b'\n';
    }
    found
}

// The place behind the blocks of 32 bytes from at on that have no LF.
fn skip_blocks(text: &[u8], at: usize) -> usize
    requires { at ≤ length text.now }
    ensures { NoneTo (eqb 10) text.now at result }
{
    let mut i = at;
    while text.len() - i >= 32 {
        let e = i + 32;
        if has_line_end(&text[i..e]) {
            return i;
        }
        i = e;
    }
    i
}

// The place of the first LF from at on, or the text's length.
fn line_end(text: &[u8], at: usize) -> usize
    requires { at ≤ length text.now }
    ensures { FirstTo (eqb 10) text.now at result }
{
    for i in skip_blocks(text, at)..text.len() {
        if text[i] == b'\n' {
            return i;
        }
    }
    text.len()
}

// The place behind the first LF from at on, or the text's length.
pub fn line_after(text: &[u8], at: usize) -> usize
    requires { at ≤ length text.now }
    ensures { LineAfter text.now at result }
{
    let end = line_end(text, at);
    if end < text.len() { end + 1 } else { end }
}

// Where the next line starts if a line stops at this place: at an LF, at CR directly before it, or at the text's end.
fn line_stop(text: &[u8], stop: usize) -> Option<usize>
    requires { (0 < stop) × (stop ≤ length text.now) }
    ensures { StopOf text.now stop result }
{
    match &text[stop..] {
        [] => Some(stop),
        [b'\n', ..] => Some(stop + 1),
        // With the pattern [b'\r', b'\n', ..] two bytes are asked for before one is looked at, which takes longer.
        [b'\r', rest @ ..] if rest.starts_with(b"\n") => Some(stop + 2),
        _ => None,
    }
}

// The cell of a token's place.
fn token_cell(first: bool, start: usize, len: usize) -> u32
    requires { (start < max_text) × (len ≤ max_text) }
    ensures { result ≡ token_cell first start len }
{
    let place = ((start as u32) << 16) + len as u32;
    if first { 0x8000_0000 + place } else { place }
}

// Whether a token is a statement's first.
pub fn is_first(cell: u32) -> bool
    ensures { result ≡ is_first cell }
{
    cell >= 0x8000_0000
}

// Where a token starts.
pub fn token_start(cell: u32) -> usize
    ensures { result ≡ token_start cell }
{
    (cell >> 16) as usize % 32768
}

// How long a token is.
pub fn token_length(cell: u32) -> usize
    ensures { result ≡ token_length cell }
{
    cell as usize % 65536
}

// Writes the cell of the word from w.at to end, and goes on at next.
fn put_word(cells: &mut [u32], w: Marks, end: usize, next: usize) -> Marks
    requires { (w.count < length cells.old) × (w.at < max_text) × (w.at ≤ end) × (end ≤ max_text) }
    ensures { WordPut cells.old w.at w.count w.fresh end next cells.new result.at result.count result.fresh }
{
    let n = w.count;
    cells[n] = token_cell(w.fresh, w.at, end - w.at);
    Marks {
        at: next,
        count: n + 1,
        fresh: false,
    }
}

// Marks the word at w. A backslash that ends the line is no part of it, and the statement goes on in the next line.
fn mark_word(text: &[u8], cells: &mut [u32], w: Marks) -> Marks
    requires { ScanAt text.now cells.old w.at w.count × (w.at < length text.now) × (ends_word (get_or text.now w.at 0) ≡ false) }
    ensures scanned { Scanned text.now cells.old w.at w.count w.fresh
        cells.new result.at result.count result.fresh }
    ensures at_lt_at { w.at < result.at }
{
    let at = w.at;
    let end = word_end(text, at + 1);
    if text[end - 1] != b'\\' {
        return put_word(cells, w, end, end);
    }
    let Some(next) = line_stop(text, end) else {
        return put_word(cells, w, end, end);
    };
    if end == at + 1 {
        Marks { at: next, ..w }
    } else {
        put_word(cells, w, end - 1, next)
    }
}

// One step of the scan: a word, a comment with its line's end, or a run of one blank, which ends the statement where the blank is LF.
fn mark_step(text: &[u8], cells: &mut [u32], w: Marks) -> Marks
    requires { ScanAt text.now cells.old w.at w.count × (w.at < length text.now) }
    ensures scanned { Scanned text.now cells.old w.at w.count w.fresh
        cells.new result.at result.count result.fresh }
    ensures at_lt_at { w.at < result.at }
{
    let at = w.at;
    let c = text[at];
    if !ends_word(c) {
        mark_word(text, cells, w)
    } else if c == b'#' {
        let next = line_after(text, at);
        Marks {
            at: next,
            fresh: true,
            ..w
        }
    } else {
        let next = run_end(text, at + 1, c);
        Marks {
            at: next,
            fresh: w.fresh | (c == b'\n'),
            ..w
        }
    }
}

// Marks every token of the text, a cell for each, row by row; answers how many there are.
pub fn mark_tokens(text: &[u8], cells: &mut [u32]) -> usize
    requires { (length text.now ≤ max_text) × (max_tokens ≤ length cells.old) }
    ensures tokens_marked { TokensMarked text.now cells.new result }
    ensures cells_after { cells.new ≡ overwrite (token_cells text.now) cells.old }
{
    let mut w = Marks {
        at: 0,
        count: 0,
        fresh: true,
    };
    while w.at < text.len() {
        w = mark_step(text, cells, w);
    }
    w.count
}

// The token of a cell, as a part of the text.
pub fn token(text: &[u8], cell: u32) -> &[u8]
    requires { InText text.now cell }
    ensures { result.now ≡ token_of text.now cell }
{
    let start = token_start(cell);
    let end = start + token_length(cell);
    &text[start..end]
}

// Whether a token has a leading dot: the first token of every statement but a cube line has.
pub fn has_leading_dot(token: &[u8]) -> bool
    ensures { result ≡ leading_dot token.now }
{
    token.starts_with(b".")
}

// The keyword that a statement's first token is.
pub fn keyword_of(token: &[u8]) -> Keyword
    ensures { result ≡ keyword_of token.now }
{
    if !has_leading_dot(token) {
        Keyword::Cube
    } else if equal(token, b".model") {
        Keyword::Model
    } else if equal(token, b".inputs") {
        Keyword::Inputs
    } else if equal(token, b".outputs") {
        Keyword::Outputs
    } else if equal(token, b".latch") {
        Keyword::Latch
    } else if equal(token, b".names") {
        Keyword::Names
    } else if equal(token, b".end") {
        Keyword::End
    } else if equal(token, b".exdc") {
        Keyword::Exdc
    } else {
        Keyword::Unsupported
    }
}

// The end of the row that starts at a place: the next row's start, or the cells' end.
pub fn row_end(cells: &[u32], at: usize) -> usize
    requires { at < length cells.now }
    ensures { RowTo cells.now at (length cells.now) result }
{
    for i in at + 1..cells.len() {
        if is_first(cells[i]) {
            return i;
        }
    }
    cells.len()
}

// The columns of the cube line that a row of tokens is: none of a line with one token, else its first token.
pub fn line_columns<'a, 'b>(text: &'a [u8], row: &'b [u32]) -> &'a [u8]
    requires { Inside text.now row.now (length row.now) }
    ensures { result.now ≡ columns (tokens_of text.now row.now) }
{
    if row.len() < 2 {
        &text[..0]
    } else {
        token(text, row[0])
    }
}

// The names of the row from at to end: its tokens behind the first.
pub fn names_run(at: usize, end: usize) -> Run
    requires { at < end }
    ensures { result ≡ names_run at end }
{
    Run {
        first: at + 1,
        count: end - at - 1,
    }
}

// The start value that a token says, if it is 0, 1, 2 or 3: 2 and 3 are read as zero.
#[tactic(auto, unfolding(crate::specs::Statements::init_of))]
fn start_of(token: &[u8]) -> Option<bool>
    ensures { result ≡ start_of (init_of token.now) }
{
    if equal(token, b"0") {
        Some(false)
    } else if equal(token, b"1") {
        Some(true)
    } else if equal(token, b"2") || equal(token, b"3") {
        Some(false)
    } else {
        None
    }
}

// The start value that the tokens behind a latch's two names say, if there is one: the only one says it, or the third of three or more, and where
// none does it is zero.
pub fn latch_start(text: &[u8], rest: &[u32]) -> Option<bool>
    requires { Inside text.now rest.now (length rest.now) }
    ensures { result ≡ start_of (init_among (tokens_of text.now rest.now)) }
{
    if rest.len() == 1 {
        start_of(token(text, rest[0]))
    } else if rest.len() > 2 {
        start_of(token(text, rest[2]))
    } else {
        Some(false)
    }
}

// The statement of the row from at to end, which is a latch's.
fn latch_statement(text: &[u8], cells: &[u32], at: usize, end: usize) -> Result<Statement, Refusal>
    requires { (at < end) × Inside text.now cells.now end }
    ensures { result ≡ latch_statement text.now cells.now at end }
{
    let names = names_run(at, end);
    if names.count < 2 {
        return Err(Refusal::MissingName);
    }
    let from = at + 3;
    match latch_start(text, &cells[from..end]) {
        Some(_) => Ok(Statement::Latch(names)),
        None => Err(Refusal::WrongStart),
    }
}

// The statement of the row from at to end, whose first token has this keyword.
fn statement_of(
    text: &[u8],
    cells: &[u32],
    keyword: Keyword,
    at: usize,
    end: usize,
) -> Result<Statement, Refusal>
    requires { (at < end) × Inside text.now cells.now end }
    ensures { result ≡ statement_of text.now cells.now keyword at end }
{
    let names = names_run(at, end);
    match keyword {
        Keyword::Model => {
            if names.count < 1 {
                Err(Refusal::MissingName)
            } else {
                Ok(Statement::Model)
            }
        }
        Keyword::Inputs => Ok(Statement::Inputs(names)),
        Keyword::Outputs => Ok(Statement::Outputs(names)),
        Keyword::Latch => latch_statement(text, cells, at, end),
        Keyword::Names => Ok(Statement::Names(names)),
        Keyword::End => Ok(Statement::End),
        Keyword::Exdc => Ok(Statement::Exdc),
        Keyword::Unsupported => Err(Refusal::Unsupported),
        Keyword::Cube => Ok(Statement::Cube(Run {
            first: at,
            count: end - at,
        })),
    }
}

// The statement of the row of token cells from at to end, or its refusal.
pub fn statement_at(text: &[u8], cells: &[u32], at: usize, end: usize) -> Result<Statement, Refusal>
    requires { (at < end) × Inside text.now cells.now end }
    ensures { result ≡ statement_at text.now cells.now at end }
{
    let first = cells[at];
    let keyword = keyword_of(token(text, first));
    statement_of(text, cells, keyword, at, end)
}

// The refusal of 4, 5 and 34 that the statement of the row from at to end is, if it is one; a cube line never is.
fn refusal_at(text: &[u8], cells: &[u32], at: usize, end: usize) -> Result<(), Refusal>
    requires { (at < end) × Inside text.now cells.now end }
    ensures { result ≡ refusal_in (statement_at text.now cells.now at end) }
{
    let first = cells[at];
    if !has_leading_dot(token(text, first)) {
        return Ok(());
    }
    statement_at(text, cells, at, end)?;
    Ok(())
}

// The first refusal of 4, 5 and 34 among the statements of marked tokens, if there is one.
pub fn first_bad(text: &[u8], cells: &[u32]) -> Result<(), Refusal>
    requires { TokensMarked text.now cells.now (length cells.now) }
    ensures { result ≡ first_bad (parsed text.now) }
{
    let mut at = 0;
    while at < cells.len() {
        let end = row_end(cells, at);
        refusal_at(text, cells, at, end)?;
        at = end;
    }
    Ok(())
}

// Block j's record.
pub fn block_at(blocks: &[u32], j: usize) -> Block
    requires { j * block_width + 2 < length blocks.now }
    ensures { (result.first ≡ first_name blocks.now j)
        × (result.names ≡ name_count blocks.now j)
        × (result.lines ≡ line_count blocks.now j) }
{
    let first = blocks[j * BLOCK_CELLS] as usize;
    let names = blocks[j * BLOCK_CELLS + 1] as usize;
    let lines = blocks[j * BLOCK_CELLS + 2] as usize;
    Block {
        first,
        names,
        lines,
    }
}

// Writes block j's record.
pub fn put_block(blocks: &mut [u32], j: usize, block: Block)
    requires { (j * block_width + 2 < length blocks.old) × (block.first ≤ max_tokens) × (block.names ≤ max_tokens) × (block.lines ≤ max_tokens) }
    ensures { blocks.new ≡ overwrite_at (j * block_width) (block.first ∷ block.names ∷ block.lines ∷ []) blocks.old }
{
    blocks[j * BLOCK_CELLS] = block.first as u32;
    blocks[j * BLOCK_CELLS + 1] = block.names as u32;
    blocks[j * BLOCK_CELLS + 2] = block.lines as u32;
}
