// Prints the statements of texts, a line for each, in the notation of the stored answers of Quaigh's read_statements, a latch with all its
// tokens. Standard input has how many texts there are, then the length and the bytes of each.
#![tactic(auto)]

ghost use Rattle.std.specs.Prelude.{◌≤◌, length};
ghost use Rattle.blif_text.specs.Between.Places.{max_tokens, TokensMarked};
ghost use Rattle.blif_text.specs.Lines.{max_text};

use blif_text::{
    Run, Statement, first_bad, mark_tokens, row_end, statement_at, token, token_length, token_start,
};
use refusals::Refusal;
use replay::{read_full, read_word};
use std::io;
use std::io::Read;

// A blank and the token of a cell.
fn print_token(rt: &impl Print, text: &[u8], cell: u32) -> io::Result<()> {
    if token_start(cell) + token_length(cell) <= text.len() {
        rt.write_all(b" ")?;
        rt.write_all(token(text, cell))?;
    }
    Ok(())
}

// The tokens of cells.
fn print_tokens(rt: &impl Print, text: &[u8], cells: &[u32]) -> io::Result<()> {
    for &cell in cells {
        print_token(rt, text, cell)?;
    }
    Ok(())
}

// A keyword and the tokens of a run.
fn print_names(
    rt: &impl Print,
    keyword: &[u8],
    text: &[u8],
    cells: &[u32],
    run: Run,
) -> io::Result<()> {
    rt.write_all(keyword)?;
    let first = run.first;
    if first <= cells.len() && run.count <= cells.len() - first {
        let end = first + run.count;
        print_tokens(rt, text, &cells[first..end])?;
    }
    Ok(())
}

// A refusal's number.
fn print_refusal(rt: &impl Print, n: u32) -> io::Result<()> {
    print!(rt; "refused {n}")
}

// A statement or its refusal, and the end of its line.
fn print_statement(
    rt: &impl Print,
    text: &[u8],
    cells: &[u32],
    s: Result<Statement, Refusal>,
) -> io::Result<()> {
    match s {
        Ok(Statement::Model) => print!(rt; "model")?,
        Ok(Statement::End) => print!(rt; "end")?,
        Ok(Statement::Exdc) => print!(rt; "exdc")?,
        Ok(Statement::Inputs(run)) => print_names(rt, b"inputs", text, cells, run)?,
        Ok(Statement::Outputs(run)) => print_names(rt, b"outputs", text, cells, run)?,
        Ok(Statement::Names(run)) => print_names(rt, b"names", text, cells, run)?,
        Ok(Statement::Latch(run)) => print_names(rt, b"latch", text, cells, run)?,
        Ok(Statement::Cube(run)) => print_names(rt, b"cube", text, cells, run)?,
        Err(r) => print_refusal(rt, r.number())?,
    }
    println!(rt)
}

// Every statement of a text whose tokens are marked.
fn print_rows(rt: &impl Print, text: &[u8], cells: &[u32]) -> io::Result<()>
    requires { TokensMarked text.now cells.now (length cells.now) }
{
    let mut at = 0;
    while at < cells.len() {
        let end = row_end(cells, at);
        print_statement(rt, text, cells, statement_at(text, cells, at, end))?;
        at = end;
    }
    Ok(())
}

// The first refusal of a text, or its statements.
fn print_text(rt: &impl Print, text: &[u8], cells: &mut [u32]) -> io::Result<()>
    requires { (length text.now ≤ max_text) × (max_tokens ≤ length cells.old) }
{
    let n = mark_tokens(text, cells);
    if let Err(r) = first_bad(text, &cells[..n]) {
        print_refusal(rt, r.number())?;
        println!(rt)
    } else {
        print_rows(rt, text, &cells[..n])
    }
}

// The next text, as long as the slice: its number, then what is found in it.
fn replay_into(
    rt: &impl Print,
    input: &mut impl Read,
    number: u32,
    text: &mut [u8],
    cells: &mut [u32],
) -> io::Result<()>
    requires { (length text.old ≤ max_text) × (max_tokens ≤ length cells.old) }
{
    read_full(input, text)?;
    println!(rt; "text {number}")?;
    print_text(rt, text, cells)
}

// The next text, by the length that stands before it.
fn replay_text(rt: &impl Print, input: &mut impl Read, number: u32) -> io::Result<()> {
    let mut text = [0u8; 32768];
    let mut cells = [0u32; 16384];
    let n = read_word(input)? as usize % 32769;
    replay_into(rt, input, number, &mut text[..n], &mut cells)
}

fn main(rt: HostRuntime) -> io::Result<()> {
    let mut input = rt.stdin();
    let texts = read_word(&mut input)?;
    for i in 0..texts {
        replay_text(&rt, &mut input, i)?;
    }
    Ok(())
}
