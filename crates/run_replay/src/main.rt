// Runs lent networks for rows and prints the answers, in the notation of the stored answers of the oracle's own run. Standard input has how
// many networks there are, then for each its counts, how long the output slice is, how many cells of each kind are lent, the cells, how
// long the rows are, and the rows. Before a run every byte of the output slice is 165; a byte behind the output rows, or one after a
// refusal, that is not zero is told. What is told is shown first.
#![tactic(auto)]

use network::Counts;
use refusals::Refusal;
use replay::{
    print_bytes, print_line, print_refused, read_counts, read_full, read_word, read_words,
};
use run_rows::run_rows;
use std::io;
use std::io::Read;

// An answer: the output rows behind their length, or a refusal's number; every other byte must be zero.
fn print_answer(rt: &impl Print, answer: Result<usize, Refusal>, out: &[u8]) -> io::Result<()> {
    match answer {
        Ok(n) => print_bytes(rt, out, n),
        Err(refusal) => print_refused(rt, out, refusal.number()),
    }
}

// Runs a network for the next rows, as long as their slice, and prints the answer.
fn replay_rows(
    rt: &impl Print,
    input: &mut impl Read,
    counts: Counts,
    gates: &[u32],
    pins: &[u32],
    outputs: &[u32],
    rows: &mut [u8],
    out: &mut [u8],
) -> io::Result<()> {
    read_full(input, rows)?;
    let answer = run_rows(counts, gates, pins, outputs, rows, out);
    print_answer(rt, answer, out)
}

// Reads the cells of a network, then its rows by the length that stands before them.
fn replay_cells(
    rt: &impl Print,
    input: &mut impl Read,
    counts: Counts,
    gates: &mut [u32],
    pins: &mut [u32],
    outputs: &mut [u32],
    out: &mut [u8],
) -> io::Result<()> {
    read_words(input, gates)?;
    read_words(input, pins)?;
    read_words(input, outputs)?;
    let mut rows = [0u8; 32800];
    let n = read_word(input)? as usize % 32801;
    replay_rows(rt, input, counts, gates, pins, outputs, &mut rows[..n], out)
}

// The next network: its number, then what the run answers.
fn replay_network(rt: &impl Print, input: &mut impl Read, number: u32) -> io::Result<()> {
    print_line(rt, b"network ", number as usize)?;
    let counts = read_counts(input)?;
    let l = read_word(input)? as usize % 32801;
    let g = read_word(input)? as usize % 4102;
    let p = read_word(input)? as usize % 16387;
    let o = read_word(input)? as usize % 259;
    let mut gates = [0u32; 4101];
    let mut pins = [0u32; 16386];
    let mut outputs = [0u32; 258];
    let mut out = [165u8; 32800];
    replay_cells(
        rt,
        input,
        counts,
        &mut gates[..g],
        &mut pins[..p],
        &mut outputs[..o],
        &mut out[..l],
    )
}

// What is told of a length and of a refusal, where the last byte of the slice is this one.
fn show_kind(rt: &impl Print, length: usize, last: u8) -> io::Result<()> {
    let mut out = [0u8; 32800];
    out[32799] = last;
    print_answer(rt, Ok(length), &out)?;
    print_refused(rt, &out, 20)
}

// Every line that tells of something wrong, before the answers, none of which has one.
fn show_told(rt: &impl Print) -> io::Result<()> {
    println!(rt; "told")?;
    show_kind(rt, 0, 1)?;
    show_kind(rt, 32801, 0)
}

fn main(rt: HostRuntime) -> io::Result<()> {
    let mut input = rt.stdin();
    show_told(&rt)?;
    let networks = read_word(&mut input)?;
    for i in 0..networks {
        replay_network(&rt, &mut input, i)?;
    }
    Ok(())
}
