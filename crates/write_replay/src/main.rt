// Writes lent networks as texts and prints the answers, in the notation of the stored answers of Quaigh's write_blif. Standard input
// has how many networks there are, then for each its counts, how long the output slice is, how many cells of each kind are lent, and
// the cells. Before a write every byte of the output slice is 165; a byte behind the text, or one after a refusal, that is not zero is
// told, and so is a cell that has changed. What is told is shown first.
#![tactic(auto)]

use blif_write::write_blif;
use lists::cell_at;
use network::Counts;
use refusals::Refusal;
use replay::{print_bytes, print_line, print_refused, put_word, read_counts, read_word};
use std::io;
use std::io::Read;

// The next words, as cells and once more to compare them with.
fn read_words(input: &mut impl Read, cells: &mut [u32], kept: &mut [u32]) -> io::Result<()> {
    for (i, cell) in cells.iter_mut().enumerate() {
        *cell = read_word(input)?;
        put_word(kept, i, *cell);
    }
    Ok(())
}

// A line that no stored answer has, unless the cells are those kept.
fn expect_same(rt: &impl Print, cells: &[u32], kept: &[u32]) -> io::Result<()> {
    for (i, &cell) in cells.iter().enumerate() {
        if cell != cell_at(kept, i) {
            return println!(rt; "changed");
        }
    }
    Ok(())
}

// An answer; every lent cell must be as it was.
fn print_answer(
    rt: &impl Print,
    answer: Result<usize, Refusal>,
    out: &[u8],
    gates: &[u32],
    kept_gates: &[u32],
    pins: &[u32],
    kept_pins: &[u32],
    outputs: &[u32],
    kept_outputs: &[u32],
) -> io::Result<()> {
    match answer {
        Ok(n) => print_bytes(rt, out, n)?,
        Err(refusal) => print_refused(rt, out, refusal.number())?,
    }
    expect_same(rt, gates, kept_gates)?;
    expect_same(rt, pins, kept_pins)?;
    expect_same(rt, outputs, kept_outputs)
}

// Reads the cells of a network, writes it and prints the answer.
fn replay_cells(
    rt: &impl Print,
    input: &mut impl Read,
    counts: Counts,
    gates: &mut [u32],
    pins: &mut [u32],
    outputs: &mut [u32],
    kept: &mut [u32],
    out: &mut [u8],
) -> io::Result<()> {
    let mut kept_gates = [0u32; 4101];
    let mut kept_outputs = [0u32; 258];
    read_words(input, gates, &mut kept_gates)?;
    read_words(input, pins, kept)?;
    read_words(input, outputs, &mut kept_outputs)?;
    let answer = write_blif(counts, gates, pins, outputs, out);
    print_answer(
        rt,
        answer,
        out,
        gates,
        &kept_gates,
        pins,
        kept,
        outputs,
        &kept_outputs,
    )
}

// The next network: its number, then what writing answers.
fn replay_network(rt: &impl Print, input: &mut impl Read, number: u32) -> io::Result<()> {
    print_line(rt, b"network ", number as usize)?;
    let counts = read_counts(input)?;
    let l = read_word(input)? as usize % 32801;
    let g = read_word(input)? as usize % 4102;
    let p = read_word(input)? as usize % 16387;
    let o = read_word(input)? as usize % 259;
    let mut gates = [0u32; 4101];
    let mut pins = [0u32; 16386];
    let mut outputs = [0u32; 258];
    let mut kept = [0u32; 16386];
    let mut out = [165u8; 32800];
    replay_cells(
        rt,
        input,
        counts,
        &mut gates[..g],
        &mut pins[..p],
        &mut outputs[..o],
        &mut kept,
        &mut out[..l],
    )
}

// What is told of a text without bytes and of a refusal: kind 0 where the last byte is not zero, kind 1, 2 or 3 where the last cell of gates,
// pins or outputs has changed, kind 4 where the text is longer than the slice.
fn show_kind(rt: &impl Print, kind: u32) -> io::Result<()> {
    let mut gates = [0u32; 4101];
    let mut pins = [0u32; 16386];
    let mut outputs = [0u32; 258];
    let mut out = [0u8; 32800];
    let kept_gates = [0u32; 4101];
    let kept_pins = [0u32; 16386];
    let kept_outputs = [0u32; 258];
    out[32799] = (kind == 0) as u8;
    put_word(&mut gates, 4100, (kind == 1) as u32);
    put_word(&mut pins, 16385, (kind == 2) as u32);
    put_word(&mut outputs, 257, (kind == 3) as u32);
    let length = if kind == 4 { 32801 } else { 0 };
    print_answer(
        rt,
        Ok(length),
        &out,
        &gates,
        &kept_gates,
        &pins,
        &kept_pins,
        &outputs,
        &kept_outputs,
    )?;
    print_refused(rt, &out, 20)
}

// Every line that tells of something wrong, before the answers, none of which has one.
fn show_told(rt: &impl Print) -> io::Result<()> {
    println!(rt; "told")?;
    show_kind(rt, 0)?;
    show_kind(rt, 1)?;
    show_kind(rt, 2)?;
    show_kind(rt, 3)?;
    show_kind(rt, 4)
}

fn main(rt: HostRuntime) -> io::Result<()> {
    let mut input = rt.stdin();
    show_told(&rt)?;
    let networks = read_word(&mut input)?;
    for i in 0..networks {
        replay_network(&rt, &mut input, i)?;
    }
    Ok(())
}
