// Sorts networks and prints the answers and the cells in use, in the notation of the stored answers of Quaigh's topo_sort. Standard input has
// how many networks there are, then for each its input, gate, pin and output counts and its cells. Before a sort every new cell, and every
// output beyond the counts, is all ones; one that is not in use and not so afterwards is told. What is told is shown first.
#![tactic(auto)]

use network::{Counts, GATE_CELLS};
use replay::{expect_each, print_cells, put_word, read_word};
use sort::{Unsorted, sort_network};
use std::io;
use std::io::Read;

const ONES: u32 = 0xffff_ffff;

// The next n numbers, as far as the cells have room.
fn read_words(input: &mut impl Read, cells: &mut [u32], n: usize) -> io::Result<()> {
    for cell in cells.iter_mut().take(n) {
        *cell = read_word(input)?;
    }
    Ok(())
}

// The next four numbers as counts.
fn read_counts(input: &mut impl Read) -> io::Result<Counts> {
    let inputs = read_word(input)? as usize;
    let gates = read_word(input)? as usize;
    let pins = read_word(input)? as usize;
    let outputs = read_word(input)? as usize;
    Ok(Counts {
        inputs,
        gates,
        pins,
        outputs,
    })
}

// A word and the first n cells; the others must be as before.
fn print_part(rt: &impl Print, word: &[u8], cells: &[u32], n: usize) -> io::Result<()> {
    print_cells(rt, word, cells, n)?;
    expect_each(rt, cells, n, ONES, b"changed\n")
}

// The cells of gates, pins and outputs in use; the others must be as before.
fn print_network(
    rt: &impl Print,
    new_gates: &[u32],
    g: usize,
    new_pins: &[u32],
    p: usize,
    outputs: &[u32],
    o: usize,
) -> io::Result<()> {
    print_part(rt, b"gates", new_gates, g)?;
    print_part(rt, b"pins", new_pins, p)?;
    print_part(rt, b"outputs", outputs, o)
}

// The answer and the cells. Where there is no order, no new cell is in use, and the outputs are those lent.
fn print_answer(
    rt: &impl Print,
    answer: Result<usize, Unsorted>,
    records: usize,
    new_gates: &[u32],
    new_pins: &[u32],
    outputs: &[u32],
    o: usize,
) -> io::Result<()> {
    match answer {
        Ok(n) => {
            println!(rt; "sorted")?;
            print_network(rt, new_gates, records, new_pins, n, outputs, o)
        }
        Err(Unsorted::Loop) => {
            println!(rt; "loop")?;
            print_network(rt, new_gates, 0, new_pins, 0, outputs, o)
        }
        Err(Unsorted::Refused) => {
            println!(rt; "refused")?;
            print_network(rt, new_gates, 0, new_pins, 0, outputs, o)
        }
    }
}

// The next network: its number, then the sort's answer and cells.
fn replay_network(rt: &impl Print, input: &mut impl Read, number: u32) -> io::Result<()> {
    println!(rt; "network {number}")?;
    let counts = read_counts(input)?;
    let records = counts.gates % 0x1_0000_0000 * GATE_CELLS;
    let mut gates = [0u32; 4100];
    let mut pins = [0u32; 16385];
    let mut outputs = [ONES; 258];
    let mut new_gates = [ONES; 4100];
    let mut new_pins = [ONES; 16385];
    read_words(input, &mut gates, records)?;
    read_words(input, &mut pins, counts.pins)?;
    read_words(input, &mut outputs, counts.outputs)?;
    let answer = sort_network(
        counts,
        &gates,
        &pins,
        &mut outputs,
        &mut new_gates,
        &mut new_pins,
    );
    print_answer(
        rt,
        answer,
        records,
        &new_gates,
        &new_pins,
        &outputs,
        counts.outputs,
    )
}

// What is told of a network without cells in use: kind 0, 1 or 2 where the last cell of gates, pins or outputs is not as before, kind 3 where
// more outputs are in use than are lent.
fn show_kind(rt: &impl Print, kind: u32) -> io::Result<()> {
    let mut gates = [ONES; 4100];
    let mut pins = [ONES; 16385];
    let mut outputs = [ONES; 258];
    put_word(&mut gates, 4099, ONES ^ (kind == 0) as u32);
    put_word(&mut pins, 16384, ONES ^ (kind == 1) as u32);
    put_word(&mut outputs, 257, ONES ^ (kind == 2) as u32);
    let o = if kind == 3 { 259 } else { 0 };
    print_network(rt, &gates, 0, &pins, 0, &outputs, o)
}

// Every line that tells of something wrong, before the answers, none of which has one.
fn show_told(rt: &impl Print) -> io::Result<()> {
    println!(rt; "told")?;
    show_kind(rt, 0)?;
    show_kind(rt, 1)?;
    show_kind(rt, 2)?;
    show_kind(rt, 3)
}

fn main(rt: HostRuntime) -> io::Result<()> {
    let mut input = rt.stdin();
    show_told(&rt)?;
    let networks = read_word(&mut input)?;
    for i in 0..networks {
        replay_network(&rt, &mut input, i)?;
    }
    Ok(())
}
