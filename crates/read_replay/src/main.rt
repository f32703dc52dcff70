// Reads texts into lent cells and prints the answers and the cells in use, in the notation of the stored answers of Quaigh's read_blif.
// Standard input has how many texts there are, then the length and the bytes of each. Before a read every cell is all ones; a cell
// beyond the counts, or a working cell, that is not zero after it is told. What is told is shown first.
#![tactic(auto)]

ghost use Rattle.std.specs.Prelude.{◌≤◌};

use blif_read::read_blif;
use network::{Counts, GATE_CELLS};
use replay::{expect_each, print_cells, put_word, read_full, read_word};
use std::io;
use std::io::Read;

const ONES: u32 = 0xffff_ffff;

// A line that no stored answer has, unless every cell from place n on is zero.
fn expect_zero(rt: &impl Print, cells: &[u32], n: usize) -> io::Result<()> {
    expect_each(rt, cells, n, 0, b"not zero\n")
}

// A word and the cells in use; the others must be zero.
fn print_part(rt: &impl Print, word: &[u8], cells: &[u32], n: usize) -> io::Result<()> {
    print_cells(rt, word, cells, n)?;
    expect_zero(rt, cells, n)
}

// A blank and a count.
fn print_count(rt: &impl Print, n: usize) -> io::Result<()> {
    print!(rt; " {n}")
}

// The counts of a network and its cells; every working cell must be zero.
fn print_read(
    rt: &impl Print,
    counts: Counts,
    gates: &[u32],
    pins: &[u32],
    outputs: &[u32],
    work_gates: &[u32],
    work_pins: &[u32],
) -> io::Result<()> {
    print!(rt; "counts")?;
    print_count(rt, counts.inputs)?;
    print_count(rt, counts.gates)?;
    print_count(rt, counts.pins)?;
    print_count(rt, counts.outputs)?;
    println!(rt)?;
    print_part(
        rt,
        b"gates",
        gates,
        counts.gates % 0x1_0000_0000 * GATE_CELLS,
    )?;
    print_part(rt, b"pins", pins, counts.pins)?;
    print_part(rt, b"outputs", outputs, counts.outputs)?;
    expect_zero(rt, work_gates, 0)?;
    expect_zero(rt, work_pins, 0)
}

// A refusal's number; every cell must be zero.
fn print_refused(
    rt: &impl Print,
    n: u32,
    gates: &[u32],
    pins: &[u32],
    outputs: &[u32],
    work_gates: &[u32],
    work_pins: &[u32],
) -> io::Result<()> {
    println!(rt; "refused={n}")?;
    expect_zero(rt, gates, 0)?;
    expect_zero(rt, pins, 0)?;
    expect_zero(rt, outputs, 0)?;
    expect_zero(rt, work_gates, 0)?;
    expect_zero(rt, work_pins, 0)
}

// Reads a text and prints the answer.
fn read_into(
    rt: &impl Print,
    text: &[u8],
    gates: &mut [u32],
    pins: &mut [u32],
    outputs: &mut [u32],
    work_gates: &mut [u32],
    work_pins: &mut [u32],
) -> io::Result<()> {
    let answer = read_blif(text, gates, pins, outputs, work_gates, work_pins);
    match answer {
        Ok(counts) => { print_read(rt, counts, gates, pins, outputs, work_gates, work_pins) }
        Err(r) => print_refused(rt, r.number(), gates, pins, outputs, work_gates, work_pins),
    }
}

// Reads a text into cells that are all ones, so many of each kind.
fn read_cells(
    rt: &impl Print,
    text: &[u8],
    g: usize,
    p: usize,
    o: usize,
    wg: usize,
    wp: usize,
) -> io::Result<()>
    requires { (g ≤ 4097) × (p ≤ 16385) × (o ≤ 257) × (wg ≤ 4097) × (wp ≤ 16385) }
{
    let mut gates = [ONES; 4097];
    let mut pins = [ONES; 16385];
    let mut outputs = [ONES; 257];
    let mut work_gates = [ONES; 4097];
    let mut work_pins = [ONES; 16385];
    read_into(
        rt,
        text,
        &mut gates[..g],
        &mut pins[..p],
        &mut outputs[..o],
        &mut work_gates[..wg],
        &mut work_pins[..wp],
    )
}

// The next text, as long as the slice: its number, then what reading answers. Every second one has a cell more of each kind.
fn replay_into(
    rt: &impl Print,
    input: &mut impl Read,
    number: u32,
    text: &mut [u8],
) -> io::Result<()> {
    read_full(input, text)?;
    println!(rt; "text {number}")?;
    if number % 2 == 0 {
        read_cells(rt, text, 4096, 16384, 256, 4096, 16384)
    } else {
        read_cells(rt, text, 4097, 16385, 257, 4097, 16385)
    }
}

// The next text, by the length that stands before it: at most one byte over the limit.
fn replay_text(rt: &impl Print, input: &mut impl Read, number: u32) -> io::Result<()> {
    let mut text = [0u8; 32769];
    let n = read_word(input)? as usize % 32770;
    replay_into(rt, input, number, &mut text[..n])
}

// The text of no bytes, or one that has a wrong start value, each time with one slice a cell short; then a text that is too long, with no
// cells at all.
fn replay_short(rt: &impl Print) -> io::Result<()> {
    let long = [0u8; 32769];
    println!(rt; "short")?;
    read_cells(rt, b".latch q q x", 4095, 16384, 256, 4096, 16384)?;
    read_cells(rt, b"", 4096, 16383, 256, 4096, 16384)?;
    read_cells(rt, b"", 4096, 16384, 255, 4096, 16384)?;
    read_cells(rt, b".latch q q x", 4096, 16384, 256, 4095, 16384)?;
    read_cells(rt, b"", 4096, 16384, 256, 4096, 16383)?;
    read_cells(rt, &long, 0, 0, 0, 0, 0)
}

// What is told of a network without cells in use, and of a refusal: kind 0 to 4 where the last cell of a slice is not zero, kind 5 where more
// pins are in use than are lent.
fn show_kind(rt: &impl Print, kind: u32) -> io::Result<()> {
    let mut gates = [0u32; 4097];
    let mut pins = [0u32; 16385];
    let mut outputs = [0u32; 257];
    let mut work_gates = [0u32; 4097];
    let mut work_pins = [0u32; 16385];
    put_word(&mut gates, 4096, (kind == 0) as u32);
    put_word(&mut pins, 16384, (kind == 1) as u32);
    put_word(&mut outputs, 256, (kind == 2) as u32);
    put_word(&mut work_gates, 4096, (kind == 3) as u32);
    put_word(&mut work_pins, 16384, (kind == 4) as u32);
    let counts = Counts {
        inputs: 0,
        gates: 0,
        pins: if kind == 5 { 16386 } else { 0 },
        outputs: 0,
    };
    print_read(rt, counts, &gates, &pins, &outputs, &work_gates, &work_pins)?;
    print_refused(rt, 1, &gates, &pins, &outputs, &work_gates, &work_pins)
}

// Every line that tells of something wrong, before the answers, none of which has one.
fn show_told(rt: &impl Print) -> io::Result<()> {
    println!(rt; "told")?;
    show_kind(rt, 0)?;
    show_kind(rt, 1)?;
    show_kind(rt, 2)?;
    show_kind(rt, 3)?;
    show_kind(rt, 4)?;
    show_kind(rt, 5)
}

fn main(rt: HostRuntime) -> io::Result<()> {
    let mut input = rt.stdin();
    show_told(&rt)?;
    let texts = read_word(&mut input)?;
    for i in 0..texts {
        replay_text(&rt, &mut input, i)?;
    }
    replay_short(&rt)
}
