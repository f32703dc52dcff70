// Writes lent networks, reads them back and runs both for the same rows, the lent network sorted; prints the answers, and where a network
// is read back the output rows of both, in the notation of the stored answers. Standard input has how many networks there are, then for
// each its counts, how long the text's slice is, how many cells of each kind are lent, the cells, how long the rows are, and the rows.
// Before a trip every cell to be filled is all ones and every byte 165; one that should be zero afterwards and is not is told. What is
// told is shown first.
#![tactic(auto)]

use network::{Counts, GATE_CELLS};
use replay::{
    WORD, expect_each, expect_zero_bytes, print_bytes, print_line, print_refused, put_word,
    read_counts, read_full, read_word, read_words,
};
use round_trip::{Returned, TripRefusal, write_then_read};
use run_rows::run_rows;
use sort::sort_network;
use std::io;
use std::io::Read;

const ONES: u32 = 0xffff_ffff;

// ---- what is printed

// A line that no stored answer has, unless every cell from place n on is zero.
fn expect_zero(rt: &impl Print, cells: &[u32], n: usize) -> io::Result<()> {
    expect_each(rt, cells, n, 0, b"not zero\n")
}

// A word and a number.
fn print_number(rt: &impl Print, word: &[u8], n: usize) -> io::Result<()> {
    rt.write_all(word)?;
    print!(rt; "{n}")
}

// How many cells of each kind and how many bytes of the text are in use.
#[derive(Clone, Copy)]
struct Used {
    gates: usize,
    pins: usize,
    outputs: usize,
    bytes: usize,
}

// A refusal's line; no cell is in use, and so many bytes.
fn print_failed(rt: &impl Print, word: &[u8], number: u32, bytes: usize) -> io::Result<Used> {
    print_line(rt, word, number as usize)?;
    Ok(Used {
        gates: 0,
        pins: 0,
        outputs: 0,
        bytes,
    })
}

// The text's length and the counts of the network read back.
fn print_back(rt: &impl Print, length: usize, counts: Counts) -> io::Result<Used> {
    print_number(rt, b"length=", length)?;
    print_number(rt, b" counts ", counts.inputs)?;
    print_number(rt, b" ", counts.gates)?;
    print_number(rt, b" ", counts.pins)?;
    print_number(rt, b" ", counts.outputs)?;
    println!(rt)?;
    Ok(Used {
        gates: counts.gates % WORD * GATE_CELLS,
        pins: counts.pins,
        outputs: counts.outputs,
        bytes: length,
    })
}

// An answer's line; what is in use after it. Where the text was written and not read, all of it may be.
fn print_head(
    rt: &impl Print,
    answer: Result<Returned, TripRefusal>,
    room: usize,
) -> io::Result<Used> {
    match answer {
        Err(TripRefusal::NotWritten(r)) => print_failed(rt, b"not written=", r.number(), 0),
        Err(TripRefusal::NotRead(r)) => print_failed(rt, b"not read=", r.number(), room),
        Ok(back) => print_back(rt, back.length, back.counts),
    }
}

// An answer; all bytes and cells that are not in use, and all working cells, must be zero.
fn print_answer(
    rt: &impl Print,
    answer: Result<Returned, TripRefusal>,
    text: &[u8],
    gates: &[u32],
    pins: &[u32],
    outputs: &[u32],
    work_gates: &[u32],
    work_pins: &[u32],
) -> io::Result<()> {
    let used = print_head(rt, answer, text.len())?;
    expect_zero_bytes(rt, text, used.bytes)?;
    expect_zero(rt, gates, used.gates)?;
    expect_zero(rt, pins, used.pins)?;
    expect_zero(rt, outputs, used.outputs)?;
    expect_zero(rt, work_gates, 0)?;
    expect_zero(rt, work_pins, 0)
}

// ---- a trip

// Runs a network for the rows and prints the answer.
fn print_run(
    rt: &impl Print,
    counts: Counts,
    gates: &[u32],
    pins: &[u32],
    outputs: &[u32],
    rows: &[u8],
) -> io::Result<()> {
    let mut out = [165u8; 4096];
    match run_rows(counts, gates, pins, outputs, rows, &mut out) {
        Ok(n) => print_bytes(rt, &out, n),
        Err(refusal) => print_refused(rt, &out, refusal.number()),
    }
}

// Sorts a network and runs it for the rows; one that cannot be sorted leaves cells that a run refuses.
fn print_sorted_run(
    rt: &impl Print,
    counts: Counts,
    gates: &[u32],
    pins: &[u32],
    outputs: &mut [u32],
    rows: &[u8],
) -> io::Result<()> {
    let mut new_gates = [0u32; 4096];
    let mut new_pins = [0u32; 16384];
    let _ = sort_network(counts, gates, pins, outputs, &mut new_gates, &mut new_pins);
    print_run(rt, counts, &new_gates, &new_pins, outputs, rows)
}

// Writes the network and reads it back; prints the answer, and where it is read back the output rows of both.
fn trip(
    rt: &impl Print,
    counts: Counts,
    gates: &[u32],
    pins: &[u32],
    outputs: &mut [u32],
    rows: &[u8],
    text: &mut [u8],
) -> io::Result<()> {
    let mut new_gates = [ONES; 4096];
    let mut new_pins = [ONES; 16384];
    let mut new_outputs = [ONES; 256];
    let mut work_gates = [ONES; 4096];
    let mut work_pins = [ONES; 16384];
    let answer = write_then_read(
        counts,
        gates,
        pins,
        outputs,
        text,
        &mut new_gates,
        &mut new_pins,
        &mut new_outputs,
        &mut work_gates,
        &mut work_pins,
    );
    print_answer(
        rt,
        answer,
        text,
        &new_gates,
        &new_pins,
        &new_outputs,
        &work_gates,
        &work_pins,
    )?;
    if let Ok(back) = answer {
        print_sorted_run(rt, counts, gates, pins, outputs, rows)?;
        print_run(rt, back.counts, &new_gates, &new_pins, &new_outputs, rows)?;
    }
    Ok(())
}

// Makes the trip with the next rows, as long as their slice.
fn trip_rows(
    rt: &impl Print,
    input: &mut impl Read,
    counts: Counts,
    gates: &[u32],
    pins: &[u32],
    outputs: &mut [u32],
    rows: &mut [u8],
    text: &mut [u8],
) -> io::Result<()> {
    read_full(input, rows)?;
    trip(rt, counts, gates, pins, outputs, rows, text)
}

// Reads the cells of a network, then its rows by the length that stands before them.
fn trip_cells(
    rt: &impl Print,
    input: &mut impl Read,
    counts: Counts,
    gates: &mut [u32],
    pins: &mut [u32],
    outputs: &mut [u32],
    text: &mut [u8],
) -> io::Result<()> {
    read_words(input, gates)?;
    read_words(input, pins)?;
    read_words(input, outputs)?;
    let mut rows = [0u8; 4096];
    let n = read_word(input)? as usize % 4097;
    trip_rows(
        rt,
        input,
        counts,
        gates,
        pins,
        outputs,
        &mut rows[..n],
        text,
    )
}

// The next network: its number, then what the trip answers.
fn replay_network(rt: &impl Print, input: &mut impl Read, number: u32) -> io::Result<()> {
    print_line(rt, b"network ", number as usize)?;
    let counts = read_counts(input)?;
    let l = read_word(input)? as usize % 32801;
    let g = read_word(input)? as usize % 4102;
    let p = read_word(input)? as usize % 16387;
    let o = read_word(input)? as usize % 259;
    let mut gates = [0u32; 4101];
    let mut pins = [0u32; 16386];
    let mut outputs = [0u32; 258];
    let mut text = [165u8; 32800];
    trip_cells(
        rt,
        input,
        counts,
        &mut gates[..g],
        &mut pins[..p],
        &mut outputs[..o],
        &mut text[..l],
    )
}

// What is told of a network without cells in use where the last byte of the text, or the last cell of a slice, is not zero.
fn show_kind(rt: &impl Print, kind: u32) -> io::Result<()> {
    let mut text = [0u8; 32800];
    let mut gates = [0u32; 4096];
    let mut pins = [0u32; 16384];
    let mut outputs = [0u32; 256];
    let mut work_gates = [0u32; 4096];
    let mut work_pins = [0u32; 16384];
    text[32799] = (kind == 0) as u8;
    put_word(&mut gates, 4095, (kind == 1) as u32);
    put_word(&mut pins, 16383, (kind == 2) as u32);
    put_word(&mut outputs, 255, (kind == 3) as u32);
    put_word(&mut work_gates, 4095, (kind == 4) as u32);
    put_word(&mut work_pins, 16383, (kind == 5) as u32);
    let counts = Counts {
        inputs: 0,
        gates: 0,
        pins: 0,
        outputs: 0,
    };
    let answer = Ok(Returned { length: 0, counts });
    print_answer(
        rt,
        answer,
        &text,
        &gates,
        &pins,
        &outputs,
        &work_gates,
        &work_pins,
    )
}

// Every line that tells of something wrong, before the answers, none of which has one.
fn show_told(rt: &impl Print) -> io::Result<()> {
    println!(rt; "told")?;
    show_kind(rt, 0)?;
    show_kind(rt, 1)?;
    show_kind(rt, 2)?;
    show_kind(rt, 3)?;
    show_kind(rt, 4)?;
    show_kind(rt, 5)?;
    print_bytes(rt, b"1", 0)?;
    print_bytes(rt, b"", 1)?;
    print_refused(rt, b"1", 20)
}

fn main(rt: HostRuntime) -> io::Result<()> {
    let mut input = rt.stdin();
    show_told(&rt)?;
    let networks = read_word(&mut input)?;
    for i in 0..networks {
        replay_network(&rt, &mut input, i)?;
    }
    Ok(())
}
