// Makes reports of netlists and sheets and prints them, in the notation of the stored answers of the oracle's own report. Standard input has
// how many there are, then for each: how long the output slice is, how many cells of each kind are lent, how long the netlist and the sheet
// are, and the bytes of both. Before a report every byte of the output slice is 165 and every cell all ones; a byte behind the report and a
// cell that is not zero after it are told. What is told is shown first.
#![tactic(auto)]

use pass_report::pass_report;
use replay::{expect_each, expect_zero_bytes, print_line, put_word, read_full, read_word};
use std::io;
use std::io::Read;

const ONES: u32 = 0xffff_ffff;

// A report behind its length; bytes behind it must be zero. Of one that is longer than the slice, what the slice has.
fn print_report(rt: &impl Print, out: &[u8], n: usize) -> io::Result<()> {
    print_line(rt, b"length=", n)?;
    if n > out.len() {
        rt.write_all(out)?;
        println!(rt; "\ncut")
    } else {
        rt.write_all(&out[..n])?;
        expect_zero_bytes(rt, out, n)
    }
}

// A line that no stored answer has, unless every cell is zero.
fn expect_zero(rt: &impl Print, cells: &[u32]) -> io::Result<()> {
    expect_each(rt, cells, 0, 0, b"not zero\n")
}

// Makes the report and prints it; every cell must be zero then.
fn report_into(
    rt: &impl Print,
    netlist: &[u8],
    sheet: &[u8],
    gates: &mut [u32],
    pins: &mut [u32],
    outputs: &mut [u32],
    work_gates: &mut [u32],
    work_pins: &mut [u32],
    out: &mut [u8],
) -> io::Result<()> {
    let n = pass_report(
        netlist, sheet, gates, pins, outputs, work_gates, work_pins, out,
    );
    print_report(rt, out, n)?;
    expect_zero(rt, gates)?;
    expect_zero(rt, pins)?;
    expect_zero(rt, outputs)?;
    expect_zero(rt, work_gates)?;
    expect_zero(rt, work_pins)
}

// The next netlist and sheet, as long as their slices.
fn replay_texts(
    rt: &impl Print,
    input: &mut impl Read,
    netlist: &mut [u8],
    sheet: &mut [u8],
    gates: &mut [u32],
    pins: &mut [u32],
    outputs: &mut [u32],
    work_gates: &mut [u32],
    work_pins: &mut [u32],
    out: &mut [u8],
) -> io::Result<()> {
    read_full(input, netlist)?;
    read_full(input, sheet)?;
    report_into(
        rt, netlist, sheet, gates, pins, outputs, work_gates, work_pins, out,
    )
}

// The next netlist and sheet, by the lengths that stand before them.
fn replay_lengths(
    rt: &impl Print,
    input: &mut impl Read,
    gates: &mut [u32],
    pins: &mut [u32],
    outputs: &mut [u32],
    work_gates: &mut [u32],
    work_pins: &mut [u32],
    out: &mut [u8],
) -> io::Result<()> {
    let mut netlist = [0u8; 32770];
    let mut sheet = [0u8; 40962];
    let n = read_word(input)? as usize % 32771;
    let m = read_word(input)? as usize % 40963;
    replay_texts(
        rt,
        input,
        &mut netlist[..n],
        &mut sheet[..m],
        gates,
        pins,
        outputs,
        work_gates,
        work_pins,
        out,
    )
}

// The next report: its number, then what is answered.
fn replay_report(rt: &impl Print, input: &mut impl Read, number: u32) -> io::Result<()> {
    print_line(rt, b"report ", number as usize)?;
    let l = read_word(input)? as usize % 101;
    let g = read_word(input)? as usize % 4098;
    let p = read_word(input)? as usize % 16386;
    let o = read_word(input)? as usize % 258;
    let wg = read_word(input)? as usize % 4098;
    let wp = read_word(input)? as usize % 16386;
    let mut gates = [ONES; 4097];
    let mut pins = [ONES; 16385];
    let mut outputs = [ONES; 257];
    let mut work_gates = [ONES; 4097];
    let mut work_pins = [ONES; 16385];
    let mut out = [165u8; 100];
    replay_lengths(
        rt,
        input,
        &mut gates[..g],
        &mut pins[..p],
        &mut outputs[..o],
        &mut work_gates[..wg],
        &mut work_pins[..wp],
        &mut out[..l],
    )
}

// What is told of a byte behind a report, and of a cell.
fn show_told(rt: &impl Print) -> io::Result<()> {
    println!(rt; "told")?;
    let out = [b'o', b'k', b'\n', 1];
    print_report(rt, &out, 3)?;
    print_report(rt, &out, 5)?;
    let mut cells = [0u32; 4097];
    put_word(&mut cells, 4096, 1);
    expect_zero(rt, &cells)
}

fn main(rt: HostRuntime) -> io::Result<()> {
    let mut input = rt.stdin();
    show_told(&rt)?;
    let reports = read_word(&mut input)?;
    for i in 0..reports {
        replay_report(&rt, &mut input, i)?;
    }
    Ok(())
}
