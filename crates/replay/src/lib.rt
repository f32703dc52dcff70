// What the programs that replay stored answers share: numbers on standard input, cells on standard output.
#![tactic(auto)]

ghost use Rattle.std.specs.Prelude.{◌≡◌, ◌^◌, ◌<◌, IfOk, set};

use network::Counts;
use std::io;
use std::io::Read;

// A hexadecimal digit.
fn digit(c: u8) -> u32
    ensures { result < 16 }
{
    if c >= b'a' {
        (c - 87) as u32 % 16
    } else {
        c as u32 % 16
    }
}

// Reads until the slice is full or the input ends; what lies behind the end stays as it was.
pub fn read_full(input: &mut impl Read, bytes: &mut [u8]) -> io::Result<()> {
    let mut done = 0;
    while done < bytes.len() {
        let n = input.read(&mut bytes[done..])?;
        if n == 0 {
            return Ok(());
        }
        done += n;
    }
    Ok(())
}

// The next number: eight hexadecimal digits and a separator.
pub fn read_word(input: &mut impl Read) -> io::Result<u32>
    ensures { IfOk result (λ word. word < 2 ^ 32) }
{
    let mut bytes = [0u8; 9];
    read_full(input, &mut bytes)?;
    let mut word = 0u32;
    for &byte in &bytes[..8] {
        word = word % 0x1000_0000 * 16 + digit(byte);
    }
    Ok(word)
}

// One more than the largest word.
pub const WORD: usize = 0x1_0000_0000;

// The next number of two words, the upper one first.
fn read_count(input: &mut impl Read) -> io::Result<usize> {
    let upper = read_word(input)? as usize % WORD;
    let lower = read_word(input)? as usize % WORD;
    Ok(upper * WORD + lower)
}

// The next four numbers as counts.
pub fn read_counts(input: &mut impl Read) -> io::Result<Counts>
    ensures { IfOk result (λ counts.
        (counts.inputs < 2 ^ 64) × (counts.gates < 2 ^ 64) × (counts.pins < 2 ^ 64) × (counts.outputs < 2 ^ 64)) }
{
    let inputs = read_count(input)?;
    let gates = read_count(input)?;
    let pins = read_count(input)?;
    let outputs = read_count(input)?;
    Ok(Counts {
        inputs,
        gates,
        pins,
        outputs,
    })
}

// Puts a word into cell i, if there is one.
pub fn put_word(cells: &mut [u32], i: usize, word: u32)
    ensures { cells.new ≡ set cells.old i word }
{
    if i < cells.len() {
        cells[i] = word;
    }
}

// The next words, one for each cell.
pub fn read_words(input: &mut impl Read, cells: &mut [u32]) -> io::Result<()> {
    for cell in cells.iter_mut() {
        *cell = read_word(input)?;
    }
    Ok(())
}

// A word, a number and the end of the line.
pub fn print_line(rt: &impl Print, word: &[u8], n: usize) -> io::Result<()> {
    rt.write_all(word)?;
    println!(rt; "{n}")
}

// A blank and a cell.
fn print_cell(rt: &impl Print, cell: u32) -> io::Result<()> {
    print!(rt; " {cell:x}")
}

// A word and the first n cells, on a line.
pub fn print_cells(rt: &impl Print, word: &[u8], cells: &[u32], n: usize) -> io::Result<()> {
    rt.write_all(word)?;
    if n > cells.len() {
        return println!(rt; " more than are lent");
    }
    for &cell in &cells[..n] {
        print_cell(rt, cell)?;
    }
    println!(rt)
}

// A line, unless every cell from place n on is v.
pub fn expect_each(
    rt: &impl Print,
    cells: &[u32],
    n: usize,
    v: u32,
    line: &[u8],
) -> io::Result<()> {
    if cells.iter().skip(n).all(|&cell| cell == v) {
        Ok(())
    } else {
        rt.write_all(line)
    }
}

// A line that no stored answer has, unless every byte from place n on is zero.
pub fn expect_zero_bytes(rt: &impl Print, bytes: &[u8], n: usize) -> io::Result<()> {
    if bytes.iter().skip(n).all(|&byte| byte == 0) {
        Ok(())
    } else {
        println!(rt; "not zero")
    }
}

// A length and the first n bytes; the others must be zero.
pub fn print_bytes(rt: &impl Print, bytes: &[u8], n: usize) -> io::Result<()> {
    print_line(rt, b"length=", n)?;
    if n > bytes.len() {
        println!(rt; "more than are lent")
    } else {
        rt.write_all(&bytes[..n])?;
        expect_zero_bytes(rt, bytes, n)
    }
}

// A refusal's number; every byte must be zero.
pub fn print_refused(rt: &impl Print, bytes: &[u8], number: u32) -> io::Result<()> {
    print_line(rt, b"refused=", number as usize)?;
    expect_zero_bytes(rt, bytes, 0)
}
