// Lines with a key and a value, written into what is left of an output slice.
#![tactic(auto)]

ghost use Rattle.blif_write_names.specs.Between.Text.{Appended};
ghost use Rattle.printed_lines.specs.Lines.{key_line, count_line, refused_line};

use blif_write_names::{append, append_number};
use refusals::Refusal;

// Writes a key, its value and LF at place at of out. Gives back the place after them, or one past the end.
pub fn append_line(out: &mut [u8], at: usize, key: &[u8], value: &[u8]) -> usize
    ensures { Appended (key_line key.now value.now) out.old at out.new result }
{
    let mut end = append(out, at, key);
    end = append(out, end, value);
    append(out, end, b"\n")
}

// Writes a key, a number in decimal and LF.
pub fn append_count(out: &mut [u8], at: usize, key: &[u8], n: u32) -> usize
    ensures { Appended (count_line key.now n) out.old at out.new result }
{
    let mut end = append(out, at, key);
    end = append_number(out, end, n);
    append(out, end, b"\n")
}

// Writes the line of a refusal.
pub fn append_refused(out: &mut [u8], at: usize, refusal: Refusal) -> usize
    ensures { Appended (refused_line refusal) out.old at out.new result }
{
    append_count(out, at, b"refused=", refusal.number())
}
