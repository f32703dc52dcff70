// Byte strings, numbers and names, written into what is left of the output slice (Quaigh's src/io/utils.rs). Each writes as much of its
// text as the slice has room for.
#![tactic(auto)]

ghost use Rattle.std.specs.Prelude.{◌≡◌, [], ◌∷◌, ◌++◌, ◌/◌, ◌≤◌, length};
ghost use Rattle.lists.specs.Lists.{overwrite};
ghost use Rattle.signal.specs.Signal.{Const};
ghost use Rattle.signal.specs.Cell.{sig_of};
ghost use Rattle.blif_writing.specs.Names.{decimal, suffix, node_bytes, name_bytes};
ghost use Rattle.blif_write_names.specs.Between.Text.{Wrote, last_digit, four_of, leading, Appended};

use signal::Signal;

// Copies bytes to the front of out, which is as long or longer.
fn copy(out: &mut [u8], bytes: &[u8])
    requires { length bytes.now ≤ length out.old }
    ensures { out.new ≡ overwrite bytes.now out.old }
{
    for i in 0..bytes.len() {
        out[i] = bytes[i];
    }
}

// Copies bytes to the front of out, as far as they go. Gives back their number, or one more than the room.
fn put_bytes(out: &mut [u8], bytes: &[u8]) -> usize
    ensures { Wrote bytes.now out.old out.new result }
{
    let room = out.len();
    if bytes.len() > room {
        copy(out, &bytes[..room]);
        room + 1
    } else {
        copy(out, bytes);
        bytes.len()
    }
}

// Writes bytes at place at of out. Gives back the place after them, or one past the end.
pub fn append(out: &mut [u8], at: usize, bytes: &[u8]) -> usize
    ensures { Appended bytes.now out.old at out.new result }
{
    if at > out.len() {
        out.len() + 1
    } else {
        at + put_bytes(&mut out[at..], bytes)
    }
}

// Writes one byte.
pub fn append_byte(out: &mut [u8], at: usize, x: u8) -> usize
    ensures { Appended (x ∷ []) out.old at out.new result }
{
    if at < out.len() {
        out[at] = x;
        at + 1
    } else {
        out.len() + 1
    }
}

// Writes the last digit of n, and nothing for zero.
fn append_digit(out: &mut [u8], at: usize, n: u32) -> usize
    ensures { Appended (last_digit n) out.old at out.new result }
{
    if at > out.len() {
        out.len() + 1
    } else if n == 0 {
        at
    } else {
        append_byte(out, at, b'0' + (n % 10) as u8)
    }
}

// Writes the last four digits of n, from its first digit on.
fn append_four(out: &mut [u8], at: usize, n: u32) -> usize
    ensures { Appended (four_of n) out.old at out.new result }
{
    let mut end = append_digit(out, at, n / 1000);
    end = append_digit(out, end, n / 100);
    end = append_digit(out, end, n / 10);
    append_digit(out, end, n)
}

// Writes the digits of n before the last four.
fn append_upper(out: &mut [u8], at: usize, n: u32) -> usize
    ensures { Appended (leading (n / 10000)) out.old at out.new result }
{
    if at > out.len() {
        out.len() + 1
    } else if n < 10000 {
        at
    } else {
        let end = append_four(out, at, n / 100000000);
        append_four(out, end, n / 10000)
    }
}

// Writes n in decimal. Each digit goes straight into the slice: an array of digits would be written and read again.
pub fn append_number(out: &mut [u8], at: usize, n: u32) -> usize
    ensures { Appended (decimal n []) out.old at out.new result }
{
    if n == 0 {
        append_byte(out, at, b'0')
    } else {
        let end = append_upper(out, at, n);
        append_four(out, end, n)
    }
}

// Writes the name of a constant.
fn append_constant(out: &mut [u8], at: usize, one: bool) -> usize
    ensures { Appended (node_bytes Const one) out.old at out.new result }
{
    if one {
        append(out, at, b"vdd")
    } else {
        append(out, at, b"gnd")
    }
}

// Writes a letter, a number and `_n` if inverted.
pub fn append_numbered(out: &mut [u8], at: usize, letter: u8, n: u32, inverted: bool) -> usize
    ensures { Appended (letter ∷ decimal n (suffix inverted)) out.old at out.new result }
{
    let first = append_byte(out, at, letter);
    let end = append_number(out, first, n);
    if inverted {
        append(out, end, b"_n")
    } else {
        end
    }
}

// Writes the name of a signal.
pub fn sig_to_string(out: &mut [u8], at: usize, s: Signal) -> usize
    ensures { Appended (name_bytes (sig_of s.a)) out.old at out.new result }
{
    if s.is_constant() {
        append_constant(out, at, s.is_inverted())
    } else if s.is_input() {
        append_numbered(out, at, b'i', s.input(), s.is_inverted())
    } else {
        append_numbered(out, at, b'x', s.var(), s.is_inverted())
    }
}

// Writes what stands before a signal's name, and the name.
pub fn append_name(out: &mut [u8], at: usize, before: &[u8], s: Signal) -> usize
    ensures { Appended (before.now ++ name_bytes (sig_of s.a)) out.old at out.new result }
{
    let next = append(out, at, before);
    sig_to_string(out, next, s)
}
