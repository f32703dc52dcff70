// Latches and covers, written into what is left of the output slice (Quaigh's src/io/blif.rs: write_blif).
#![tactic(auto)]

ghost use Rattle.std.specs.Prelude.{◌≡◌, cond, [], ◌∷◌, ◌++◌, map, ◌<◌, length};
ghost use Rattle.signal.specs.Cell.{sig_of};
ghost use Rattle.gates.specs.Between.Forms.{binary_form, ternary_form, nary_form};
ghost use Rattle.network.specs.Sizes.{max_gates};
ghost use Rattle.blif_meaning.specs.Model.{plain_latch};
ghost use Rattle.blif_writing.specs.Names.{name_bytes};
ghost use Rattle.blif_writing.specs.WrittenModel.{is_const, init_from, gate_name, form_block, buf_block};
ghost use Rattle.blif_writing.specs.Text.{spaced, line, latch_line};
ghost use Rattle.blif_write_names.specs.Between.Text.{Wrote, Appended};
ghost use Rattle.blif_write_cubes.specs.Between.Lines.{Narrow};
ghost use Rattle.blif_write_gates.specs.Between.Blocks.{block_text, field_text, flop_text, stored_text};

use blif_write_cubes::{append_binary_lines, append_nary_lines, append_ternary_lines};
use blif_write_names::{append, append_byte, append_name, append_numbered, sig_to_string};
use gates::{BinaryType, NaryType, TernaryType};
use signal::Signal;

// Writes what stands before a gate's name, and the name.
fn append_gate(out: &mut [u8], at: usize, before: &[u8], g: usize) -> usize
    requires { g < max_gates }
    ensures { Appended (before.now ++ gate_name name_bytes g) out.old at out.new result }
{
    let next = append(out, at, before);
    append_numbered(out, next, b'x', g as u32, false)
}

// Whether a signal is the constant of this value.
fn is_value(s: Signal, value: bool) -> bool
    ensures { result ≡ is_const value (sig_of s.a) }
{
    s.is_constant() && s.is_inverted() == value
}

// Writes a field of a `.flop` line, unless the signal is the constant of this value.
fn append_unless(out: &mut [u8], at: usize, value: bool, before: &[u8], s: Signal) -> usize
    ensures { Appended (field_text value before.now (sig_of s.a)) out.old at out.new result }
{
    if is_value(s, value) {
        append(out, at, b"")
    } else {
        append_name(out, at, before, s)
    }
}

// Writes the first text for a start value of one, and the second for zero.
fn append_start(out: &mut [u8], at: usize, start: bool, one: &[u8], zero: &[u8]) -> usize
    ensures { Appended (cond start one.now zero.now) out.old at out.new result }
{
    if start {
        append(out, at, one)
    } else {
        append(out, at, zero)
    }
}

// Writes a flip-flop that has its enable or its reset, with what it has.
fn write_flop(
    out: &mut [u8],
    input: Signal,
    enable: Signal,
    reset: Signal,
    start: bool,
    g: usize,
) -> usize
    requires { g < max_gates }
    ensures { Wrote (flop_text (sig_of input.a) (sig_of enable.a) (sig_of reset.a) start g) out.old out.new result }
{
    let mut at = append_name(out, 0, b".flop D=", input);
    at = append_gate(out, at, b" Q=", g);
    at = append_start(out, at, start, b" init=1", b" init=0");
    at = append_unless(out, at, true, b" E=", enable);
    at = append_unless(out, at, false, b" R=", reset);
    append(out, at, b"\n")
}

// Writes a flip-flop that always takes its data.
fn write_plain(out: &mut [u8], input: Signal, start: bool, g: usize) -> usize
    requires { g < max_gates }
    ensures { Wrote (line (latch_line (plain_latch (name_bytes (sig_of input.a)) (gate_name name_bytes g) (init_from start)))) out.old
        out.new result }
{
    let mut at = append(out, 0, b".latch");
    at = append_name(out, at, b" ", input);
    at = append_gate(out, at, b" ", g);
    append_start(out, at, start, b" 1\n", b" 0\n")
}

// Writes a flip-flop.
pub fn write_stored(
    out: &mut [u8],
    input: Signal,
    enable: Signal,
    reset: Signal,
    start: bool,
    g: usize,
) -> usize
    requires { g < max_gates }
    ensures { Wrote (stored_text (sig_of input.a) (sig_of enable.a) (sig_of reset.a) start g) out.old out.new result }
{
    if is_value(enable, true) && is_value(reset, false) {
        write_plain(out, input, start, g)
    } else {
        write_flop(out, input, enable, reset, start, g)
    }
}

// Writes the end of a `.names` line: the gate's name.
fn append_end(out: &mut [u8], at: usize, g: usize) -> usize
    requires { g < max_gates }
    ensures { Appended (line (spaced (gate_name name_bytes g ∷ []))) out.old at out.new result }
{
    let end = append_gate(out, at, b" ", g);
    append(out, end, b"\n")
}

// Writes the cover of a Binary gate.
pub fn write_binary(out: &mut [u8], t: BinaryType, a: Signal, b: Signal, g: usize) -> usize
    requires { g < max_gates }
    ensures { Wrote (block_text (form_block name_bytes g (binary_form t) (sig_of a.a ∷ sig_of b.a ∷ []))) out.old
        out.new result }
{
    let mut at = append(out, 0, b".names");
    at = append_name(out, at, b" ", a);
    at = append_name(out, at, b" ", b);
    at = append_end(out, at, g);
    append_binary_lines(out, at, t)
}

// Writes the cover of a Ternary gate.
pub fn write_ternary(
    out: &mut [u8],
    t: TernaryType,
    a: Signal,
    b: Signal,
    c: Signal,
    g: usize,
) -> usize
    requires { g < max_gates }
    ensures { Wrote (block_text (form_block name_bytes g (ternary_form t) (sig_of a.a ∷ sig_of b.a ∷ sig_of c.a ∷ []))) out.old
        out.new result }
{
    let mut at = append(out, 0, b".names");
    at = append_name(out, at, b" ", a);
    at = append_name(out, at, b" ", b);
    at = append_name(out, at, b" ", c);
    at = append_end(out, at, g);
    append_ternary_lines(out, at, t)
}

// Writes the names of signals, each behind a blank.
pub fn append_signals(out: &mut [u8], at: usize, cells: &[u32]) -> usize
    ensures { Appended (spaced (map name_bytes (map sig_of cells.now))) out.old at out.new result }
{
    if at > out.len() {
        return out.len() + 1;
    }
    let mut end = at;
    for &cell in cells {
        if end > out.len() {
            return end;
        }
        let next = append_byte(out, end, b' ');
        end = sig_to_string(out, next, Signal { a: cell });
    }
    end
}

// Writes the cover of a Nary gate.
pub fn write_nary(out: &mut [u8], t: NaryType, run: &[u32], g: usize) -> usize
    requires { (g < max_gates) × Narrow t (length run.now) }
    ensures { Wrote (block_text (form_block name_bytes g (nary_form t) (map sig_of run.now))) out.old out.new result }
{
    let mut at = append(out, 0, b".names");
    at = append_signals(out, at, run);
    at = append_end(out, at, g);
    append_nary_lines(out, at, t, run.len())
}

// Writes the cover of a Buf gate: its signal without inversion, and the inversion in the cube line.
pub fn write_buf(out: &mut [u8], s: Signal, g: usize) -> usize
    requires { g < max_gates }
    ensures { Wrote (block_text (buf_block name_bytes g (sig_of s.a ∷ []))) out.old out.new result }
{
    let mut at = append(out, 0, b".names");
    at = append_name(out, at, b" ", s.without_inversion());
    at = append_end(out, at, g);
    if s.is_inverted() {
        append(out, at, b"0 1\n")
    } else {
        append(out, at, b"1 1\n")
    }
}
