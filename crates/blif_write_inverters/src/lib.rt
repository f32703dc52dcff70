// Marks for the signals that are used inverted, and the inverters of marked ones (Quaigh's src/io/utils.rs: get_inverted_signals).
#![tactic(auto)]

ghost use Rattle.std.specs.Prelude.{◌≡◌, false, [], ◌∷◌, map, ◌≤◌, length, set};
ghost use Rattle.signal.specs.Cell.{sig_of};
ghost use Rattle.network.specs.Sizes.{max_gates, max_inputs};
ghost use Rattle.blif_write_names.specs.Between.Text.{Wrote, Appended};
ghost use Rattle.blif_write_inverters.specs.Between.Marks.{SignalsMarked, inverter_at, gate_inverters, input_inverters};

use blif_write_names::{append, append_name};
use signal::Signal;

// Sets the mark of this number, if there is one.
fn set_mark(marks: &mut [u8], number: u32)
    ensures { marks.new ≡ set marks.old number 1 }
{
    let place = number as usize;
    if place < marks.len() {
        marks[place] = 1;
    }
}

// Marks a signal that is inverted and no constant.
fn mark_signal(gate_marks: &mut [u8], input_marks: &mut [u8], s: Signal)
    ensures { SignalsMarked (sig_of s.a ∷ []) gate_marks.old input_marks.old
        gate_marks.new input_marks.new }
{
    if s.is_inverted() {
        if s.is_input() {
            set_mark(input_marks, s.input());
        } else if !s.is_constant() {
            set_mark(gate_marks, s.var());
        }
    }
}

// Marks the signals of cells.
pub fn mark_signals(gate_marks: &mut [u8], input_marks: &mut [u8], cells: &[u32])
    ensures { SignalsMarked (map sig_of cells.now) gate_marks.old input_marks.old
        gate_marks.new input_marks.new }
{
    for &cell in cells {
        mark_signal(gate_marks, input_marks, Signal { a: cell });
    }
}

// Writes the inverter of a signal that is marked, and nothing where the mark is zero.
fn write_inverter(out: &mut [u8], mark: u8, s: Signal) -> usize
    requires { (sig_of s.a).inv ≡ false }
    ensures { Wrote (inverter_at mark (sig_of s.a).node) out.old out.new result }
{
    if mark == 0 {
        0
    } else {
        let mut at = append(out, 0, b".names");
        at = append_name(out, at, b" ", s);
        at = append_name(out, at, b" ", s.not());
        append(out, at, b"\n0 1\n")
    }
}

// Writes the inverters of n gates, upwards.
pub fn append_gate_inverters(out: &mut [u8], at: usize, marks: &[u8], n: usize) -> usize
    requires { (n ≤ max_gates) × (n ≤ length marks.now) }
    ensures { Appended (gate_inverters marks.now 0 n) out.old at out.new result }
{
    if at > out.len() {
        return out.len() + 1;
    }
    let mut end = at;
    for g in 0..n {
        if end > out.len() {
            return end;
        }
        end += write_inverter(&mut out[end..], marks[g], Signal::from_var(g as u32));
    }
    end
}

// Writes the inverters of n inputs, downwards.
pub fn append_input_inverters(out: &mut [u8], at: usize, marks: &[u8], n: usize) -> usize
    requires { (n ≤ max_inputs) × (n ≤ length marks.now) }
    ensures { Appended (input_inverters marks.now n) out.old at out.new result }
{
    if at > out.len() {
        return out.len() + 1;
    }
    let mut end = at;
    for i in (0..n).rev() {
        if end > out.len() {
            return end;
        }
        end += write_inverter(&mut out[end..], marks[i], Signal::from_input(i as u32));
    }
    end
}
