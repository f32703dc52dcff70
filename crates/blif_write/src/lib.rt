// The BLIF writer (Quaigh's src/io/blif.rs: write_blif, and src/io/utils.rs: get_inverted_signals).
#![tactic(auto)]

ghost use Rattle.std.specs.Prelude.{◌≡◌, true, false, [], ◌++◌, map, ◌*◌, ◌≤◌, ◌<◌, min, length};
ghost use Rattle.lists.specs.Lists.{any};
ghost use Rattle.signal.specs.Cell.{sig_of};
ghost use Rattle.gates.specs.Between.Decode.{run_within, gate_in};
ghost use Rattle.network.specs.Cells.{or_buf, cell_gates, cell_net, lent};
ghost use Rattle.network.specs.Sizes.{max_gates, max_inputs};
ghost use Rattle.network.specs.Record.{gate_width, gate_at};
ghost use Rattle.blif_text.specs.Lines.{max_text};
ghost use Rattle.blif_writing.specs.Names.{name_bytes};
ghost use Rattle.blif_writing.specs.WrittenModel.{input_names, named, too_wide, wide};
ghost use Rattle.blif_writing.specs.Text.{spaced, text_of};
ghost use Rattle.blif_write_names.specs.Between.Text.{Wrote, Appended};
ghost use Rattle.blif_write.specs.Into.{write_outcome, refused_text, write_into};
ghost use Rattle.blif_write.specs.Between.Parts.{latch_text, cover_text, latches_text, covers_text, head_text, HeldAt, Readable, wide_to, inverters_text, Writable};
ghost use Rattle.blif_write_inverters.specs.Between.Marks.{SignalsMarked, named_in};

use blif_write_inverters::{append_gate_inverters, append_input_inverters, mark_signals};
use blif_write_names::{append, append_name};
use gates::{BUF, DFF, Gate, NARY_XNOR, NARY_XOR};
use network::Counts;
use refusals::Refusal;
use signal::Signal;

// How many inputs an Xor or Xnor of the Nary form may have to be written.
const MAX_EXCLUSIVE: usize = 12;

// Writes the latch of a flip-flop, and nothing for another gate.
fn write_latch(out: &mut [u8], gate: Gate, g: usize) -> usize
    requires { g < max_gates }
    ensures { Wrote (latch_text g (gate_in gate [])) out.old out.new result }
{
    match gate {
        Gate::Binary(_, _, _) => 0,
        Gate::Ternary(_, _, _, _) => 0,
        Gate::Nary(_, _) => 0,
        Gate::Buf(_) => 0,
        Gate::Dff(d, e, r, v) => blif_write_gates::write_stored(out, d, e, r, v, g),
    }
}

// Writes the latch of gate g, and nothing for a combinational gate.
fn write_latch_at(out: &mut [u8], gates: &[u32], pins: &[u32], g: usize) -> usize
    requires { HeldAt gates.now pins.now g }
    ensures { Wrote (latch_text g (or_buf (gate_at gates.now pins.now g))) out.old out.new result }
{
    if network::form_at(gates, g) != DFF {
        return 0;
    }
    let Some(gate) = network::gate_at(gates, pins, g) else {
        return 0;
    };
    write_latch(out, gate, g)
}

// Writes the cover of a combinational gate, and nothing for a flip-flop.
fn write_cover(out: &mut [u8], gate: Gate, pins: &[u32], g: usize) -> usize
    requires { (g < max_gates) × (run_within gate pins.now ≡ true) × (wide (gate_in gate pins.now) ≡ false) }
    ensures { Wrote (cover_text g (gate_in gate pins.now)) out.old out.new result }
{
    match gate {
        Gate::Binary(t, a, b) => blif_write_gates::write_binary(out, t, a, b, g),
        Gate::Ternary(t, a, b, c) => blif_write_gates::write_ternary(out, t, a, b, c, g),
        Gate::Nary(t, run) => {
            let start = run.first;
            let end = start + run.count;
            blif_write_gates::write_nary(out, t, &pins[start..end], g)
        }
        Gate::Buf(s) => blif_write_gates::write_buf(out, s, g),
        Gate::Dff(_, _, _, _) => 0,
    }
}

// Writes the cover of gate g, and nothing for a flip-flop.
fn write_cover_at(out: &mut [u8], gates: &[u32], pins: &[u32], g: usize) -> usize
    requires { HeldAt gates.now pins.now g × (wide (or_buf (gate_at gates.now pins.now g)) ≡ false) }
    ensures { Wrote (cover_text g (or_buf (gate_at gates.now pins.now g))) out.old out.new result }
{
    if network::form_at(gates, g) == DFF {
        return 0;
    }
    let Some(gate) = network::gate_at(gates, pins, g) else {
        return 0;
    };
    write_cover(out, gate, pins, g)
}

// Writes the latches of n gates.
fn append_latches(out: &mut [u8], at: usize, gates: &[u32], pins: &[u32], n: usize) -> usize
    requires { Readable gates.now pins.now n }
    ensures { Appended (latches_text 0 (cell_gates gates.now pins.now 0 n)) out.old at out.new result }
{
    if at > out.len() {
        return out.len() + 1;
    }
    let mut end = at;
    for g in 0..n {
        if end > out.len() {
            return end;
        }
        end += write_latch_at(&mut out[end..], gates, pins, g);
    }
    end
}

// Writes the covers of n gates.
fn append_covers(out: &mut [u8], at: usize, gates: &[u32], pins: &[u32], n: usize) -> usize
    requires { Readable gates.now pins.now n × (any wide (cell_gates gates.now pins.now 0 n) ≡ false) }
    ensures { Appended (covers_text 0 (cell_gates gates.now pins.now 0 n)) out.old at out.new result }
{
    if at > out.len() {
        return out.len() + 1;
    }
    let mut end = at;
    for g in 0..n {
        if end > out.len() {
            return end;
        }
        end += write_cover_at(&mut out[end..], gates, pins, g);
    }
    end
}

// Writes the names of n inputs, each behind a blank.
fn append_inputs(out: &mut [u8], at: usize, n: usize) -> usize
    requires { n ≤ max_inputs }
    ensures { Appended (spaced (input_names name_bytes 0 n)) out.old at out.new result }
{
    if at > out.len() {
        return out.len() + 1;
    }
    let mut end = at;
    for i in 0..n {
        if end > out.len() {
            return end;
        }
        end = append_name(out, end, b" ", Signal::from_input(i as u32));
    }
    end
}

// Writes the comment lines, the model, the inputs and the outputs, with their empty lines.
fn write_head(out: &mut [u8], inputs: usize, outputs: &[u32]) -> usize
    requires { inputs ≤ max_inputs }
    ensures { Wrote (head_text inputs (map sig_of outputs.now)) out.old out.new result }
{
    let mut at = append(out, 0, b"# .blif file\n");
    at = append(out, at, b"# Generated by quaigh\n\n");
    at = append(out, at, b".model quaigh\n\n");
    at = append(out, at, b".inputs");
    at = append_inputs(out, at, inputs);
    at = append(out, at, b"\n\n.outputs");
    at = blif_write_gates::append_signals(out, at, outputs);
    append(out, at, b"\n\n")
}

// Whether a gate of this form number with so many pins has too many to be written.
fn is_wide(form: u32, count: usize) -> bool
    ensures { result ≡ too_wide form count }
{
    count > MAX_EXCLUSIVE && matches!(form, NARY_XOR | NARY_XNOR)
}

// Whether one of n gates has too many inputs to be written.
fn any_wide(gates: &[u32], n: usize) -> bool
    requires { n * gate_width ≤ length gates.now }
    ensures { result ≡ wide_to gates.now n }
{
    for g in 0..n {
        if is_wide(network::form_at(gates, g), network::count_at(gates, g)) {
            return true;
        }
    }
    false
}

// Marks the inputs of gate g, unless it is a Buf, which handles the inversion itself.
fn mark_gate(gate_marks: &mut [u8], input_marks: &mut [u8], gates: &[u32], pins: &[u32], g: usize)
    requires { HeldAt gates.now pins.now g }
    ensures { SignalsMarked (named (or_buf (gate_at gates.now pins.now g))) gate_marks.old
        input_marks.old
        gate_marks.new input_marks.new }
{
    if network::form_at(gates, g) == BUF {
        return;
    }
    let first = network::first_at(gates, g);
    let end = first + network::count_at(gates, g);
    mark_signals(gate_marks, input_marks, &pins[first..end]);
}

// Marks the signals that are used inverted, at the outputs and at the inputs of n gates.
fn get_inverted_signals(
    gate_marks: &mut [u8],
    input_marks: &mut [u8],
    gates: &[u32],
    pins: &[u32],
    n: usize,
    outputs: &[u32],
)
    requires { Readable gates.now pins.now n }
    ensures { SignalsMarked (map sig_of outputs.now ++ named_in (cell_gates gates.now pins.now 0 n))
        gate_marks.old input_marks.old
        gate_marks.new input_marks.new }
{
    mark_signals(gate_marks, input_marks, outputs);
    for g in 0..n {
        mark_gate(gate_marks, input_marks, gates, pins, g);
    }
}

// Writes an inverter for each signal that is used inverted.
fn append_inverters(
    out: &mut [u8],
    at: usize,
    inputs: usize,
    gates: &[u32],
    pins: &[u32],
    n: usize,
    outputs: &[u32],
) -> usize
    requires { Readable gates.now pins.now n × (inputs ≤ max_inputs) }
    ensures { Appended (inverters_text (cell_net inputs gates.now pins.now n outputs.now)) out.old
        at out.new result }
{
    let mut gate_marks = [0u8; 1024];
    let mut input_marks = [0u8; 256];
    get_inverted_signals(&mut gate_marks, &mut input_marks, gates, pins, n, outputs);
    let end = append_gate_inverters(out, at, &gate_marks, n);
    append_input_inverters(out, end, &input_marks, inputs)
}

// Writes the text of n gates with so many inputs and these outputs.
fn write_text(
    out: &mut [u8],
    inputs: usize,
    gates: &[u32],
    pins: &[u32],
    n: usize,
    outputs: &[u32],
) -> usize
    requires { Readable gates.now pins.now n × (inputs ≤ max_inputs) × (any wide (cell_gates gates.now pins.now 0 n) ≡ false) }
    ensures { Wrote (text_of (cell_net inputs gates.now pins.now n outputs.now)) out.old
        out.new result }
{
    let mut at = write_head(out, inputs, outputs);
    at = append_latches(out, at, gates, pins, n);
    at = append(out, at, b"\n");
    at = append_covers(out, at, gates, pins, n);
    at = append_inverters(out, at, inputs, gates, pins, n, outputs);
    append(out, at, b".names vdd\n1\n.names gnd\n")
}

// Clears the output slice and refuses.
fn refuse(out: &mut [u8], refusal: Refusal) -> Result<usize, Refusal>
    ensures { write_outcome result out.new ≡ refused_text refusal (length out.old) }
{
    lists::fill_zero_bytes(out);
    Err(refusal)
}

// How much of an output slice of this length a text may take.
fn room_in(len: usize) -> usize
    ensures { result ≡ min len max_text }
{
    len.min(blif_text::MAX_TEXT)
}

// Writes the text of a network without wide gates, if it fits.
fn write_network(
    counts: Counts,
    gates: &[u32],
    pins: &[u32],
    outputs: &[u32],
    out: &mut [u8],
) -> Result<usize, Refusal>
    requires { Writable (lent counts gates.now pins.now outputs.now) }
    ensures { write_outcome result out.new
        ≡ write_into (lent counts gates.now pins.now outputs.now) (length out.old) }
{
    let n = counts.gates;
    let used = counts.outputs;
    let room = room_in(out.len());
    let end = write_text(
        &mut out[..room],
        counts.inputs,
        gates,
        pins,
        n,
        &outputs[..used],
    );
    if end > room {
        refuse(out, Refusal::TextDoesNotFit)
    } else {
        lists::fill_zero_bytes(&mut out[end..]);
        Ok(end)
    }
}

// Writes the text of a lent network into the output slice.
pub fn write_blif(
    counts: Counts,
    gates: &[u32],
    pins: &[u32],
    outputs: &[u32],
    out: &mut [u8],
) -> Result<usize, Refusal>
    ensures { write_outcome result out.new
        ≡ write_into (lent counts gates.now pins.now outputs.now) (length out.old) }
{
    if !network::check_layout(counts, gates, pins, outputs) {
        refuse(out, Refusal::NotANetwork)
    } else if any_wide(gates, counts.gates) {
        refuse(out, Refusal::WideExclusive)
    } else {
        write_network(counts, gates, pins, outputs, out)
    }
}
