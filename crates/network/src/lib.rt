// Networks in lent cells: valid signals, the layout that refusal 20 asks for, whether a network is sorted, and one gate read out of the cells
// (Quaigh's src/network/network.rs).
#![tactic(auto)]

ghost use Rattle.std.specs.Prelude.{◌≡◌, [], ◌∷◌, ℕ, ◌+◌, ◌*◌, ◌≤◌, ◌<◌, length};
ghost use Rattle.lists.specs.Between.Lists.{overwrite_at};
ghost use Rattle.signal.specs.Cell.{node_of};
ghost use Rattle.network.specs.Net.{inputs_lower, sorted_from};
ghost use Rattle.network.specs.Cells.{lent, sizes_fit, pins_below, record_fits, records_fit, valid_node, all_valid, is_network, or_buf, cell_gates};
ghost use Rattle.network.specs.Between.Cells.{FewNodes, GateCells, NetCells};
ghost use Rattle.network.specs.Sizes.{max_gates, max_pins};
ghost use Rattle.gates.specs.Between.Decode.{pin_count, pins_in};
ghost use Rattle.network.specs.Record.{gate_width, form_at, first_at, count_at, start_at, run_at, gate_at};
ghost use Rattle.network.specs.Between.Record.{RecordIn, HasRun, RunFrom, LayRoom, GateLaid, hand_record, with_first, record_at, decoded_at, CellIs};

use gates::Gate;
use lists::copy_cells;
use signal::Signal;

pub const MAX_INPUTS: usize = 256;

pub const MAX_OUTPUTS: usize = 256;

pub const MAX_GATES: usize = 1024;

pub const MAX_PINS: usize = 16384;

// The cells of a gate's record: form number, first pin, pin count, start value.
pub const GATE_CELLS: usize = 4;

// How many inputs, gates, pins and outputs a network has.
#[derive(Clone, Copy)]
pub struct Counts {
    pub inputs: usize,
    pub gates: usize,
    pub pins: usize,
    pub outputs: usize,
}

// Whether a signal is an input below the input count, a gate below the gate count, or a constant. Half of an input's cell is far above any
// gate, and half of the other cells' complement far above any input, so that the two tests need no branch.
pub fn is_valid(inputs: usize, gates: usize, s: Signal) -> bool
    requires { FewNodes inputs gates }
    ensures { result ≡ valid_node inputs gates (node_of s.a) }
{
    let half = (s.raw() >> 1) as usize;
    let other = (!s.raw() >> 1) as usize;
    (half <= gates) | (other < inputs)
}

// Whether every cell holds a valid signal. Each is looked at, since a branch that ends the loop costs more.
pub fn all_valid(inputs: usize, gates: usize, cells: &[u32]) -> bool
    requires { FewNodes inputs gates }
    ensures { result ≡ all_valid inputs gates cells.now }
{
    let mut valid = true;
    for cell in cells {
        valid &= is_valid(inputs, gates, Signal { a: *cell });
    }
    valid
}

// Whether the counts are within the limits and within slices of these lengths.
#[tactic(auto, unfolding(crate::specs::Cells::sizes_fit))]
pub fn sizes_fit(counts: Counts, gates: usize, pins: usize, outputs: usize) -> bool
    ensures { result ≡ sizes_fit counts gates pins outputs }
{
    counts.inputs <= MAX_INPUTS
        && counts.gates <= MAX_GATES
        && counts.pins <= MAX_PINS
        && counts.outputs <= MAX_OUTPUTS
        && counts.gates * GATE_CELLS <= gates
        && counts.pins <= pins
        && counts.outputs <= outputs
}

// Gate g's form number.
pub fn form_at(gates: &[u32], g: usize) -> u32
    requires { RecordIn gates.now g }
    ensures { result ≡ form_at gates.now g }
{
    gates[g * GATE_CELLS]
}

// Gate g's first pin.
pub fn first_at(gates: &[u32], g: usize) -> usize
    requires { RecordIn gates.now g }
    ensures { CellIs (first_at gates.now g) result }
{
    gates[g * GATE_CELLS + 1] as usize
}

// Gate g's pin count.
pub fn count_at(gates: &[u32], g: usize) -> usize
    requires { RecordIn gates.now g }
    ensures { CellIs (count_at gates.now g) result }
{
    gates[g * GATE_CELLS + 2] as usize
}

// Gate g's start value.
pub fn start_at(gates: &[u32], g: usize) -> u32
    requires { RecordIn gates.now g }
    ensures { result ≡ start_at gates.now g }
{
    gates[g * GATE_CELLS + 3]
}

// The pins of gate g.
pub fn gate_pins<'a, 'b>(gates: &'a [u32], pins: &'b [u32], g: usize) -> &'b [u32]
    requires { HasRun gates.now pins.now g }
    ensures { result.now ≡ run_at gates.now pins.now g }
{
    let first = first_at(gates, g);
    let end = first + count_at(gates, g);
    &pins[first..end]
}

// Writes the record of a gate in hand, whose pins start at cell first, as gate g.
pub fn put_record(gates: &mut [u32], g: usize, first: usize, gate: Gate)
    requires { RecordIn gates.old g × (first ≤ max_pins) × (pin_count gate ≤ max_pins) }
    ensures { gates.new ≡ overwrite_at (g * gate_width) (hand_record first gate) gates.old }
{
    let at = g * GATE_CELLS;
    gates[at] = gate.kind().number();
    gates[at + 1] = first as u32;
    gates[at + 2] = gate.pin_count() as u32;
    gates[at + 3] = gate.start() as u32;
}

// Writes two signals into the pins from cell at on.
fn put_two(pins: &mut [u32], at: usize, a: Signal, b: Signal)
    requires { at + 2 ≤ length pins.old }
    ensures { pins.new ≡ overwrite_at at (a.a ∷ b.a ∷ []) pins.old }
{
    pins[at] = a.raw();
    pins[at + 1] = b.raw();
}

// Writes three signals into the pins from cell at on.
fn put_three(pins: &mut [u32], at: usize, a: Signal, b: Signal, c: Signal)
    requires { at + 3 ≤ length pins.old }
    ensures { pins.new ≡ overwrite_at at (a.a ∷ b.a ∷ c.a ∷ []) pins.old }
{
    pins[at] = a.raw();
    pins[at + 1] = b.raw();
    pins[at + 2] = c.raw();
}

// Writes the signals of a gate in hand into the pins from cell at on; the run of a Nary gate stands there already.
fn put_pins(pins: &mut [u32], at: usize, gate: Gate)
    requires { (at + pin_count gate ≤ length pins.old) × RunFrom at gate }
    ensures { pins.new ≡ overwrite_at at (pins_in gate pins.old) pins.old }
{
    match gate {
        Gate::Binary(_, a, b) => put_two(pins, at, a, b),
        Gate::Ternary(_, a, b, c) => put_three(pins, at, a, b, c),
        Gate::Nary(_, _) => {}
        Gate::Buf(a) => pins[at] = a.raw(),
        Gate::Dff(d, e, r, _) => put_three(pins, at, d, e, r),
    }
}

// Lays a gate in hand into the cells as gate g, with its pins from cell at on. Answers the cell behind its pins.
pub fn lay_gate(gates: &mut [u32], g: usize, pins: &mut [u32], at: usize, gate: Gate) -> usize
    requires { LayRoom gate g at gates.old pins.old }
    ensures { GateLaid gate g at gates.old pins.old gates.new pins.new result }
{
    put_pins(pins, at, gate);
    put_record(gates, g, at, gate);
    at + gate.pin_count()
}

// Copies gate g's record to gate i of other cells, with another first pin.
pub fn copy_record(gates: &[u32], g: usize, to: &mut [u32], i: usize, first: usize)
    requires { RecordIn gates.now g × RecordIn to.old i × (first ≤ max_pins) }
    ensures { to.new ≡ overwrite_at (i * gate_width) (with_first first (record_at gates.now g)) to.old }
{
    let from = g * GATE_CELLS;
    let at = i * GATE_CELLS;
    copy_cells(&gates[from..from + GATE_CELLS], to, at);
    to[at + 1] = first as u32;
}

// Whether gate g has a known form, a pin count and a start value that it can have, and its pins from cell at on.
fn record_fits(gates: &[u32], g: usize, at: usize) -> bool
    requires { RecordIn gates.now g × (at ≡ pins_below gates.now g) }
    ensures { result ≡ record_fits gates.now g }
{
    let kind = gates::kind_of(form_at(gates, g));
    kind.takes(count_at(gates, g)) && kind.starts(start_at(gates, g)) && first_at(gates, g) == at
}

// Whether n gates' records fit, and their runs follow each other and end at pin p.
fn records_fit(gates: &[u32], n: usize, p: usize) -> bool
    requires { (n ≤ max_gates) × (n * gate_width ≤ length gates.now) }
    ensures { result ≡ records_fit gates.now n p }
{
    let mut at = 0;
    for g in 0..n {
        if !record_fits(gates, g, at) {
            return false;
        }
        at += count_at(gates, g);
    }
    at == p
}

// Whether the lent cells are a network: what refusal 20 asks.
pub fn check_layout(counts: Counts, gates: &[u32], pins: &[u32], outputs: &[u32]) -> bool
    ensures { result ≡ is_network (lent counts gates.now pins.now outputs.now) }
{
    let n = counts.gates;
    let p = counts.pins;
    let o = counts.outputs;
    sizes_fit(counts, gates.len(), pins.len(), outputs.len())
        && records_fit(gates, n, p)
        && all_valid(counts.inputs, n, &pins[..p])
        && all_valid(counts.inputs, n, &outputs[..o])
}

// Whether gate g is a flip-flop, or each of its gate inputs has a lower number: each input is a valid signal of the gates before it.
fn inputs_lower(inputs: usize, gates: &[u32], pins: &[u32], g: usize) -> bool
    requires { (n : ℕ) × GateCells inputs n gates.now pins.now g × FewNodes inputs g }
    ensures { result ≡ inputs_lower g (or_buf (gate_at gates.now pins.now g)) }
{
    form_at(gates, g) == gates::DFF || all_valid(inputs, g, gate_pins(gates, pins, g))
}

// Whether every gate input of a combinational gate, of n gates, has a lower number.
pub fn is_topo_sorted(inputs: usize, gates: &[u32], pins: &[u32], n: usize) -> bool
    requires { NetCells inputs n gates.now pins.now }
    ensures { result ≡ sorted_from 0 (cell_gates gates.now pins.now 0 n) }
{
    for g in 0..n {
        if !inputs_lower(inputs, gates, pins, g) {
            return false;
        }
    }
    true
}

// Gate g of the cells.
pub fn gate_at(gates: &[u32], pins: &[u32], g: usize) -> Option<Gate>
    ensures { result ≡ decoded_at gates.now pins.now g }
{
    if g >= gates.len() / GATE_CELLS {
        return None;
    }
    let first = first_at(gates, g);
    let end = first + count_at(gates, g);
    if end > pins.len() {
        return None;
    }
    gates::kind_of(form_at(gates, g)).with_pins(first, start_at(gates, g), &pins[first..end])
}
