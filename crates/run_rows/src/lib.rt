// A sorted network run for rows of 0 and 1, a row of outputs for each clock (document 02, request 1).
#![tactic(auto)]

ghost use Rattle.std.specs.Prelude.{◌≡◌, ◌&&◌, ℕ, ◌*◌, ◌/◌, ◌%◌, ◌≤◌, ◌<◌, eqb, leb, length, take};
ghost use Rattle.lists.specs.Lists.{all};
ghost use Rattle.gates.specs.Gate.{is_plain};
ghost use Rattle.network.specs.Clock.{start_bits};
ghost use Rattle.network.specs.Cells.{lent, or_buf, cell_gates, cell_net};
ghost use Rattle.network.specs.Record.{run_at, gate_at};
ghost use Rattle.network.specs.Between.Cells.{GateCells, NetCells};
ghost use Rattle.gate_bits.specs.Between.Slots.{slot_count, pin_bits};
ghost use Rattle.run_rows.specs.Rows.{is_digit, row_text, rows_of};
ghost use Rattle.run_rows.specs.Into.{run_outcome, run_on, run_into};
ghost use Rattle.run_rows.specs.Between.Steps.{LaidOne, LaidOut, Flops, Started, comb_bit, RowRead, WorkedOut, RowSettled};
ghost use Rattle.run_rows.specs.Between.Steps.{DataTaken, HeldPut, Stepped, Clocked, RunRefused};
ghost use Rattle.run_rows.specs.Between.Asks.{Runnable, TableRoom, ListRoom, StartRoom, RowRoom, BitReady, Workable, LineRoom, TakeRoom, PutRoom, WholeRows};

use gate_bits::{
    TABLE_INPUTS, lay_slots, pad_of, put_bit, signal_bit, table_bit, table_of, wide_bit,
};
use gates::{DFF, kind_of};
use lists::fill_zero_bytes;
use network::{
    Counts, check_layout, count_at, first_at, form_at, gate_pins, is_topo_sorted, start_at,
};
use refusals::Refusal;

// ---- 30

// Whether gate g is no flip-flop, or one whose enable is the signal 1 and whose reset is the signal 0.
fn is_plain(gates: &[u32], pins: &[u32], g: usize) -> bool
    requires { (i : ℕ) × (n : ℕ) × GateCells i n gates.now pins.now g }
    ensures { result ≡ is_plain (or_buf (gate_at gates.now pins.now g)) }
{
    if form_at(gates, g) == DFF {
        let first = first_at(gates, g);
        pins[first + 1] == 1 && pins[first + 2] == 0
    } else {
        true
    }
}

// Whether the same holds of each of n gates.
fn all_plain(gates: &[u32], pins: &[u32], n: usize) -> bool
    requires { (i : ℕ) × NetCells i n gates.now pins.now }
    ensures { result ≡ all is_plain (cell_gates gates.now pins.now 0 n) }
{
    for g in 0..n {
        if !is_plain(gates, pins, g) {
            return false;
        }
    }
    true
}

// ---- what is laid out once, before the clocks

// Lays out gate g: its truth table, and the slots of its first six pins.
fn lay_table(gates: &[u32], pins: &[u32], g: usize, slots: &mut [u16], tables: &mut [u64])
    requires { TableRoom gates.now pins.now g slots.old tables.old }
    ensures { LaidOne gates.now pins.now g slots.old tables.old
        slots.new tables.new }
{
    let kind = kind_of(form_at(gates, g));
    tables[g] = table_of(kind);
    let at = g * TABLE_INPUTS;
    lay_slots(
        gate_pins(gates, pins, g),
        pad_of(kind),
        &mut slots[at..at + TABLE_INPUTS],
    );
}

// Lays out as many gates as there are tables.
fn lay_tables(gates: &[u32], pins: &[u32], slots: &mut [u16], tables: &mut [u64])
    requires by_index { (i : ℕ) × NetCells i (length tables.old) gates.now pins.now }
    requires tables_in_bounds { length tables.old * 6 ≤ length slots.old }
    ensures { LaidOut gates.now pins.now (length tables.new) slots.new tables.new }
{
    for g in 0..tables.len() {
        lay_table(gates, pins, g, slots, tables);
    }
}

// Lists the flip-flops among n gates by their numbers; answers how many there are.
fn list_flops(gates: &[u32], n: usize, flops: &mut [u16]) -> usize
    requires { ListRoom gates.now n flops.old }
    ensures { Flops gates.now n flops.new result }
{
    let mut k = 0;
    for g in 0..n {
        if form_at(gates, g) == DFF {
            flops[k] = g as u16;
            k += 1;
        }
    }
    k
}

// ---- a clock

// The bits before the first clock: the constant's at zero, and each of n gates' at its start value.
fn start_bits(gates: &[u32], n: usize, bits: &mut [bool])
    requires { StartRoom gates.now n bits.old }
    ensures { Started gates.now n bits.new }
{
    put_bit(bits, 0, false);
    for g in 0..n {
        put_bit(bits, 2 * g + 2, start_at(gates, g) == 1);
    }
}

// Whether the byte is the character 0 or 1.
fn is_digit(c: u8) -> bool
    ensures { result ≡ is_digit c }
{
    matches!(c, b'0' | b'1')
}

// Takes the inputs' bits from a row; answers whether it has a character 0 or 1 for each, and an LF.
fn read_row(row: &[u8], bits: &mut [bool]) -> bool
    requires row_room { RowRoom row.now }
    requires bits_len { length bits.old ≡ slot_count }
    ensures { RowRead row.now bits.old bits.new result }
{
    let inputs = row.len() - 1;
    for (i, c) in row[..inputs].iter().enumerate() {
        if !is_digit(*c) {
            return false;
        }
        put_bit(bits, 4094 - 2 * i, *c == b'1');
    }
    row[inputs] == b'\n'
}

// Combinational gate g's bit.
fn gate_bit(
    gates: &[u32],
    pins: &[u32],
    g: usize,
    slots: &[u16],
    tables: &[u64],
    bits: &[bool],
) -> bool
    requires { BitReady gates.now pins.now g slots.now tables.now bits.now }
    ensures { result ≡ comb_bit (or_buf (gate_at gates.now pins.now g))
        (pin_bits bits.now (run_at gates.now pins.now g)) }
{
    if count_at(gates, g) > TABLE_INPUTS {
        wide_bit(kind_of(form_at(gates, g)), bits, gate_pins(gates, pins, g))
    } else {
        let at = g * TABLE_INPUTS;
        table_bit(bits, &slots[at..at + TABLE_INPUTS], tables[g])
    }
}

// Works out the combinational gates' bits, one after the other: the inputs of each stand before it.
fn work_out(gates: &[u32], pins: &[u32], slots: &[u16], tables: &[u64], bits: &mut [bool])
    requires { Workable gates.now pins.now slots.now tables.now bits.old }
    ensures { WorkedOut gates.now pins.now (length tables.now)
        bits.old bits.new }
{
    for g in 0..tables.len() {
        if form_at(gates, g) != DFF {
            let b = gate_bit(gates, pins, g, slots, tables, bits);
            put_bit(bits, 2 * g + 2, b);
        }
    }
}

// Takes a row's bits and works out the gates'; answers whether it is a row.
fn settle_row(
    gates: &[u32],
    pins: &[u32],
    slots: &[u16],
    tables: &[u64],
    row: &[u8],
    bits: &mut [bool],
) -> bool
    requires workable { Workable gates.now pins.now slots.now tables.now bits.old }
    requires row_room { RowRoom row.now }
    ensures { RowSettled gates.now pins.now (length tables.now) row.now
        bits.old bits.new result }
{
    if read_row(row, bits) {
        work_out(gates, pins, slots, tables, bits);
        true
    } else {
        false
    }
}

// Writes the outputs' bits as a row.
fn write_row(outputs: &[u32], bits: &[bool], line: &mut [u8])
    requires { LineRoom outputs.now bits.now line.old }
    ensures { line.new ≡ row_text (pin_bits bits.now outputs.now) }
{
    for (i, output) in outputs.iter().enumerate() {
        line[i] = b'0' + signal_bit(bits, *output) as u8;
    }
    line[outputs.len()] = b'\n';
}

// The bits that the flip-flops take: those of their data.
fn take_data(flops: &[u16], slots: &[u16], bits: &[bool], next: &mut [bool])
    requires { TakeRoom flops.now slots.now bits.now next.old }
    ensures { DataTaken flops.now slots.now bits.now next.new }
{
    for (i, flop) in flops.iter().enumerate() {
        next[i] = bits[slots[*flop as usize * TABLE_INPUTS] as usize];
    }
}

// Puts the bits that the flip-flops hold next.
fn put_held(flops: &[u16], next: &[bool], bits: &mut [bool])
    requires { PutRoom flops.now next.now bits.old }
    ensures { HeldPut flops.now next.now bits.old bits.new }
{
    for (i, flop) in flops.iter().enumerate() {
        put_bit(bits, 2 * *flop as usize + 2, next[i]);
    }
}

// All flip-flops step together: the next bits of all are taken before the first is put.
fn step(flops: &[u16], slots: &[u16], next: &mut [bool], bits: &mut [bool])
    requires take_room { TakeRoom flops.now slots.now bits.old next.old }
    requires put_room { PutRoom flops.now next.old bits.old }
    ensures { Stepped flops.now slots.now bits.old bits.new }
{
    take_data(flops, slots, bits, next);
    put_held(flops, next, bits);
}

// ---- a run

// Whether the rows are whole, and as many rows of outputs fit into the room.
fn rows_fit(rows: usize, width: usize, line: usize, room: usize) -> bool
    requires width_nonzero { 0 < width }
    requires line_nonzero { 0 < line }
    ensures { result ≡ (eqb (rows % width) 0 && leb (rows / width) (room / line)) }
{
    rows % width == 0 && rows / width <= room / line
}

// Clears the output rows and refuses.
fn refuse(out: &mut [u8], refusal: Refusal) -> Result<usize, Refusal>
    ensures { RunRefused refusal (length out.old) result out.new }
{
    fill_zero_bytes(out);
    Err(refusal)
}

// Runs a sorted network with plain flip-flops for whole rows, from the start values. Answers whether each row was one.
fn run_sorted(
    counts: Counts,
    gates: &[u32],
    pins: &[u32],
    outputs: &[u32],
    rows: &[u8],
    out: &mut [u8],
) -> bool
    requires runnable { Runnable counts.inputs counts.gates gates.now pins.now outputs.now }
    requires whole_rows { WholeRows counts.inputs outputs.now rows.now out.old }
    ensures { let net = cell_net counts.inputs gates.now pins.now counts.gates outputs.now in
        Clocked net (rows_of counts.inputs rows.now) (start_bits net) out.new result }
{
    let inputs = counts.inputs;
    let n = counts.gates;
    let mut slots = [0u16; 6144];
    let mut tables = [0u64; 1024];
    let mut flops = [0u16; 1024];
    let mut bits = [false; 4096];
    let mut next = [false; 1024];
    lay_tables(gates, pins, &mut slots, &mut tables[..n]);
    let k = list_flops(gates, n, &mut flops);
    start_bits(gates, n, &mut bits);
    let width = inputs + 1;
    let line = outputs.len() + 1;
    let mut at = 0;
    let mut to = 0;
    while at < rows.len() {
        let end = at + width;
        let upto = to + line;
        if !settle_row(gates, pins, &slots, &tables[..n], &rows[at..end], &mut bits) {
            return false;
        }
        write_row(outputs, &bits, &mut out[to..upto]);
        step(&flops[..k], &slots, &mut next, &mut bits);
        at = end;
        to = upto;
    }
    true
}

// Runs it where the rows are whole and their outputs fit.
fn run_fitting(
    counts: Counts,
    gates: &[u32],
    pins: &[u32],
    outputs: &[u32],
    rows: &[u8],
    out: &mut [u8],
) -> Result<usize, Refusal>
    requires outputs_in_bounds { counts.outputs ≤ length outputs.now }
    requires runnable { Runnable counts.inputs counts.gates gates.now pins.now (take counts.outputs outputs.now) }
    ensures { run_outcome result out.new
        ≡ run_on (cell_net counts.inputs gates.now pins.now counts.gates (take counts.outputs outputs.now))
        (rows_of counts.inputs rows.now) (length out.old) }
{
    let used = counts.outputs;
    let width = counts.inputs + 1;
    if !rows_fit(rows.len(), width, used + 1, out.len()) {
        return refuse(out, Refusal::WrongRows);
    }
    let end = rows.len() / width * (used + 1);
    if !run_sorted(counts, gates, pins, &outputs[..used], rows, &mut out[..end]) {
        return refuse(out, Refusal::WrongRows);
    }
    fill_zero_bytes(&mut out[end..]);
    Ok(end)
}

// Runs the lent network for the rows from the start values, and writes a row of outputs for each.
pub fn run_rows(
    counts: Counts,
    gates: &[u32],
    pins: &[u32],
    outputs: &[u32],
    rows: &[u8],
    out: &mut [u8],
) -> Result<usize, Refusal>
    ensures { run_outcome result out.new
        ≡ run_into (lent counts gates.now pins.now outputs.now) rows.now (length out.old) }
{
    if !check_layout(counts, gates, pins, outputs) {
        return refuse(out, Refusal::NotANetwork);
    }
    let n = counts.gates;
    if !is_topo_sorted(counts.inputs, gates, pins, n) {
        return refuse(out, Refusal::NotSorted);
    }
    if !all_plain(gates, pins, n) {
        return refuse(out, Refusal::OtherFlipFlop);
    }
    run_fitting(counts, gates, pins, outputs, rows, out)
}
