// The sort of a network's gates, from cells into other cells (Quaigh's src/network/network.rs: topo_sort and remap).
#![tactic(auto)]

ghost use Rattle.std.specs.Prelude.{◌≡◌, List, map, ℕ, ◌+◌, ◌*◌, ◌≤◌, ◌<◌, length, take, replicate};
ghost use Rattle.lists.specs.Lists.{overwrite};
ghost use Rattle.lists.specs.Between.Lists.{overwrite_at};
ghost use Rattle.signal.specs.Between.Cell.{remap_cell};
ghost use Rattle.network.specs.Cells.{lent, net_of, pins_below};
ghost use Rattle.network.specs.Sizes.{max_gates};
ghost use Rattle.network.specs.Record.{gate_width, count_at, run_at};
ghost use Rattle.network.specs.Between.Record.{RecordIn, HasRun};
ghost use Rattle.sort_order.specs.Order.{sort_order};
ghost use Rattle.sort_order.specs.Sorted.{sorted};
ghost use Rattle.sort.specs.Between.Into.{sort_outcome, sort_into, sort_lent};
ghost use Rattle.sort_order.specs.Between.Sortable.{Sortable};
ghost use Rattle.sort.specs.Between.Steps.{gate_named, gate_ins, form_comb, uses_at, cell_graph, Cells, Within, Rises, Raised, Countable, Counted};
ghost use Rattle.sort.specs.Between.Steps.{from_top, top_gate, Lowered, Lowers, Walks, FlopsPlaced, Started, Ready, Visited, Begins, Recorded, ordered};
ghost use Rattle.sort.specs.Between.Steps.{Numbers, PlacesTable, RoomFor, GateMoved, Movable, Moved, RenumberedCells};

use network::{Counts, GATE_CELLS, check_layout, gate_pins};
use signal::Signal;

// Why cells are not sorted.
#[derive(Clone, Copy)]
pub enum Unsorted {
    // they are no network, or the new cells have no room for it
    Refused,
    // there is a combinational loop
    Loop,
}

// The top of the stack, and the first cell of the order that is written.
#[derive(Clone, Copy)]
struct Place {
    top: usize,
    at: usize,
}

// Whether gate g is combinational.
fn is_comb(gates: &[u32], g: usize) -> bool
    requires { RecordIn gates.now g }
    ensures { result ≡ form_comb gates.now g }
{
    gates::kind_of(network::form_at(gates, g)).is_comb()
}

// A gate's number in 16 bits.
fn narrow(g: usize) -> u16
    requires { g < max_gates }
    ensures { result ≡ g }
{
    g as u16
}

// Counts one pin.
fn add_use(s: u32, counts: &mut [u16])
    requires { Countable (gate_named s) 1 counts.old }
    ensures raised { Raised (gate_named s) counts.old counts.new }
    ensures rises { Rises 1 counts.old counts.new }
{
    let signal = Signal { a: s };
    if signal.is_var() {
        let g = signal.var() as usize;
        counts[g] += 1;
    }
}

// Counts the pins of one gate.
fn add_uses(pins: &[u32], counts: &mut [u16])
    requires { Countable (gate_ins pins.now) (length pins.now) counts.old }
    ensures raised { Raised (gate_ins pins.now) counts.old counts.new }
    ensures rises { Rises (length pins.now) counts.old counts.new }
{
    for pin in pins {
        add_use(*pin, counts);
    }
}

// Counts the uses that one gate makes: a flip-flop makes none.
fn count_gate(gates: &[u32], pins: &[u32], g: usize, counts: &mut [u16])
    requires has_run { HasRun gates.now pins.now g }
    requires countable { Countable (uses_at gates.now pins.now g) (count_at gates.now g) counts.old }
    ensures raised { Raised (uses_at gates.now pins.now g) counts.old counts.new }
    ensures rises { Rises (count_at gates.now g) counts.old counts.new }
{
    if is_comb(gates, g) {
        add_uses(gate_pins(gates, pins, g), counts);
    }
}

// Counts how often combinational gates use each gate.
fn count_uses(gates: &[u32], pins: &[u32], n: usize, counts: &mut [u16])
    requires cells { Cells gates.now pins.now n }
    requires counts_value { counts.old ≡ replicate max_gates 0 }
    ensures counted { Counted (cell_graph gates.now pins.now n) counts.new }
    ensures within { Within (pins_below gates.now n) counts.new }
{
    for g in 0..n {
        count_gate(gates, pins, g, counts);
    }
}

// Lowers the count of what one pin names, and pushes it at zero.
fn lower_use(s: u32, counts: &mut [u16], stack: &mut [u16], top: usize) -> usize
    requires counts_len { (length counts.old ≡ max_gates) × (length stack.old ≡ max_gates) }
    requires lowers { Lowers s counts.old top }
    ensures lowered { Lowered (gate_named s) counts.old (from_top top stack.old)
        counts.new (from_top result stack.new) }
    ensures rises { Rises 0 counts.old counts.new }
{
    let signal = Signal { a: s };
    if !signal.is_var() {
        return top;
    }
    let d = signal.var() as usize;
    counts[d] -= 1;
    if counts[d] != 0 {
        return top;
    }
    stack[top] = narrow(d);
    top + 1
}

// Lowers the counts of what a gate's pins name, in order.
fn lower_uses(pins: &[u32], counts: &mut [u16], stack: &mut [u16], top: usize) -> usize
    requires counts_len { (length counts.old ≡ max_gates) × (length stack.old ≡ max_gates) }
    requires walks { Walks counts.old (from_top top stack.old) pins.now }
    ensures lowered { Lowered (gate_ins pins.now) counts.old (from_top top stack.old)
        counts.new (from_top result stack.new) }
    ensures rises { Rises 0 counts.old counts.new }
{
    let mut new_top = top;
    for pin in pins {
        new_top = lower_use(*pin, counts, stack, new_top);
    }
    new_top
}

// Marks gate g and puts it into the order, if it is a flip-flop.
fn mark_flop(gates: &[u32], g: usize, marks: &mut [u8], order: &mut [u16], k: usize) -> usize
    requires { RecordIn gates.now g × (g < max_gates) × (length marks.old ≡ max_gates) × (k ≤ g) × (g < length order.old) }
    ensures { (o₀ : List ℕ) → FlopsPlaced (form_comb gates.now) g o₀ marks.old order.old k → FlopsPlaced
        (form_comb gates.now) (g + 1) o₀ marks.new order.new result }
{
    if !is_comb(gates, g) {
        marks[g] = 1;
        order[k] = narrow(g);
        k + 1
    } else {
        k
    }
}

// Marks the flip-flops, and puts them first into the order.
fn mark_flops(gates: &[u32], n: usize, marks: &mut [u8], order: &mut [u16]) -> usize
    requires { (n ≤ max_gates) × (n * gate_width ≤ length gates.now) × (marks.old ≡ replicate max_gates 0) × (n ≤ length order.old) }
    ensures { FlopsPlaced (form_comb gates.now) n order.old marks.new order.new result }
{
    let mut k = 0;
    for g in 0..n {
        k = mark_flop(gates, g, marks, order, k);
    }
    k
}

// Pushes gate g, if it is neither marked nor used.
fn start_gate(marks: &[u8], counts: &[u16], g: usize, stack: &mut [u16], top: usize) -> usize
    requires g_lt_max_gates { (g < max_gates) × (length marks.now ≡ max_gates) × (length counts.now ≡ max_gates) × (length stack.old ≡ max_gates) }
    requires started { Started marks.now counts.now g stack.old top }
    ensures { Started marks.now counts.now (g + 1) stack.new result }
{
    if marks[g] == 0 && counts[g] == 0 {
        stack[top] = narrow(g);
        top + 1
    } else {
        top
    }
}

// The first stack: the gates that are neither marked nor used.
fn start_stack(marks: &[u8], counts: &[u16], n: usize, stack: &mut [u16]) -> usize
    requires { (n ≤ max_gates) × (length marks.now ≡ max_gates) × (length counts.now ≡ max_gates) × (length stack.old ≡ max_gates) }
    ensures { Started marks.now counts.now n stack.new result }
{
    let mut top = 0;
    for g in 0..n {
        top = start_gate(marks, counts, g, stack, top);
    }
    top
}

// Visits the gate at the top of the stack: records it, unless it is marked, and lowers the counts of what it uses.
fn visit(
    gates: &[u32],
    pins: &[u32],
    counts: &mut [u16],
    marks: &mut [u8],
    stack: &mut [u16],
    order: &mut [u16],
    place: Place,
) -> Place
    requires cells { Cells gates.now pins.now (length order.old) }
    requires top_nonzero { 0 < place.top }
    requires ready { Ready (cell_graph gates.now pins.now (length order.old)) counts.old marks.old stack.old place.top order.old place.at }
    requires within { Within (pins_below gates.now (length order.old)) counts.old }
    ensures visited { Visited (cell_graph gates.now pins.now (length order.old))
        (top_gate stack.old place.top) counts.old marks.old stack.old place.top
        order.old place.at
        counts.new marks.new stack.new result.top order.new result.at }
    ensures within_2 { Within (pins_below gates.now (length order.old)) counts.new }
{
    let top = place.top - 1;
    let v = stack[top] as usize;
    if marks[v] != 0 {
        return Place { top, at: place.at };
    }
    let at = place.at - 1;
    marks[v] = 1;
    order[at] = narrow(v);
    let run = gate_pins(gates, pins, v);
    let new_top = lower_uses(run, counts, stack, top);
    Place { top: new_top, at }
}

// Visits until the stack is empty. Answers where the recorded gates start in the order, which has a cell for each gate.
fn visit_all(
    gates: &[u32],
    pins: &[u32],
    counts: &mut [u16],
    marks: &mut [u8],
    stack: &mut [u16],
    top: usize,
    order: &mut [u16],
) -> usize
    requires cells { Cells gates.now pins.now (length order.old) }
    requires begins { Begins (cell_graph gates.now pins.now (length order.old)) counts.old marks.old stack.old top order.old }
    requires within { Within (pins_below gates.now (length order.old)) counts.old }
    ensures recorded { Recorded (cell_graph gates.now pins.now (length order.old)) order.old
        order.new result }
    ensures within_2 { Within (pins_below gates.now (length order.old)) counts.new }
{
    let mut place = Place {
        top,
        at: order.len(),
    };
    while place.top != 0 {
        place = visit(gates, pins, counts, marks, stack, order, place);
    }
    place.at
}

// Puts the gates' numbers into the order, a cell for each: flip-flops, then the recorded gates backwards. Answers false at a loop.
fn find_order(gates: &[u32], pins: &[u32], order: &mut [u16]) -> bool
    requires cells { Cells gates.now pins.now (length order.old) }
    requires gate_width_in_bounds { length order.old * gate_width ≤ length gates.now }
    ensures { ordered result order.new ≡ sort_order (cell_graph gates.now pins.now (length order.old)) }
{
    let n = order.len();
    let mut counts = [0u16; 1024];
    let mut marks = [0u8; 1024];
    let mut stack = [0u16; 1024];
    count_uses(gates, pins, n, &mut counts);
    let k = mark_flops(gates, n, &mut marks, order);
    let top = start_stack(&marks, &counts, n, &mut stack);
    let at = visit_all(gates, pins, &mut counts, &mut marks, &mut stack, top, order);
    at == k
}

// Fills the translation table: at each gate's number its place in the order.
fn number_gates(order: &[u16], table: &mut [u16])
    requires order_len_bound { (length order.now ≤ max_gates) × (length table.old ≡ max_gates) }
    requires numbers { Numbers order.now }
    ensures { PlacesTable order.now (length order.now) table.new }
{
    for (i, g) in order.iter().enumerate() {
        table[*g as usize] = narrow(i);
    }
}

// Copies a run of pins, renumbered, to the new pins from cell at on.
fn move_pins(run: &[u32], table: &[u16], to: &mut [u32], at: usize)
    requires { at + length run.now ≤ length to.old }
    ensures { to.new ≡ overwrite_at at (map (remap_cell table.now) run.now) to.old }
{
    for (i, pin) in run.iter().enumerate() {
        to[at + i] = Signal { a: *pin }.remap_order(table).raw();
    }
}

// Copies gate g to gate i of the new cells, with its pins from cell at on. Answers the cell after its pins.
fn move_gate(
    gates: &[u32],
    pins: &[u32],
    table: &[u16],
    g: usize,
    i: usize,
    new_gates: &mut [u32],
    new_pins: &mut [u32],
    at: usize,
) -> usize
    requires has_run { HasRun gates.now pins.now g }
    requires room_for { RoomFor i at (length (run_at gates.now pins.now g)) new_gates.old new_pins.old }
    ensures { GateMoved gates.now pins.now table.now g i at new_gates.old
        new_pins.old
        new_gates.new new_pins.new result }
{
    let run = gate_pins(gates, pins, g);
    network::copy_record(gates, g, new_gates, i, at);
    move_pins(run, table, new_pins, at);
    at + run.len()
}

// Copies all gates in the new order, their pins laid in gate order. Answers how many pins there are.
fn move_gates(
    gates: &[u32],
    pins: &[u32],
    table: &[u16],
    order: &[u16],
    new_gates: &mut [u32],
    new_pins: &mut [u32],
) -> usize
    requires { Movable gates.now pins.now order.now new_gates.old new_pins.old }
    ensures { Moved gates.now pins.now table.now order.now new_gates.old
        new_pins.old
        new_gates.new new_pins.new result }
{
    let mut at = 0;
    for (i, g) in order.iter().enumerate() {
        at = move_gate(gates, pins, table, *g as usize, i, new_gates, new_pins, at);
    }
    at
}

// Renumbers the first outs outputs.
fn move_outputs(table: &[u16], outputs: &mut [u32], outs: usize)
    requires { outs ≤ length outputs.old }
    ensures { outputs.new ≡ overwrite (map (remap_cell table.now) (take outs outputs.old))
        outputs.old }
{
    for output in outputs[..outs].iter_mut() {
        *output = Signal { a: *output }.remap_order(table).raw();
    }
}

// Copies the gates in the new order and renumbers the first outs outputs. Answers how many pins there are.
fn renumber(
    gates: &[u32],
    pins: &[u32],
    order: &[u16],
    outs: usize,
    outputs: &mut [u32],
    new_gates: &mut [u32],
    new_pins: &mut [u32],
) -> usize
    requires numbers { Numbers order.now }
    requires movable { Movable gates.now pins.now order.now new_gates.old new_pins.old }
    requires outs_in_bounds { outs ≤ length outputs.old }
    ensures { RenumberedCells gates.now pins.now order.now outs outputs.old
        new_gates.old new_pins.old
        outputs.new new_gates.new new_pins.new result }
{
    let mut table = [0u16; 1024];
    number_gates(order, &mut table);
    move_outputs(&table, outputs, outs);
    move_gates(gates, pins, &table, order, new_gates, new_pins)
}

// Sorts the network in gates, pins and outputs into the new cells, and renumbers the outputs. Answers how many pins there are; at a loop
// nothing, and nothing is written.
pub fn topo_sort(
    counts: Counts,
    gates: &[u32],
    pins: &[u32],
    outputs: &mut [u32],
    new_gates: &mut [u32],
    new_pins: &mut [u32],
) -> Option<usize>
    requires { Sortable (lent counts gates.now pins.now outputs.old) (length new_gates.old) (length new_pins.old) }
    ensures { sort_outcome result new_gates.new new_pins.new outputs.new
        ≡ sort_into (sorted (net_of (lent counts gates.now pins.now outputs.old)))
        new_gates.old new_pins.old outputs.old }
{
    let n = counts.gates;
    let mut order = [0u16; 1024];
    if !find_order(gates, pins, &mut order[..n]) {
        return None;
    }
    let outs = counts.outputs;
    let used = renumber(gates, pins, &order[..n], outs, outputs, new_gates, new_pins);
    Some(used)
}

// The same for any cells: refused, with nothing written, unless they are a network and the new cells have room for it.
pub fn sort_network(
    counts: Counts,
    gates: &[u32],
    pins: &[u32],
    outputs: &mut [u32],
    new_gates: &mut [u32],
    new_pins: &mut [u32],
) -> Result<usize, Unsorted>
    ensures { sort_outcome result new_gates.new new_pins.new outputs.new
        ≡ sort_lent (lent counts gates.now pins.now outputs.old) new_gates.old
        new_pins.old }
{
    if check_layout(counts, gates, pins, outputs)
        && counts.gates * GATE_CELLS <= new_gates.len()
        && counts.pins <= new_pins.len()
    {
        topo_sort(counts, gates, pins, outputs, new_gates, new_pins).ok_or(Unsorted::Loop)
    } else {
        Err(Unsorted::Refused)
    }
}
