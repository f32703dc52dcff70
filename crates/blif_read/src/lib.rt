// The BLIF reader (Quaigh's src/io/blif.rs: read_blif).
#![tactic(auto)]

ghost use Rattle.std.specs.Prelude.{◌≡◌, ◌≤◌, leb, length, take};
ghost use Rattle.lists.specs.Lists.{any, overwrite, zeros};
ghost use Rattle.refusals.specs.Order.{fine};
ghost use Rattle.blif_reading.specs.Read.{read_fault, read_text};
ghost use Rattle.blif_read.specs.Into.{lengths, enough, read_outcome, read_into, answered};
ghost use Rattle.blif_read.specs.Between.Stages.{counts_in, Holds, Enough, PlainText, Sized, Defining, Resolving, Placing};

use blif_read_covers::check_covers;
use blif_read_gates::build_covers;
use blif_read_names::build_name_to_sig;
use blif_read_signals::{place_gates, resolve_names};
use blif_read_sizes::too_large;
use blif_text::{MAX_TEXT, first_bad, mark_tokens};
use lists::fill_zero;
use name_index::INDEX_CELLS;
use network::{Counts, GATE_CELLS, MAX_GATES, MAX_OUTPUTS, MAX_PINS};
use refusals::Refusal;
use sort::topo_sort;

// Whether slices of these lengths have as many cells as reading may need.
#[tactic(auto, unfolding(crate::specs::Into::enough))]
fn enough_cells(
    gates: usize,
    pins: usize,
    outputs: usize,
    work_gates: usize,
    work_pins: usize,
) -> bool
    ensures { result ≡ enough (lengths gates pins outputs work_gates work_pins) }
{
    gates >= MAX_GATES * GATE_CELLS
        && pins >= MAX_PINS
        && outputs >= MAX_OUTPUTS
        && work_gates >= MAX_GATES * GATE_CELLS
        && work_pins >= MAX_PINS
}

// Whether the text has a byte of 128 or more.
fn has_high_byte(text: &[u8]) -> bool
    ensures { result ≡ any (leb 128) text.now }
{
    let mut high = false;
    for &byte in text {
        high |= byte >= 128;
    }
    high
}

// The tokens marked, and the inputs, gates and outputs that they declare, each counted.
#[derive(Clone, Copy)]
struct Marked {
    tokens: usize,
    inputs: usize,
    gates: usize,
    outputs: usize,
}

// Builds the covers' gates and sorts the network: refusal 14.
fn read_built(
    text: &[u8],
    used: usize,
    marked: Marked,
    gates: &mut [u32],
    pins: &mut [u32],
    outputs: &mut [u32],
    work_gates: &mut [u32],
    work_pins: &mut [u32],
) -> Result<Counts, Refusal>
    requires enough { Enough gates.old pins.old outputs.old work_gates.old work_pins.old }
    requires tokens_in_bounds { marked.tokens ≤ length pins.old }
    requires placing { Placing text.now (take marked.tokens pins.old) gates.old marked.inputs marked.gates marked.outputs
        work_gates.old work_pins.old outputs.old used
        × (read_fault text.now ≡ fine) }
    ensures { Holds (read_text text.now) result gates.new pins.new outputs.new }
{
    let n = marked.tokens;
    let g = marked.gates;
    let built = build_covers(text, &pins[..n], gates, g, work_gates, work_pins, used);
    let counts = Counts {
        inputs: marked.inputs,
        gates: built.gates,
        pins: built.pins,
        outputs: marked.outputs,
    };
    let used_pins = topo_sort(counts, work_gates, work_pins, outputs, gates, pins).ok_or(
        Refusal::CombinationalLoop,
    )?;
    Ok(Counts {
        pins: used_pins,
        ..counts
    })
}

// Checks the covers: refusals 12 and 13.
fn read_covers(
    text: &[u8],
    used: usize,
    marked: Marked,
    gates: &mut [u32],
    pins: &mut [u32],
    outputs: &mut [u32],
    work_gates: &mut [u32],
    work_pins: &mut [u32],
) -> Result<Counts, Refusal>
    requires enough { Enough gates.old pins.old outputs.old work_gates.old work_pins.old }
    requires tokens_in_bounds { marked.tokens ≤ length pins.old }
    requires placing { Placing text.now (take marked.tokens pins.old) gates.old marked.inputs marked.gates marked.outputs
        work_gates.old work_pins.old outputs.old used }
    ensures { Holds (read_text text.now) result gates.new pins.new outputs.new }
{
    let n = marked.tokens;
    check_covers(text, &pins[..n], gates, marked.gates)?;
    read_built(
        text, used, marked, gates, pins, outputs, work_gates, work_pins,
    )
}

// Places the gates: refusal 11.
fn read_blocks(
    text: &[u8],
    index: &[u32],
    marked: Marked,
    gates: &mut [u32],
    pins: &mut [u32],
    outputs: &mut [u32],
    work_gates: &mut [u32],
    work_pins: &mut [u32],
) -> Result<Counts, Refusal>
    requires enough { Enough gates.old pins.old outputs.old work_gates.old work_pins.old }
    requires tokens_in_bounds { marked.tokens ≤ length pins.old }
    requires resolving { Resolving text.now (take marked.tokens pins.old) index.now outputs.old gates.old marked.inputs marked.gates
        marked.outputs }
    ensures { Holds (read_text text.now) result gates.new pins.new outputs.new }
{
    let n = marked.tokens;
    let g = marked.gates;
    let used = place_gates(text, &pins[..n], index, gates, g, work_gates, work_pins)?;
    read_covers(
        text, used, marked, gates, pins, outputs, work_gates, work_pins,
    )
}

// Gives each output its signal: refusal 11.
fn read_outputs(
    text: &[u8],
    index: &[u32],
    marked: Marked,
    gates: &mut [u32],
    pins: &mut [u32],
    outputs: &mut [u32],
    work_gates: &mut [u32],
    work_pins: &mut [u32],
) -> Result<Counts, Refusal>
    requires enough { Enough gates.old pins.old outputs.old work_gates.old work_pins.old }
    requires tokens_in_bounds { marked.tokens ≤ length pins.old }
    requires defining { Defining text.now (take marked.tokens pins.old) index.now work_pins.old gates.old marked.inputs
        marked.gates marked.outputs }
    ensures { Holds (read_text text.now) result gates.new pins.new outputs.new }
{
    let o = marked.outputs;
    if resolve_names(text, index, &work_pins[..o], outputs) {
        read_blocks(
            text, index, marked, gates, pins, outputs, work_gates, work_pins,
        )
    } else {
        Err(Refusal::Undefined)
    }
}

// Enters the names: refusals 7 to 10.
fn read_names(
    text: &[u8],
    n: usize,
    gates: &mut [u32],
    pins: &mut [u32],
    outputs: &mut [u32],
    work_gates: &mut [u32],
    work_pins: &mut [u32],
) -> Result<Counts, Refusal>
    requires enough { Enough gates.old pins.old outputs.old work_gates.old work_pins.old }
    requires n_in_bounds { n ≤ length pins.old }
    requires sized { Sized text.now (take n pins.old) }
    ensures { Holds (read_text text.now) result gates.new pins.new outputs.new }
{
    let mut index = [0u32; INDEX_CELLS];
    let declared = build_name_to_sig(text, &pins[..n], &mut index, work_pins, gates)?;
    let marked = Marked {
        tokens: n,
        inputs: declared.inputs,
        gates: declared.gates,
        outputs: declared.outputs,
    };
    read_outputs(
        text, &index, marked, gates, pins, outputs, work_gates, work_pins,
    )
}

// Marks the tokens: refusals 4 to 6.
fn read_tokens(
    text: &[u8],
    gates: &mut [u32],
    pins: &mut [u32],
    outputs: &mut [u32],
    work_gates: &mut [u32],
    work_pins: &mut [u32],
) -> Result<Counts, Refusal>
    requires enough { Enough gates.old pins.old outputs.old work_gates.old work_pins.old }
    requires plain_text { PlainText text.now }
    ensures { Holds (read_text text.now) result gates.new pins.new outputs.new }
{
    let n = mark_tokens(text, pins);
    first_bad(text, &pins[..n])?;
    if too_large(text, &pins[..n]) {
        Err(Refusal::SizePassed)
    } else {
        read_names(text, n, gates, pins, outputs, work_gates, work_pins)
    }
}

// Reads into cells that suffice: refusals 2 and 3.
fn read_text(
    text: &[u8],
    gates: &mut [u32],
    pins: &mut [u32],
    outputs: &mut [u32],
    work_gates: &mut [u32],
    work_pins: &mut [u32],
) -> Result<Counts, Refusal>
    requires { Enough gates.old pins.old outputs.old work_gates.old work_pins.old }
    ensures { Holds (read_text text.now) result gates.new pins.new outputs.new }
{
    if text.len() > MAX_TEXT {
        Err(Refusal::TextTooLong)
    } else if has_high_byte(text) {
        Err(Refusal::HighByte)
    } else {
        read_tokens(text, gates, pins, outputs, work_gates, work_pins)
    }
}

// Reads into any cells: refusal 1.
fn read_cells(
    text: &[u8],
    gates: &mut [u32],
    pins: &mut [u32],
    outputs: &mut [u32],
    work_gates: &mut [u32],
    work_pins: &mut [u32],
) -> Result<Counts, Refusal>
    ensures { let n = lengths (length gates.old) (length pins.old) (length outputs.old)
        (length work_gates.old) (length work_pins.old) in
        Holds (answered text.now n) result gates.new pins.new outputs.new }
{
    if enough_cells(
        gates.len(),
        pins.len(),
        outputs.len(),
        work_gates.len(),
        work_pins.len(),
    ) {
        read_text(text, gates, pins, outputs, work_gates, work_pins)
    } else {
        Err(Refusal::TooFewCells)
    }
}

// The counts of what was read; none of what was refused.
fn counts_of(answer: Result<Counts, Refusal>) -> Counts
    ensures { result ≡ counts_in answer }
{
    match answer {
        Ok(counts) => counts,
        Err(_) => Counts {
            inputs: 0,
            gates: 0,
            pins: 0,
            outputs: 0,
        },
    }
}

// Zero in every cell from a place on.
fn clear_from(cells: &mut [u32], at: usize)
    ensures { cells.new ≡ overwrite (take at cells.old) (zeros (length cells.old)) }
{
    if at < cells.len() {
        fill_zero(&mut cells[at..]);
    }
}

// Reads a text into the lent cells: the sorted network's gates, pins and outputs, and zero in every other cell.
pub fn read_blif(
    text: &[u8],
    gates: &mut [u32],
    pins: &mut [u32],
    outputs: &mut [u32],
    work_gates: &mut [u32],
    work_pins: &mut [u32],
) -> Result<Counts, Refusal>
    ensures { let n = lengths (length gates.old) (length pins.old) (length outputs.old)
        (length work_gates.old) (length work_pins.old) in
        read_outcome result gates.new pins.new outputs.new work_gates.new work_pins.new
        ≡ read_into text.now n }
{
    let answer = read_cells(text, gates, pins, outputs, work_gates, work_pins);
    let counts = counts_of(answer);
    clear_from(gates, counts.gates * GATE_CELLS);
    clear_from(pins, counts.pins);
    clear_from(outputs, counts.outputs);
    fill_zero(work_gates);
    fill_zero(work_pins);
    answer
}
