// Names that are used: refusal 11, and the gates first placed (Quaigh's src/io/blif.rs: build_network, its first loop).
#![tactic(auto)]

ghost use Rattle.std.specs.Prelude.{map, ◌+◌, ◌≤◌, length, get_or};
ghost use Rattle.lists.specs.Lists.{sum_of};
ghost use Rattle.network.specs.Sizes.{max_gates, max_pins};
ghost use Rattle.blif_text.specs.Decls.{latch};
ghost use Rattle.blif_text.specs.Between.Places.{tokens_of};
ghost use Rattle.blif_text.specs.Between.Walk.{Inside};
ghost use Rattle.blif_text.specs.Between.Blocks.{def_at, defs_at, Blocks};
ghost use Rattle.name_index.specs.Between.Search.{signal_in};
ghost use Rattle.name_index.specs.Between.Index.{entry_count, entries_of, Index};
ghost use Rattle.blif_reading.specs.Between.Working.{placed_count, WorkRoom};
ghost use Rattle.blif_read_signals.specs.Between.Resolve.{Resolved, PlacedBy};
ghost use Rattle.blif_read_signals.specs.Between.Steps.{GateRoom, LatchTokens, latch_of, and_in_hand, GatePlaced, DefPlaced};

use blif_text::{block_at, latch_start, token};
use gates::{Gate, NaryType, PinRun};
use name_index::find_signal;
use network::{lay_gate, put_record};
use refusals::Refusal;
use signal::Signal;

// Writes the signals of names, given by their places; answers whether all were found.
pub fn resolve_names(text: &[u8], index: &[u32], names: &[u32], signals: &mut [u32]) -> bool
    requires index { Index text.now index.now (entry_count index.now) }
    requires inside { Inside text.now names.now (length names.now) × (length names.now ≤ length signals.old) }
    ensures { Resolved (map (signal_in (entries_of text.now index.now (entry_count index.now)))
        (tokens_of text.now names.now)) signals.old
        signals.new result }
{
    for (i, name) in names.iter().enumerate() {
        let s = find_signal(text, index, token(text, *name));
        if s == 0 {
            return false;
        }
        signals[i] = s;
    }
    true
}

// Places gate j for the latch of these tokens, with its pins from cell at on: enable one, reset zero.
fn place_latch(
    text: &[u8],
    tokens: &[u32],
    index: &[u32],
    j: usize,
    gates: &mut [u32],
    pins: &mut [u32],
    at: usize,
) -> Result<usize, Refusal>
    requires index { Index text.now index.now (entry_count index.now) × LatchTokens text.now tokens.now }
    requires gate_room { GateRoom gates.old pins.old j at 3 }
    ensures { let sig = signal_in (entries_of text.now index.now (entry_count index.now)) in
        DefPlaced sig (latch (latch_of text.now tokens.now)) j at gates.old pins.old gates.new pins.new result }
{
    let input = find_signal(text, index, token(text, tokens[0]));
    if input == 0 {
        return Err(Refusal::Undefined);
    }
    let start = latch_start(text, &tokens[2..]).unwrap_or(false);
    let gate = Gate::Dff(Signal { a: input }, Signal::one(), Signal::zero(), start);
    Ok(lay_gate(gates, j, pins, at, gate))
}

// Places gate j for the cover whose inputs have these names, with its pins from cell at on.
fn place_cover(
    text: &[u8],
    names: &[u32],
    index: &[u32],
    j: usize,
    gates: &mut [u32],
    pins: &mut [u32],
    at: usize,
) -> Result<usize, Refusal>
    requires index { Index text.now index.now (entry_count index.now) × Inside text.now names.now (length names.now) }
    requires gate_room { GateRoom gates.old pins.old j at (length names.now) }
    ensures { let sig = signal_in (entries_of text.now index.now (entry_count index.now)) in
        let used = tokens_of text.now names.now in
        GatePlaced sig (and_in_hand at (length names.now)) used (map sig used) j at gates.old pins.old gates.new pins.new result }
{
    if !resolve_names(text, index, names, &mut pins[at..]) {
        return Err(Refusal::Undefined);
    }
    let count = names.len();
    let run = PinRun { first: at, count };
    put_record(gates, j, at, Gate::Nary(NaryType::And, run));
    Ok(at + count)
}

// Places gate j for block j, with its pins from cell at on.
fn place_block(
    text: &[u8],
    tokens: &[u32],
    index: &[u32],
    blocks: &[u32],
    j: usize,
    gates: &mut [u32],
    pins: &mut [u32],
    at: usize,
) -> Result<usize, Refusal>
    requires index { Index text.now index.now (entry_count index.now) × Blocks text.now tokens.now (length tokens.now) blocks.now (j + 1) }
    requires gate_room { GateRoom gates.old pins.old j at (placed_count (def_at text.now tokens.now (length tokens.now) blocks.now j)) }
    ensures { DefPlaced (signal_in (entries_of text.now index.now (entry_count index.now)))
        (def_at text.now tokens.now (length tokens.now) blocks.now j) j at
        gates.old pins.old
        gates.new pins.new result }
{
    let block = block_at(blocks, j);
    let first = block.first;
    if block.names == 0 {
        let behind = first + block.lines;
        place_latch(text, &tokens[first..behind], index, j, gates, pins, at)
    } else {
        let end = first + block.names - 1;
        place_cover(text, &tokens[first..end], index, j, gates, pins, at)
    }
}

// Places a gate for each block: a latch's Dff, and for a cover an And of its inputs.
pub fn place_gates(
    text: &[u8],
    tokens: &[u32],
    index: &[u32],
    blocks: &[u32],
    g: usize,
    gates: &mut [u32],
    pins: &mut [u32],
) -> Result<usize, Refusal>
    requires index { Index text.now index.now (entry_count index.now) × Blocks text.now tokens.now (length tokens.now) blocks.now g }
    requires work_room { WorkRoom gates.old pins.old × (g ≤ max_gates)
        × (sum_of placed_count (defs_at text.now tokens.now (length tokens.now) blocks.now g) ≤ max_pins) }
    ensures { PlacedBy (signal_in (entries_of text.now index.now (entry_count index.now)))
        (defs_at text.now tokens.now (length tokens.now) blocks.now g)
        gates.new pins.new result }
{
    let mut at = 0;
    for j in 0..g {
        at = place_block(text, tokens, index, blocks, j, gates, pins, at)?;
    }
    Ok(at)
}
