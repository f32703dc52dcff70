// The gates of covers (Quaigh's src/io/blif.rs: build_network, its second loop).
#![tactic(auto)]

ghost use Rattle.std.specs.Prelude.{◌≡◌, map, ◌+◌, ◌≤◌, ◌<◌, length, get_or, take, drop};
ghost use Rattle.lists.specs.Between.Lists.{overwrite_at};
ghost use Rattle.signal.specs.Cell.{sig_cell};
ghost use Rattle.network.specs.Sizes.{max_gates};
ghost use Rattle.network.specs.Record.{first_at, count_at};
ghost use Rattle.network.specs.Between.Record.{RecordIn};
ghost use Rattle.blif_text.specs.Decls.{columns, is_one};
ghost use Rattle.blif_text.specs.Between.Places.{tokens_of};
ghost use Rattle.blif_text.specs.Between.Walk.{rows_from, Inside};
ghost use Rattle.blif_text.specs.Between.Blocks.{def_at, defs_at, Blocks};
ghost use Rattle.blif_reading.specs.Build.{gate_run};
ghost use Rattle.blif_reading.specs.Read.{added};
ghost use Rattle.blif_read_gates.specs.Between.Covers.{Buildable, BuiltBy};
ghost use Rattle.blif_read_gates.specs.Between.Steps.{column_cells, literals_at, single_cell, line_in_hand, join_in_hand, LineRoom, LinePut};
ghost use Rattle.blif_read_gates.specs.Between.Steps.{GoodRow, GoodRows, LinesRoom, LinesPut, CoverRoom, CoverBuilt, BlockRoom, BlockBuilt};

use blif_text::{block_at, line_columns, row_end};
use gates::{Gate, NaryType, PinRun};
use lists::equal;
use network::{count_at, first_at, lay_gate, put_record};
use signal::Signal;

// How many gates are built, and how many pins are in use.
#[derive(Clone, Copy)]
pub struct Built {
    pub gates: usize,
    pub pins: usize,
}

// The sources of a cover: the run of pins that its And has.
#[derive(Clone, Copy)]
struct Sources {
    first: usize,
    count: usize,
}

// The lines of a cover: the first one's first token, and how many there are.
#[derive(Clone, Copy)]
struct Lines {
    row: usize,
    count: usize,
}

// The sources of the cover that is gate j.
fn sources_at(gates: &[u32], j: usize) -> Sources
    requires { RecordIn gates.now j }
    ensures { (result.first ≡ first_at gates.now j) × (result.count ≡ count_at gates.now j) }
{
    let first = first_at(gates, j);
    let count = count_at(gates, j);
    Sources { first, count }
}

// Writes the literal of a column, none for a dash. Answers how many are written.
fn write_literal(column: u8, source: u32, pins: &mut [u32], at: usize) -> usize
    requires { at < length pins.old }
    ensures { (pins.new ≡ overwrite_at at (column_cells column source) pins.old)
        × (result ≡ length (column_cells column source)) }
{
    match column {
        b'0' => {
            pins[at] = Signal { a: source }.not().raw();
            1
        }
        b'1' => {
            pins[at] = source;
            1
        }
        _ => 0,
    }
}

// Writes the literals of a line from pin at on; its sources are the pins from source on. Answers how many are written.
fn write_literals(columns: &[u8], pins: &mut [u32], source: usize, at: usize) -> usize
    requires { (source + length columns.now ≤ at) × (at + length columns.now ≤ length pins.old) }
    ensures { (pins.new ≡ overwrite_at at (literals_at columns.now source pins.old) pins.old)
        × (result ≡ length (literals_at columns.now source pins.old)) }
{
    let mut m = 0;
    for (i, column) in columns.iter().enumerate() {
        let cell = pins[source + i];
        m += write_literal(*column, cell, pins, at + m);
    }
    m
}

// The pin of a line's Buf, with this many literals from pin at on, none or one.
fn single_pin(count: usize, pins: &[u32], at: usize, one: bool) -> u32
    requires { at < length pins.now }
    ensures { result ≡ single_cell one count (get_or pins.now at 0) }
{
    if count == 0 {
        return Signal::zero().xor(one).raw();
    }
    let literal = pins[at];
    if one {
        literal
    } else {
        Signal { a: literal }.not().raw()
    }
}

// The gate of a line, whose literals stand from pin at on.
fn line_gate(count: usize, pins: &[u32], at: usize, one: bool) -> Gate
    requires { (at < length pins.now) × (at + count ≤ length pins.now) }
    ensures { result ≡ line_in_hand one at (take count (drop at pins.now)) }
{
    if count > 1 {
        let kind = if one { NaryType::And } else { NaryType::Nand };
        Gate::Nary(kind, PinRun { first: at, count })
    } else {
        Gate::Buf(Signal {
            a: single_pin(count, pins, at, one),
        })
    }
}

// The gate that joins lines, whose gates' signals stand from pin at on.
fn join_gate(one: bool, at: usize, count: usize) -> Gate
    ensures { result ≡ join_in_hand one at count }
{
    let kind = if one { NaryType::Or } else { NaryType::And };
    Gate::Nary(kind, PinRun { first: at, count })
}

// Lays a line's gate as gate h, its pins from pin at on. Answers the pins' end.
fn put_line(
    columns: &[u8],
    one: bool,
    gates: &mut [u32],
    h: usize,
    pins: &mut [u32],
    source: usize,
    at: usize,
) -> usize
    requires { LineRoom (length columns.now) source at h gates.old pins.old }
    ensures { LinePut columns.now one source at h gates.old pins.old
        gates.new pins.new result }
{
    let count = write_literals(columns, pins, source, at);
    let gate = line_gate(count, pins, at, one);
    lay_gate(gates, h, pins, at, gate)
}

// Whether the output of a line with one or two tokens is 1.
fn is_one(text: &[u8], row: &[u32]) -> bool
    requires { (0 < length row.now) × (length row.now < 3) × Inside text.now row.now (length row.now) }
    ensures { result ≡ is_one (tokens_of text.now row.now) }
{
    equal(blif_text::token(text, row[row.len() - 1]), b"1")
}

// Lays the gate of the line with these tokens as gate h. Answers the pins' end.
fn put_row(
    text: &[u8],
    row: &[u32],
    sources: Sources,
    gates: &mut [u32],
    h: usize,
    pins: &mut [u32],
    at: usize,
) -> usize
    requires good_row { GoodRow text.now row.now sources.count }
    requires line_room { LineRoom sources.count sources.first at h gates.old pins.old }
    ensures { LinePut (columns (tokens_of text.now row.now)) (is_one (tokens_of text.now row.now))
        sources.first at h gates.old pins.old
        gates.new pins.new result }
{
    let columns = line_columns(text, row);
    let one = is_one(text, row);
    put_line(columns, one, gates, h, pins, sources.first, at)
}

// Writes the signals of the gates next, next + 1, .. from pin at on.
fn put_joins(pins: &mut [u32], at: usize, next: usize, count: usize)
    requires { (at + count ≤ length pins.old) × (next + count ≤ max_gates) }
    ensures { pins.new ≡ overwrite_at at (map sig_cell (gate_run next count)) pins.old }
{
    for k in 0..count {
        pins[at + k] = Signal::from_var((next + k) as u32).raw();
    }
}

// Puts the gates of a cover's lines behind those built. Answers the pins' end.
fn build_lines(
    text: &[u8],
    tokens: &[u32],
    lines: Lines,
    sources: Sources,
    gates: &mut [u32],
    pins: &mut [u32],
    built: Built,
) -> usize
    requires good_rows { GoodRows text.now tokens.now (length tokens.now) lines.row lines.count sources.count }
    requires lines_room { LinesRoom sources.count lines.count sources.first built.pins built.gates gates.old pins.old }
    ensures { LinesPut
        (take lines.count (rows_from text.now tokens.now (length tokens.now) lines.row))
        sources.count sources.first built.pins built.gates gates.old pins.old
        gates.new pins.new result }
{
    let mut row = lines.row;
    let mut at = built.pins;
    for k in 0..lines.count {
        let end = row_end(tokens, row);
        let line = &tokens[row..end];
        at = put_row(text, line, sources, gates, built.gates + k, pins, at);
        row = end;
    }
    at
}

// Joins the gates of two or more lines in gate j, and puts them behind those built. Answers the pins' end.
fn join_lines(
    text: &[u8],
    tokens: &[u32],
    lines: Lines,
    j: usize,
    gates: &mut [u32],
    pins: &mut [u32],
    built: Built,
) -> usize
    requires lt_count { (1 < lines.count) × GoodRows text.now tokens.now (length tokens.now) lines.row lines.count (count_at gates.old j) }
    requires cover_room { CoverRoom lines.count j built.gates built.pins gates.old pins.old }
    ensures { CoverBuilt
        (take lines.count (rows_from text.now tokens.now (length tokens.now) lines.row)) j
        built.gates built.pins gates.old pins.old
        gates.new pins.new result }
{
    let sources = sources_at(gates, j);
    let row = lines.row;
    let end = row_end(tokens, row);
    let one = is_one(text, &tokens[row..end]);
    put_joins(pins, built.pins, built.gates, lines.count);
    let gate = join_gate(one, built.pins, lines.count);
    put_record(gates, j, built.pins, gate);
    let joined = Built {
        gates: built.gates,
        pins: built.pins + lines.count,
    };
    build_lines(text, tokens, lines, sources, gates, pins, joined)
}

// Puts a cover's gate in place of its And, gate j, and those of two or more lines behind the gates built.
// Answers the pins' end.
fn build_cover(
    text: &[u8],
    tokens: &[u32],
    lines: Lines,
    j: usize,
    gates: &mut [u32],
    pins: &mut [u32],
    built: Built,
) -> usize
    requires good_rows { GoodRows text.now tokens.now (length tokens.now) lines.row lines.count (count_at gates.old j) }
    requires cover_room { CoverRoom lines.count j built.gates built.pins gates.old pins.old }
    ensures { CoverBuilt
        (take lines.count (rows_from text.now tokens.now (length tokens.now) lines.row)) j
        built.gates built.pins gates.old pins.old
        gates.new pins.new result }
{
    match lines.count {
        0 => lay_gate(gates, j, pins, built.pins, Gate::Buf(Signal::zero())),
        1 => {
            let sources = sources_at(gates, j);
            let row = lines.row;
            let end = row_end(tokens, row);
            let line = &tokens[row..end];
            put_row(text, line, sources, gates, j, pins, built.pins)
        }
        _ => join_lines(text, tokens, lines, j, gates, pins, built),
    }
}

// How many gates a cover with this many lines adds.
#[tactic(auto, unfolding(blif_reading::specs::Read::added))]
fn new_gates(count: usize) -> usize
    ensures { result ≡ added count }
{
    if count > 1 { count } else { 0 }
}

// Builds the gates of block j: a latch's gate stays.
fn build_block(
    text: &[u8],
    tokens: &[u32],
    blocks: &[u32],
    j: usize,
    gates: &mut [u32],
    pins: &mut [u32],
    built: Built,
) -> Built
    requires blocks { Blocks text.now tokens.now (length tokens.now) blocks.now (j + 1) }
    requires block_room { BlockRoom (def_at text.now tokens.now (length tokens.now) blocks.now j) j built.gates built.pins gates.old
        pins.old }
    ensures { BlockBuilt (def_at text.now tokens.now (length tokens.now) blocks.now j) j
        built.gates built.pins gates.old pins.old
        gates.new pins.new result.gates result.pins }
{
    let block = block_at(blocks, j);
    if block.names == 0 {
        return built;
    }
    let row = block.first + block.names;
    let count = block.lines;
    let at = build_cover(text, tokens, Lines { row, count }, j, gates, pins, built);
    Built {
        gates: built.gates + new_gates(count),
        pins: at,
    }
}

// Builds the gates of every cover in place of the And placed first, and those of its lines behind the last gate.
pub fn build_covers(
    text: &[u8],
    tokens: &[u32],
    blocks: &[u32],
    g: usize,
    gates: &mut [u32],
    pins: &mut [u32],
    used: usize,
) -> Built
    requires blocks { Blocks text.now tokens.now (length tokens.now) blocks.now g }
    requires buildable { Buildable (defs_at text.now tokens.now (length tokens.now) blocks.now g) gates.old pins.old used }
    ensures { BuiltBy (defs_at text.now tokens.now (length tokens.now) blocks.now g)
        gates.old pins.old used
        gates.new pins.new result }
{
    let mut built = Built {
        gates: g,
        pins: used,
    };
    for j in 0..g {
        built = build_block(text, tokens, blocks, j, gates, pins, built);
    }
    built
}
