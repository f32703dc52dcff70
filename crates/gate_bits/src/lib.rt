// The bits of signals at a clock, in a table by signal, and what a gate makes of its inputs' bits (document 01, "A clock").
#![tactic(auto)]

ghost use Rattle.std.specs.Prelude.{◌≡◌, not, ◌+◌, ◌-◌, ◌<◌, min, length, set};
ghost use Rattle.lists.specs.Lists.{any};
ghost use Rattle.signal.specs.Signal.{invert_if};
ghost use Rattle.gates.specs.Gate.{odd, form_bit};
ghost use Rattle.gates.specs.Between.Forms.{binary_form, ternary_form, nary_form};
ghost use Rattle.gate_bits.specs.Between.Slots.{slot_count, slot_of, slot_or, run_slots, bit_at, pin_bits, bits_in, SixSlots};
ghost use Rattle.gate_bits.specs.Between.Tables.{mask_of, truth_bit, form_table, kind_table, kind_pad, wide_bit};

use gates::{BinaryType, Kind, NaryType, TernaryType};

// The inputs of a gate that one look into a truth table takes.
pub const TABLE_INPUTS: usize = 6;

// ---- a table of bits

// The slot of a signal, its low twelve bits: a table has 4,096, of which 1,024 gates, 256 inputs and the constants take some.
fn slot_of(cell: u32) -> u16
    ensures { result ≡ slot_of cell }
{
    (cell & 0xfff) as u16
}

// The bit of a signal.
pub fn signal_bit(bits: &[bool], cell: u32) -> bool
    requires { length bits.now ≡ slot_count }
    ensures { result ≡ bit_at bits.now cell }
{
    bits[(cell & 0xfff) as usize]
}

// Puts the bit of the signal in a slot, and the other bit of the same signal inverted, in the next.
pub fn put_bit(bits: &mut [bool], slot: usize, b: bool)
    requires { slot + 1 < length bits.old }
    ensures { bits.new ≡ set (set bits.old slot b) (slot + 1) (not b) }
{
    bits[slot] = b;
    bits[slot + 1] = !b;
}

// ---- what a gate of any number of inputs makes of their bits

// Whether a pin's bit is one; where inverted is true, whether one is zero.
fn any_in(bits: &[bool], run: &[u32], inverted: bool) -> bool
    requires { length bits.now ≡ slot_count }
    ensures { result ≡ any (invert_if inverted) (pin_bits bits.now run.now) }
{
    let mut found = false;
    for pin in run {
        found |= signal_bit(bits, *pin) != inverted;
    }
    found
}

// The end of the next part of eight pins, or of what is left.
fn part_end(at: usize, len: usize) -> usize
    requires { at < len }
    ensures { result ≡ at + min 8 (len - at) }
{
    at + (len - at).min(8)
}

// The same as any_in, by parts of eight pins, up to the first that has such a bit.
fn any_one(bits: &[bool], run: &[u32], inverted: bool) -> bool
    requires { length bits.now ≡ slot_count }
    ensures { result ≡ any (invert_if inverted) (pin_bits bits.now run.now) }
{
    let mut at = 0;
    while at < run.len() {
        let end = part_end(at, run.len());
        if any_in(bits, &run[at..end], inverted) {
            return true;
        }
        at = end;
    }
    false
}

// Whether an odd number of the pins' bits is one.
fn odd_ones(bits: &[bool], run: &[u32]) -> bool
    requires { length bits.now ≡ slot_count }
    ensures { result ≡ odd (pin_bits bits.now run.now) }
{
    let mut found = false;
    for pin in run {
        found = found != signal_bit(bits, *pin);
    }
    found
}

// What a Nary gate makes of its pins' bits.
fn nary_bit(t: NaryType, bits: &[bool], run: &[u32]) -> bool
    requires { length bits.now ≡ slot_count }
    ensures { result ≡ form_bit (nary_form t) (pin_bits bits.now run.now) }
{
    match t {
        NaryType::And => !any_one(bits, run, true),
        NaryType::Or => any_one(bits, run, false),
        NaryType::Nand => any_one(bits, run, true),
        NaryType::Nor => !any_one(bits, run, false),
        NaryType::Xor => odd_ones(bits, run),
        NaryType::Xnor => !odd_ones(bits, run),
    }
}

// What a gate makes of more pins than a truth table takes: only a Nary gate has so many.
pub fn wide_bit(k: Kind, bits: &[bool], run: &[u32]) -> bool
    requires { length bits.now ≡ slot_count }
    ensures { result ≡ wide_bit k (pin_bits bits.now run.now) }
{
    match k {
        Kind::Binary(_) => false,
        Kind::Ternary(_) => false,
        Kind::Nary(t) => nary_bit(t, bits, run),
        Kind::Buf => false,
        Kind::Dff => false,
        Kind::Unknown => false,
    }
}

// ---- truth tables

fn binary_table(t: BinaryType) -> u64
    ensures { result ≡ form_table (binary_form t) }
{
    match t {
        BinaryType::And => 0x8888_8888_8888_8888,
        BinaryType::Xor => 0x6666_6666_6666_6666,
    }
}

fn ternary_table(t: TernaryType) -> u64
    ensures { result ≡ form_table (ternary_form t) }
{
    match t {
        TernaryType::And => 0x8080_8080_8080_8080,
        TernaryType::Xor => 0x9696_9696_9696_9696,
        TernaryType::Maj => 0xe8e8_e8e8_e8e8_e8e8,
        TernaryType::Mux => 0xd8d8_d8d8_d8d8_d8d8,
    }
}

fn nary_table(t: NaryType) -> u64
    ensures { result ≡ form_table (nary_form t) }
{
    match t {
        NaryType::And => 0x8000_0000_0000_0000,
        NaryType::Or => 0xffff_ffff_ffff_fffe,
        NaryType::Nand => 0x7fff_ffff_ffff_ffff,
        NaryType::Nor => 0x0000_0000_0000_0001,
        NaryType::Xor => 0x6996_9669_9669_6996,
        NaryType::Xnor => 0x9669_6996_6996_9669,
    }
}

// The truth table of a kind of gate: bit m is what it makes of six bits, of which bit i is bit i of m.
pub fn table_of(k: Kind) -> u64
    ensures { result ≡ kind_table k }
{
    match k {
        Kind::Binary(t) => binary_table(t),
        Kind::Ternary(t) => ternary_table(t),
        Kind::Nary(t) => nary_table(t),
        Kind::Buf => 0xaaaa_aaaa_aaaa_aaaa,
        Kind::Dff => 0,
        Kind::Unknown => 0,
    }
}

fn nary_pad(t: NaryType) -> u16
    ensures { result ≡ kind_pad (Kind.Nary t) }
{
    match t {
        NaryType::And => 1,
        NaryType::Or => 0,
        NaryType::Nand => 1,
        NaryType::Nor => 0,
        NaryType::Xor => 0,
        NaryType::Xnor => 0,
    }
}

// The slot of the constant that stands for an input that a gate of this kind does not have, and changes nothing.
pub fn pad_of(k: Kind) -> u16
    ensures { result ≡ kind_pad k }
{
    match k {
        Kind::Binary(_) => 0,
        Kind::Ternary(_) => 0,
        Kind::Nary(t) => nary_pad(t),
        Kind::Buf => 0,
        Kind::Dff => 0,
        Kind::Unknown => 0,
    }
}

// The slot of pin i, or else the other.
fn slot_or(run: &[u32], i: usize, pad: u16) -> u16
    ensures { result ≡ slot_or run.now pad i }
{
    run.get(i).map_or(pad, |cell| slot_of(*cell))
}

// Lays the slots of the first six pins, with the pad for those that are not there.
pub fn lay_slots(run: &[u32], pad: u16, slots: &mut [u16])
    ensures { slots.new ≡ run_slots run.now pad (length slots.old) }
{
    for (i, slot) in slots.iter_mut().enumerate() {
        *slot = slot_or(run, i, pad);
    }
}

// The number whose bit i is the bit in slot i of six.
fn mask_of(bits: &[bool], slots: &[u16]) -> u64
    requires { SixSlots slots.now bits.now }
    ensures { result ≡ mask_of (bits_in bits.now slots.now) }
{
    let a = bits[slots[0] as usize] as u64;
    let b = bits[slots[1] as usize] as u64;
    let c = bits[slots[2] as usize] as u64;
    let d = bits[slots[3] as usize] as u64;
    let e = bits[slots[4] as usize] as u64;
    let f = bits[slots[5] as usize] as u64;
    a + 2 * (b + 2 * (c + 2 * (d + 2 * (e + 2 * f))))
}

// What a truth table makes of the bits in six slots.
pub fn table_bit(bits: &[bool], slots: &[u16], table: u64) -> bool
    requires { SixSlots slots.now bits.now }
    ensures { result ≡ truth_bit table (bits_in bits.now slots.now) }
{
    let m = mask_of(bits, slots);
    (table >> m) & 1 == 1
}
