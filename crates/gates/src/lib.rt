// Gates: their forms, types, form numbers and pin counts (Quaigh's src/network/gates.rs).
#![tactic(auto)]

ghost use Rattle.std.specs.Prelude.{◌≡◌};
ghost use Rattle.gates.specs.Between.Forms.{kind_of, kind_takes, kind_starts, kind_number};
ghost use Rattle.gates.specs.Between.Decode.{pin_count, start_in, kind_of_gate, kind_comb, cell_signal, kind_gate, with_pins};

use signal::Signal;

// Form numbers, for those who look at a record's form alone.
pub const NARY_XOR: u32 = 11;

pub const NARY_XNOR: u32 = 12;

pub const BUF: u32 = 13;

pub const DFF: u32 = 14;

// The types of gates, each with its form number.
#[derive(Clone, Copy)]
pub enum BinaryType {
    And = 1,
    Xor = 2,
}

#[derive(Clone, Copy)]
pub enum TernaryType {
    And = 3,
    Xor = 4,
    Maj = 5,
    Mux = 6,
}

#[derive(Clone, Copy)]
pub enum NaryType {
    And = 7,
    Or = 8,
    Nand = 9,
    Nor = 10,
    Xor = 11,
    Xnor = 12,
}

// A run of pin cells.
#[derive(Clone, Copy)]
pub struct PinRun {
    pub first: usize,
    pub count: usize,
}

// A gate in hand: its form, which carries its type, beside its signals or its run of pins.
#[derive(Clone, Copy)]
pub enum Gate {
    Binary(BinaryType, Signal, Signal),
    Ternary(TernaryType, Signal, Signal, Signal),
    Nary(NaryType, PinRun),
    Buf(Signal),
    // data, enable, reset, and the start value
    Dff(Signal, Signal, Signal, bool),
}

// What a form number says of a gate: its form and type.
#[derive(Clone, Copy)]
pub enum Kind {
    Binary(BinaryType),
    Ternary(TernaryType),
    Nary(NaryType),
    Buf,
    Dff,
    Unknown,
}

// The kind of a form number.
pub fn kind_of(form: u32) -> Kind
    ensures { result ≡ kind_of form }
{
    match form {
        1 => Kind::Binary(BinaryType::And),
        2 => Kind::Binary(BinaryType::Xor),
        3 => Kind::Ternary(TernaryType::And),
        4 => Kind::Ternary(TernaryType::Xor),
        5 => Kind::Ternary(TernaryType::Maj),
        6 => Kind::Ternary(TernaryType::Mux),
        7 => Kind::Nary(NaryType::And),
        8 => Kind::Nary(NaryType::Or),
        9 => Kind::Nary(NaryType::Nand),
        10 => Kind::Nary(NaryType::Nor),
        11 => Kind::Nary(NaryType::Xor),
        12 => Kind::Nary(NaryType::Xnor),
        13 => Kind::Buf,
        14 => Kind::Dff,
        _ => Kind::Unknown,
    }
}

impl Kind {
    // The form number, 0 for an unknown kind.
    pub fn number(self) -> u32
        ensures { result ≡ kind_number self }
    {
        match self {
            Kind::Binary(t) => t as u32,
            Kind::Ternary(t) => t as u32,
            Kind::Nary(t) => t as u32,
            Kind::Buf => BUF,
            Kind::Dff => DFF,
            Kind::Unknown => 0,
        }
    }

    // Whether a gate of this kind can have so many pins.
    pub fn takes(self, count: usize) -> bool
        ensures { result ≡ kind_takes self count }
    {
        match self {
            Kind::Binary(_) => count == 2,
            Kind::Ternary(_) => count == 3,
            Kind::Nary(_) => true,
            Kind::Buf => count == 1,
            Kind::Dff => count == 3,
            Kind::Unknown => false,
        }
    }

    // Whether a gate of this kind can have this start value.
    pub fn starts(self, start: u32) -> bool
        ensures { result ≡ kind_starts self start }
    {
        match self {
            Kind::Binary(_) => start == 0,
            Kind::Ternary(_) => start == 0,
            Kind::Nary(_) => start == 0,
            Kind::Buf => start == 0,
            Kind::Dff => start <= 1,
            Kind::Unknown => start == 0,
        }
    }

    // Whether it is combinational.
    pub fn is_comb(self) -> bool
        ensures { result ≡ kind_comb self }
    {
        match self {
            Kind::Binary(_) => true,
            Kind::Ternary(_) => true,
            Kind::Nary(_) => true,
            Kind::Buf => true,
            Kind::Dff => false,
            Kind::Unknown => false,
        }
    }

    // The gate of this kind with a start value and the pins of its run, which starts at cell first.
    #[tactic(auto, unfolding(crate::specs::Between::Decode::with_pins))]
    pub fn with_pins(self, first: usize, start: u32, run: &[u32]) -> Option<Gate>
        ensures { result ≡ with_pins self first start run.now }
    {
        if self.takes(run.len()) && self.starts(start) {
            gate_of(self, first, start, run)
        } else {
            None
        }
    }
}

// The signal in a cell of the run, zero past its end.
fn signal_at(run: &[u32], i: usize) -> Signal
    ensures { result ≡ cell_signal run.now i }
{
    Signal {
        a: run.get(i).copied().unwrap_or(0),
    }
}

// The gate of a kind that can have the run's pins.
fn gate_of(k: Kind, first: usize, start: u32, run: &[u32]) -> Option<Gate>
    ensures { result ≡ kind_gate k first start run.now }
{
    match k {
        Kind::Binary(t) => { Some(Gate::Binary(t, signal_at(run, 0), signal_at(run, 1))) }
        Kind::Ternary(t) => Some(Gate::Ternary(
            t,
            signal_at(run, 0),
            signal_at(run, 1),
            signal_at(run, 2),
        )),
        Kind::Nary(t) => Some(Gate::Nary(
            t,
            PinRun {
                first,
                count: run.len(),
            },
        )),
        Kind::Buf => Some(Gate::Buf(signal_at(run, 0))),
        Kind::Dff => Some(Gate::Dff(
            signal_at(run, 0),
            signal_at(run, 1),
            signal_at(run, 2),
            start == 1,
        )),
        Kind::Unknown => None,
    }
}

impl Gate {
    // The gate's kind.
    pub fn kind(self) -> Kind
        ensures { result ≡ kind_of_gate self }
    {
        match self {
            Gate::Binary(t, _, _) => Kind::Binary(t),
            Gate::Ternary(t, _, _, _) => Kind::Ternary(t),
            Gate::Nary(t, _) => Kind::Nary(t),
            Gate::Buf(_) => Kind::Buf,
            Gate::Dff(_, _, _, _) => Kind::Dff,
        }
    }

    // Whether the gate is combinational.
    pub fn is_comb(self) -> bool
        ensures { result ≡ kind_comb (kind_of_gate self) }
    {
        self.kind().is_comb()
    }

    // How many pins the gate has.
    pub fn pin_count(self) -> usize
        ensures { result ≡ pin_count self }
    {
        match self {
            Gate::Binary(_, _, _) => 2,
            Gate::Ternary(_, _, _, _) => 3,
            Gate::Nary(_, run) => run.count,
            Gate::Buf(_) => 1,
            Gate::Dff(_, _, _, _) => 3,
        }
    }

    // The gate's start value.
    pub fn start(self) -> bool
        ensures { result ≡ start_in self }
    {
        match self {
            Gate::Binary(_, _, _) => false,
            Gate::Ternary(_, _, _, _) => false,
            Gate::Nary(_, _) => false,
            Gate::Buf(_) => false,
            Gate::Dff(_, _, _, start) => start,
        }
    }
}
