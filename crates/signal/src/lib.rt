// Signals: 32-bit numbers built, inverted and split by shifts and masks (Quaigh's src/network/signal.rs).
#![tactic(auto)]

ghost use Rattle.std.specs.Prelude.{◌≡◌, ◌*◌, ◌/◌, ◌%◌, ◌^◌};
ghost use Rattle.signal.specs.Signal.{zero_s, one_s, plain, invert, xor_s, const_node};
ghost use Rattle.signal.specs.Between.Signal.{input_node, gate_node};
ghost use Rattle.signal.specs.Cell.{sig_cell, node_of, sig_of};
ghost use Rattle.signal.specs.Between.Cell.{gate_cell, input_cell, gate_number, input_number, remap_cell};

// A constant, an input or a gate, or its complement: bit 0 is the inversion, bit 31 marks an input.
#[derive(Clone, Copy)]
pub struct Signal {
    pub a: u32,
}

impl Signal {
    // Constant zero.
    pub fn zero() -> Signal
        ensures { result.a ≡ sig_cell zero_s }
    {
        Signal { a: 0 }
    }

    // Constant one.
    pub fn one() -> Signal
        ensures { result.a ≡ sig_cell one_s }
    {
        Signal { a: 1 }
    }

    // The signal of gate v.
    pub fn from_var(v: u32) -> Signal
        ensures { result.a ≡ gate_cell v }
    {
        Self::from_ind(std::num::wrapping_add_u32(v, 1))
    }

    // The signal of input v.
    pub fn from_input(v: u32) -> Signal
        ensures { result.a ≡ input_cell v }
    {
        Self::from_ind(!v)
    }

    // The signal of an index: 0 for the constant zero.
    fn from_ind(v: u32) -> Signal
        ensures { result.a ≡ v * 2 % 2 ^ 32 }
    {
        Signal { a: v << 1 }
    }

    // The number of a gate's signal.
    pub fn var(self) -> u32
        ensures { result ≡ gate_number self.a }
    {
        std::num::wrapping_sub_u32(self.ind(), 1)
    }

    // The number of an input's signal.
    pub fn input(self) -> u32
        ensures { result ≡ input_number self.a }
    {
        !self.ind() & !0x8000_0000
    }

    // The index: 0 for a constant, a gate's number and one.
    pub fn ind(self) -> u32
        ensures { result ≡ self.a / 2 }
    {
        self.a >> 1
    }

    // Whether it is a constant.
    pub fn is_constant(self) -> bool
        ensures { result ≡ const_node (node_of self.a) }
    {
        self.ind() == 0
    }

    // Whether it is an input, inverted or not.
    pub fn is_input(self) -> bool
        ensures { result ≡ input_node (node_of self.a) }
    {
        self.a & 0x8000_0000 != 0
    }

    // Whether it is a gate, inverted or not.
    pub fn is_var(self) -> bool
        ensures { result ≡ gate_node (node_of self.a) }
    {
        !self.is_input() && !self.is_constant()
    }

    // The signal with its inversion cleared.
    pub fn without_inversion(self) -> Signal
        ensures { result.a ≡ sig_cell (plain (node_of self.a)) }
    {
        Signal { a: self.a & !1u32 }
    }

    // Whether it is inverted: false for zero, true for one.
    pub fn is_inverted(self) -> bool
        ensures { result ≡ (sig_of self.a).inv }
    {
        self.a & 1 != 0
    }

    // The number itself.
    pub fn raw(self) -> u32
        ensures { result ≡ self.a }
    {
        self.a
    }

    // The signal with its gate's new number out of t, which holds one for each gate.
    pub fn remap_order(self, t: &[u16]) -> Signal
        ensures { result.a ≡ remap_cell t.now self.a }
    {
        if !self.is_var() {
            return self;
        }
        match t.get(self.var() as usize) {
            Some(v) => Self::from_var(u32::from(*v)).xor(self.is_inverted()),
            None => self,
        }
    }

    // The signal inverted.
    pub fn not(self) -> Signal
        ensures { result.a ≡ sig_cell (invert (sig_of self.a)) }
    {
        Signal { a: self.a ^ 1 }
    }

    // The signal, inverted where b is true.
    pub fn xor(self, b: bool) -> Signal
        ensures { result.a ≡ sig_cell (xor_s (sig_of self.a) b) }
    {
        Signal {
            a: self.a ^ (b as u32),
        }
    }
}
