// Refusals: a case for each number of documents 01 and 02. What Quaigh answers by a message or a panic is one of these.
#![tactic(auto)]

ghost use Rattle.std.specs.Prelude.{◌≡◌};
ghost use Rattle.refusals.specs.Numbers.{number_of};
ghost use Rattle.refusals.specs.Order.{refuse_if};

// Why a text, a network, rows or a sheet are refused.
#[derive(Clone, Copy)]
pub enum Refusal {
    // too few cells are lent
    TooFewCells = 1,
    // the text is over 32,768 bytes
    TextTooLong = 2,
    // the text has a byte of 128 or more
    HighByte = 3,
    // `.model` lacks a name, or `.latch` has fewer than two
    MissingName = 4,
    // a statement that starts with a dot is not supported
    Unsupported = 5,
    // there are over 256 inputs, 256 outputs, 1,024 gates or 16,384 pins
    SizePassed = 6,
    // there is a second `.model` before any `.end`
    SecondModel = 7,
    // `.end` comes before any `.model`
    EndBeforeModel = 8,
    // `.names` has no names
    NamesEmpty = 9,
    // a name is defined twice
    DefinedTwice = 10,
    // an output, a latch's input or a cover's input is not defined
    Undefined = 11,
    // a cube line is wrong: its tokens, its columns or its output
    WrongCubeLine = 12,
    // the cube lines of a cover differ in output
    OutputsDiffer = 13,
    // there is a combinational loop
    CombinationalLoop = 14,
    // what is lent is no network
    NotANetwork = 20,
    // an Xor or Xnor of any number of inputs has over 12
    WideExclusive = 21,
    // the text does not fit into the output slice or into 32,768 bytes
    TextDoesNotFit = 22,
    // a combinational gate has a gate input whose number is not lower than its own
    NotSorted = 29,
    // a flip-flop has another enable or reset
    OtherFlipFlop = 30,
    // a row has the wrong length, another character or no LF, or the output rows do not fit
    WrongRows = 31,
    // a sheet line is missing, misformed or left over, or the sheet is over 40,960 bytes
    WrongSheet = 32,
    // the network has no output
    NoOutput = 33,
    // a latch's start value is not 0, 1, 2 or 3
    WrongStart = 34,
}

// The refusal where the test holds.
pub fn refuse_if(test: bool, refusal: Refusal) -> Result<(), Refusal>
    ensures { result ≡ refuse_if test refusal }
{
    if test {
        return Err(refusal);
    }
    Ok(())
}

impl Refusal {
    // Its number in documents 01 and 02.
    pub fn number(self) -> u32
        ensures { result ≡ number_of self }
    {
        self as u32
    }
}
