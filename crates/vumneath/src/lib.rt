// The functions that programs in C, Rust and Python link; bindings/c/vumneath.h declares them.
#![tactic(auto)]

ghost use Rattle.std.specs.Prelude.{◌≡◌, length};
ghost use Rattle.network.specs.Cells.{lent};
ghost use Rattle.blif_read.specs.Into.{lengths, read_into};
ghost use Rattle.blif_write.specs.Into.{write_into};
ghost use Rattle.run_rows.specs.Into.{run_into};
ghost use Rattle.vumneath.specs.Handed.{interface_number, network_of, text_for, rows_for, counts_from, ReadHanded, WriteHanded, RunHanded};
ghost use Rattle.vumneath.specs.Between.Handed.{CountsFit, LengthFits};

use blif_read::read_blif;
use blif_write::write_blif;
use network::Counts;
use refusals::Refusal;
use run_rows::run_rows;

// What reading answers: refused is zero and the counts are those of the network, or refused is the refusal's number and the counts are
// zero.
#[repr(C)]
#[derive(Clone, Copy)]
pub struct VumneathNetwork {
    pub refused: u32,
    pub inputs: u32,
    pub gates: u32,
    pub pins: u32,
    pub outputs: u32,
}

// What writing answers: refused is zero and the length is the text's, or refused is the refusal's number and the length is zero.
#[repr(C)]
#[derive(Clone, Copy)]
pub struct VumneathText {
    pub refused: u32,
    pub length: u32,
}

// What a run answers: refused is zero and the length is that of the rows written, or refused is the refusal's number and the length is
// zero.
#[repr(C)]
#[derive(Clone, Copy)]
pub struct VumneathRows {
    pub refused: u32,
    pub length: usize,
}

// The number of the interface. It rises where a caller that was built for the one before would lend too few cells or lay records wrongly.
#[unsafe(no_mangle)]
pub extern "C" fn vumneath_interface() -> u32
    ensures { result ≡ interface_number }
{
    2
}

// The counts that C hands over.
fn counts_of(inputs: u32, gate_count: u32, pin_count: u32, output_count: u32) -> Counts
    ensures { result ≡ counts_from inputs gate_count pin_count output_count }
{
    Counts {
        inputs: inputs as usize,
        gates: gate_count as usize,
        pins: pin_count as usize,
        outputs: output_count as usize,
    }
}

// The reader's answer in C's layout.
fn network_of(answer: Result<Counts, Refusal>) -> VumneathNetwork
    requires { CountsFit answer }
    ensures { result ≡ network_of answer }
{
    match answer {
        Ok(counts) => VumneathNetwork {
            refused: 0,
            inputs: counts.inputs as u32,
            gates: counts.gates as u32,
            pins: counts.pins as u32,
            outputs: counts.outputs as u32,
        },
        Err(refusal) => VumneathNetwork {
            refused: refusal.number(),
            inputs: 0,
            gates: 0,
            pins: 0,
            outputs: 0,
        },
    }
}

// The writer's answer in C's layout.
fn text_of(answer: Result<usize, Refusal>) -> VumneathText
    requires { LengthFits answer }
    ensures { result ≡ text_for answer }
{
    match answer {
        Ok(n) => VumneathText {
            refused: 0,
            length: n as u32,
        },
        Err(refusal) => VumneathText {
            refused: refusal.number(),
            length: 0,
        },
    }
}

// The run's answer in C's layout.
fn rows_of(answer: Result<usize, Refusal>) -> VumneathRows
    ensures { result ≡ rows_for answer }
{
    match answer {
        Ok(n) => VumneathRows {
            refused: 0,
            length: n,
        },
        Err(refusal) => VumneathRows {
            refused: refusal.number(),
            length: 0,
        },
    }
}

// Reads a BLIF text into the lent cells (blif_read's `read_blif`).
#[unsafe(no_mangle)]
pub extern "C" fn vumneath_read_blif(
    text: &[u8],
    gates: &mut [u32],
    pins: &mut [u32],
    outputs: &mut [u32],
    work_gates: &mut [u32],
    work_pins: &mut [u32],
) -> VumneathNetwork
    ensures { let n = lengths (length gates.old) (length pins.old) (length outputs.old)
        (length work_gates.old) (length work_pins.old) in
        ReadHanded (read_into text.now n) result
        gates.new pins.new outputs.new work_gates.new work_pins.new }
{
    let answer = read_blif(text, gates, pins, outputs, work_gates, work_pins);
    network_of(answer)
}

// Writes the lent network as a BLIF text (blif_write's `write_blif`).
#[unsafe(no_mangle)]
pub extern "C" fn vumneath_write_blif(
    inputs: u32,
    gate_count: u32,
    pin_count: u32,
    output_count: u32,
    gates: &[u32],
    pins: &[u32],
    outputs: &[u32],
    out: &mut [u8],
) -> VumneathText
    ensures { let l = lent (counts_from inputs gate_count pin_count output_count) gates.now pins.now outputs.now in
        WriteHanded (write_into l (length out.old)) result out.new }
{
    let counts = counts_of(inputs, gate_count, pin_count, output_count);
    let answer = write_blif(counts, gates, pins, outputs, out);
    text_of(answer)
}

// Runs the lent network for the rows, and writes a row of outputs for each (run_rows' `run_rows`).
#[unsafe(no_mangle)]
pub extern "C" fn vumneath_run(
    inputs: u32,
    gate_count: u32,
    pin_count: u32,
    output_count: u32,
    gates: &[u32],
    pins: &[u32],
    outputs: &[u32],
    rows: &[u8],
    out: &mut [u8],
) -> VumneathRows
    ensures { let l = lent (counts_from inputs gate_count pin_count output_count) gates.now pins.now outputs.now in
        RunHanded (run_into l rows.now (length out.old)) result out.new }
{
    let counts = counts_of(inputs, gate_count, pin_count, output_count);
    let answer = run_rows(counts, gates, pins, outputs, rows, out);
    rows_of(answer)
}
