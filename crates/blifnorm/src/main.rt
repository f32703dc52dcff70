// Reads a BLIF text from standard input and prints the text of the network read, or the line `refused=N`. `answer` says which bytes are
// printed for which text; that main hands it standard input and prints its answer is for the reader to see, since no contract can say
// which bytes a call of the operating system moves.
#![tactic(auto)]

ghost use Rattle.std.specs.Prelude.{◌≡◌, length};
ghost use Rattle.lists.specs.Lists.{zeros};
ghost use Rattle.blif_write_names.specs.Between.Text.{Wrote};
ghost use Rattle.blif_read.specs.Into.{lengths};
ghost use Rattle.blif_write.specs.Into.{write_outcome};
ghost use Rattle.blifnorm.specs.Norm.{norm_into, printed};

use blif_read::read_blif;
use blif_write::write_blif;
use lists::fill_zero_bytes;
use printed_lines::append_refused;
use program_io::{print_front, read_open};
use refusals::Refusal;

// Writes the text of the network read into out, or gives the reader's or else the writer's refusal.
fn normalise(
    text: &[u8],
    out: &mut [u8],
    gates: &mut [u32],
    pins: &mut [u32],
    outputs: &mut [u32],
    work_gates: &mut [u32],
    work_pins: &mut [u32],
) -> Result<usize, Refusal>
    ensures { let n = lengths (length gates.old) (length pins.old) (length outputs.old)
        (length work_gates.old) (length work_pins.old) in
        write_outcome result out.new ≡ norm_into text.now n (length out.old) }
{
    match read_blif(text, gates, pins, outputs, work_gates, work_pins) {
        Ok(counts) => write_blif(counts, gates, pins, outputs, out),
        Err(refusal) => {
            fill_zero_bytes(out);
            Err(refusal)
        }
    }
}

// Writes into out what is printed for a text, and gives back its length.
fn answer(
    text: &[u8],
    out: &mut [u8],
    gates: &mut [u32],
    pins: &mut [u32],
    outputs: &mut [u32],
    work_gates: &mut [u32],
    work_pins: &mut [u32],
) -> usize
    ensures { let n = lengths (length gates.old) (length pins.old) (length outputs.old)
        (length work_gates.old) (length work_pins.old) in
        Wrote (printed (norm_into text.now n (length out.old))) (zeros (length out.old)) out.new result }
{
    match normalise(text, out, gates, pins, outputs, work_gates, work_pins) {
        Ok(n) => n,
        Err(refusal) => append_refused(out, 0, refusal),
    }
}

// Prints what is answered for a text.
fn print_answer(rt: &impl Print, errors: &impl Print, text: &[u8]) {
    let mut out = [0u8; 32768];
    let mut gates = [0u32; 4096];
    let mut pins = [0u32; 16384];
    let mut outputs = [0u32; 256];
    let mut work_gates = [0u32; 4096];
    let mut work_pins = [0u32; 16384];
    let end = answer(
        text,
        &mut out,
        &mut gates,
        &mut pins,
        &mut outputs,
        &mut work_gates,
        &mut work_pins,
    );
    print_front(
        rt,
        errors,
        &out,
        end,
        b"blifnorm: standard output cannot be written\n",
    );
}

// A text has at most 32,768 bytes; one byte more is read, so that a longer one is refused.
fn main(rt: HostRuntime) {
    let mut text = [0u8; 32769];
    let n = read_open(&mut rt.stdin(), &mut text);
    if n > 32769 {
        let _ = eprintln!(rt; "blifnorm: standard input cannot be read");
    } else {
        print_answer(&rt, &rt.stderr(), &text[..n]);
    }
}
