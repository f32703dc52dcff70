// Demand 3: a network is written, and what was written is read back.
#![tactic(auto)]

ghost use Rattle.std.specs.Prelude.{◌≡◌, length};
ghost use Rattle.network.specs.Cells.{lent};
ghost use Rattle.blif_read.specs.Into.{lengths};
ghost use Rattle.round_trip.specs.Trip.{read_answer, answer_of, trip_outcome};
ghost use Rattle.round_trip.specs.Between.Trip.{WritesThenReads};

use blif_read::read_blif;
use blif_write::write_blif;
use network::Counts;
use refusals::Refusal;

// A network that came back: the text's length, and the counts of the network read.
#[derive(Clone, Copy)]
pub struct Returned {
    pub length: usize,
    pub counts: Counts,
}

// Why a network does not come back.
#[derive(Clone, Copy)]
pub enum TripRefusal {
    // the writer refuses it
    NotWritten(Refusal),
    // the reader refuses its text
    NotRead(Refusal),
}

// The reader's answer to a text of this length.
fn read_answer(n: usize, answer: Result<Counts, Refusal>) -> Result<Returned, TripRefusal>
    ensures { result ≡ read_answer n answer }
{
    match answer {
        Ok(counts) => Ok(Returned { length: n, counts }),
        Err(r) => Err(TripRefusal::NotRead(r)),
    }
}

// The writer's refusal, or the reader's answer.
fn trip_answer(
    written: Result<usize, Refusal>,
    read: Result<Counts, Refusal>,
) -> Result<Returned, TripRefusal>
    ensures { result ≡ answer_of written read }
{
    match written {
        Ok(n) => read_answer(n, read),
        Err(r) => Err(TripRefusal::NotWritten(r)),
    }
}

// Writes a lent network into the text's slice, and reads exactly the bytes written into the other slices.
pub fn write_then_read(
    counts: Counts,
    gates: &[u32],
    pins: &[u32],
    outputs: &[u32],
    text: &mut [u8],
    new_gates: &mut [u32],
    new_pins: &mut [u32],
    new_outputs: &mut [u32],
    work_gates: &mut [u32],
    work_pins: &mut [u32],
) -> Result<Returned, TripRefusal>
    ensures { let l = lent counts gates.now pins.now outputs.now in
        let m = lengths (length new_gates.old) (length new_pins.old) (length new_outputs.old)
        (length work_gates.old) (length work_pins.old) in
        WritesThenReads l (length text.old) m
        (trip_outcome result text.new new_gates.new new_pins.new new_outputs.new
        work_gates.new work_pins.new) }
{
    let written = write_blif(counts, gates, pins, outputs, text);
    let n = written.unwrap_or(0);
    let read = read_blif(
        &text[..n],
        new_gates,
        new_pins,
        new_outputs,
        work_gates,
        work_pins,
    );
    trip_answer(written, read)
}
