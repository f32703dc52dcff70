// The report for a pass log: the commands of a sheet, run on a netlist and counted (document 02, request 2).
#![tactic(auto)]

ghost use Rattle.std.specs.Prelude.{◌≡◌, Bool, List, ◌<◌, length, Ok};
ghost use Rattle.network.specs.Cells.{lent, net_of};
ghost use Rattle.run_rows.specs.Rows.{rows_of};
ghost use Rattle.blif_read.specs.Into.{lengths, answered};
ghost use Rattle.blif_write_names.specs.Between.Text.{Wrote};
ghost use Rattle.pass_sheet.specs.Sheet.{sheet_of};
ghost use Rattle.pass_report.specs.Report.{verdicts_of, judged_rows, judged, report_lines, printed, report_from};
ghost use Rattle.pass_report.specs.Into.{report_outcome, report_into};
ghost use Rattle.pass_report.specs.Between.Rows.{OutputRows, FewRows, RunReady, FewCounts, FewJudged};

use blif_read::read_blif;
use lists::{fill_zero, fill_zero_bytes};
use network::Counts;
use pass_sheet::{SheetPlaces, read_sheet};
use printed_lines::{append_count, append_line, append_refused};
use refusals::Refusal;
use run_rows::run_rows;

// How many rows were accepted and how many rejected.
#[derive(Clone, Copy)]
pub struct Verdicts {
    pub accepted: usize,
    pub rejected: usize,
}

// Counts rows of outputs by the first character of each. Each row takes width bytes.
fn count_verdicts(rows: &[u8], width: usize) -> Verdicts
    requires { (outs : List (List Bool)) × OutputRows outs width rows.now }
    ensures { (outs : List (List Bool)) → OutputRows outs width rows.now → result ≡ verdicts_of outs }
{
    let mut accepted = 0;
    let mut rejected = 0;
    let mut at = 0;
    while at < rows.len() {
        accepted += (rows[at] == b'1') as usize;
        rejected += (rows[at] == b'0') as usize;
        at += width;
    }
    Verdicts { accepted, rejected }
}

// Runs the commands on a network with an output that was read, and counts. There is room for 128 rows of 256 outputs.
fn run_commands(
    counts: Counts,
    gates: &[u32],
    pins: &[u32],
    outputs: &[u32],
    commands: &[u8],
) -> Result<Verdicts, Refusal>
    requires run_ready { RunReady (lent counts gates.now pins.now outputs.now) commands.now }
    requires outputs_nonzero { 0 < counts.outputs }
    ensures { let net = net_of (lent counts gates.now pins.now outputs.now) in
        result ≡ judged_rows net (rows_of net.inputs commands.now) }
{
    let mut out = [0u8; 32896];
    let n = run_rows(counts, gates, pins, outputs, commands, &mut out)?;
    Ok(count_verdicts(&out[..n], counts.outputs + 1))
}

// The commands on a network that was read: 33, or what the run gives.
fn judge_network(
    counts: Counts,
    gates: &[u32],
    pins: &[u32],
    outputs: &[u32],
    commands: &[u8],
) -> Result<Verdicts, Refusal>
    requires { RunReady (lent counts gates.now pins.now outputs.now) commands.now }
    ensures { result ≡ judged (Ok (net_of (lent counts gates.now pins.now outputs.now))) commands.now }
{
    if counts.outputs == 0 {
        Err(Refusal::NoOutput)
    } else {
        run_commands(counts, gates, pins, outputs, commands)
    }
}

// The commands on a netlist: the reader's refusal, or what the network read gives.
fn judge(
    netlist: &[u8],
    commands: &[u8],
    gates: &mut [u32],
    pins: &mut [u32],
    outputs: &mut [u32],
    work_gates: &mut [u32],
    work_pins: &mut [u32],
) -> Result<Verdicts, Refusal>
    requires { FewRows commands.now }
    ensures { let n = lengths (length gates.old) (length pins.old) (length outputs.old)
        (length work_gates.old) (length work_pins.old) in
        result ≡ judged (answered netlist.now n) commands.now }
{
    let counts = read_blif(netlist, gates, pins, outputs, work_gates, work_pins)?;
    judge_network(counts, gates, pins, outputs, commands)
}

// Writes the four lines.
fn put_report(out: &mut [u8], part: &[u8], rows: usize, verdicts: Verdicts) -> usize
    requires { FewCounts rows verdicts }
    ensures { Wrote (report_lines part.now rows verdicts) out.old out.new result }
{
    let mut at = append_line(out, 0, b"part=", part);
    at = append_count(out, at, b"commands=", rows as u32);
    at = append_count(out, at, b"accepted=", verdicts.accepted as u32);
    append_count(out, at, b"rejected=", verdicts.rejected as u32)
}

// Writes the four lines, or the refusal's line.
fn put_judged(out: &mut [u8], part: &[u8], rows: usize, judged: Result<Verdicts, Refusal>) -> usize
    requires { FewJudged rows judged }
    ensures { Wrote (printed part.now rows judged) out.old out.new result }
{
    match judged {
        Ok(verdicts) => put_report(out, part, rows, verdicts),
        Err(reason) => append_refused(out, 0, reason),
    }
}

// The report on a netlist and a sheet, written into out, and its length.
fn report(
    netlist: &[u8],
    sheet: &[u8],
    gates: &mut [u32],
    pins: &mut [u32],
    outputs: &mut [u32],
    work_gates: &mut [u32],
    work_pins: &mut [u32],
    out: &mut [u8],
) -> usize
    ensures { let n = lengths (length gates.old) (length pins.old) (length outputs.old)
        (length work_gates.old) (length work_pins.old) in
        Wrote (report_from (answered netlist.now n) (sheet_of sheet.now)) out.old out.new result }
{
    match read_sheet(sheet) {
        Ok(s) => {
            let from = s.commands;
            let end = 5 + s.part;
            let commands = &sheet[from..];
            let judged = judge(
                netlist, commands, gates, pins, outputs, work_gates, work_pins,
            );
            put_judged(out, &sheet[5..end], s.rows, judged)
        }
        Err(refusal) => append_refused(out, 0, refusal),
    }
}

// The same, with zeros behind the report and in every lent cell.
pub fn pass_report(
    netlist: &[u8],
    sheet: &[u8],
    gates: &mut [u32],
    pins: &mut [u32],
    outputs: &mut [u32],
    work_gates: &mut [u32],
    work_pins: &mut [u32],
    out: &mut [u8],
) -> usize
    ensures { let n = lengths (length gates.old) (length pins.old) (length outputs.old)
        (length work_gates.old) (length work_pins.old) in
        report_outcome result out.new gates.new pins.new outputs.new work_gates.new work_pins.new
        ≡ report_into netlist.now sheet.now n (length out.old) }
{
    fill_zero_bytes(out);
    let end = report(
        netlist, sheet, gates, pins, outputs, work_gates, work_pins, out,
    );
    fill_zero(gates);
    fill_zero(pins);
    fill_zero(outputs);
    fill_zero(work_gates);
    fill_zero(work_pins);
    end
}
