// Reads the files netlist.blif and sheet.txt of the current folder and prints the report for a pass log, or the line `refused=N`. `answer`
// says which bytes are printed for which two texts; that main hands it the two files and prints its answer is for the reader to see, since no
// contract can say which bytes a call of the operating system moves.
#![tactic(auto)]

ghost use Rattle.std.specs.Prelude.{◌≤◌, length};
ghost use Rattle.lists.specs.Lists.{zeros};
ghost use Rattle.blif_write_names.specs.Between.Text.{Wrote};
ghost use Rattle.pass_report.specs.Report.{report_of};

use pass_report::pass_report;
use program_io::{print_front, read_open};
use std::fs::File;
use std::rt::Files;

// Writes into out the report on a netlist and a sheet, and gives back its length.
fn answer(netlist: &[u8], sheet: &[u8], out: &mut [u8]) -> usize
    ensures { Wrote (report_of netlist.now sheet.now) (zeros (length out.old)) out.new result }
{
    let mut gates = [0u32; 4096];
    let mut pins = [0u32; 16384];
    let mut outputs = [0u32; 256];
    let mut work_gates = [0u32; 4096];
    let mut work_pins = [0u32; 16384];
    pass_report(
        netlist,
        sheet,
        &mut gates,
        &mut pins,
        &mut outputs,
        &mut work_gates,
        &mut work_pins,
        out,
    )
}

// Prints the report on two texts. The longest has 61 bytes.
fn print_answer(rt: &impl Print, errors: &impl Print, netlist: &[u8], sheet: &[u8]) {
    let mut out = [0u8; 64];
    let end = answer(netlist, sheet, &mut out);
    print_front(
        rt,
        errors,
        &out,
        end,
        b"passreport: standard output cannot be written\n",
    );
}

// Reads the file of a name; one that cannot be opened or read reads as empty.
fn read_file(rt: &impl Files, name: &str, text: &mut [u8]) -> usize
    ensures { result ≤ length text.old }
{
    let n = match File::open(rt, name) {
        Ok(mut file) => read_open(&mut file, text),
        Err(_) => 0,
    };
    if n > text.len() { 0 } else { n }
}

// A netlist has at most 32,768 bytes and a sheet 40,960; one byte more of each is read, so that a longer one is refused.
fn main(rt: HostRuntime) {
    let mut netlist = [0u8; 32769];
    let mut sheet = [0u8; 40961];
    let n = read_file(&rt, "netlist.blif", &mut netlist);
    let m = read_file(&rt, "sheet.txt", &mut sheet);
    print_answer(&rt, &rt.stderr(), &netlist[..n], &sheet[..m]);
}
