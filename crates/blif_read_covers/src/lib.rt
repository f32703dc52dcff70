// Cube lines: refusals 12 and 13 (Quaigh's src/io/blif.rs: build_network).
#![tactic(auto)]

ghost use Rattle.std.specs.Prelude.{◌≡◌, ◌-◌, ◌<◌, length};
ghost use Rattle.blif_text.specs.Between.Blocks.{defs_at, Blocks};
ghost use Rattle.blif_reading.specs.Read.{cover_faults, is_column};
ghost use Rattle.blif_read_covers.specs.Between.Pass.{output_of, with_output, differ, fits, lines_in};

use blif_text::{Block, block_at, line_columns, row_end, token};
use lists::equal;
use refusals::Refusal;

// What a line's last token says of its output.
#[derive(Clone, Copy)]
enum Output {
    Zero,
    One,
    Wrong,
}

// The outputs of a cover's lines so far: whether a 0 is among them, and a 1.
#[derive(Clone, Copy)]
struct Outputs {
    zero: bool,
    one: bool,
}

// No line yet.
const NO_OUTPUT: Outputs = Outputs {
    zero: false,
    one: false,
};

// 0, 1 or a dash.
fn is_column(b: u8) -> bool
    ensures { result ≡ is_column b }
{
    matches!(b, b'0' | b'1' | b'-')
}

// The output that a line's last token names.
fn output_of(token: &[u8]) -> Output
    ensures { result ≡ output_of token.now }
{
    if equal(token, b"0") {
        Output::Zero
    } else if equal(token, b"1") {
        Output::One
    } else {
        Output::Wrong
    }
}

// One output more.
fn with_output(met: Outputs, output: Output) -> Outputs
    ensures { result ≡ with_output met output }
{
    match output {
        Output::Zero => Outputs { zero: true, ..met },
        Output::One => Outputs { one: true, ..met },
        Output::Wrong => met,
    }
}

// Whether the outputs differ.
fn differ(met: Outputs) -> bool
    ensures { result ≡ differ met }
{
    met.zero && met.one
}

// How many cube lines a block has; a latch, told by no name, has none.
fn line_count(block: Block) -> usize
    ensures { result ≡ lines_in block.names block.lines }
{
    if block.names == 0 { 0 } else { block.lines }
}

// Whether a line of a cover of this many names has one or two tokens, a column for each name but the last, and an output.
fn line_fits(tokens: usize, columns: usize, names: usize, output: Output) -> bool
    requires { (0 < tokens) × (0 < names) }
    ensures { result ≡ fits tokens columns (names - 1) output }
{
    tokens <= 2 && columns == names - 1 && !matches!(output, Output::Wrong)
}

// The first refusal among the covers, if there is one: the first wrong column of the first wrong line ends the whole pass.
pub fn check_covers(text: &[u8], tokens: &[u32], blocks: &[u32], g: usize) -> Result<(), Refusal>
    requires { Blocks text.now tokens.now (length tokens.now) blocks.now g }
    ensures { result ≡ cover_faults (defs_at text.now tokens.now (length tokens.now) blocks.now g) }
{
    let mut j: usize = 0;
    'pass: loop {
        if j >= g {
            break 'pass Ok(());
        }
        let block = block_at(blocks, j);
        let lines = line_count(block);
        let mut at = block.first + block.names;
        let mut met = NO_OUTPUT;
        for _ in 0..lines {
            let end = row_end(tokens, at);
            let row = &tokens[at..end];
            let columns = line_columns(text, row);
            let output = output_of(token(text, row[row.len() - 1]));
            if !line_fits(row.len(), columns.len(), block.names, output) {
                break 'pass Err(Refusal::WrongCubeLine);
            }
            for &column in columns {
                if !is_column(column) {
                    break 'pass Err(Refusal::WrongCubeLine);
                }
            }
            met = with_output(met, output);
            at = end;
        }
        if differ(met) {
            break 'pass Err(Refusal::OutputsDiffer);
        }
        j += 1;
    }
}
