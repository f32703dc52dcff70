// The sheet of a pass: the part, how many command rows there are, and the rows (document 02, request 2).
#![tactic(auto)]

ghost use Rattle.std.specs.Prelude.{◌≡◌, eqb, length};
ghost use Rattle.blif_text.specs.Lines.{split};
ghost use Rattle.pass_sheet.specs.Sheet.{is_letter_or_digit, is_part, is_part_line, is_rows_line, in_order, is_whole, sheet_of};
ghost use Rattle.pass_sheet.specs.Between.Places.{sheet_answer};
ghost use Rattle.pass_sheet.specs.Between.HeadLines.{HeadLines};

use blif_text::line_after;
use blif_write_names::{append, append_number};
use lists::equal;
use refusals::Refusal;

// Where the parts of a sheet stand in its text.
#[derive(Clone, Copy)]
pub struct SheetPlaces {
    // how many bytes the part has; it stands at place 5, behind `part=`
    pub part: usize,
    // how many command rows there are
    pub rows: usize,
    // the command rows stand from here to the end
    pub commands: usize,
}

// Whether the byte is an ASCII letter or digit.
fn is_letter_or_digit(c: u8) -> bool
    ensures { result ≡ is_letter_or_digit c }
{
    c.is_ascii_alphanumeric()
}

// Whether the bytes are 1 to 16 letters or digits.
fn is_part(part: &[u8]) -> bool
    ensures { result ≡ is_part part.now }
{
    if part.is_empty() || part.len() > 16 {
        return false;
    }
    for &c in part {
        if !is_letter_or_digit(c) {
            return false;
        }
    }
    true
}

// Whether the line is `part=` with a part.
fn is_part_line(line: &[u8]) -> bool
    ensures { result ≡ is_part_line line.now }
{
    line.len() >= 5 && equal(&line[..5], b"part=") && is_part(&line[5..])
}

// Whether the line is `rows=` with this number, which is 1 to 128.
fn is_rows_line(line: &[u8], n: usize) -> bool
    ensures { result ≡ is_rows_line n line.now }
{
    if n == 0 || n > 128 {
        return false;
    }
    let mut wanted = [0u8; 8];
    let at = append(&mut wanted, 0, b"rows=");
    let end = append_number(&mut wanted, at, n as u32);
    equal(line, &wanted[..end])
}

// How many lines there are; what stands behind the last LF is one too, if it is not empty.
fn count_lines(text: &[u8]) -> usize
    ensures { result ≡ length (split (eqb 10) text.now) }
{
    let mut n = 0;
    let mut at = 0;
    while at < text.len() {
        at = line_after(text, at);
        n += 1;
    }
    n
}

// Whether the text is within the size and ends in LF.
fn is_whole(text: &[u8]) -> bool
    ensures { result ≡ is_whole text.now }
{
    text.last() == Some(&b'\n') && text.len() <= 40960
}

// Reads the lines of a text of which the second line starts at place second and the third at place third.
fn read_lines(text: &[u8], second: usize, third: usize) -> Result<SheetPlaces, Refusal>
    requires { HeadLines text.now second third }
    ensures { result ≡ sheet_answer text.now (in_order (split (eqb 10) text.now)) }
{
    let rows = count_lines(&text[third..]);
    if is_part_line(&text[..second - 1]) && is_rows_line(&text[second..third - 1], rows) {
        Ok(SheetPlaces {
            part: second - 6,
            rows,
            commands: third,
        })
    } else {
        Err(Refusal::WrongSheet)
    }
}

// Reads a sheet: where its parts stand, or 32.
pub fn read_sheet(text: &[u8]) -> Result<SheetPlaces, Refusal>
    ensures { result ≡ sheet_answer text.now (sheet_of text.now) }
{
    if !is_whole(text) {
        return Err(Refusal::WrongSheet);
    }
    let second = line_after(text, 0);
    if second < text.len() {
        read_lines(text, second, line_after(text, second))
    } else {
        Err(Refusal::WrongSheet)
    }
}
