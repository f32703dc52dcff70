// Cube lines, written into what is left of the output slice (Quaigh's src/io/blif.rs: write_blif_cube).
#![tactic(auto)]

ghost use Rattle.std.specs.Prelude.{◌≡◌, true, [], ◌++◌, ◌≤◌, ◌<◌, length, get_or, replicate};
ghost use Rattle.gates.specs.Between.Forms.{binary_form, ternary_form, nary_form};
ghost use Rattle.blif_writing.specs.WrittenModel.{lines_of, max_exclusive};
ghost use Rattle.blif_write_names.specs.Between.Text.{Wrote, Appended};
ghost use Rattle.blif_write_cubes.specs.Between.Lines.{output_text, mask_columns, cube_of, same_cube, minterm_at, mask_lines, lines_text, rows_of, Narrow};

use blif_write_names::append;
use gates::{BinaryType, NaryType, TernaryType};

// Writes a blank, the output and the line's end.
fn append_output(out: &mut [u8], at: usize, val: bool) -> usize
    ensures { Appended (output_text val) out.old at out.new result }
{
    if val {
        append(out, at, b" 1\n")
    } else {
        append(out, at, b" 0\n")
    }
}

// Writes a column for each of the mask's bits, the lowest first.
fn put_columns(out: &mut [u8], mask: u32, num_vars: usize) -> usize
    ensures { Wrote (mask_columns num_vars mask) out.old out.new result }
{
    let mut left = mask;
    for i in 0..num_vars {
        if i >= out.len() {
            return i + 1;
        }
        out[i] = b'0' + (left % 2) as u8;
        left /= 2;
    }
    num_vars
}

// Writes a cube line of the mask's bits.
pub fn write_blif_cube(out: &mut [u8], mask: u32, num_vars: usize, val: bool) -> usize
    ensures { Wrote (cube_of num_vars mask val) out.old out.new result }
{
    let at = put_columns(out, mask, num_vars);
    append_output(out, at, val)
}

// Writes the same column so many times.
fn put_repeated(out: &mut [u8], column: u8, num_vars: usize) -> usize
    ensures { Wrote (replicate num_vars column) out.old out.new result }
{
    for i in 0..num_vars {
        if i >= out.len() {
            return i + 1;
        }
        out[i] = column;
    }
    num_vars
}

// Writes a cube line of one column throughout.
fn write_same_cube(out: &mut [u8], column: u8, num_vars: usize, val: bool) -> usize
    ensures { Wrote (same_cube num_vars column val) out.old out.new result }
{
    let at = put_repeated(out, column, num_vars);
    append_output(out, at, val)
}

// Writes the mask's line where its number of ones is odd, for parity 1, or even, for parity 0.
fn write_minterm(out: &mut [u8], mask: u32, num_vars: usize, parity: u32) -> usize
    ensures { Wrote (minterm_at parity num_vars mask) out.old out.new result }
{
    if mask.count_ones() % 2 == parity {
        write_blif_cube(out, mask, num_vars, true)
    } else {
        0
    }
}

// Writes the lines of all masks of that parity, in rising order.
fn write_masks(out: &mut [u8], num_vars: usize, parity: u32) -> usize
    requires { num_vars ≤ max_exclusive }
    ensures { Wrote (mask_lines parity num_vars) out.old out.new result }
{
    let count = 1u32 << (num_vars as u32);
    let mut at = 0;
    for mask in 0..count {
        if at > out.len() {
            return at;
        }
        at += write_minterm(&mut out[at..], mask, num_vars, parity);
    }
    at
}

// The cover lines of Binary gates: a row of cube characters for each line; the outputs are 1.
const AND_2: [[u8; 2]; 1] = [[b'1', b'1']];

const XOR_2: [[u8; 2]; 2] = [[b'1', b'0'], [b'0', b'1']];

// The cover lines of Ternary gates.
const AND_3: [[u8; 3]; 1] = [[b'1', b'1', b'1']];

const XOR_3: [[u8; 3]; 4] = [
    [b'1', b'1', b'1'],
    [b'1', b'0', b'0'],
    [b'0', b'1', b'0'],
    [b'0', b'0', b'1'],
];

const MAJ_3: [[u8; 3]; 3] = [[b'1', b'1', b'-'], [b'-', b'1', b'1'], [b'1', b'-', b'1']];

const MUX_3: [[u8; 3]; 2] = [[b'1', b'1', b'-'], [b'0', b'-', b'1']];

// How many rows a Binary type has.
fn binary_rows(t: BinaryType) -> usize
    ensures { result ≡ length (lines_of (binary_form t) 2) }
{
    match t {
        BinaryType::And => 1,
        BinaryType::Xor => 2,
    }
}

// A row of a Binary type.
fn binary_row(t: BinaryType, i: usize) -> [u8; 2]
    requires { i < length (lines_of (binary_form t) 2) }
    ensures { result ≡ get_or (rows_of (binary_form t) 2) i [] }
{
    match t {
        BinaryType::And => AND_2[i],
        BinaryType::Xor => XOR_2[i],
    }
}

// How many rows a Ternary type has.
fn ternary_rows(t: TernaryType) -> usize
    ensures { result ≡ length (lines_of (ternary_form t) 3) }
{
    match t {
        TernaryType::And => 1,
        TernaryType::Xor => 4,
        TernaryType::Maj => 3,
        TernaryType::Mux => 2,
    }
}

// A row of a Ternary type.
fn ternary_row(t: TernaryType, i: usize) -> [u8; 3]
    requires { i < length (lines_of (ternary_form t) 3) }
    ensures { result ≡ get_or (rows_of (ternary_form t) 3) i [] }
{
    match t {
        TernaryType::And => AND_3[i],
        TernaryType::Xor => XOR_3[i],
        TernaryType::Maj => MAJ_3[i],
        TernaryType::Mux => MUX_3[i],
    }
}

// Writes a row with output 1.
fn append_row(out: &mut [u8], at: usize, columns: &[u8]) -> usize
    ensures { Appended (columns.now ++ output_text true) out.old at out.new result }
{
    let end = append(out, at, columns);
    append_output(out, end, true)
}

// Writes the cover lines of a Binary type.
pub fn append_binary_lines(out: &mut [u8], at: usize, t: BinaryType) -> usize
    ensures { Appended (lines_text (lines_of (binary_form t) 2)) out.old at out.new result }
{
    if at > out.len() {
        return out.len() + 1;
    }
    let mut end = at;
    for i in 0..binary_rows(t) {
        let row = binary_row(t, i);
        end = append_row(out, end, &row);
    }
    end
}

// Writes the cover lines of a Ternary type.
pub fn append_ternary_lines(out: &mut [u8], at: usize, t: TernaryType) -> usize
    ensures { Appended (lines_text (lines_of (ternary_form t) 3)) out.old at out.new result }
{
    if at > out.len() {
        return out.len() + 1;
    }
    let mut end = at;
    for i in 0..ternary_rows(t) {
        let row = ternary_row(t, i);
        end = append_row(out, end, &row);
    }
    end
}

// Writes the cover lines of a Nary type with so many inputs.
fn write_nary_lines(out: &mut [u8], t: NaryType, num_vars: usize) -> usize
    requires { Narrow t num_vars }
    ensures { Wrote (lines_text (lines_of (nary_form t) num_vars)) out.old out.new result }
{
    match t {
        NaryType::And => write_same_cube(out, b'1', num_vars, true),
        NaryType::Or => write_same_cube(out, b'0', num_vars, false),
        NaryType::Nand => write_same_cube(out, b'1', num_vars, false),
        NaryType::Nor => write_same_cube(out, b'0', num_vars, true),
        NaryType::Xor => write_masks(out, num_vars, 1),
        NaryType::Xnor => write_masks(out, num_vars, 0),
    }
}

// The same at place at.
pub fn append_nary_lines(out: &mut [u8], at: usize, t: NaryType, num_vars: usize) -> usize
    requires { Narrow t num_vars }
    ensures { Appended (lines_text (lines_of (nary_form t) num_vars)) out.old at out.new result }
{
    if at > out.len() {
        out.len() + 1
    } else {
        at + write_nary_lines(&mut out[at..], t, num_vars)
    }
}
