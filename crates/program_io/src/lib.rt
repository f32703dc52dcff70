// What the programs share of reading files and printing. Which bytes a call of the operating system moves no contract can say.
#![tactic(auto)]

ghost use Rattle.std.specs.Prelude.{◌+◌, ◌≤◌, length};

use std::io::Read;

// Prints the first n bytes, where there are as many, or says on standard error that it cannot.
pub fn print_front(rt: &impl Print, errors: &impl Print, bytes: &[u8], n: usize, cannot: &[u8]) {
    if n <= bytes.len() && rt.write_all(&bytes[..n]).is_err() {
        let _ = errors.write_all(cannot);
    }
}

// One read of an open file: how many bytes came, none at its end, or more than there is room for where the read failed.
fn read_some(file: &mut impl Read, bytes: &mut [u8]) -> usize {
    match file.read(bytes) {
        Ok(n) => n,
        Err(_) => bytes.len() + 1,
    }
}

// Reads an open file to its end or until the slice is full: how many bytes came, or one more than there is room for where a read failed.
pub fn read_open(file: &mut impl Read, text: &mut [u8]) -> usize
    ensures { result ≤ length text.old + 1 }
{
    let mut done = 0;
    while done < text.len() {
        let n = read_some(file, &mut text[done..]);
        if n > text.len() - done {
            return text.len() + 1;
        }
        if n == 0 {
            return done;
        }
        done += n;
    }
    done
}
