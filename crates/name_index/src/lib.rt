// The index of names: where Quaigh's src/io/blif.rs has a HashMap from names to signals.
#![tactic(auto)]

ghost use Rattle.std.specs.Prelude.{◌≡◌, ◌<◌};
ghost use Rattle.blif_text.specs.Between.Places.{InText};
ghost use Rattle.name_index.specs.Between.Search.{signal_in};
ghost use Rattle.name_index.specs.Between.Index.{max_names, entry_count, entries_of, hash_of, Index, Entered};
ghost use Rattle.name_index.specs.Between.Steps.{Sought};

use blif_text::token;
use lists::equal;

pub const INDEX_CELLS: usize = 6145;

const TREES: usize = 1024;

// The cells of an entry: its name's place, its signal, and the entries to which a bit of 0 and a bit of 1 lead.
const ENTRY_CELLS: usize = 4;

// The cell that holds how many names there are.
const COUNT: usize = INDEX_CELLS - 1;

// One more than the largest hash: the most that can be multiplied by 623 in 64 bits.
const HASHES: usize = 0x40_0000_0000_0000;

// The hash of a name.
fn hash_of(name: &[u8]) -> usize
    ensures { result ≡ hash_of name.now }
{
    let mut h = 0;
    for &byte in name {
        h = (h * 623 + usize::from(byte)) % HASHES;
    }
    h
}

// The cell that holds one more than the number of the entry of this name, or the empty one where it belongs.
fn seek(text: &[u8], index: &[u32], name: &[u8]) -> usize
    requires { Index text.now index.now (entry_count index.now) }
    ensures { Sought text.now index.now (entry_count index.now) name.now result }
{
    let h = hash_of(name);
    let mut at = h % TREES;
    let mut bits = h / TREES;
    while index[at] != 0 {
        let e = TREES + (index[at] as usize - 1) * ENTRY_CELLS;
        let other = token(text, index[e]);
        if equal(name, other) {
            return at;
        }
        at = e + 2 + bits % 2;
        bits /= 2;
    }
    at
}

// The signal of a name, or zero.
pub fn find_signal(text: &[u8], index: &[u32], name: &[u8]) -> u32
    requires { Index text.now index.now (entry_count index.now) }
    ensures { result ≡ signal_in (entries_of text.now index.now (entry_count index.now)) name.now }
{
    let held = index[seek(text, index, name)] as usize;
    if held == 0 {
        0
    } else {
        index[TREES + (held - 1) * ENTRY_CELLS + 1]
    }
}

// Enters the name at a place with its signal behind the others, unless it is known; answers whether it is new.
pub fn enter_name(text: &[u8], index: &mut [u32], cell: u32, signal: u32) -> bool
    requires index { Index text.now index.old (entry_count index.old) }
    requires index_bound { (entry_count index.old < max_names) × InText text.now cell }
    ensures { Entered text.now index.old (entry_count index.old) cell signal index.new result }
{
    let name = token(text, cell);
    let at = seek(text, index, name);
    if index[at] != 0 {
        return false;
    }
    let k = index[COUNT] as usize;
    let e = TREES + k * ENTRY_CELLS;
    index[e] = cell;
    index[e + 1] = signal;
    index[e + 2] = 0;
    index[e + 3] = 0;
    index[at] = (k + 1) as u32;
    index[COUNT] = (k + 1) as u32;
    true
}
