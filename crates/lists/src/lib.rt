// Slices read, compared, copied and cleared.
#![tactic(auto)]

ghost use Rattle.std.specs.Prelude.{◌≡◌, ◌+◌, ◌≤◌, length, get_or};
ghost use Rattle.lists.specs.Lists.{same, zeros};
ghost use Rattle.lists.specs.Between.Lists.{overwrite_at};

// Whether two byte slices hold the same bytes.
pub fn equal(a: &[u8], b: &[u8]) -> bool
    ensures { result ≡ same a.now b.now }
{
    a == b
}

// Cell i, or zero if there is none.
pub fn cell_at(cells: &[u32], i: usize) -> u32
    ensures { result ≡ get_or cells.now i 0 }
{
    cells.get(i).copied().unwrap_or(0)
}

// Copies the cells to others, from cell at on.
pub fn copy_cells(cells: &[u32], to: &mut [u32], at: usize)
    requires { at + length cells.now ≤ length to.old }
    ensures { to.new ≡ overwrite_at at cells.now to.old }
{
    for i in 0..cells.len() {
        to[at + i] = cells[i];
    }
}

// Zero in every cell. No cell is read: the caller may lend memory that was never written.
pub fn fill_zero(s: &mut [u32])
    ensures { s.new ≡ zeros (length s.old) }
{
    s.fill(0);
}

// Zero in every byte. No byte is read.
pub fn fill_zero_bytes(bytes: &mut [u8])
    ensures { bytes.new ≡ zeros (length bytes.old) }
{
    bytes.fill(0);
}
