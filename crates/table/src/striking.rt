// The strike of one pair and its mirror.
ghost use Rattle.std.specs.Prelude.{◌≡◌, ◌<◌, length};
ghost use Rattle.theory.specs.Limits.{readings_most};
ghost use Rattle.table.specs.Layout.{Sized};
ghost use Rattle.table.specs.Strike.{cleared, Struck};

use crate::layout::{READINGS_MOST, cell_start};

// Clears bit b of row a, in the words of one cell.
fn clear(cell: &mut [u32], a: usize, b: u32)
    requires { (length cell.old ≡ readings_most) × (a < readings_most) × (b < readings_most) }
    ensures { cell.new ≡ cleared cell.old a b }
{
    cell[a] = words::without_bit(cell[a], b);
}

// Strikes the pair (a, b) of cell (i, j) and its mirror, one cell at a time.
pub fn strike(table: &mut [u32], n: usize, i: usize, j: usize, a: usize, b: usize)
    requires { Sized n table.old × (i < n) × (j < n) × (a < readings_most) × (b < readings_most) }
    ensures { Struck n table.old i j a b table.new }
{
    let at = cell_start(n, i, j);
    clear(&mut table[at..at + READINGS_MOST], a, b as u32);
    let mirror = cell_start(n, j, i);
    clear(&mut table[mirror..mirror + READINGS_MOST], b, a as u32);
}
