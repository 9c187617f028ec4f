// The checks 1 to 6 of sizes and a table.
ghost use Rattle.std.specs.Prelude.{◌≡◌, ◌&&◌, [], ◌<◌, ltb, length};
ghost use Rattle.theory.specs.Limits.{readings_most};
ghost use Rattle.theory.specs.Bound.{any};
ghost use Rattle.words.specs.Word.{bit, pack};
ghost use Rattle.refusal.specs.Said.{says};
ghost use Rattle.table.specs.Layout.{Sized, rel, size_of, some_first};
ghost use Rattle.table.specs.Cells.{stray_in, diagonal_in, mirror_in};
ghost use Rattle.table.specs.Shape.{bad_size, stray_row, diagonal_row, mirror_above, after_sizes, after_rows, after_shape};
ghost use Rattle.table.specs.Answers.{said_shaped};

use crate::layout::{FIELDS_MOST, READINGS_MOST, cell, field_size, first_row, table_length};
use refusal::Refusal;

// The first field whose size is 0 or over the most.
fn first_bad_size(sizes: &[u8]) -> Option<usize>
    ensures { result ≡ some_first (length sizes.now) (bad_size sizes.now) }
{
    sizes
        .iter()
        .position(|&size| size == 0 || usize::from(size) > READINGS_MOST)
}

// What row a may hold in a cell of a field of that size and the mask of the other.
fn row_mask(a: usize, size: usize, mask: u32) -> u32
    ensures { result ≡ pack readings_most (λ b. ltb a size && bit mask b) }
{
    if a < size { mask } else { 0 }
}

// Some row of a cell has a bit outside size rows and the mask: a pass that only gathers such bits. Here and below a cell is a slice
// of 32 words, as `table::cell` gives it: an array's reference would need a conversion that could fail.
fn any_stray(cell: &[u32], size: usize, mask: u32) -> bool
    requires { length cell.now ≡ readings_most }
    ensures { result ≡ any readings_most (stray_in size mask cell.now) }
{
    let mut strays: u32 = 0;
    for a in 0..READINGS_MOST {
        strays |= cell[a] & !row_mask(a, size, mask);
    }
    strays != 0
}

// Row a of a cell has such a bit; a function of its own, since the search's proof did not close over the body.
fn is_stray(cell: &[u32], a: usize, size: usize, mask: u32) -> bool
    requires { (length cell.now ≡ readings_most) × (a < readings_most) }
    ensures { result ≡ stray_in size mask cell.now a }
{
    words::outside(cell[a], row_mask(a, size, mask))
}

// The first such row: looked for only where there is one.
fn stray_in(cell: &[u32], size: usize, mask: u32) -> Option<usize>
    requires { length cell.now ≡ readings_most }
    ensures { result ≡ some_first readings_most (stray_in size mask cell.now) }
{
    if !any_stray(cell, size, mask) {
        return None;
    }
    (0..READINGS_MOST).find(|&a| is_stray(cell, a, size, mask))
}

// The first row of a cell with a bit off the diagonal.
fn diagonal_in(cell: &[u32]) -> Option<usize>
    requires { length cell.now ≡ readings_most }
    ensures { result ≡ some_first readings_most (diagonal_in cell.now) }
{
    (0..READINGS_MOST).find(|&a| words::outside(cell[a], words::with_bit(0, a as u32)))
}

// The first row of a cell that differs from its column of the mirror.
fn mirror_in(cell: &[u32], mirror: &[u32]) -> Option<usize>
    requires { (length cell.now ≡ readings_most) × (length mirror.now ≡ readings_most) }
    ensures { result ≡ some_first readings_most (mirror_in cell.now mirror.now) }
{
    let turned = words::turned(mirror);
    (0..READINGS_MOST).find(|&a| cell[a] != turned[a])
}

// The first row of cell (i, j) with a bit outside the sizes.
fn stray_at(sizes: &[u8], table: &[u32], i: usize, j: usize) -> Option<usize>
    requires { Sized (length sizes.now) table.now × (i < length sizes.now) × (j < length sizes.now) }
    ensures { result ≡ some_first readings_most (stray_row (size_of sizes.now) (rel (length sizes.now) table.now) i j) }
{
    let size = field_size(sizes, i) as usize;
    let mask = words::below(field_size(sizes, j));
    stray_in(cell(table, sizes.len(), i, j), size, mask)
}

// The first row of cell (i, j) that lets a reading go with another of its field.
fn diagonal_at(table: &[u32], n: usize, i: usize, j: usize) -> Option<usize>
    requires { Sized n table.now × (i < n) × (j < n) }
    ensures { result ≡ some_first readings_most (diagonal_row (rel n table.now) i j) }
{
    if i != j {
        return None;
    }
    diagonal_in(cell(table, n, i, j))
}

// The first row of cell (i, j) above the diagonal that differs from its mirror.
fn mirror_at(table: &[u32], n: usize, i: usize, j: usize) -> Option<usize>
    requires { Sized n table.now × (i < n) × (j < n) }
    ensures { result ≡ some_first readings_most (mirror_above (rel n table.now) i j) }
{
    if j <= i {
        return None;
    }
    mirror_in(cell(table, n, i, j), cell(table, n, j, i))
}

// 1 and 2: the sizes.
pub fn sized(sizes: &[u8]) -> Result<(), Refusal>
    ensures { said_shaped result ≡ after_sizes sizes.now (says 0 []) }
{
    if sizes.is_empty() || sizes.len() > FIELDS_MOST {
        return Err(Refusal::Fields);
    }
    if let Some(f) = first_bad_size(sizes) {
        return Err(Refusal::Size(f));
    }
    Ok(())
}

// 4, 5 and 6: the rows.
fn formed(sizes: &[u8], table: &[u32]) -> Result<(), Refusal>
    requires { Sized (length sizes.now) table.now }
    ensures { said_shaped result ≡ after_rows (length sizes.now) (size_of sizes.now) (rel (length sizes.now) table.now) (says 0 []) }
{
    let n = sizes.len();
    if let Some(row) = first_row(n, |i, j| stray_at(sizes, table, i, j)) {
        return Err(Refusal::Stray(row.i, row.j, row.a));
    }
    if let Some(row) = first_row(n, |i, j| diagonal_at(table, n, i, j)) {
        return Err(Refusal::Diagonal(row.i, row.j, row.a));
    }
    if let Some(row) = first_row(n, |i, j| mirror_at(table, n, i, j)) {
        return Err(Refusal::Mirror(row.i, row.j, row.a));
    }
    Ok(())
}

// 1 to 6.
pub fn shape(sizes: &[u8], table: &[u32]) -> Result<(), Refusal>
    ensures { said_shaped result ≡ after_shape sizes.now table.now (says 0 []) }
{
    sized(sizes)?;
    if table.len() != table_length(sizes.len()) {
        return Err(Refusal::Length);
    }
    formed(sizes, table)
}
