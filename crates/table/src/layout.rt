// How a table lies in words: the one place that finds a cell or a row.
ghost use Rattle.std.specs.Prelude.{◌≡◌, ℕ, Bool, ◌<◌, ◌≤◌, length};
ghost use Rattle.theory.specs.Limits.{fields_most, readings_most};
ghost use Rattle.table.specs.Layout.{Sized, row, table_length, table_rows, size_of, some_first_row};
ghost use Rattle.table.specs.Post.{Placed, CellWords, RowAt, FindsIn};

// A table has 1 to this many fields.
pub const FIELDS_MOST: usize = 16;

// A field has 1 to this many readings; a cell has as many rows.
pub const READINGS_MOST: usize = 32;

// Row a of cell (i, j).
#[derive(Clone, Copy)]
pub struct Row {
    pub i: usize,
    pub j: usize,
    pub a: usize,
}

// The words of a table of n fields.
pub fn table_length(n: usize) -> usize
    requires { n ≤ fields_most }
    ensures { result ≡ table_length n }
{
    n * n * READINGS_MOST
}

// The word at which cell (i, j) of a table of n fields starts.
pub fn cell_start(n: usize, i: usize, j: usize) -> usize
    requires { (n ≤ fields_most) × (i < n) × (j < n) }
    ensures { Placed n i j result }
{
    (i * n + j) * READINGS_MOST
}

// Row a of cell (i, j). Here and below a table is two parameters, its words and its number of fields: docs/PROMISES.md names these functions.
pub fn row_word(table: &[u32], n: usize, i: usize, j: usize, a: usize) -> u32
    requires { Sized n table.now × (i < n) × (j < n) × (a < readings_most) }
    ensures { result ≡ row n table.now i j a }
{
    table[cell_start(n, i, j) + a]
}

// The words of cell (i, j).
pub fn cell(table: &[u32], n: usize, i: usize, j: usize) -> &[u32]
    requires { Sized n table.now × (i < n) × (j < n) }
    ensures { CellWords n table.now i j result.now }
{
    let at = cell_start(n, i, j);
    let end = at + READINGS_MOST;
    &table[at..end]
}

// The row at number p in table order.
pub fn row_at(n: usize, p: usize) -> Row
    requires { p < table_rows n }
    ensures { RowAt n p result }
{
    let c = p / READINGS_MOST;
    Row {
        i: c / n,
        j: c % n,
        a: p % READINGS_MOST,
    }
}

// The first row, in table order, that fails a test: the closure finds the first that fails in one cell, if there is one. A row of a
// table is the one at its number; any other, of more fields than a table has, say, may have no number of 64 bits.
pub fn first_row<F: Fn(usize, usize) -> Option<usize>>(n: usize, in_cell: F) -> Option<Row>
    requires { (i j : ℕ) → i < n → j < n → F.pre in_cell i j }
    ensures { (test : ℕ → ℕ → ℕ → Bool) → FindsIn n test (F.post in_cell) → result ≡ some_first_row n test }
{
    for i in 0..n {
        for j in 0..n {
            if let Some(a) = in_cell(i, j) {
                return Some(found_row(n, i, j, a));
            }
        }
    }
    None
}

// Row a of cell (i, j), by its number where it is one of a table's.
fn found_row(n: usize, i: usize, j: usize, a: usize) -> Row
    requires { (i < n) × (j < n) }
    ensures { result ≡ record { i = i; j = j; a = a } }
{
    if n <= FIELDS_MOST && a < READINGS_MOST {
        row_at(n, cell_start(n, i, j) + a)
    } else {
        Row { i, j, a }
    }
}

// The size of field i.
#[tactic(auto, unfolding(crate::specs::Layout::size_of))]
pub fn field_size(sizes: &[u8], i: usize) -> u32
    requires { i < length sizes.now }
    ensures { result ≡ size_of sizes.now i }
{
    u32::from(sizes[i])
}
