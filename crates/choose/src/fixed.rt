// The checks of the fixed choices: 11, each a reading of its field, and 12, each two go together. A table and its number of fields
// are two parameters here, and what the fixed bytes are is asked, since docs/PROMISES.md names `check_pairs` and what of `table` it calls.
ghost use Rattle.std.specs.Prelude.{◌≡◌, ◌&&◌, ◌||◌, not, [], ◌<◌, ltb, length};
ghost use Rattle.theory.specs.Choice.{free, clash};
ghost use Rattle.table.specs.Layout.{Sized, rel, some_first};
ghost use Rattle.table.specs.Answers.{said_shaped};
ghost use Rattle.refusal.specs.Said.{says};
ghost use Rattle.choose.specs.Choosing.{choice_of, after_fixed, after_clash};
ghost use Rattle.choose.specs.Taken.{Small, Readings};

use crate::walk::FREE;
use refusal::Refusal;
use table::{field_size, row_word};

// The fixed byte is neither free nor below the size.
fn bad_byte(fixed: u8, size: u32) -> bool
    ensures { result ≡ not (free fixed || ltb fixed size) }
{
    fixed != FREE && fixed as u32 >= size
}

// 11: the first field whose fixed byte is neither free nor below the size.
pub fn check_bytes(sizes: &[u8], fixed: &[u8]) -> Result<(), Refusal>
    requires { length fixed.now ≡ length sizes.now }
    ensures { said_shaped result ≡ after_fixed sizes.now fixed.now (says 0 []) }
{
    for (f, byte) in fixed.iter().enumerate() {
        if bad_byte(*byte, field_size(sizes, f)) {
            return Err(Refusal::Fixed(f));
        }
    }
    Ok(())
}

// Reading a of field i and reading b of field j, both fixed, do not go together.
fn apart(table: &[u32], n: usize, i: usize, j: usize, a: u8, b: u8) -> bool
    requires { Sized n table.now × (i < n) × (j < n) × Small a × Small b }
    ensures { result ≡ (not (free a || free b) && not (rel n table.now i j a b)) }
{
    if a == FREE || b == FREE {
        return false;
    }
    !words::has(row_word(table, n, i, j, a as usize), b as u32)
}

// The first field from i on whose fixed reading does not go with that of i, if there is one. Of i itself: that reading is struck.
fn clash_of(table: &[u32], n: usize, fixed: &[u8], i: usize) -> Option<usize>
    requires { Sized n table.now × (i < n) × (length fixed.now ≡ n) × Readings n (choice_of fixed.now) }
    ensures { result ≡ some_first n (clash (rel n table.now) (choice_of fixed.now) i) }
{
    for j in i..n {
        if apart(table, n, i, j, fixed[i], fixed[j]) {
            return Some(j);
        }
    }
    None
}

// 12: the first pair of fixed readings that do not go together, by i, then j.
pub fn check_pairs(table: &[u32], n: usize, fixed: &[u8]) -> Result<(), Refusal>
    requires { Sized n table.now × (length fixed.now ≡ n) × Readings n (choice_of fixed.now) }
    ensures { said_shaped result ≡ after_clash n (rel n table.now) (choice_of fixed.now) (says 0 []) }
{
    for i in 0..n {
        if let Some(j) = clash_of(table, n, fixed, i) {
            return Err(Refusal::Clash(i, j));
        }
    }
    Ok(())
}
