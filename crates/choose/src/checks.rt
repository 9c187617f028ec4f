// The checks of choosing in number order, before anything is written.
ghost use Rattle.std.specs.Prelude.{◌≡◌, [], length};
ghost use Rattle.refusal.specs.Said.{says};
ghost use Rattle.table.specs.Layout.{rel, size_of};
ghost use Rattle.table.specs.Shape.{GoodTable};
ghost use Rattle.table.specs.Answers.{said_shaped};
ghost use Rattle.choose.specs.Choosing.{after_table, choose_says};

use crate::fixed::{check_bytes, check_pairs};
use crate::walk::own_word;
use judge::first_broken;
use refusal::Refusal;
use settle::first_changed;
use table::{Row, shape};

// 8 to 10: settled, not empty, whole. A settled table is empty where its first field keeps nothing.
fn check_table(sizes: &[u8], table: &[u32]) -> Result<(), Refusal>
    requires { GoodTable sizes.now table.now }
    ensures { said_shaped result ≡ after_table (length sizes.now) (size_of sizes.now) (rel (length sizes.now) table.now) (says 0 []) }
{
    let n = sizes.len();
    if let Some(Row { i, j, a }) = first_changed(table, n) {
        return Err(Refusal::Unsettled(i, j, a));
    }
    if own_word(table, n, 0) == 0 {
        return Err(Refusal::Empty);
    }
    if let Some(Row { i, j, a }) = first_broken(sizes, table) {
        return Err(Refusal::Broken(i, j, a));
    }
    Ok(())
}

// 1 to 12, with room for an answer of so many bytes.
pub fn judged(sizes: &[u8], table: &[u32], fixed: &[u8], room: usize) -> Result<(), Refusal>
    ensures { said_shaped result ≡ choose_says sizes.now table.now fixed.now room }
{
    shape(sizes, table)?;
    let n = sizes.len();
    if fixed.len() != n || room != n {
        return Err(Refusal::Lent);
    }
    check_table(sizes, table)?;
    check_bytes(sizes, fixed)?;
    check_pairs(table, n, fixed)
}
