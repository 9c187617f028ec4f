// The first row, in table order, that a round would change.
ghost use Rattle.std.specs.Prelude.{◌≡◌, [], ◌<◌};
ghost use Rattle.theory.specs.Limits.{readings_most};
ghost use Rattle.refusal.specs.Said.{says};
ghost use Rattle.table.specs.Layout.{Sized, rel, some_first};
ghost use Rattle.settle.specs.Round.{Turned};
ghost use Rattle.settle.specs.Changes.{changed_above, said_changed, after_settled};

use crate::round::lost_bits;
use table::{READINGS_MOST, Row, first_row};

// The first row of cell (i, j) that a round would change. A cell below the diagonal is passed over: its mirror comes first.
fn changed_in(table: &[u32], n: usize, i: usize, j: usize) -> Option<usize>
    requires { Sized n table.now × (i < n) × (j < n) }
    ensures { result ≡ some_first readings_most (changed_above n (rel n table.now) i j) }
{
    if j < i {
        return None;
    }
    (0..READINGS_MOST).find(|a| lost_bits(table, n, i, j, *a) != 0)
}

// The first row that a round would change, if there is one, of a table that is its own mirror image.
pub fn first_changed(table: &[u32], n: usize) -> Option<Row>
    requires { Sized n table.now × Turned n (rel n table.now) }
    ensures { said_changed result ≡ after_settled n (rel n table.now) (says 0 []) }
{
    first_row(n, |i, j| changed_in(table, n, i, j))
}
