// Settling: rounds until nothing changes, and the first row that a round would change.
#![tactic(auto)]

ghost use Rattle.std.specs.Prelude.{◌≡◌, not, ◌<◌};
ghost use Rattle.theory.specs.Reading.{holds};
ghost use Rattle.table.specs.Layout.{Sized, rel};
ghost use Rattle.settle.specs.Settle.{Settlement};

use refusal::Refusal;
use running::run;
use table::{cell, shape};

mod changes;
mod round;
mod running;

pub use changes::first_changed;

// What settling comes to: the rounds it took and whether the table is empty.
#[derive(Clone, Copy)]
pub struct Settled {
    pub rounds: u64,
    pub empty: bool,
}

// No bit stands in cell (0, 0). In a settled table that is to say: in no cell.
fn nothing_left(table: &[u32], n: usize) -> bool
    requires { Sized n table.now × (0 < n) }
    ensures { result ≡ not (holds (rel n table.now) 0 0) }
{
    cell(table, n, 0, 0).iter().all(|w| *w == 0)
}

// Settles the table within a budget of rounds, with scratch of the same length; None where the budget is spent before that.
pub fn settle(
    sizes: &[u8],
    table: &mut [u32],
    scratch: &mut [u32],
    budget: u64,
) -> Result<Option<Settled>, Refusal>
    ensures { Settlement sizes.now table.old scratch.old budget result table.new scratch.new }
{
    shape(sizes, table)?;
    if scratch.len() != table.len() {
        return Err(Refusal::Lent);
    }
    let n = sizes.len();
    let settled = run(table, scratch, n, budget).map(|rounds| Settled {
        rounds,
        empty: nothing_left(table, n),
    });
    Ok(settled)
}
