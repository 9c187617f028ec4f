// Rounds to and fro between two tables.
ghost use Rattle.table.specs.Layout.{rel};
ghost use Rattle.settle.specs.Round.{Lent};
ghost use Rattle.settle.specs.Running.{Formed, Ran};

use crate::round::round_into;

// The bits of every field.
const EVERY_FIELD: u32 = 0xffff_ffff;

// Rounds from table to scratch and back, until one changes nothing, or the budget is spent: then there is no answer. Where nothing
// changes both hold the same words, so that only a spent budget can leave them the wrong way round.
pub fn run(table: &mut [u32], scratch: &mut [u32], n: usize, budget: u64) -> Option<u64>
    requires { Lent n table.old scratch.old × Formed n (rel n table.old) }
    ensures { Ran n table.old budget result table.new scratch.new }
{
    let mut moved = EVERY_FIELD;
    for r in 0..=budget {
        moved = if r % 2 == 0 {
            round_into(table, n, moved, scratch)
        } else {
            round_into(scratch, n, moved, table)
        };
        if moved == 0 {
            return Some(r);
        }
    }
    if budget % 2 == 1 {
        table.swap_with_slice(scratch);
    }
    None
}
