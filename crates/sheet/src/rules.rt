// The write pass over GP and PR: pairs struck from the opening table.
ghost use Rattle.std.specs.Prelude.{◌≡◌, ◌+◌, length};
ghost use Rattle.table.specs.Layout.{words};
ghost use Rattle.scan.specs.Sheet.{number_at, mark_of};
ghost use Rattle.scan.specs.declared.mark.Mark.TheVariants.{Gap, Strike};
ghost use Rattle.sheet.specs.Opening.{opening};
ghost use Rattle.sheet.specs.Writing.{records, fields, RulesTo};

use crate::gap;
use scan::mark::{self, Mark};
use scan::number::byte_at;
use scan::record::{Interval, Pair};

// Of the cell of a GP, and of its mirror, only what the interval admits stays.
fn apply_gap(sheet: &[u8], at: usize, sizes: &[u8], days: &[u16], table: &mut [u32])
    requires { RulesTo sheet.now sizes.now days.now table.old at × (mark_of (number_at sheet.now at) ≡ Gap) }
    ensures { RulesTo sheet.now sizes.now days.now table.new (at + 8) }
{
    let n = sizes.len();
    let g = Interval::at(sheet, at);
    let first = gap::days_of(days, g.i, byte_at(sizes, g.i));
    let second = gap::days_of(days, g.j, byte_at(sizes, g.j));
    gap::narrow_cell(table, n, g, first, second);
    gap::narrow_cell(table, n, gap::turned(g), second, first);
}

fn apply_strike(sheet: &[u8], at: usize, sizes: &[u8], days: &[u16], table: &mut [u32])
    requires { RulesTo sheet.now sizes.now days.now table.old at × (mark_of (number_at sheet.now at) ≡ Strike) }
    ensures { RulesTo sheet.now sizes.now days.now table.new (at + 6) }
{
    let p = Pair::at(sheet, at);
    table::strike(table, sizes.len(), p.i, p.j, p.a, p.b);
}

// Each GP and PR from an offset on; a sheet that was judged has nothing else there but its EN. An enum says which, and the arms call
// functions that read different records.
pub fn apply_rules(sheet: &[u8], from: usize, sizes: &[u8], days: &[u16], table: &mut [u32])
    requires { RulesTo sheet.now sizes.now days.now table.old from }
    ensures { table.new ≡ words (length sizes.now) (opening (fields sheet.now) (records sheet.now)) }
{
    let mut at = from;
    loop {
        match mark::mark_at(sheet, at) {
            Mark::Gap => {
                apply_gap(sheet, at, sizes, days, table);
                at += 8;
            }
            Mark::Strike => {
                apply_strike(sheet, at, sizes, days, table);
                at += 6;
            }
            _ => return,
        }
    }
}
