// A GP in the words of one cell: of each row only what the interval admits stays.
ghost use Rattle.std.specs.Prelude.{◌≡◌, ◌≤◌, ◌<◌, ◌+◌, ◌-◌, ◌*◌, length};
ghost use Rattle.theory.specs.Limits.{readings_most};
ghost use Rattle.table.specs.Layout.{Sized};
ghost use Rattle.sheet.specs.Writing.{Below, Parts, TwoFields, between, narrowed, days_at, CellNarrowed};

use scan::record::Interval;
use table::{READINGS_MOST, cell_start};

// The first place from `from` on whose day, raised, is not below the bound. Past the last day is a place as well, the end of what is
// admitted, so this is no Option.
fn past(days: &[u16], from: usize, bound: u32) -> usize
    requires { Below days.now from bound }
    ensures { Parts days.now bound result }
{
    for b in from..days.len() {
        if days[b] as u32 + 32768 >= bound {
            return b;
        }
    }
    days.len()
}

// The bits of w from one place up to another.
fn between(w: u32, from: usize, to: usize) -> u32
    requires { (from ≤ readings_most) × (to ≤ readings_most) }
    ensures { result ≡ between w from to }
{
    w & words::below(to as u32) & !words::below(from as u32)
}

// The cell of a field with these first days and one with these second days. Both rise, so the places that part what is
// admitted only move up from row to row.
fn narrow(cell: &mut [u32], first: &[u16], second: &[u16], lo: u32, hi: u32)
    requires { (length cell.old ≡ readings_most) × TwoFields first.now second.now × (lo ≤ 65536) × (hi ≤ 65536) }
    ensures { cell.new ≡ narrowed first.now second.now lo hi cell.old }
{
    let mut from = 0;
    let mut to = 0;
    for (a, day) in first.iter().enumerate() {
        let day = *day as u32;
        from = past(second, from, day + lo);
        to = past(second, to, day + hi + 1);
        cell[a] = between(cell[a], from, to);
    }
}

// The days of field i, of which there are so many.
pub fn days_of(days: &[u16], i: usize, size: usize) -> &[u16]
    requires { i * readings_most + size ≤ length days.now }
    ensures { result.now ≡ days_at days.now i size }
{
    let from = i * READINGS_MOST;
    &days[from..from + size]
}

// An interval as it is seen from its second field. That lo and hi are raised numbers is asked here and of a cell, since docs/PROMISES.md
// names `Interval::is_right` of any interval.
pub fn turned(g: Interval) -> Interval
    requires { (g.lo ≤ 65536) × (g.hi ≤ 65536) }
    ensures { result ≡ record { i = g.j; j = g.i; lo = 65536 - g.hi; hi = 65536 - g.lo } }
{
    Interval {
        i: g.j,
        j: g.i,
        lo: 65536 - g.hi,
        hi: 65536 - g.lo,
    }
}

// The cell of an interval's two fields, lent on by itself.
pub fn narrow_cell(table: &mut [u32], n: usize, g: Interval, first: &[u16], second: &[u16])
    requires { Sized n table.old × (g.i < n) × (g.j < n) × TwoFields first.now second.now × (g.lo ≤ 65536) × (g.hi ≤ 65536) }
    ensures { CellNarrowed n table.old g.i g.j first.now second.now g.lo g.hi table.new }
{
    let at = cell_start(n, g.i, g.j);
    narrow(
        &mut table[at..at + READINGS_MOST],
        first,
        second,
        g.lo,
        g.hi,
    );
}
