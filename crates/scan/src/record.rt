// The numbers that a GP and a PR hold.
ghost use Rattle.std.specs.Prelude.{◌≡◌, ◌+◌, ◌≤◌, length};
ghost use Rattle.scan.specs.Sheet.{gap_right, strike_right};
ghost use Rattle.scan.specs.Judging.{ReadsInterval, ReadsPair};

use crate::number;

// GP: the days from a reading of field i to one of field j, from lo to hi, both raised by 32,768.
#[derive(Clone, Copy)]
pub struct Interval {
    pub i: usize,
    pub j: usize,
    pub lo: u32,
    pub hi: u32,
}

// PR: reading a of field i with reading b of field j.
#[derive(Clone, Copy)]
pub struct Pair {
    pub i: usize,
    pub j: usize,
    pub a: usize,
    pub b: usize,
}

impl Interval {
    pub fn at(sheet: &[u8], at: usize) -> Interval
        requires { at + 8 ≤ length sheet.now }
        ensures { ReadsInterval sheet.now at result }
    {
        Interval {
            i: number::byte_at(sheet, at + 2),
            j: number::byte_at(sheet, at + 3),
            lo: number::raised(number::number_at(sheet, at + 4)),
            hi: number::raised(number::number_at(sheet, at + 6)),
        }
    }

    // It may stand in a sheet whose fields have these sizes.
    #[tactic(auto, unfolding(crate::specs::Sheet::gap_right))]
    pub fn is_right(&self, sizes: &[u8]) -> bool
        ensures { result ≡ gap_right sizes.now self.now.i self.now.j self.now.lo self.now.hi }
    {
        self.i < sizes.len() && self.j < sizes.len() && self.i != self.j && self.lo <= self.hi
    }
}

impl Pair {
    pub fn at(sheet: &[u8], at: usize) -> Pair
        requires { at + 6 ≤ length sheet.now }
        ensures { ReadsPair sheet.now at result }
    {
        Pair {
            i: number::byte_at(sheet, at + 2),
            j: number::byte_at(sheet, at + 3),
            a: number::byte_at(sheet, at + 4),
            b: number::byte_at(sheet, at + 5),
        }
    }

    // It may stand in a sheet whose fields have these sizes.
    #[tactic(auto, unfolding(crate::specs::Sheet::strike_right))]
    pub fn is_right(&self, sizes: &[u8]) -> bool
        ensures { result ≡ strike_right sizes.now self.now.i self.now.j self.now.a self.now.b }
    {
        self.i < sizes.len()
            && self.j < sizes.len()
            && self.a < number::byte_at(sizes, self.i)
            && self.b < number::byte_at(sizes, self.j)
            && (self.i != self.j || self.a == self.b)
    }
}
