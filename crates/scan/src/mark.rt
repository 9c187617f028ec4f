// The marks of records.
ghost use Rattle.std.specs.Prelude.{◌≡◌, ◌+◌, ◌≤◌, length};
ghost use Rattle.scan.specs.Sheet.{number_at, mark_of};

use crate::number;

// What a mark announces: DT, DS, FD, GP, PR, EN. Any two bytes are a mark, as `mark_of` says, so an unknown one is no None.
#[derive(Clone, Copy)]
pub enum Mark {
    Date,
    Short,
    Days,
    Gap,
    Strike,
    End,
    Unknown,
}

impl From<u16> for Mark {
    ghost from_gives = { λ n r. r ≡ mark_of n };

    // The mark whose two bytes make this number.
    #[tactic(auto, unfolding(crate::specs::Sheet::mark_of))]
    fn from(number: u16) -> Mark {
        match number {
            0x4454 => Mark::Date,
            0x4453 => Mark::Short,
            0x4644 => Mark::Days,
            0x4750 => Mark::Gap,
            0x5052 => Mark::Strike,
            0x454e => Mark::End,
            _ => Mark::Unknown,
        }
    }
}

pub fn mark_at(sheet: &[u8], at: usize) -> Mark
    requires { at + 2 ≤ length sheet.now }
    ensures { result ≡ mark_of (number_at sheet.now at) }
{
    Mark::from(number::number_at(sheet, at))
}
