// Each answer of the library as a number.
ghost use Rattle.std.specs.Prelude.{◌≡◌, [], ◌∷◌, List, ℕ};
ghost use Rattle.refusal.specs.Said.{Said, says};
ghost use Rattle.judge.specs.Answers.{said_row, said_place};
ghost use Rattle.settle.specs.Settle.{said_settled};
ghost use Rattle.capi.specs.Packed.{Parts, packed_said, packed_answer, as_values, as_days, as_settling, as_rows, as_shown};

use crate::number::{pack, refused};
use calendar::Days;
use judge::Shown;
use refusal::Refusal;
use settle::Settled;
use table::Row;

// A result that goes over C as one number.
pub trait Packs {
    // What it says, and how its values are parted.
    ghost said: { Self → Said };

    ghost parted: { Self → List ℕ → Parts };

    fn pack(self) -> u64
        ensures { result ≡ packed_said (parted self) (said self) };
}

// The result packed, or the refusal.
pub fn packed<T: Packs>(answer: Result<T, Refusal>) -> u64
    ensures { result ≡ packed_answer T.said T.parted answer }
{
    match answer {
        Ok(x) => x.pack(),
        Err(r) => refused(r),
    }
}

// A reading is chosen.
impl Packs for () {
    ghost said = { λ _. says 0 [] };

    ghost parted = { λ _. as_values };

    fn pack(self) -> u64 {
        pack(0, 0, [0, 0, 0])
    }
}

// The fields of a sheet that was read.
impl Packs for usize {
    ghost said = { λ n. says 0 (n ∷ []) };

    ghost parted = { λ _. as_values };

    fn pack(self) -> u64 {
        pack(0, 0, [self, 0, 0])
    }
}

// The readings that a field keeps. C is given both kinds of number, and an impl over both would take a trait of its own.
impl Packs for u32 {
    ghost said = { λ n. says 0 (n ∷ []) };

    ghost parted = { λ _. as_values };

    fn pack(self) -> u64 {
        pack(0, 0, [self as usize, 0, 0])
    }
}

impl Packs for Days {
    ghost said = { λ d. says 0 (d.count ∷ []) };

    ghost parted = { λ d. as_days d.days };

    fn pack(self) -> u64 {
        let [a, b, c] = self.days;
        pack(0, self.count, [a as usize, b as usize, c as usize])
    }
}

impl Packs for Option<Settled> {
    ghost said = { said_settled };

    ghost parted = { λ _. as_settling };

    fn pack(self) -> u64 {
        match self {
            Some(settled) => {
                let low = settled.rounds as usize;
                pack(0, settled.empty as usize, [low, low / 65536, 0])
            }
            None => pack(0, 2, [0, 0, 0]),
        }
    }
}

// The first broken row, if there is one.
impl Packs for Option<Row> {
    ghost said = { said_row };

    ghost parted = { λ _. as_rows };

    fn pack(self) -> u64 {
        match self {
            Some(row) => pack(0, 1, [row.i, row.j, row.a]),
            None => pack(0, 0, [0, 0, 0]),
        }
    }
}

impl Packs for Shown {
    ghost said = { said_place };

    ghost parted = { λ _. as_shown };

    fn pack(self) -> u64 {
        match self {
            Shown::Settled(at) => pack(0, 0, [at, at / 65536, 0]),
            Shown::Opening(at) => pack(0, 1, [at, at / 65536, 0]),
        }
    }
}
