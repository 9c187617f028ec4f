// One row of 32 bits: tested, changed, narrowed, spanned and counted. A bit is a number below 32 and a cell a slice of 32 words:
// docs/PROMISES.md names these functions, and a type of bits or of cells would ask more of those who call them.
#![tactic(auto)]

mod turn;

ghost use Rattle.std.specs.Prelude.{◌≡◌, ◌&&◌, ◌||◌, not, ◌<◌, eqb, ltb, length, get_or};
ghost use Rattle.theory.specs.Bound.{any, first, count};
ghost use Rattle.theory.specs.Rows.{whole};
ghost use Rattle.words.specs.Word.{bit, pack, spanned};

pub use turn::turned;

// Bit b of w is 1.
pub fn has(w: u32, b: u32) -> bool
    requires { b < 32 }
    ensures { result ≡ bit w b }
{
    (w >> b) & 1 == 1
}

// w with bit b set.
pub fn with_bit(w: u32, b: u32) -> u32
    requires { b < 32 }
    ensures { result ≡ pack 32 (λ c. bit w c || eqb c b) }
{
    w | (1 << b)
}

// w with bit b clear.
pub fn without_bit(w: u32, b: u32) -> u32
    requires { b < 32 }
    ensures { result ≡ pack 32 (λ c. bit w c && not (eqb c b)) }
{
    w & !(1 << b)
}

// The bits that w and v share.
pub fn both(w: u32, v: u32) -> u32
    ensures { result ≡ pack 32 (λ b. bit w b && bit v b) }
{
    w & v
}

// The lowest size bits; all 32 from size 32 on, where a shift is not allowed.
pub fn below(size: u32) -> u32
    ensures { result ≡ pack 32 (λ b. ltb b size) }
{
    if size >= u32::BITS {
        return u32::MAX;
    }
    (1 << size) - 1
}

// Some bit of w lies outside mask.
pub fn outside(w: u32, mask: u32) -> bool
    ensures { result ≡ any 32 (λ b. bit w b && not (bit mask b)) }
{
    w & !mask != 0
}

// The bits of w that some bit c of row leads to, by word c of cell. The loop goes over the ones of row alone, and stops
// once every bit of w is reached.
pub fn narrowed(w: u32, row: u32, cell: &[u32]) -> u32
    requires { length cell.now ≡ 32 }
    ensures { result ≡ pack 32 (λ b. bit w b && any 32 (λ c. bit row c && bit (get_or cell.now c 0) b)) }
{
    let mut left = w;
    let mut rest = row;
    while left != 0 && rest != 0 {
        left &= !cell[rest.trailing_zeros() as usize];
        rest &= rest - 1;
    }
    w & !left
}

// The bits from the lowest 1 of w to the highest.
pub fn span(w: u32) -> u32
    ensures { result ≡ pack 32 (spanned w) }
{
    if w == 0 {
        return 0;
    }
    (u32::MAX >> w.leading_zeros()) & (u32::MAX << w.trailing_zeros())
}

// The row w is whole: no bit of stand between two of its ones is missing.
pub fn is_whole(w: u32, stand: u32) -> bool
    ensures { result ≡ whole (bit stand) (bit w) }
{
    !outside(span(w) & stand, w)
}

// How many bits of w are 1.
pub fn ones(w: u32) -> u32
    ensures { result ≡ count 32 (bit w) }
{
    w.count_ones()
}

// The lowest bit of w that is 1, or 32.
pub fn lowest(w: u32) -> u32
    ensures { result ≡ first 32 (bit w) }
{
    w.trailing_zeros()
}
