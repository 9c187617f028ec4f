// A cell of 32 words turned over, in five passes of 16 pairs of words. Distance and mask are two parameters: a struct of them
// would be made at each of the five calls and taken apart in the next.
ghost use Rattle.std.specs.Prelude.{◌≡◌, ◌&&◌, ◌||◌, not, ◌+◌, ◌-◌, ◌<◌, T, length};
ghost use Rattle.words.specs.Word.{bit, pack};
ghost use Rattle.words.specs.Turn.{parted, Exchanged, Turned};

// The bits of x in mask; in the other places, the bits of y k places lower.
fn low_of(x: u32, y: u32, k: u32, mask: u32) -> u32
    requires { (k < 32) × T (parted k mask) }
    ensures { result ≡ pack 32 (λ c. (bit x c && bit mask c) || (bit y (c - k) && not (bit mask c))) }
{
    (x & mask) | ((y & mask) << k)
}

// In mask, the bits of x k places higher; in the other places, the bits of y.
fn high_of(x: u32, y: u32, k: u32, mask: u32) -> u32
    requires { k < 32 }
    ensures { result ≡ pack 32 (λ c. (bit x (k + c) && bit mask c) || (bit y c && not (bit mask c))) }
{
    ((x >> k) & mask) | (y & !mask)
}

// One fifth of a turn: words q and q + 16 exchange bits k apart, and become words 2q and 2q + 1.
fn exchanged(cell: &[u32], k: u32, mask: u32) -> [u32; 32]
    requires { (length cell.now ≡ 32) × (k < 32) × T (parted k mask) }
    ensures { Exchanged k mask cell.now result }
{
    let mut out = [0u32; 32];
    for q in 0..16 {
        let x = cell[q];
        let y = cell[q + 16];
        out[2 * q] = low_of(x, y, k, mask);
        out[2 * q + 1] = high_of(x, y, k, mask);
    }
    out
}

// The cell turned over: bit b of word a is bit a of word b of the given one.
#[tactic(auto, using(crate::proofs::Whence::partings))]
pub fn turned(cell: &[u32]) -> [u32; 32]
    requires { length cell.now ≡ 32 }
    ensures { Turned cell.now result }
{
    let sixteens = exchanged(cell, 16, 0x0000_ffff);
    let eights = exchanged(&sixteens, 8, 0x00ff_00ff);
    let fours = exchanged(&eights, 4, 0x0f0f_0f0f);
    let twos = exchanged(&fours, 2, 0x3333_3333);
    exchanged(&twos, 1, 0x5555_5555)
}
