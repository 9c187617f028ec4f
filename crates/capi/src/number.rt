// One number of 64 bits from its parts.
ghost use Rattle.std.specs.Prelude.{◌≡◌, ◌%◌, length};
ghost use Rattle.refusal.specs.Refusals.{number, place};
ghost use Rattle.capi.specs.Packed.{joined, parts, packed};

use refusal::Refusal;

// The lowest 8 bits. What is higher is cut, as C is told (`parts`), so this is no `TryFrom`.
fn byte(v: usize) -> u8
    ensures { result ≡ v % 256 }
{
    (v % 256) as u8
}

// The lowest 16 bits, cut for the same reason.
fn half(v: usize) -> u16
    ensures { result ≡ v % 65536 }
{
    (v % 65536) as u16
}

// The parts side by side, the lowest bits first, by sums as `joined` has them.
#[tactic(auto, unfolding(crate::specs::Packed::joined))]
fn join(state: u8, second: u8, x: u16, y: u16, z: u16) -> u64
    ensures { result ≡ joined state second x y z }
{
    state as u64
        + 256 * (second as u64 + 256 * (x as u64 + 65536 * (y as u64 + 65536 * (z as u64))))
}

// A state, a second number and three values.
pub fn pack(state: u8, second: usize, values: [usize; 3]) -> u64
    ensures { result ≡ packed state (parts second values) }
{
    let [x, y, z] = values;
    join(state, byte(second), half(x), half(y), half(z))
}

// A refusal: its number, the count of its place's values, and these.
pub fn refused(r: Refusal) -> u64
    ensures { result ≡ packed (number r) (parts (length (place r)) (place r)) }
{
    let printed = refusal::in_numbers(r);
    pack(printed.number, printed.count, printed.values)
}
