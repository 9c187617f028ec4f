// How far a lent buffer is gone after a sheet is read: a pattern before, and what differs from it after.
ghost use Rattle.std.specs.Prelude.{◌≤◌, length};

// An element of a lent buffer, and a value of it that no sheet gives.
pub trait Element: Copy + PartialEq + Into<u32> {
    const PATTERN: Self;
}

impl Element for u8 {
    const PATTERN: u8 = 0xaa;
}

impl Element for u16 {
    const PATTERN: u16 = 0xaaaa;
}

impl Element for u32 {
    const PATTERN: u32 = 0xaaaa_aaaa;
}

// The modulus and the factor of the sum.
const MODULUS: u64 = 4_294_967_291;

const FACTOR: u64 = 257;

// How far each buffer is written, and a sum of what is.
#[derive(Clone, Copy)]
pub struct Traces {
    pub sizes: usize,
    pub days: usize,
    pub table: usize,
    pub sum: u64,
}

// The sum with one word more.
fn plus(sum: u64, word: u32) -> u64 {
    (sum % MODULUS * FACTOR + u64::from(word)) % MODULUS
}

// Behind the last element that is not the pattern, and a sum of those before that goes on from another; it tells their order.
fn traced<T: Element>(lent: &[T], sum: u64) -> (usize, u64)
    ensures { result.0 ≤ length lent.now }
{
    let end = lent
        .iter()
        .rposition(|x| *x != T::PATTERN)
        .map_or(0, |last| last + 1);
    let sum = lent
        .iter()
        .take(end)
        .fold(sum, |sum, x| plus(sum, (*x).into()));
    (end, sum)
}

pub fn seen(sizes: &[u8], days: &[u16], table: &[u32]) -> Traces
    ensures sizes { result.sizes ≤ length sizes.now }
    ensures days { result.days ≤ length days.now }
    ensures table { result.table ≤ length table.now }
{
    let (sizes, sum) = traced(sizes, 0);
    let (days, sum) = traced(days, sum);
    let (table, sum) = traced(table, sum);
    Traces {
        sizes,
        days,
        table,
        sum,
    }
}
