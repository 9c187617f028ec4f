// The paper's numbers: one enum for every refusal, the number and the place of each (01, "Numbers given back").
#![tactic(auto)]

ghost use Rattle.std.specs.Prelude.{◌≤◌, length};
ghost use Rattle.refusal.specs.Refusals.{number, place};
ghost use Rattle.refusal.specs.Print.{Prints};

// A case for each number and arity of place. Whether a value is a field or an offset is the entry point's rule; a row is three values,
// as `place` lists them, since the rows of a table are known above this crate.
#[derive(Clone, Copy)]
pub enum Refusal {
    // 1: no field, or more than the most
    Fields,
    // 2: a size is 0 or over the most: field
    Size(usize),
    // 3: table length wrong
    Length,
    // 4, 5, 6: stray bit; diagonal; mirror: field, field, row
    Stray(usize, usize, usize),
    Diagonal(usize, usize, usize),
    Mirror(usize, usize, usize),
    // 7: scratch, fixed or answer length wrong
    Lent,
    // 8: not settled: first row a round would change
    Unsettled(usize, usize, usize),
    // 9: empty
    Empty,
    // 10: a broken row: that row
    Broken(usize, usize, usize),
    // 11: fixed byte neither free nor below the size: field
    Fixed(usize),
    // 12: fixed readings not allowed together, or one struck: first pair
    Clash(usize, usize),
    // 13: a lent buffer too short
    Short,
    // 14: sheet too long
    Long,
    // 15: cut
    Cut(usize),
    // 16: unknown mark
    Mark(usize),
    // 17: a date record after an interval or a strike
    Late(usize),
    // 18: a field too many
    Many(usize),
    // 19: date shape or year, of a text by itself and of a record
    Shapeless,
    ShapelessAt(usize),
    // 20: no real date, of a text by itself and of a record
    Unreal,
    UnrealAt(usize),
    // 21: count, or days not rising or too late
    Days(usize),
    // 22: field or reading number, i against j, a against b, or lo over hi
    Pair(usize),
    // 23: bytes after the end
    After(usize),
    // 24: cell or kept number asked: not a field
    NoField,
}

// A refusal in numbers, for printing: the paper's number, how many values its place has, and these, then zeros.
// The count stands beside an array since there is no heap, and C is given all three values (`Prints`, `packed`).
#[derive(Clone, Copy)]
pub struct Printed {
    pub number: u8,
    pub count: usize,
    pub values: [usize; 3],
}

impl Printed {
    // A number and a place, of which there is room for three values.
    fn new(number: u8, place: &[usize]) -> Printed
        requires { length place.now ≤ 3 }
        ensures { Prints number place.now result }
    {
        let count = place.len();
        let mut values = [0; 3];
        values[..count].copy_from_slice(place);
        Printed {
            number,
            count,
            values,
        }
    }
}

// The number and the place of a refusal: a function and no `From`, since docs/PROMISES.md names it.
pub fn in_numbers(r: Refusal) -> Printed
    ensures { Prints (number r) (place r) result }
{
    match r {
        Refusal::Fields => Printed::new(1, &[]),
        Refusal::Size(a) => Printed::new(2, &[a]),
        Refusal::Length => Printed::new(3, &[]),
        Refusal::Stray(i, j, a) => Printed::new(4, &[i, j, a]),
        Refusal::Diagonal(i, j, a) => Printed::new(5, &[i, j, a]),
        Refusal::Mirror(i, j, a) => Printed::new(6, &[i, j, a]),
        Refusal::Lent => Printed::new(7, &[]),
        Refusal::Unsettled(i, j, a) => Printed::new(8, &[i, j, a]),
        Refusal::Empty => Printed::new(9, &[]),
        Refusal::Broken(i, j, a) => Printed::new(10, &[i, j, a]),
        Refusal::Fixed(a) => Printed::new(11, &[a]),
        Refusal::Clash(i, j) => Printed::new(12, &[i, j]),
        Refusal::Short => Printed::new(13, &[]),
        Refusal::Long => Printed::new(14, &[]),
        Refusal::Cut(a) => Printed::new(15, &[a]),
        Refusal::Mark(a) => Printed::new(16, &[a]),
        Refusal::Late(a) => Printed::new(17, &[a]),
        Refusal::Many(a) => Printed::new(18, &[a]),
        Refusal::Shapeless => Printed::new(19, &[]),
        Refusal::ShapelessAt(a) => Printed::new(19, &[a]),
        Refusal::Unreal => Printed::new(20, &[]),
        Refusal::UnrealAt(a) => Printed::new(20, &[a]),
        Refusal::Days(a) => Printed::new(21, &[a]),
        Refusal::Pair(a) => Printed::new(22, &[a]),
        Refusal::After(a) => Printed::new(23, &[a]),
        Refusal::NoField => Printed::new(24, &[]),
    }
}
