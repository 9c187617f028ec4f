// The walk: field by field the lowest reading that goes with all that is fixed and all that is chosen so far. A table and its number
// of fields are two parameters here, since docs/PROMISES.md names `own_word` and the functions of `table` that it calls.
ghost use Rattle.std.specs.Prelude.{◌≡◌, ◌&&◌, ◌||◌, ◌<◌, length};
ghost use Rattle.theory.specs.Limits.{readings_most};
ghost use Rattle.theory.specs.Choice.{free};
ghost use Rattle.words.specs.Word.{bit, pack};
ghost use Rattle.table.specs.Layout.{Sized, rel};
ghost use Rattle.choose.specs.Choosing.{choice_of, Ready, Agreed, FirstOf};
ghost use Rattle.choose.specs.Taken.{Small, Readings, own, fitting};

use table::{cell, row_word};

// A choice that leaves its field free: the number is FQ_FREE of the C interface, which gives and takes a byte a field.
pub const FREE: u8 = 255;

// The readings of field f that go with a reading of f: those that it keeps.
pub fn own_word(table: &[u32], n: usize, f: usize) -> u32
    requires { Sized n table.now × (f < n) }
    ensures { result ≡ pack readings_most (own (rel n table.now) f) }
{
    let all = words::below(32);
    words::narrowed(all, all, cell(table, n, f, f))
}

// Those of the readings w of field f that go with reading v of field g; where v is free, all of them.
fn going_with(w: u32, table: &[u32], n: usize, g: usize, f: usize, v: u8) -> u32
    requires { Sized n table.now × (g < n) × (f < n) × Small v }
    ensures { result ≡ pack readings_most (λ b. bit w b && (free v || rel n table.now g f v b)) }
{
    if v == FREE {
        return w;
    }
    words::both(w, row_word(table, n, g, f, v as usize))
}

// The readings of field f that go with all that is taken: a reading for each field that is fixed or chosen, FREE for the others.
fn left_word(table: &[u32], n: usize, taken: &[u8], f: usize) -> u32
    requires { Sized n table.now × (f < n) × (length taken.now ≡ n) × Readings n (choice_of taken.now) }
    ensures { result ≡ pack readings_most (fitting n (rel n table.now) (choice_of taken.now) f) }
{
    let mut w = own_word(table, n, f);
    for (g, v) in taken.iter().enumerate() {
        w = going_with(w, table, n, g, f, *v);
    }
    w
}

// Takes the lowest reading that is left, field by field. The answer holds the fixed choices first, and readings alone in the end.
pub fn take_lowest(sizes: &[u8], table: &[u32], answer: &mut [u8])
    requires { Ready sizes.now table.now answer.old (length answer.old) × Agreed sizes.now table.now answer.old }
    ensures { FirstOf sizes.now table.now answer.old answer.new }
{
    let n = sizes.len();
    for f in 0..n {
        answer[f] = words::lowest(left_word(table, n, answer, f)) as u8;
    }
}
