// A cell shown, from the settled table or, where that holds no bit, from the opening one.
ghost use Rattle.std.specs.Prelude.{◌≡◌, ◌%◌, eqb, length};
ghost use Rattle.theory.specs.Limits.{readings_most};
ghost use Rattle.judge.specs.Answers.{said_shown};
ghost use Rattle.judge.specs.Asked.{show_says, shown_words};
ghost use Rattle.judge.specs.Bits.{no_bit};

use refusal::Refusal;
use table::READINGS_MOST;

// Where a cell is shown from: the first of its words.
#[derive(Clone, Copy)]
pub enum Shown {
    Settled(usize),
    Opening(usize),
}

// The bits of all the words, gathered without looking at each.
fn gathered(rows: &[u32]) -> u32
    ensures { eqb result 0 ≡ no_bit rows.now }
{
    rows.iter().fold(0, |bits, row| bits | *row)
}

// The table holds no bit at all: none of its cells does.
fn holds_none(table: &[u32]) -> bool
    requires { length table.now % readings_most ≡ 0 }
    ensures { result ≡ no_bit table.now }
{
    table
        .chunks_exact(READINGS_MOST)
        .all(|cell| gathered(cell) == 0)
}

// Which table the cell (i, j) is shown from, and where it starts there; or why it is not shown.
pub fn shown_from(
    sizes: &[u8],
    opening: &[u32],
    settled: &[u32],
    i: usize,
    j: usize,
) -> Result<Shown, Refusal>
    ensures { said_shown result ≡ show_says sizes.now opening.now settled.now i j }
{
    let n = sizes.len();
    table::sized(sizes)?;
    if opening.len() != table::table_length(n) {
        return Err(Refusal::Length);
    }
    if settled.len() != opening.len() {
        return Err(Refusal::Length);
    }
    if i >= n {
        return Err(Refusal::NoField);
    }
    if j >= n {
        return Err(Refusal::NoField);
    }
    let at = table::cell_start(n, i, j);
    if holds_none(settled) {
        return Ok(Shown::Opening(at));
    }
    Ok(Shown::Settled(at))
}

// The settled table at the lifetime of the opening one, which it outlives.
fn nearer<'o, 's: 'o>(to: &'o [u32], far: &'s [u32]) -> &'o [u32]
    ensures { result ≡ far.entry }
{
    far
}

// The words of the cell (i, j) as a part of the table that it is shown from, or no words where it is not shown.
pub fn show<'o, 's: 'o>(
    sizes: &[u8],
    opening: &'o [u32],
    settled: &'s [u32],
    i: usize,
    j: usize,
) -> &'o [u32]
    ensures { result.now ≡ shown_words sizes.now opening.now settled.now i j }
{
    let near = nearer(opening, settled);
    let n = sizes.len();
    match shown_from(sizes, opening, near, i, j) {
        Ok(Shown::Opening(_)) => table::cell(opening, n, i, j),
        Ok(Shown::Settled(_)) => table::cell(near, n, i, j),
        Err(_) => &opening[0..0],
    }
}
