// How many readings a field keeps.
ghost use Rattle.std.specs.Prelude.{◌≡◌, length, get_or};
ghost use Rattle.theory.specs.Limits.{readings_most};
ghost use Rattle.theory.specs.Bound.{sum, count};
ghost use Rattle.words.specs.Word.{bit};
ghost use Rattle.judge.specs.Answers.{said_kept};
ghost use Rattle.judge.specs.Asked.{kept_says};

use refusal::Refusal;

// The ones of a cell, counted row by row.
fn ones_in(cell: &[u32]) -> u32
    requires { length cell.now ≡ readings_most }
    ensures { result ≡ sum readings_most (λ a. count 32 (bit (get_or cell.now a 0))) }
{
    cell.iter().map(|w| words::ones(*w)).sum()
}

// The number of readings that a field keeps: the ones on its diagonal.
pub fn kept(sizes: &[u8], table: &[u32], field: usize) -> Result<u32, Refusal>
    ensures { said_kept result ≡ kept_says sizes.now table.now field }
{
    table::shape(sizes, table)?;
    if field >= sizes.len() {
        return Err(Refusal::NoField);
    }
    Ok(ones_in(table::cell(table, sizes.len(), field, field)))
}
