// The first broken row.
ghost use Rattle.std.specs.Prelude.{◌≡◌, [], length};
ghost use Rattle.refusal.specs.Said.{says};
ghost use Rattle.table.specs.Layout.{Sized, rel, size_of};
ghost use Rattle.judge.specs.Answers.{said_row, said_rows};
ghost use Rattle.judge.specs.Asked.{at_first_broken, rows_says};

use refusal::Refusal;
use table::Row;

// The search over fields and readings, left at the first broken row; none where the rows are whole.
pub fn first_broken(sizes: &[u8], table: &[u32]) -> Option<Row>
    requires { Sized (length sizes.now) table.now }
    ensures { said_row result ≡ at_first_broken 0 (length sizes.now) (size_of sizes.now) (rel (length sizes.now) table.now) (says 0 []) }
{
    let n = sizes.len();
    'search: {
        for i in 0..n {
            for j in 0..n {
                let stand = words::below(table::field_size(sizes, j));
                let cell = table::cell(table, n, i, j);
                for (a, row) in cell.iter().enumerate() {
                    if !words::is_whole(*row, stand) {
                        break 'search Some(Row { i, j, a });
                    }
                }
            }
        }
        None
    }
}

// The first broken row of a table, or none where its rows are whole.
pub fn judge(sizes: &[u8], table: &[u32]) -> Result<Option<Row>, Refusal>
    ensures { said_rows result ≡ rows_says sizes.now table.now }
{
    table::shape(sizes, table)?;
    Ok(first_broken(sizes, table))
}
