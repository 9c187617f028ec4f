// The line of the rows.
ghost use Rattle.std.specs.Prelude.{length};
ghost use Rattle.table.specs.Layout.{rel, size_of};
ghost use Rattle.table.specs.Shape.{GoodTable};
ghost use Rattle.text.specs.Text.{rows_line};
ghost use Rattle.text.specs.Puts.{Fits, Puts};
ghost use Rattle.listing.specs.Listing.{broken_place};

use text::Writer;

// The first broken row, or that the rows are whole. A table of good shape is not refused.
pub fn put_rows(w: &mut Writer, sizes: &[u8], table: &[u32])
    requires { GoodTable sizes.now table.now × Fits w.old (rows_line (broken_place (length sizes.now) (size_of sizes.now) (rel (length sizes.now) table.now))) }
    ensures { Puts w.old w.new (rows_line (broken_place (length sizes.now) (size_of sizes.now) (rel (length sizes.now) table.now))) }
{
    match judge::judge(sizes, table) {
        Ok(None) => w.put_line(b"rows whole", &[]),
        Ok(Some(row)) => w.put_line(b"rows broken", &[row.i, row.j, row.a]),
        Err(_) => {}
    }
}
