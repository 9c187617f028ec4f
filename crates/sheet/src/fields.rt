// The write pass over DT, DS and FD: the fields' sizes and days.
ghost use Rattle.std.specs.Prelude.{◌≡◌, ◌+◌, ◌*◌, ◌<◌, length};
ghost use Rattle.theory.specs.Limits.{readings_most};
ghost use Rattle.sheet.specs.Writing.{Judged, FieldsTo};

use scan::{field, mark};
use table::READINGS_MOST;

// Writes the next field, and answers where the record after it starts. A sheet that was judged has one there.
fn write_field(sheet: &[u8], at: usize, i: usize, sizes: &mut [u8], days: &mut [u16]) -> usize
    requires { FieldsTo sheet.now sizes.old days.old i at × (i < length sizes.old) }
    ensures { FieldsTo sheet.now sizes.new days.new (i + 1) result }
{
    let read = field::field_at(sheet, at, mark::mark_at(sheet, at)).unwrap();
    let from = i * READINGS_MOST;
    sizes[i] = read.size;
    days[from..from + READINGS_MOST].copy_from_slice(&read.days);
    read.next
}

// Writes each field, and answers where the records after them start.
pub fn write_fields(sheet: &[u8], sizes: &mut [u8], days: &mut [u16]) -> usize
    requires { Judged sheet.now (length sizes.old) × (length days.old ≡ length sizes.old * readings_most) }
    ensures { FieldsTo sheet.now sizes.new days.new (length sizes.old) result }
{
    let mut at = 0;
    for i in 0..sizes.len() {
        at = write_field(sheet, at, i, sizes, days);
    }
    at
}
