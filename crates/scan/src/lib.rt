// Sheets scanned: one record after the other judged, nothing written.
#![tactic(auto)]

pub mod field;
pub mod mark;
pub mod number;
pub mod record;
pub mod step;

ghost use Rattle.std.specs.Prelude.{◌≡◌};
ghost use Rattle.calendar.specs.DateText.{separator};
ghost use Rattle.scan.specs.Sheet.{scan};
ghost use Rattle.scan.specs.Answer.{said_opened, scan_says};

use refusal::Refusal;
use step::Verdict;
use table::FIELDS_MOST;

// The number of fields, or the first fault. The sizes stand in an array with their number: no heap, and the archive for C stands on
// no crate but these.
pub fn scan(sheet: &[u8]) -> Result<usize, Refusal>
    ensures { said_opened result ≡ scan_says (scan separator sheet.now) }
{
    let mut sizes = [0u8; FIELDS_MOST];
    let mut n = 0;
    let mut late = false;
    let mut at = 0;
    loop {
        match step::judge_at(sheet, at, &sizes[..n], late)? {
            Verdict::Field(size, next) => {
                sizes[n] = size;
                n += 1;
                at = next;
            }
            Verdict::Rule(next) => {
                late = true;
                at = next;
            }
            Verdict::End => return Ok(n),
        }
    }
}
