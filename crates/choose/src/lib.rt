// Choosing: the first full reading that keeps the fixed readings.
#![tactic(auto)]

mod checks;
mod fixed;
mod walk;

ghost use Rattle.choose.specs.Answers.{Chooses};

use checks::judged;
use refusal::Refusal;
pub use walk::FREE;
use walk::take_lowest;

// The first full reading that keeps the fixed readings, field by field from field 0, into answer, which a refusal leaves as it was.
pub fn choose(sizes: &[u8], table: &[u32], fixed: &[u8], answer: &mut [u8]) -> Result<(), Refusal>
    ensures { Chooses sizes.now table.now fixed.now answer.old answer.new result }
{
    judged(sizes, table, fixed, answer.len())?;
    answer.copy_from_slice(fixed);
    take_lowest(sizes, table, answer);
    Ok(())
}
