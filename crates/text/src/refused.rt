// The one line of a refusal, as the lister prints it.
ghost use Rattle.refusal.specs.Said.{refused};
ghost use Rattle.text.specs.Text.{line_most, state_line};
ghost use Rattle.text.specs.Writing.{Shows};

use crate::shown::Text;
use crate::write::Writer;
use refusal::Refusal;

// A refusal's line has at most so many bytes.
pub const LINE_MOST: usize = 75;

// A refusal's line.
pub type Line = Text<LINE_MOST>;

// The line of a refusal. A listing is made by the same five lines: a closure over the writer would take a longer contract.
pub fn refusal_line(r: Refusal) -> Line
    ensures { Shows line_most (state_line (refused r)) result.bytes result.length }
{
    let mut bytes = [0u8; LINE_MOST];
    let mut line = Writer {
        out: &mut bytes,
        at: 0,
    };
    line.put_refusal(r);
    let length = line.at;
    Text { bytes, length }
}
