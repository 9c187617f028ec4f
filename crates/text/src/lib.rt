// Numbers, words and lines of a printed text.
#![tactic(auto)]

mod lines;
mod refused;
mod shown;
mod write;

pub use refused::{LINE_MOST, Line, refusal_line};
pub use shown::Text;
pub use write::Writer;
