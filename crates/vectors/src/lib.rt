// What the programs that run vectors share: files and lines of them, the questions, and answers as numbers.
#![tactic(auto)]

pub mod asking;
pub mod file;
pub mod line;
pub mod print;
