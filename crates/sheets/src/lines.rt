// A file of sheets, line by line. What driver and sheets share of it is `each_line`; each has a State of its own.
use crate::state::State;
use std::io;
use std::rt::Files;
use vectors::file;

// Every line of the file makes a sheet, has it read, or asks something of what was read. An error is of printing alone, or of the file.
pub fn run_script<R: Files + Print + Eprint>(rt: &R, path: &[u8]) -> io::Result<()> {
    let mut state = State::new();
    file::each_line(rt, path, |line| state.run_line(rt, line))
}
