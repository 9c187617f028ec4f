// A file of vectors, line by line. What driver and sheets share of it is `each_line`; each has a State of its own.
use crate::dates;
use crate::state::State;
use std::io;
use std::rt::Files;
use vectors::file;

// Every line of the file is a date text.
pub fn run_dates<R: Files + Print + Eprint>(rt: &R, path: &[u8]) -> io::Result<()> {
    file::each_line(rt, path, |line| dates::print_date(rt, line))
}

// Every line of the file makes or asks something of sizes and tables. An error is of printing alone, or of the file.
pub fn run_script<R: Files + Print + Eprint>(rt: &R, path: &[u8]) -> io::Result<()> {
    let mut state = State::new();
    file::each_line(rt, path, |line| state.run_line(rt, line))
}
