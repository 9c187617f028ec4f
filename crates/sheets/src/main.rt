// Runs the sheets of data/ through the reader and prints, for each line that asks something, the line and what it gives.
#![tactic(auto)]

mod lent;
mod lines;
mod reading;
mod records;
mod state;
mod verbs;

use std::io;

fn main(rt: HostRuntime) -> io::Result<()> {
    lines::run_script(&rt, b"sheets")
}
