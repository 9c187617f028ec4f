// Runs the vectors of data/ through the entry points and prints, for each that asks something, the line and what it gives.
#![tactic(auto)]

mod dates;
mod lines;
mod making;
mod state;
mod verbs;

use std::io;

fn main(rt: HostRuntime) -> io::Result<()> {
    lines::run_dates(&rt, b"dates")?;
    lines::run_script(&rt, b"tables")?;
    lines::run_script(&rt, b"settling")?;
    lines::run_script(&rt, b"choosing")
}
