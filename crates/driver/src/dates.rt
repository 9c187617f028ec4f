// A date text and what it gives.
use std::io;
use vectors::print;

pub fn print_date<P: Print>(rt: &P, text: &[u8]) -> io::Result<()> {
    print::question(rt, text)?;
    match calendar::read_date(text) {
        Ok(read) => {
            print::number(rt, 0)?;
            print::first(rt, &read.days, read.count)?;
        }
        Err(r) => print::refusal(rt, r)?,
    }
    print::line_ends(rt)
}
