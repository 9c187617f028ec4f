// Answers as numbers on one line. An error means that the line may be cut off anywhere.
use refusal::Refusal;
use std::fmt::Display;
use std::io;

// Bytes as they are; a line of a script need not be text.
pub fn text<P: Print>(rt: &P, t: &[u8]) -> io::Result<()> {
    rt.write_all(t)
}

// A line that asks something, before its answer.
pub fn question<P: Print>(rt: &P, line: &[u8]) -> io::Result<()> {
    text(rt, line)?;
    text(rt, b":")
}

// A space and a number.
pub fn number<P: Print, N: Display + Drop>(rt: &P, n: N) -> io::Result<()> {
    print!(rt; " {n}")
}

// Each after a space.
pub fn numbers<P: Print, N: Display + Copy>(rt: &P, numbers: &[N]) -> io::Result<()> {
    for n in numbers {
        number(rt, *n)?;
    }
    Ok(())
}

// The first of them, so many or all that there are.
pub fn first<P: Print, N: Display + Copy>(rt: &P, numbers: &[N], most: usize) -> io::Result<()> {
    for n in numbers.iter().take(most) {
        number(rt, *n)?;
    }
    Ok(())
}

pub fn line_ends<P: Print>(rt: &P) -> io::Result<()> {
    println!(rt)
}

// The refusal's number and the values of its place.
pub fn refusal<P: Print>(rt: &P, r: Refusal) -> io::Result<()> {
    let place = refusal::in_numbers(r);
    number(rt, place.number)?;
    first(rt, &place.values, place.count)
}
