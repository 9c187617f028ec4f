// A file of vectors, and its lines.
ghost use Rattle.std.specs.Prelude.{◌≡◌, ◌≢◌, ◌-◌, ◌<◌, ◌≤◌, length, take, drop, slice_index, IfOk, OnErr};
ghost use Rattle.std.specs.List.{All};
ghost use Rattle.vectors.specs.Lines.{Ends};

use std::io::Read;
use std::rt::Files;
use std::{fs, io, str};

// The bytes of a file that are read at most.
const FILE_MOST: usize = 65536;

// Where the line that starts at `from` ends: at the first line feed or the text's end.
pub fn line_end(text: &[u8], from: usize) -> usize
    requires { from ≤ length text.now }
    ensures place { Ends from result (length text.now) }
    ensures feed { result < length text.now → slice_index text.now result ≡ 10 }
    ensures line { All (λ b. b ≢ 10) (take (result - from) (drop from text.now)) }
{
    let rest = &text[from..];
    let feed = rest.iter().position(|b| *b == b'\n');
    from + feed.unwrap_or(rest.len())
}

// The lines of a text, without their line feeds. Behind a last line feed no line begins. By `line_end`, which docs/PROMISES.md names.
#[derive(Drop)]
pub struct Lines<'a> {
    rest: &'a [u8],
}

impl<'a> Lines<'a> {
    ghost use Rattle.vectors.specs.Lines.{left};

    pub fn of(text: &'a [u8]) -> Lines<'a>
        ensures { left result ≡ text.now }
    {
        Lines { rest: text }
    }
}

impl<'a> Iterator for Lines<'a> {
    ghost use Rattle.std.specs.Prelude.{length};
    ghost use Rattle.std.specs.Iterator.{at_most};
    ghost use Rattle.vectors.specs.Lines.{TakesLine};

    type Item = &'a [u8];

    ghost next_gives = { TakesLine };

    ghost remaining = { λ s. at_most (length s.rest.now) };

    fn next(&mut self) -> Option<&'a [u8]> {
        if self.rest.is_empty() {
            return None;
        }
        let (line, behind) = self.rest.split_at(line_end(self.rest, 0));
        self.rest = behind.get(1..).unwrap_or_default();
        Some(line)
    }
}

// Reads until space is full or the file ends: `read_exact` fails at a file that ends before, `read_to_end` reads on past the space.
fn read_full<F: Read>(file: &mut F, space: &mut [u8]) -> io::Result<usize>
    ensures ok { IfOk result (λ n. n ≤ length space.new) }
    ensures err { OnErr result (length space.new ≡ length space.old) }
{
    let mut n = 0;
    while n < space.len() {
        match file.read(&mut space[n..])? {
            0 => return Ok(n),
            got => n += got,
        }
    }
    Ok(n)
}

// A path of the system is text; no file has another.
fn open<R: Files>(rt: &R, path: &[u8]) -> io::Result<R::File> {
    match str::from_utf8(path) {
        Ok(text) => fs::open(rt, text),
        Err(_) => Err(io::Error::from(io::ErrorKind::NotFound)),
    }
}

// The bytes of a file at the start of space; none where it cannot be opened, and a word of it. An error is of a read that fails later
// on, or of the word itself.
pub fn read_file<R: Files + Eprint>(rt: &R, path: &[u8], space: &mut [u8]) -> io::Result<usize>
    ensures ok { IfOk result (λ n. n ≤ length space.new) }
    ensures err { OnErr result (length space.new ≡ length space.old) }
{
    match open(rt, path) {
        Ok(mut file) => read_full(&mut file, space),
        Err(e) => {
            eprintln!(rt; "{}: {e}", path.escape_ascii())?;
            Ok(0)
        }
    }
}

// Runs each line of a file in turn, until one fails.
pub fn each_line<R: Files + Eprint, F: FnMut(&[u8]) -> io::Result<()>>(
    rt: &R,
    path: &[u8],
    mut run: F,
) -> io::Result<()>
    requires { F.IsAlwaysCallable run }
{
    let mut space = [0u8; FILE_MOST];
    let n = read_file(rt, path, &mut space)?;
    for line in Lines::of(&space[..n]) {
        run(line)?;
    }
    Ok(())
}
