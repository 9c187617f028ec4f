// The sheet lister: reads a sheet on standard input and prints its text.
#![tactic(auto)]

ghost use Rattle.std.specs.Prelude.{◌≡◌, length};
ghost use Rattle.lister.specs.Input.{Came};

use std::io;
use std::io::Read;

// One byte more than a sheet may have, so that a longer one shows itself.
const ROOM: usize = 4097;

// Reads until the input ends or the room is full: how many bytes came, or why they could not be read. One read may bring fewer bytes
// than there is room for, so that n goes on by what came and not by one. The programs that run vectors read a file so as well; the
// lister stands on no crate of theirs.
fn read_all<R: Read>(from: &mut R, room: &mut [u8]) -> io::Result<usize>
    ensures came { Came (length room.old) result }
    ensures keeps { length room.new ≡ length room.old }
{
    let mut n = 0;
    while n < room.len() {
        let k = from.read(&mut room[n..])?;
        if k == 0 {
            break;
        }
        n += k;
    }
    Ok(n)
}

// An error is of the word that says why the text could not be written.
fn print_text<P: Print + Eprint>(rt: &P, sheet: &[u8]) -> io::Result<()> {
    let listing = listing::list_sheet(sheet);
    rt.write_all(listing.as_bytes())
        .or_else(|e| eprintln!(rt; "write: {e}"))
}

fn main(rt: HostRuntime) -> io::Result<()> {
    let mut sheet = [0u8; ROOM];
    match read_all(&mut rt.stdin(), &mut sheet) {
        Ok(n) => print_text(&rt, &sheet[..n]),
        Err(e) => eprintln!(rt; "read: {e}"),
    }
}
