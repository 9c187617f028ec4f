// What a script has made so far, and one line of it.
ghost use Rattle.std.specs.Prelude.{◌≡◌, [], OnErr};

use crate::reading::Lent;
use crate::records::Sheet;
use crate::verbs::Verb;
use std::io;
use vectors::line::Args;
use vectors::{line, print};

#[derive(Drop)]
pub struct State {
    sheet: Sheet,
    lent: Lent,
    args: Args,
}

impl State {
    pub fn new() -> State
        ensures bytes { result.sheet.bytes.items ≡ [] }
        ensures fields { result.lent.set.fields ≡ 0 }
    {
        State {
            sheet: Sheet::new(),
            lent: Lent::new(),
            args: line::numbers(b""),
        }
    }

    // A line that makes something, or a note.
    fn made<P: Print>(&mut self, rt: &P, verb: Verb, text: &[u8]) -> io::Result<()>
        ensures err_space { OnErr result (self.new.sheet ≡ self.old.sheet) }
        ensures err_set { OnErr result (self.new.lent.set ≡ self.old.lent.set) }
    {
        match verb {
            Verb::Sheet => self.sheet.clear(),
            Verb::Note => {
                print::text(rt, text)?;
                print::line_ends(rt)?;
            }
            Verb::Lend => self.lent.lend(&self.args),
            _ => self.sheet.add(verb, text, &self.args),
        }
        Ok(())
    }

    // One line: it makes, reads or asks, and what reads or asks is printed with its answer. An error is of printing alone.
    pub fn run_line<P: Print>(&mut self, rt: &P, text: &[u8]) -> io::Result<()>
        ensures err_space { OnErr result (self.new.sheet ≡ self.old.sheet) }
        ensures err_set { OnErr result (self.new.lent.set ≡ self.old.lent.set) }
    {
        let verb = Verb::of(text);
        self.args.read(text);
        if verb.reads() {
            let sheet = self.sheet.as_slice();
            return self.lent.run_read(rt, verb, text, &self.args, sheet);
        }
        if !verb.asks() {
            return self.made(rt, verb, text);
        }
        print::question(rt, text)?;
        match verb {
            Verb::Settle => self.lent.settle(rt, &self.args)?,
            _ => self.lent.ask(rt, verb, &self.args)?,
        }
        print::line_ends(rt)
    }
}
