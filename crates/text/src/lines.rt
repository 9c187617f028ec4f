// The lines of the lister's text.
ghost use Rattle.std.specs.Prelude.{◌++◌, ◌≤◌, ◌<◌, length};
ghost use Rattle.refusal.specs.Said.{says, refused};
ghost use Rattle.text.specs.Text.{numbers, line_feed, place_text, line_most, state_line, rounds_line};
ghost use Rattle.text.specs.Puts.{HasRoom, Fits, Puts};

use crate::write::Writer;
use refusal::Refusal;

const LINE_FEED: u8 = b'\n';

impl<'t> Writer<'t> {
    // A word, then numbers.
    pub fn put_said(&mut self, word: &[u8], values: &[usize])
        requires { Fits self.old (word.now ++ numbers values.now) }
        ensures { Puts self.old self.new (word.now ++ numbers values.now) }
    {
        self.put_bytes(word);
        self.put_numbers(values);
    }

    // A word and numbers that make a line.
    pub fn put_line(&mut self, word: &[u8], values: &[usize])
        requires { Fits self.old (word.now ++ numbers values.now ++ line_feed) }
        ensures { Puts self.old self.new (word.now ++ numbers values.now ++ line_feed) }
    {
        self.put_said(word, values);
        self.put_byte(LINE_FEED);
    }

    // The values of a place; nothing where there is none.
    fn put_place(&mut self, place: &[usize])
        requires { Fits self.old (place_text place.now) }
        ensures { Puts self.old self.new (place_text place.now) }
    {
        if place.is_empty() {
            return;
        }
        self.put_said(b" at", place);
    }

    // The line of a state, with its place: a number of two digits at most, and three values at most.
    pub fn put_state(&mut self, state: usize, place: &[usize])
        requires { HasRoom self.old line_most × (state < 100) × (length place.now ≤ 3) }
        ensures { Puts self.old self.new (state_line (says state place.now)) }
    {
        self.put_said(b"state", &[state]);
        self.put_place(place);
        self.put_byte(LINE_FEED);
    }

    // The line of a refusal.
    pub fn put_refusal(&mut self, r: Refusal)
        requires { HasRoom self.old line_most }
        ensures { Puts self.old self.new (state_line (refused r)) }
    {
        let p = refusal::in_numbers(r);
        self.put_state(p.number as usize, &p.values[..p.count]);
    }

    // The line of the rounds.
    #[tactic(auto, unfolding(crate::specs::Text::rounds_line))]
    pub fn put_rounds(&mut self, r: usize)
        requires { Fits self.old (rounds_line r) }
        ensures { Puts self.old self.new (rounds_line r) }
    {
        self.put_line(b"rounds", &[r]);
    }
}
