// What a line of a script asks for. Each program has verbs and a table of its own, and this search is no longer than a call of one.

// A sheet begun, lengths lent, records and bytes added to the sheet; questions; and any other line, which is a note.
#[derive(Clone, Copy)]
pub enum Verb {
    Sheet,
    Lend,
    Date,
    Days,
    Gap,
    Strike,
    End,
    Bytes,
    Text,
    Times,
    Read,
    Cut,
    Cuts,
    Field,
    Cell,
    Kept,
    Judge,
    Settle,
    Choose,
    Note,
}

// The word that a line of each begins with; where one word begins another, the longer stands first.
const WORDS: [(&str, Verb); 19] = [
    ("sheet", Verb::Sheet),
    ("lend", Verb::Lend),
    ("DT", Verb::Date),
    ("FD", Verb::Days),
    ("GP", Verb::Gap),
    ("PR", Verb::Strike),
    ("EN", Verb::End),
    ("bytes", Verb::Bytes),
    ("text", Verb::Text),
    ("times", Verb::Times),
    ("read", Verb::Read),
    ("cuts", Verb::Cuts),
    ("cut", Verb::Cut),
    ("field", Verb::Field),
    ("cell", Verb::Cell),
    ("kept", Verb::Kept),
    ("judge", Verb::Judge),
    ("settle", Verb::Settle),
    ("choose", Verb::Choose),
];

impl Verb {
    pub fn of(line: &[u8]) -> Verb {
        WORDS
            .iter()
            .find(|(word, _)| line.starts_with(word.as_bytes()))
            .map_or(Verb::Note, |(_, verb)| *verb)
    }

    // It reads the sheet or starts of it.
    pub fn reads(self) -> bool {
        matches!(self, Verb::Read | Verb::Cut | Verb::Cuts)
    }

    // It asks something of what was read.
    pub fn asks(self) -> bool {
        matches!(
            self,
            Verb::Field | Verb::Cell | Verb::Kept | Verb::Judge | Verb::Settle | Verb::Choose
        )
    }
}
