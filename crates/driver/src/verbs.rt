// What a line of a script asks for. Each program has verbs and a table of its own, and this search is no longer than a call of one.

#[derive(Clone, Copy)]
pub enum Verb {
    Sizes,
    Table,
    Full,
    Word,
    Strike,
    Opening,
    Shape,
    Kept,
    Judge,
    Show,
    Settle,
    Choose,
}

// The word that a line of each begins with.
const WORDS: [(&str, Verb); 12] = [
    ("sizes", Verb::Sizes),
    ("table", Verb::Table),
    ("full", Verb::Full),
    ("word", Verb::Word),
    ("strike", Verb::Strike),
    ("opening", Verb::Opening),
    ("shape", Verb::Shape),
    ("kept", Verb::Kept),
    ("judge", Verb::Judge),
    ("show", Verb::Show),
    ("settle", Verb::Settle),
    ("choose", Verb::Choose),
];

impl Verb {
    pub fn of(line: &[u8]) -> Option<Verb> {
        WORDS
            .iter()
            .find(|(word, _)| line.starts_with(word.as_bytes()))
            .map(|(_, verb)| *verb)
    }

    // It asks something, and the line is printed with the answer.
    pub fn asks(self) -> bool {
        matches!(
            self,
            Verb::Shape | Verb::Kept | Verb::Judge | Verb::Show | Verb::Settle | Verb::Choose
        )
    }
}
