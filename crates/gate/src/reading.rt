// Why a reading is refused, with the scope's number and place.
ghost use Rattle.std.specs.Prelude.{◌≡◌};
ghost use Rattle.gate.specs.Reading.{refused_number, refused_place};
ghost use Rattle.gate.specs.declared.reading.ReadingRefusal.TheVariants.{Grammar};

use number::{Numbered, Refusal};

// Why a note is not read. Where it is, a reading answers how many entries of the row are its derivation.
#[derive(Clone, Copy, Debug, PartialEq, Eq)]
pub enum ReadingRefusal {
    // 1 to 7: the grammar is refused.
    Grammar(Refusal),
    // 8: more than 128 tokens.
    LongNote,
    // 9: a token that the grammar does not know.
    UnknownToken(usize),
    // 10: no sentence; the first token, or the end, that no sentence allows there.
    NoSentence(usize),
    // 11: too little working space.
    ShortWorkspace,
    // 12: a cache of too few words. Only the quick reading answers this and the next.
    ShortCache,
    // 13: a cache that was not begun for this grammar at this length.
    ForeignCache,
    // 14: a sentence whose derivation has more entries than the row.
    ShortRow,
}

impl From<Refusal> for ReadingRefusal {
    ghost from_gives = { λ r e. e ≡ Grammar r };

    fn from(refusal: Refusal) -> ReadingRefusal {
        ReadingRefusal::Grammar(refusal)
    }
}

impl Numbered for ReadingRefusal {
    ghost scope_number = { refused_number };

    ghost scope_place = { refused_place };

    fn number(&self) -> u32 {
        match self {
            ReadingRefusal::Grammar(r) => r.number(),
            ReadingRefusal::LongNote => 8,
            ReadingRefusal::UnknownToken(_) => 9,
            ReadingRefusal::NoSentence(_) => 10,
            ReadingRefusal::ShortWorkspace => 11,
            ReadingRefusal::ShortCache => 12,
            ReadingRefusal::ForeignCache => 13,
            ReadingRefusal::ShortRow => 14,
        }
    }

    // 0 where none is named.
    fn place(&self) -> usize {
        match self {
            ReadingRefusal::Grammar(r) => r.place(),
            ReadingRefusal::UnknownToken(at) | ReadingRefusal::NoSentence(at) => *at,
            ReadingRefusal::LongNote
            | ReadingRefusal::ShortWorkspace
            | ReadingRefusal::ShortCache
            | ReadingRefusal::ForeignCache
            | ReadingRefusal::ShortRow => 0,
        }
    }
}
