// Why a batch is refused, with the scope's number and place.
ghost use Rattle.std.specs.Prelude.{◌≡◌};
ghost use Rattle.batch.specs.Contract.{refused_number, refused_place};
ghost use Rattle.batch.specs.declared.answer.BatchRefusal.TheVariants.{Grammar};

use number::{Numbered, Refusal};

// Why no note of a batch has its answers.
#[derive(Clone, Copy, Debug, PartialEq, Eq)]
pub enum BatchRefusal {
    // 1 to 7: the grammar is refused.
    Grammar(Refusal),
    // 18: no notes or more than 64, lengths that do not add up to the tokens, answers that are not three a note, or a row that does not divide evenly.
    BadBatch,
}

impl From<Refusal> for BatchRefusal {
    ghost from_gives = { λ r e. e ≡ Grammar r };

    fn from(r: Refusal) -> BatchRefusal {
        BatchRefusal::Grammar(r)
    }
}

impl Numbered for BatchRefusal {
    ghost scope_number = { refused_number };

    ghost scope_place = { refused_place };

    fn number(&self) -> u32 {
        match self {
            BatchRefusal::Grammar(r) => r.number(),
            BatchRefusal::BadBatch => 18,
        }
    }

    // 0 where none is named.
    fn place(&self) -> usize {
        match self {
            BatchRefusal::Grammar(r) => r.place(),
            BatchRefusal::BadBatch => 0,
        }
    }
}
