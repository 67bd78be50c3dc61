// Refusal 9: tokens that the grammar does not know.
ghost use Rattle.std.specs.Prelude.{◌≡◌};
ghost use Rattle.derivation.specs.Gate.{first_unknown};
ghost use Rattle.gate.specs.Reading.{tokens_of};

// The first token that is 0 or above the highest kind.
pub fn first_unknown(note: &[u16], kinds: usize) -> Option<usize>
    ensures { result ≡ tokens_of (first_unknown kinds note.now) }
{
    note.iter().position(|t| *t == 0 || kinds < usize::from(*t))
}
