// A grammar measured: checked, and its sizes read from the tables that the check leaves.
ghost use Rattle.std.specs.Prelude.{◌≡◌};
ghost use Rattle.measuring.specs.Measuring.{measure_of};

use number::Refusal;

// The sizes of a sound grammar: its highest token kind T, its nonterminals N, and the places P of all its productions.
#[derive(Clone, Copy, Debug, Default, PartialEq, Eq)]
pub struct Sizes {
    pub kinds: usize,
    pub nonterminals: usize,
    pub places: usize,
}

// The sizes of a grammar, or why it is refused.
pub fn measure(grammar: &[u8]) -> Result<Sizes, Refusal>
    ensures { result ≡ measure_of grammar.now }
{
    let mut tables = [0u16; grammar::TABLE_WORDS];
    soundness::compile(grammar, &mut tables)?;
    Ok(Sizes {
        kinds: grammar::kinds(&tables),
        nonterminals: grammar::nonterminals(&tables),
        places: grammar::size(&tables),
    })
}
