// Derivations, the table that decides them, and the readings stand here as definitions and laws, which the crates above cite. What runs is what every
// reader asks: the token at a position of a note, and how many alternatives a nonterminal has.
#![tactic(auto)]

ghost use Rattle.std.specs.Prelude.{◌≡◌, ◌≤◌, ◌<◌, length};
ghost use Rattle.std.proofs.Math.Option.{some};
ghost use Rattle.std.proofs.Math.ListN.{get_elem?};
ghost use Rattle.grammar.specs.Grammar.{alternatives};
ghost use Rattle.grammar.specs.inside.Tables.{grammar_in, nonterminals_in};
ghost use Rattle.derivation.specs.Runs.{marked};
ghost use Rattle.derivation.specs.inside.Ready.{Ready};

// The token at position i; behind the note's last token stands the end mark.
pub fn token_at(note: &[u16], i: usize) -> usize
    requires { i ≤ length note.now }
    ensures { get_elem? (marked note.now) i ≡ some result }
{
    note.get(i).map_or(0, |token| usize::from(*token))
}

// How many alternatives nonterminal a has.
pub fn alternatives(tables: &[u16], a: usize) -> usize
    requires { Ready tables.now × (a < nonterminals_in tables.now) }
    ensures { result ≡ length (alternatives (grammar_in tables.now) a) }
{
    grammar::first_places(tables, a).len()
}
