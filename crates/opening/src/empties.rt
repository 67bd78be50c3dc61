// The alternative that derives the empty row.
ghost use Rattle.std.specs.Prelude.{◌≡◌, false, ◌<◌, [], ◌∷◌};
ghost use Rattle.base.specs.Bits.{test_bit};
ghost use Rattle.grammar.specs.Grammar.{suffix};
ghost use Rattle.grammar.specs.Limits.{max_nonterminals};
ghost use Rattle.grammar.specs.inside.Production.{Among};
ghost use Rattle.grammar.specs.inside.Tables.{grammar_in, nonterminals_in, TablesFit};
ghost use Rattle.closures.specs.Closures.{passes};
ghost use Rattle.machine.specs.inside.Choice.{Numbered};
ghost use Rattle.opening.specs.inside.Choice.{empty_of};

use grammar::Symbol;

// Whether a symbol is a nonterminal of the set.
fn within(set: u32, symbol: Symbol) -> bool
    requires { Among max_nonterminals symbol }
    ensures { result ≡ passes false (test_bit set) (symbol ∷ []) }
{
    match symbol {
        Symbol::Nonterminal(b) => base::has(set, b),
        Symbol::Token(_) => false,
        Symbol::End => false,
    }
}

// Whether every symbol from place f to its production's end is.
fn vanishes(tables: &[u16], set: u32, f: usize) -> bool
    requires { TablesFit tables.now }
    ensures { result ≡ passes false (test_bit set) (suffix (grammar_in tables.now) f) }
{
    grammar::symbols_from(tables, f).all(|symbol| within(set, symbol))
}

// The lowest alternative of a of which every symbol is a nonterminal of the set.
pub fn empty(tables: &[u16], set: u32, a: usize) -> Option<usize>
    requires { TablesFit tables.now × (a < nonterminals_in tables.now) }
    ensures { Numbered result (λ r. r ≡ empty_of (grammar_in tables.now) set a) }
{
    grammar::first_places(tables, a)
        .iter()
        .position(|f| vanishes(tables, set, usize::from(*f)))
        .map(|k| k + 1)
}
