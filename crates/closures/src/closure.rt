// Which nonterminals derive some row of tokens, and which derive the empty row: one closure, in which tokens pass or do not. Nonterminal sets are
// the bits of a word. Passes go from the last nonterminal to the first, which is mostly the order in which grammars build on each other. What they leave
// unsettled is left to rounds (module rounds).
ghost use Rattle.std.specs.Prelude.{◌≡◌, ℕ, true, false, ◌<◌, [], ◌∷◌};
ghost use Rattle.base.specs.Bits.{test_bit};
ghost use Rattle.grammar.specs.Limits.{max_nonterminals};
ghost use Rattle.grammar.specs.Grammar.{suffix};
ghost use Rattle.grammar.specs.inside.Production.{Among};
ghost use Rattle.grammar.specs.inside.Tables.{grammar_in, nonterminals_in, TablesFit};
ghost use Rattle.closures.specs.Closures.{passes, deriving_round};
ghost use Rattle.closures.specs.inside.Steps.{DerivingIs, Candidates, Passed, TurnedAway, Begins, Gathered};

use grammar::Symbol;

// Whether a symbol passes: a token if `tokens` says so, a nonterminal if it is in the set, an end never.
fn passes(tokens: bool, set: u32, symbol: Symbol) -> bool
    requires { Among max_nonterminals symbol }
    ensures { result ≡ passes tokens (test_bit set) (symbol ∷ []) }
{
    match symbol {
        Symbol::End => false,
        Symbol::Token(_) => tokens,
        Symbol::Nonterminal(a) => base::has(set, a),
    }
}

// Whether every symbol from place `first` to its production's end passes.
fn all_pass(tables: &[u16], tokens: bool, set: u32, first: usize) -> bool
    requires { TablesFit tables.now }
    ensures { result ≡ passes tokens (test_bit set) (suffix (grammar_in tables.now) first) }
{
    grammar::symbols_from(tables, first).all(|symbol| passes(tokens, set, symbol))
}

// Whether some production of nonterminal a passes.
fn some_passes(tables: &[u16], tokens: bool, set: u32, a: usize) -> bool
    requires { TablesFit tables.now × (a < nonterminals_in tables.now) }
    ensures { result ≡ deriving_round tokens (grammar_in tables.now) (test_bit set) a }
{
    grammar::first_places(tables, a)
        .iter()
        .any(|first| all_pass(tables, tokens, set, base::index(*first)))
}

// The candidates judged one after another by the set so far, the last first. One that `may` turns away has no production that passes.
fn pass<F: Fn(u32, usize) -> bool>(
    tables: &[u16],
    tokens: bool,
    candidates: u32,
    from: u32,
    may: &F,
) -> u32
    requires fits { TablesFit tables.now }
    requires candidates { Candidates (nonterminals_in tables.now) candidates from }
    requires callable { (x a : ℕ) → a < max_nonterminals → F.pre may.now x a }
    requires turned_away { TurnedAway tokens (grammar_in tables.now) candidates (λ x a. F.post may.now x a false) }
    ensures { Passed tokens (grammar_in tables.now) candidates from result }
{
    let mut set = from;
    for a in base::members(candidates) {
        if may(set, a) && some_passes(tables, tokens, set, a) {
            set = base::with(set, a);
        }
    }
    set
}

// So many passes settle most grammars, and cost less than the rows of words that rounds work on.
const PASSES: usize = 2;

// The nonterminals that derive some row of tokens if `tokens`, the empty row if not: those of `from` are known to, and of the others only those of `judged`
// may, where `may` does not turn them away. Once all are found, no pass has to confirm it.
fn derivers<F: Fn(u32, usize) -> bool>(
    tables: &[u16],
    tokens: bool,
    judged: u32,
    from: u32,
    may: &F,
) -> u32
    requires begins { Begins tokens tables.now judged from (λ x a. F.post may.now x a false) }
    requires callable { (x a : ℕ) → a < max_nonterminals → F.pre may.now x a }
    ensures { DerivingIs tokens (grammar_in tables.now) result }
{
    let all = base::below(grammar::nonterminals(tables));
    let mut set = from;
    for _ in 0..PASSES {
        let next = pass(tables, tokens, judged & base::opposite(set), set, may);
        if next == set {
            return set;
        }
        if next == all {
            return next;
        }
        set = next;
    }
    crate::rounds::by_rounds(tables, tokens, set)
}

// The nonterminals that derive some row of tokens. Those that derive the empty row are known.
pub fn productive(tables: &[u16], nullable: u32) -> u32
    requires { TablesFit tables.now × DerivingIs false (grammar_in tables.now) nullable }
    ensures { DerivingIs true (grammar_in tables.now) result }
{
    let all = base::below(grammar::nonterminals(tables));
    derivers(tables, true, all, nullable, &|_, _| true)
}

// The nonterminals that derive the empty row: `empty` are those with an empty production; only those of `led` have a production that begins with a
// nonterminal, and their rows say with which. One of them may derive it once its row meets the set.
pub fn nullable(tables: &[u16], rows: &[u32], led: u32, empty: u32) -> u32
    requires { Gathered tables.now rows.now led empty }
    ensures { DerivingIs false (grammar_in tables.now) result }
{
    derivers(tables, false, led, empty, &|set, a| rows[a] & set != 0)
}
