// The rest of the closure, for grammars that passes settle little by little: each production is walked once more, and from then on only sets are
// compared. A round judges every production by the same set, so that the compiler judges several at once.
ghost use Rattle.std.specs.Prelude.{◌≡◌, cond, ◌+◌, ◌≤◌, length};
ghost use Rattle.base.specs.Bits.{is_subset};
ghost use Rattle.grammar.specs.Grammar.{suffix};
ghost use Rattle.grammar.specs.inside.Tables.{grammar_in, nonterminals_in, TablesFit};
ghost use Rattle.closures.specs.inside.Steps.{Derivers, DerivingIs, NeedIs, Noted, Noting, Unnoted, row_words, round_of};

use grammar::Symbol;

// Rows have a word for each production, at its place in the tables counted from grammar::FIRSTS; so long are the tables from there to the corners.
// specs/Steps has the same.
const ROW_WORDS: usize = grammar::CORNERS - grammar::FIRSTS;

// The set of all nonterminals that there can be.
const ALL: u32 = u32::MAX;

// What each production needs, and the nonterminals that gain from it, in a word of each row; the first `count` words are used.
#[derive(Drop)]
struct Rows {
    needs: [u32; ROW_WORDS],
    owners: [u32; ROW_WORDS],
    count: usize,
}

// The nonterminals that a set must hold for every symbol from place `first` on to pass. If a token does not pass, no set will do: then ALL, since a set
// that holds even the owner cannot gain it.
fn need_from(tables: &[u16], tokens: bool, first: usize) -> u32
    requires { TablesFit tables.now }
    ensures { NeedIs tokens (suffix (grammar_in tables.now) first) result }
{
    let mut need = 0;
    for symbol in grammar::symbols_from(tables, first) {
        match symbol {
            Symbol::End => return ALL,
            Symbol::Token(_) => {
                if !tokens {
                    return ALL;
                }
            }
            Symbol::Nonterminal(b) => {
                need = base::with(need, b);
            }
        }
    }
    need
}

// The owners of a production if the set holds its need.
fn added(need: u32, owners: u32, set: u32) -> u32
    ensures { result ≡ cond (is_subset need set) owners 0 }
{
    if base::subset(need, set) { owners } else { 0 }
}

impl Rows {
    // Notes the productions of nonterminal a, unless `from` holds it: the need of each, and a as an owner.
    fn note_rule(&mut self, tables: &[u16], tokens: bool, from: u32, a: usize)
        requires { Noting tokens tables.now from self.old.count a self.old.needs self.old.owners }
        ensures { (self.new.count ≤ row_words) × (length self.new.needs ≡ row_words) × (length self.new.owners ≡ row_words)
            × Noted tokens tables.now from self.new.count (a + 1) 0 self.new.needs self.new.owners }
    {
        if base::has(from, a) {
            return;
        }
        let start = grammar::rule_at(tables, a) - grammar::FIRSTS;
        let places = grammar::first_places(tables, a);
        for (k, first) in places.iter().enumerate() {
            self.needs[start + k] = need_from(tables, tokens, usize::from(*first));
            self.owners[start + k] = base::with(self.owners[start + k], a);
        }
        self.count = self.count.max(start + places.len());
    }

    // Notes every production of a nonterminal that `from` does not hold.
    fn note_rules(&mut self, tables: &[u16], tokens: bool, from: u32)
        requires { Unnoted tables.now self.old.needs self.old.owners × (self.old.count ≡ 0) }
        ensures { (self.new.count ≤ row_words)
            × Noted tokens tables.now from self.new.count (nonterminals_in tables.now) 0 self.new.needs self.new.owners }
    {
        for a in 0..grammar::nonterminals(tables) {
            self.note_rule(tables, tokens, from, a);
        }
    }

    // The set with the owners of every production whose need it holds.
    fn round(&self, set: u32) -> u32
        requires { self.now.count ≤ row_words }
        ensures { result ≡ round_of self.now.needs self.now.owners set self.now.count }
    {
        let mut next = set;
        for (need, owners) in self.needs[..self.count]
            .iter()
            .zip(&self.owners[..self.count])
        {
            next = next | added(*need, *owners, set);
        }
        next
    }
}

// The nonterminals that derive some row of tokens if `tokens`, the empty row if not; those of `from` are known to.
pub fn by_rounds(tables: &[u16], tokens: bool, from: u32) -> u32
    requires { TablesFit tables.now × Derivers tokens (grammar_in tables.now) from }
    ensures { DerivingIs tokens (grammar_in tables.now) result }
{
    let mut rows = Rows {
        needs: [0; ROW_WORDS],
        owners: [0; ROW_WORDS],
        count: 0,
    };
    rows.note_rules(tables, tokens, from);
    let mut set = from;
    loop {
        let next = rows.round(set);
        if next == set {
            return set;
        }
        set = next;
    }
}
