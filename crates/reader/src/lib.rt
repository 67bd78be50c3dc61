// One pass over the grammar's bytes: it checks refusals 1 to 5 as the bytes come, counts them, and writes the compiled tables. After it only beginning a cache
// and refusal 13 look at the bytes.
#![tactic(auto)]

ghost use Rattle.std.specs.Prelude.{◌≡◌, ◌+◌, ◌≤◌, length};
ghost use Rattle.grammar.specs.Limits.{max_productions};
ghost use Rattle.grammar.specs.inside.Tables.{table_words};
ghost use Rattle.number.specs.Fetching.{Tallied};
ghost use Rattle.reader.specs.Counting.{CountsBytes};
ghost use Rattle.reader.specs.inside.Pass.{WithinLimits, Leaves, symbols_of, productions_of, nonterminals_of, finished, whole_pass};

use number::{Cursor, Read, Refusal};

// The symbols of a production of `owner`, from place `first` on, and its end. Answers the place behind them.
fn symbols(
    bytes: &[u8],
    from: Cursor,
    count: usize,
    kinds: usize,
    nonterminals: usize,
    owner: usize,
    tables: &mut [u16],
    first: usize,
) -> Read
    requires { WithinLimits kinds nonterminals (first + count) tables.old × Tallied bytes.now from }
    ensures { Leaves result tables.new (symbols_of bytes.now kinds nonterminals owner count from.at first tables.old) }
{
    let end = first + count;
    let mut c = from;
    for p in first..end {
        let n = c.symbol(bytes, kinds, nonterminals);
        let Read::Value(v, next) = n else {
            return n;
        };
        tables[p] = grammar::symbol_word(owner, v);
        c = next;
    }
    tables[end] = grammar::end_word(owner);
    Read::Value(end + 1, c)
}

// The productions of `owner`, from place `first` on; `production` counts those of all nonterminals before. Answers the place behind them.
fn productions(
    bytes: &[u8],
    from: Cursor,
    count: usize,
    kinds: usize,
    nonterminals: usize,
    owner: usize,
    tables: &mut [u16],
    first: usize,
    production: usize,
) -> Read
    requires { WithinLimits kinds nonterminals first tables.old × Tallied bytes.now from × (production ≤ first) × (count ≤ max_productions) }
    ensures { Leaves result tables.new
        (productions_of bytes.now kinds nonterminals owner count from.at first production tables.old) }
{
    let mut c = from;
    let mut p = first;
    let last = production + count;
    for k in production..last {
        let at = c.at;
        let n = c.limited(bytes, 0, grammar::MAX_LENGTH);
        let Read::Value(m, next) = n else {
            return n;
        };
        if grammar::MAX_PLACES < p + m + 1 {
            return Read::Refused(Refusal::OverLimit(at), next);
        }
        tables[grammar::FIRSTS + k] = base::narrow(p);
        let piece = symbols(bytes, next, m, kinds, nonterminals, owner, tables, p);
        let Read::Value(q, after) = piece else {
            return piece;
        };
        p = q;
        c = after;
    }
    Read::Value(p, c)
}

// All nonterminals. Answers the number of places.
fn rules(bytes: &[u8], from: Cursor, kinds: usize, nonterminals: usize, tables: &mut [u16]) -> Read
    requires { WithinLimits kinds nonterminals 0 tables.old × Tallied bytes.now from }
    ensures { Leaves result tables.new
        (nonterminals_of bytes.now kinds nonterminals 0 nonterminals from.at 0 0 tables.old) }
{
    let mut c = from;
    let mut p = 0;
    let mut k = 0;
    for a in 0..nonterminals {
        let n = c.limited(bytes, 1, grammar::MAX_PRODUCTIONS);
        let Read::Value(m, next) = n else {
            return n;
        };
        tables[grammar::RULES + a] = base::narrow(k);
        let piece = productions(bytes, next, m, kinds, nonterminals, a, tables, p, k);
        let Read::Value(q, after) = piece else {
            return piece;
        };
        p = q;
        k += m;
        c = after;
    }
    tables[grammar::RULES + nonterminals] = base::narrow(k);
    Read::Value(p, c)
}

// The end place, and the words that say how much there is.
fn finish(kinds: usize, nonterminals: usize, places: usize, tables: &mut [u16])
    requires { WithinLimits kinds nonterminals places tables.old }
    ensures { tables.new ≡ finished kinds nonterminals places tables.old }
{
    tables[grammar::END_PLACE] = 1;
    tables[grammar::KINDS] = base::narrow(kinds);
    tables[grammar::NONTERMINALS] = base::narrow(nonterminals);
    tables[grammar::SIZE] = base::narrow(places);
}

// Reads a grammar into tables. Answers the number of places, or the first refusal of 1 to 5, and how many bytes were fetched.
pub fn read_grammar(bytes: &[u8], tables: &mut [u16]) -> Read
    requires { length tables.old ≡ table_words }
    ensures { Leaves result tables.new (whole_pass bytes.now tables.old) × CountsBytes bytes.now result }
{
    let c = Cursor { at: 0, count: 0 };
    let n = c.limited(bytes, 1, grammar::MAX_KINDS);
    let Read::Value(kinds, next) = n else {
        return n;
    };
    let m = next.limited(bytes, 1, grammar::MAX_NONTERMINALS);
    let Read::Value(nonterminals, start) = m else {
        return m;
    };
    let piece = rules(bytes, start, kinds, nonterminals, tables);
    let Read::Value(places, end) = piece else {
        return piece;
    };
    let at = end.at;
    if at < bytes.len() {
        return Read::Refused(Refusal::Trailing(at), end);
    }
    finish(kinds, nonterminals, places, tables);
    piece
}
