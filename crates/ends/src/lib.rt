// Where the productions that begin at one position end, nonterminal by nonterminal: a set of positions each. A look along a production reads only the
// symbols up to the first that does not vanish here, so each nonterminal is judged once, behind its left corners.
#![tactic(auto)]

ghost use Rattle.ends.specs.inside.Ends.{RightEnds};
ghost use Rattle.ends.specs.inside.Row.{LooksFrom, LooksAlong, Settles, LedTo};
ghost use Rattle.ends.specs.inside.Judged.{Looked};

use grammar::Symbol;
use positions::Positions;

// Words of the sets of all nonterminals. specs/Ends has the same.
pub const END_WORDS: usize = positions::WORDS * grammar::MAX_NONTERMINALS;

// Where the production from place f on ends when it begins at i, as far as `ends` and the cells of the later positions tell.
fn begun(tables: &[u16], note: &[u16], ws: &[u32], ends: &[u32], i: usize, f: usize) -> Positions
    requires { LooksFrom tables.now note.now i ws.now ends.now f }
    ensures { LedTo tables.now note.now ws.now i ends.now f result.words }
{
    let places = grammar::size(tables);
    let mut r = Positions::empty();
    for p in f..=grammar::END_PLACE {
        match grammar::place_at(tables, p).symbol {
            Symbol::End => return r.with(i),
            Symbol::Token(k) => {
                if !cells::matches(tables, note, k, i) {
                    return r;
                }
                let t = cells::cell(ws, places, p + 1, i + 1);
                return r.union(t);
            }
            Symbol::Nonterminal(b) => {
                let s = positions::read(ends, positions::WORDS * b);
                let t = cells::through(ws, places, note.len(), s, i + 1, p + 1);
                r = r.union(t);
                if !s.has(i) {
                    return r;
                }
            }
        }
    }
    r
}

// The ends of nonterminal a, by every production of it.
fn look(tables: &[u16], note: &[u16], ws: &[u32], ends: &mut [u32], i: usize, a: usize)
    requires { LooksAlong tables.now note.now i ws.now ends.old a }
    ensures { Looked tables.now note.now ws.now i a ends.old ends.new }
{
    let mut r = Positions::empty();
    for f in grammar::first_places(tables, a) {
        let t = begun(tables, note, ws, ends, i, usize::from(*f));
        r = r.union(t);
    }
    positions::put(ends, positions::WORDS * a, r);
}

// The ends of every nonterminal, one after the other in this order, each behind its left corners.
pub fn settle(tables: &[u16], note: &[u16], ws: &[u32], ends: &mut [u32], order: &[usize], i: usize)
    requires { Settles tables.now note.now i ws.now order.now ends.old }
    ensures { RightEnds tables.now note.now i ends.new }
{
    for a in &order[..grammar::nonterminals(tables)] {
        look(tables, note, ws, ends, i, *a);
    }
}
