// The place of refusal 10: how far into the note some sentence allows the tokens read. For each place of the grammar the set of positions at which a
// reader of the note can stand there, five words each, from the note's beginning on; the last position at which anything stands is the place.
#![tactic(auto)]

ghost use Rattle.std.specs.Prelude.{◌≡◌, ◌≤◌, ◌<◌, length};
ghost use Rattle.grammar.specs.Limits.{max_places};
ghost use Rattle.grammar.specs.inside.Tables.{grammar_in};
ghost use Rattle.positions.specs.inside.Positions.{position_count, member, with_of};
ghost use Rattle.derivation.specs.ReachRounds.{highest_to, wrong_place};
ghost use Rattle.reach.specs.inside.Sets.{sets_words, place_set_words, Marks, Added, PointOf, Occupied};
ghost use Rattle.reach.specs.inside.Passes.{Stepped, Given, StandsAt, MayEnter, Opening, Leads, Passed, PassesDone};

use grammar::Symbol;
use positions::Positions;

// Words of the sets of all places. specs/Sets has the same.
const SETS: usize = positions::WORDS * grammar::MAX_PLACES;

// Words of a set of places, a bit for each. specs/Sets has the same.
const PLACE_WORDS: usize = grammar::MAX_PLACES / base::WORD_BITS + 1;

// Whether a set of places holds p.
fn has_place(set: &[u32], p: usize) -> bool
    requires { (length set.now ≡ place_set_words) × (p < max_places) }
    ensures { result ≡ member set.now p }
{
    base::has(set[p / base::WORD_BITS], p % base::WORD_BITS)
}

// Puts p into a set of places.
fn put_place(set: &mut [u32], p: usize)
    requires { (length set.old ≡ place_set_words) × (p < max_places) }
    ensures { set.new ≡ with_of set.old p }
{
    let k = p / base::WORD_BITS;
    set[k] = base::with(set[k], p % base::WORD_BITS);
}

// A reader can stand at place q at position j. Whether that is new.
fn mark(sets: &mut [u32], q: usize, j: usize) -> bool
    requires { Marks q j sets.old }
    ensures { Added (PointOf q j) result sets.old sets.new }
{
    if positions::holds(sets, positions::WORDS * q, j) {
        return false;
    }
    let s = Positions::empty().with(j);
    positions::join(sets, positions::WORDS * q, s)
}

// It can stand at the first place of every production of a at position i. Whether any of that is new.
fn enter(tables: &[u16], sets: &mut [u32], a: usize, i: usize) -> bool
    requires { MayEnter tables.now sets.old a i }
    ensures { Added (Opening (grammar_in tables.now) a i) result sets.old sets.new }
{
    let mut grown = false;
    for f in grammar::first_places(tables, a) {
        grown |= mark(sets, usize::from(*f), i);
    }
    grown
}

// Where a reader can stand next, if it stands at place p at position i: behind a token that matches; in the productions of a nonterminal, and behind it
// wherever they end. Whether any of that is new.
fn step(tables: &[u16], note: &[u16], ws: &[u32], sets: &mut [u32], p: usize, i: usize) -> bool
    requires { StandsAt tables.now note.now ws.now i sets.old × (p < (grammar_in tables.now).size) }
    ensures { Added (Leads (grammar_in tables.now) note.now p i) result sets.old sets.new }
{
    match grammar::place_at(tables, p).symbol {
        Symbol::End => false,
        Symbol::Token(k) => {
            if !cells::matches(tables, note, k, i) {
                return false;
            }
            mark(sets, p + 1, i + 1)
        }
        Symbol::Nonterminal(a) => {
            let ends = cells::ends_of(tables, ws, a, i);
            let entered = enter(tables, sets, a, i);
            let returned = positions::join(sets, positions::WORDS * (p + 1), ends);
            entered || returned
        }
    }
}

// Every place at which a reader can stand at position i and from which no step was made there yet, once. Whether anything is new.
fn pass(
    tables: &[u16],
    note: &[u16],
    ws: &[u32],
    sets: &mut [u32],
    stepped: &mut [u32],
    i: usize,
) -> bool
    requires { StandsAt tables.now note.now ws.now i sets.old × Stepped tables.now note.now i stepped.old sets.old }
    ensures { Passed tables.now note.now i result sets.old sets.new stepped.new }
{
    let mut grown = false;
    for p in 0..grammar::size(tables) {
        if positions::holds(sets, positions::WORDS * p, i) && !has_place(stepped, p) {
            put_place(stepped, p);
            grown |= step(tables, note, ws, sets, p, i);
        }
    }
    grown
}

// All that can be reached from position i, by passes until nothing changes. A step from the same place would lead nowhere new, so none is made twice.
fn settle(tables: &[u16], note: &[u16], ws: &[u32], sets: &mut [u32], i: usize)
    requires { StandsAt tables.now note.now ws.now i sets.old }
    ensures { PassesDone tables.now note.now i sets.old sets.new }
{
    let mut stepped = [0u32; PLACE_WORDS];
    while pass(tables, note, ws, sets, &mut stepped, i) {}
}

// Every position at which a reader can stand somewhere.
fn anywhere(sets: &[u32], places: usize) -> Positions
    requires { (places ≤ max_places) × (length sets.now ≡ sets_words) }
    ensures { Occupied sets.now places result.words }
{
    let mut all = Positions::empty();
    for p in 0..places {
        let here = positions::read(sets, positions::WORDS * p);
        all = all.union(here);
    }
    all
}

// The highest member up to n; 0 if there is none.
fn highest(s: Positions, n: usize) -> usize
    requires { n < position_count }
    ensures { result ≡ highest_to (member s.words) n }
{
    for k in (0..n + 1).rev() {
        if s.has(k) {
            return k;
        }
    }
    0
}

// Where a note that is no sentence goes wrong.
pub fn wrong_place(tables: &[u16], note: &[u16], ws: &[u32]) -> usize
    requires { Given tables.now note.now ws.now }
    ensures { result ≡ wrong_place (grammar_in tables.now) note.now }
{
    let mut sets = [0u32; SETS];
    let entered = enter(tables, &mut sets, 0, 0);
    let n = note.len();
    for i in 0..n + 1 {
        settle(tables, note, ws, &mut sets, i);
    }
    let all = anywhere(&sets, grammar::size(tables));
    highest(all, n)
}
