// The closure of the members: the moves of each, in the order in which they came.
ghost use Rattle.std.specs.Prelude.{◌≡◌, false, [], map, ℕ, ◌+◌};
ghost use Rattle.grammar.specs.Grammar.{facing, owner};
ghost use Rattle.grammar.specs.inside.Tables.{grammar_in};
ghost use Rattle.derivation.specs.inside.Ready.{Ready};
ghost use Rattle.lookahead.specs.Configs.{config, into, calls?, behind_from, entered, returned, moves};
ghost use Rattle.lookahead.specs.Closing.{max_members, add, add_all, close_from};
ghost use Rattle.configurations.specs.inside.Packed.{config_of, MayPush};
ghost use Rattle.configurations.specs.inside.Held.{configs_from, Room, Grows};
ghost use Rattle.closing.specs.inside.Moving.{Movable, BeforeCall, Unknown, Uncalled, Seeks, Sought, LooksAt};

use configurations::Packed;
use grammar::Symbol;

// The places that are passed over at once.
const BLOCK: usize = 4;

// Into the production with first place f, over the return place.
fn push(members: &mut [u32], n: usize, c: Packed, f: usize) -> Option<usize>
    requires { Room members.old n × MayPush c f }
    ensures { Grows result members.new (add (configs_from members.old 0 n) (into (config_of c) f)) }
{
    if c.entries() == configurations::ENTRIES {
        return None;
    }
    configurations::add(members, n, c.entered(f))
}

// Before nonterminal a: into all its productions.
fn enter(tables: &[u16], members: &mut [u32], from: usize, c: Packed, a: usize) -> Option<usize>
    requires { Movable tables.now members.old from c × BeforeCall tables.now c a }
    ensures { Grows result members.new
        (add_all (configs_from members.old 0 from) (entered (grammar_in tables.now) (config_of c) a)) }
{
    let mut n = from;
    for f in grammar::first_places(tables, a) {
        n = push(members, n, c, usize::from(*f))?;
    }
    Some(n)
}

// Whether place p faces nonterminal a: one look at the symbol's code, since a whole grammar is searched so.
fn calls(tables: &[u16], p: usize, a: usize) -> bool
    requires { LooksAt tables.now p a }
    ensures { result ≡ calls? a (facing (grammar_in tables.now) p) }
{
    usize::from(tables[p]) % grammar::CODES == 2 * a + 2
}

// Whether one of a block of places, from p on, faces nonterminal a. All are looked at, so that it is one test.
fn any_calls(tables: &[u16], p: usize, a: usize) -> bool
    requires { LooksAt tables.now (p + 3) a }
    ensures { result ≡ false → Uncalled (grammar_in tables.now) a p }
{
    calls(tables, p, a)
        | calls(tables, p + 1, a)
        | calls(tables, p + 2, a)
        | calls(tables, p + 3, a)
}

// A place from p on, and not past n, before which nonterminal a does not occur: blocks that do not face it are passed over. A block is tested once,
// where it begins: behind its first place p is answered.
fn seek(tables: &[u16], p: usize, n: usize, a: usize) -> usize
    requires { Seeks tables.now p n a }
    ensures { Sought (grammar_in tables.now) a p n result }
{
    if p % BLOCK != 0 {
        return p;
    }
    let mut q = p;
    while q + BLOCK <= n && !any_calls(tables, q, a) {
        q += BLOCK;
    }
    q
}

// On an empty stack, behind a production of nonterminal a: behind every occurrence of it. No range counts the turns, since `seek` jumps.
fn behind(tables: &[u16], members: &mut [u32], from: usize, c: Packed, a: usize) -> Option<usize>
    requires { Movable tables.now members.old from c × Unknown c a }
    ensures { Grows result members.new (add_all (configs_from members.old 0 from)
        (map (λ (q : ℕ). config q (config_of c).alternative []) (behind_from a 0 (grammar_in tables.now).places))) }
{
    let size = grammar::size(tables);
    let mut n = from;
    let mut p = 0;
    while p < size {
        let here = seek(tables, p, size, a);
        if here == size {
            return Some(n);
        }
        p = here + 1;
        if calls(tables, here, a) {
            n = configurations::add(members, n, c.at(p))?;
        }
    }
    Some(n)
}

// At the end of a production of nonterminal a: to the return place, or on an empty stack behind every occurrence and, for the start symbol, to the end
// place.
fn back(tables: &[u16], members: &mut [u32], n: usize, c: Packed, a: usize) -> Option<usize>
    requires { Movable tables.now members.old n c × (a ≡ owner (grammar_in tables.now) (config_of c).place) }
    ensures { Grows result members.new (add_all (configs_from members.old 0 n)
        (returned (grammar_in tables.now) (config_of c) (config_of c).stack)) }
{
    if c.entries() != 0 {
        return configurations::add(members, n, c.popped());
    }
    let k = behind(tables, members, n, c, a)?;
    if a == 0 {
        return configurations::add(members, k, c.at(grammar::END_PLACE));
    }
    Some(k)
}

// The moves of c.
fn follow(tables: &[u16], members: &mut [u32], n: usize, c: Packed) -> Option<usize>
    requires { Movable tables.now members.old n c }
    ensures { Grows result members.new
        (add_all (configs_from members.old 0 n) (moves (grammar_in tables.now) (config_of c))) }
{
    let place = grammar::place_at(tables, c.place());
    match place.symbol {
        Symbol::Token(_) => Some(n),
        Symbol::Nonterminal(a) => enter(tables, members, n, c, a),
        Symbol::End => back(tables, members, n, c, place.owner),
    }
}

// The first members, closed. No range counts the turns, since members come while the moves of others are made.
pub fn close(tables: &[u16], members: &mut [u32], from: usize) -> Option<usize>
    requires { Ready tables.now × Room members.old from }
    ensures { Grows result members.new
        (close_from (grammar_in tables.now) max_members 0 (configs_from members.old 0 from)) }
{
    let mut n = from;
    let mut k = 0;
    while k < n {
        let c = configurations::member(members, k);
        n = follow(tables, members, n, c)?;
        k += 1;
    }
    Some(n)
}
