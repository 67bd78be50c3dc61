// The derivation cells in the working space: for each place p of the grammar and each position i of the note the positions up to which what is left of
// p's production derives the note from i on. Five words a cell, the cells of a position side by side. Here they are read and written one by one, and
// gone on by from sets of positions; what they hold is worked out in crate chart.
#![tactic(auto)]

ghost use Rattle.std.specs.Prelude.{◌≡◌, ◌+◌, ◌≤◌, ◌<◌, length};
ghost use Rattle.grammar.specs.inside.Tables.{grammar_in};
ghost use Rattle.positions.specs.inside.Positions.{set_words};
ghost use Rattle.positions.specs.inside.Words.{set_at, put_at};
ghost use Rattle.cells.specs.inside.Chart.{spot, Lent, Awaits, EndsOf};
ghost use Rattle.cells.specs.inside.Matches.{matches_at};
ghost use Rattle.cells.specs.inside.Through.{Through, Onward, Follows};

use positions::Positions;

// The cell of place p at position i, of `places` places.
pub fn cell(ws: &[u32], places: usize, p: usize, i: usize) -> Positions
    requires { spot places p i + set_words ≤ length ws.now }
    ensures { result.words ≡ set_at ws.now (spot places p i) }
{
    positions::read(ws, positions::WORDS * (i * places + p))
}

// The set s, put into the cell of place p at position i.
pub fn put(ws: &mut [u32], places: usize, p: usize, i: usize, s: Positions)
    requires { spot places p i + set_words ≤ length ws.old }
    ensures { ws.new ≡ put_at ws.old (spot places p i) s.words }
{
    positions::put(ws, positions::WORDS * (i * places + p), s);
}

// The set `begun`, and where place q leads to from each member of s, from `from` up to the note's end at n.
pub fn onward(
    ws: &[u32],
    places: usize,
    n: usize,
    s: Positions,
    begun: Positions,
    from: usize,
    q: usize,
) -> Positions
    requires { Lent places n ws.now × (q < places) }
    ensures { Onward places ws.now n s.words begun.words from q result.words }
{
    let mut r = begun;
    for m in s.members(from, n) {
        let t = cell(ws, places, q, m);
        r = r.union(t);
    }
    r
}

// From each member of s, from `from` up to the note's end at n, on by place q. Where the first one leads everywhere up to the end, the others add nothing:
// dense grammars would be slow without this.
pub fn through(
    ws: &[u32],
    places: usize,
    n: usize,
    s: Positions,
    from: usize,
    q: usize,
) -> Positions
    requires { Follows places ws.now n from q }
    ensures { Through places ws.now n s.words from q result.words }
{
    let mut members = s.members(from, n);
    let Some(first) = members.next() else {
        return Positions::empty();
    };
    let r = cell(ws, places, q, first);
    let Some(second) = members.next() else {
        return r;
    };
    if r.full(first, n) {
        return r;
    }
    onward(ws, places, n, s, r, second, q)
}

// Whether a token stands at position i of the note, and may stand where this kind is called for.
pub fn matches(tables: &[u16], note: &[u16], kind: usize, i: usize) -> bool
    ensures { result ≡ matches_at (grammar_in tables.now) note.now i kind }
{
    note.get(i)
        .is_some_and(|token| grammar::admits(tables, kind, usize::from(*token)))
}

// Where the productions of nonterminal a that begin at i end.
pub fn ends_of(tables: &[u16], ws: &[u32], a: usize, i: usize) -> Positions
    requires { Awaits tables.now ws.now a i }
    ensures { EndsOf tables.now ws.now a i result.words }
{
    let places = grammar::size(tables);
    let mut r = Positions::empty();
    for f in grammar::first_places(tables, a) {
        let t = cell(ws, places, usize::from(*f), i);
        r = r.union(t);
    }
    r
}
