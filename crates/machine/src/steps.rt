// The machine's steps: moves that need no choice, and the choice of an alternative by the cells where a nonterminal waits.
ghost use Rattle.std.specs.Prelude.{◌≡◌, suc, ◌+◌, ◌*◌, ◌≤◌, length};
ghost use Rattle.std.proofs.Math.Option.{some};
ghost use Rattle.grammar.specs.Grammar.{first};
ghost use Rattle.grammar.specs.inside.Tables.{grammar_in};
ghost use Rattle.derivation.specs.Runs.{marked};
ghost use Rattle.derivation.specs.Space.{max_tokens};
ghost use Rattle.derivation.specs.inside.Frames.{frame_words};
ghost use Rattle.derivation.specs.inside.Ready.{Ready};
ghost use Rattle.machine.specs.inside.Choice.{Numbered, lowest_in};
ghost use Rattle.machine.specs.inside.Space.{Named, push_if, Spaced};
ghost use Rattle.machine.specs.inside.Moves.{Advanced, Entered};
ghost use Rattle.machine.specs.inside.Waits.{Calling, Choosing, Enters, Called};

use grammar::Symbol;
use positions::Positions;

// Where the machine stands: a place, a position of the note, and how many frames are open. Where a nonterminal waits, the place is the one behind it.
#[derive(Clone, Copy)]
pub struct At {
    pub place: usize,
    pub position: usize,
    pub depth: usize,
}

// How the working space is laid out: the places of the grammar, and where the frames begin.
#[derive(Clone, Copy)]
pub struct Space {
    pub places: usize,
    pub base: usize,
}

// What the machine comes to without a choice: a nonterminal that waits; a place where nothing fits; the end of the last production, and of the note.
#[derive(Clone, Copy)]
pub enum Turn {
    Calls(At, usize),
    Stuck,
    Ended,
}

// The space of a note.
pub fn space_of(tables: &[u16], note: &[u16]) -> Space
    requires { Ready tables.now × (length note.now ≤ max_tokens) }
    ensures { Spaced tables.now note.now result }
{
    let places = grammar::size(tables);
    Space {
        places,
        base: positions::WORDS * ((note.len() + 1) * places),
    }
}

// The first place of alternative b of nonterminal a.
pub fn first(tables: &[u16], a: usize, b: usize) -> usize
    requires { Ready tables.now × Named tables.now a b }
    ensures { first (grammar_in tables.now) a b ≡ some result }
{
    let start = grammar::rule_at(tables, a);
    grammar::first_place(tables, start + b - 1)
}

// Over ends of productions and tokens that match, until a nonterminal waits.
pub fn advance(tables: &[u16], note: &[u16], ws: &[u32], base: usize, from: At) -> Turn
    requires { Ready tables.now × (base + frame_words * from.depth ≤ length ws.now) }
    ensures { Advanced (grammar_in tables.now) (marked note.now) ws.now base from.place from.depth
        from.position result }
{
    let n = note.len();
    let mut p = from.place;
    let mut i = from.position;
    let mut d = from.depth;
    loop {
        match grammar::place_at(tables, p).symbol {
            Symbol::End => {
                if d == 0 {
                    if i == n + 1 {
                        return Turn::Ended;
                    }
                    return Turn::Stuck;
                }
                d -= 1;
                p = crate::frames::return_place(ws, base, d);
            }
            Symbol::Token(k) => {
                if n < i {
                    return Turn::Stuck;
                }
                let t = derivation::token_at(note, i);
                if !grammar::admits(tables, k, t) {
                    return Turn::Stuck;
                }
                p += 1;
                i += 1;
            }
            Symbol::Nonterminal(a) => {
                let at = At {
                    place: p + 1,
                    position: i,
                    depth: d,
                };
                return Turn::Calls(at, a);
            }
        }
    }
}

// Into alternative b of nonterminal a, whose return place is the topmost frame now, and on from its first place.
pub fn enter(
    tables: &[u16],
    note: &[u16],
    ws: &[u32],
    base: usize,
    at: At,
    a: usize,
    b: usize,
) -> Turn
    requires { Enters tables.now ws.now base at a b }
    ensures { Entered tables.now note.now ws.now base a b (suc at.depth) at.position result }
{
    let start = At {
        place: first(tables, a, b),
        position: at.position,
        depth: at.depth + 1,
    };
    advance(tables, note, ws, base, start)
}

// The lowest alternative of a by which a position in s is come to. If there is one, at.place with s becomes frame at.depth.
fn choose(
    tables: &[u16],
    ws: &mut [u32],
    base: usize,
    at: At,
    a: usize,
    s: Positions,
) -> Option<usize>
    requires { Choosing tables.now ws.old base at a }
    ensures { Numbered result (λ r. (r ≡ lowest_in tables.now ws.old a at.position s.words)
        × (ws.new ≡ push_if r ws.old base at.depth at.place s.words)) }
{
    let b = crate::choice::lowest(tables, ws, a, at.position, s)?;
    crate::frames::push(ws, base, at.depth, at.place, s);
    Some(b)
}

// Nonterminal a waits: the lowest alternative that serves. If there is one, at.place becomes frame at.depth. The set of positions from which what stays open
// derives the rest is the note's end alone where a reading begins.
pub fn call(
    tables: &[u16],
    note: &[u16],
    ws: &mut [u32],
    space: Space,
    at: At,
    a: usize,
) -> Option<usize>
    requires { Calling tables.now note.now ws.old space at a }
    ensures { Numbered result (Called tables.now note.now ws.old ws.new at.depth at.place a at.position) }
{
    let n = note.len();
    if at.depth == 0 {
        let s = Positions::empty().with(n);
        return choose(tables, ws, space.base, at, a, s);
    }
    let ends = cells::ends_of(tables, ws, a, at.position);
    let rest = crate::frames::rest(ws, space.base, at.depth - 1);
    let s = crate::choice::serving(ws, space.places, n, ends, at.place, rest);
    choose(tables, ws, space.base, at, a, s)
}
