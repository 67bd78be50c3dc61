// The derivation cells worked out. Positions are settled from the note's end to its beginning: at each one first the ends of every nonterminal, then every
// cell once, the last place first.
#![tactic(auto)]

ghost use Rattle.std.specs.Prelude.{◌≡◌, length};
ghost use Rattle.grammar.specs.Grammar.{facing};
ghost use Rattle.grammar.specs.inside.Tables.{grammar_in, table_words};
ghost use Rattle.derivation.specs.inside.Ready.{Ready};
ghost use Rattle.order.specs.inside.Order.{InOrder};
ghost use Rattle.cells.specs.inside.Chart.{Lent, Filled};
ghost use Rattle.ends.specs.inside.Row.{Row, EndsRight};
ghost use Rattle.chart.specs.inside.Derived.{is_end, CellsSettled, Derived, Deriving};

use grammar::Symbol;
use positions::Positions;

// Whether place q is a production's end.
fn is_end(tables: &[u16], q: usize) -> bool
    requires { length tables.now ≡ table_words }
    ensures { result ≡ is_end (facing (grammar_in tables.now) q) }
{
    matches!(grammar::place_at(tables, q).symbol, Symbol::End)
}

// What the cell of p at i is, by `ends`, the cells of the later positions and, at i, the cell of the place behind p.
fn derived(tables: &[u16], note: &[u16], ws: &[u32], ends: &[u32], i: usize, p: usize) -> Positions
    requires { Deriving tables.now note.now ws.now i ends.now p }
    ensures { Derived tables.now note.now ws.now i ends.now p result.words }
{
    let places = grammar::size(tables);
    match grammar::place_at(tables, p).symbol {
        Symbol::End => Positions::empty().with(i),
        Symbol::Token(k) => {
            if !cells::matches(tables, note, k, i) {
                return Positions::empty();
            }
            cells::cell(ws, places, p + 1, i + 1)
        }
        Symbol::Nonterminal(b) => {
            let s = positions::read(ends, positions::WORDS * b);
            if is_end(tables, p + 1) {
                return s;
            }
            cells::through(ws, places, note.len(), s, i, p + 1)
        }
    }
}

// Every cell of position i, the last place first.
fn write_row(tables: &[u16], note: &[u16], ws: &mut [u32], ends: &[u32], i: usize)
    requires { EndsRight tables.now note.now i ws.old ends.now }
    ensures { CellsSettled tables.now note.now i ws.old ws.new }
{
    let places = grammar::size(tables);
    for p in (0..places).rev() {
        let s = derived(tables, note, ws, ends, i, p);
        cells::put(ws, places, p, i, s);
    }
}

// The cells of position i.
fn settle(tables: &[u16], note: &[u16], ws: &mut [u32], order: &[usize], i: usize)
    requires { Row tables.now note.now i ws.old × InOrder tables.now order.now }
    ensures { CellsSettled tables.now note.now i ws.old ws.new }
{
    let mut ends = [0u32; ends::END_WORDS];
    ends::settle(tables, note, ws, &mut ends, order, i);
    write_row(tables, note, ws, &ends, i);
}

// All cells.
pub fn fill(tables: &[u16], note: &[u16], ws: &mut [u32])
    requires { Ready tables.now × Lent (grammar_in tables.now).size (length note.now) ws.old }
    ensures { Filled tables.now note.now ws.old ws.new }
{
    let mut order = [0usize; grammar::MAX_NONTERMINALS];
    order::line_up(tables, &mut order);
    for i in (0..note.len() + 1).rev() {
        settle(tables, note, ws, &order, i);
    }
}
