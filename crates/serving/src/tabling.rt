// The lowest alternative that serves, by the derivation cells.
ghost use Rattle.machine.specs.inside.Choice.{Numbered};
ghost use Rattle.serving.specs.inside.Sets.{Tabling, Tabled};
ghost use Rattle.serving.specs.inside.Serving.{Waiting, Found, CellsWanted, CellsRight};

use machine::{At, Space};
use positions::Positions;

// The cells, if there are none yet, and with them the set of the lowest frame, which returns to the end place. Of how many frames the sets stand.
fn table(tables: &[u16], note: &[u16], ws: &mut [u32], space: Space, known: usize, at: At) -> usize
    requires { Tabling tables.now note.now ws.old space known at }
    ensures { Tabled tables.now note.now ws.old ws.new at.depth at.place at.position result }
{
    if known == 0 {
        chart::fill(tables, note, ws);
        let s = Positions::empty().with(note.len());
        machine::frames::put_rest(ws, space.base, 0, s);
        return 1;
    }
    known.min(at.depth)
}

// Nonterminal a waits, and a prediction said FULL: the lowest alternative that serves, with cells and all sets made right for it. Before the first frame
// there are no sets, and the end place is what stays open.
pub fn full(
    tables: &[u16],
    note: &[u16],
    ws: &mut [u32],
    space: Space,
    known: usize,
    at: At,
    a: usize,
) -> Option<usize>
    requires { Waiting tables.now note.now ws.old space known at a }
    ensures { Numbered result (Found tables.now note.now ws.old ws.new at.depth at.place a at.position) }
{
    if at.depth == 0 {
        chart::fill(tables, note, ws);
        return machine::call(tables, note, ws, space, at, a);
    }
    let caller = At {
        place: at.place - 1,
        position: at.position,
        depth: at.depth,
    };
    let stand = table(tables, note, ws, space, known, caller);
    crate::sets::settle(tables, note, ws, space, stand, caller);
    machine::call(tables, note, ws, space, at, a)
}

// The cells, if there are none yet.
pub fn fill_cells(tables: &[u16], note: &[u16], ws: &mut [u32], known: usize)
    requires { CellsWanted tables.now note.now ws.old known }
    ensures { CellsRight tables.now note.now ws.old ws.new }
{
    if known == 0 {
        chart::fill(tables, note, ws);
    }
}
