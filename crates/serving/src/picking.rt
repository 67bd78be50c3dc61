// The lowest alternative that serves where a nonterminal waits: by ends on demand, and by the derivation cells where their budget is out. Nobody above knows
// which of the two answered.
ghost use Rattle.std.specs.Prelude.{◌≡◌, ◌+◌};
ghost use Rattle.machine.specs.inside.Choice.{Numbered};
ghost use Rattle.serving.specs.inside.Serving.{Waiting, Found};
ghost use Rattle.serving.specs.inside.Aids.{MayServe, MaySearch, MayTake, Served, ServedFar};

use machine::{At, Space};
use opening::Frames;
use search::{Meter, Pair, Search};

// The alternative that is taken, if there is one, and of how many open frames the marks or the sets stand after it.
#[derive(Clone, Copy)]
pub struct Pick {
    pub alternative: Option<usize>,
    pub known: usize,
}

// By the cells.
fn by_cells(
    tables: &[u16],
    note: &[u16],
    ws: &mut [u32],
    space: Space,
    known: usize,
    at: At,
    a: usize,
) -> Pick
    requires { Waiting tables.now note.now ws.old space known at a }
    ensures { Numbered result.alternative (Found tables.now note.now ws.old ws.new at.depth at.place a at.position)
        × (result.known ≡ at.depth + 1) }
{
    Pick {
        alternative: crate::tabling::full(tables, note, ws, space, known, at, a),
        known: at.depth + 1,
    }
}

// By ends on demand, and by the cells where the budget is out on the way.
fn by_search(
    tables: &[u16],
    note: &[u16],
    masks: &[u32],
    tally: &mut [u32],
    ws: &mut [u32],
    space: Space,
    known: usize,
    at: At,
    a: usize,
) -> Pick
    requires { MaySearch tables.now note.now masks.now tally.old ws.old space known at a }
    ensures { Numbered result.alternative (ServedFar tables.now note.now masks.now tally.old ws.old
        masks.now tally.new ws.new at.depth at.place a at.position result.known) }
{
    let size = search::size_of(tables, note);
    let stand = crate::pushing::push(ws, space.base, known, at);
    let search = Search {
        tables,
        masks,
        note,
        size,
    };
    let frames = Frames {
        base: space.base,
        depth: at.depth + 1,
        known: stand,
    };
    let pair = Pair {
        nonterminal: a,
        position: at.position,
    };
    let found = opening::lowest(search, ws, frames, pair, crate::aids::meter(tally));
    crate::aids::keep(tally, found.meter, note.len());
    if found.meter.left == 0 {
        return by_cells(tables, note, ws, space, 0, at, a);
    }
    Pick {
        alternative: found.alternative,
        known: found.known,
    }
}

// Nonterminal a waits: the lowest alternative that serves. If there is one, at.place becomes frame at.depth.
pub fn serve(
    tables: &[u16],
    note: &[u16],
    masks: &mut [u32],
    tally: &mut [u32],
    ws: &mut [u32],
    space: Space,
    known: usize,
    at: At,
    a: usize,
) -> Pick
    requires { MayServe tables.now note.now masks.old tally.old ws.old space known at a }
    ensures { Numbered result.alternative (ServedFar tables.now note.now masks.old tally.old ws.old
        masks.new tally.new ws.new at.depth at.place a at.position result.known) }
{
    crate::aids::begin(tables, note, masks, tally, ws);
    if 1 < tally[0] {
        return by_search(tables, note, masks, tally, ws, space, known, at, a);
    }
    by_cells(tables, note, ws, space, known, at, a)
}

// The same where it is known that some alternative serves, if a search has budget: most are told then without going down the stack.
pub fn take(
    tables: &[u16],
    note: &[u16],
    masks: &[u32],
    tally: &mut [u32],
    ws: &mut [u32],
    space: Space,
    known: usize,
    at: At,
    a: usize,
) -> Pick
    requires { MayTake tables.now note.now masks.now tally.old ws.old space known at a }
    ensures { Numbered result.alternative (Served tables.now note.now masks.now tally.old ws.old
        masks.now tally.new ws.new at.depth at.place a at.position result.known) }
{
    if tally[0] < 2 {
        return by_cells(tables, note, ws, space, known, at, a);
    }
    let size = search::size_of(tables, note);
    let meter = crate::aids::meter(tally);
    let search = Search {
        tables,
        masks,
        note,
        size,
    };
    let pair = Pair {
        nonterminal: a,
        position: at.position,
    };
    let direct = opening::direct(search, ws, pair, meter.left);
    crate::aids::keep(
        tally,
        Meter {
            left: direct.left,
            high: meter.high,
        },
        note.len(),
    );
    if direct.left == 0 {
        return by_cells(tables, note, ws, space, 0, at, a);
    }
    let Some(told) = direct.alternative else {
        return by_search(tables, note, masks, tally, ws, space, known, at, a);
    };
    let stand = crate::pushing::push(ws, space.base, known, at);
    Pick {
        alternative: Some(told),
        known: stand,
    }
}
