// The lowest alternative that serves: by which the rest of the note can be derived with what is open.
ghost use Rattle.std.specs.Prelude.{◌≡◌, cond};
ghost use Rattle.search.specs.inside.Searching.{Asks};
ghost use Rattle.opening.specs.inside.Choice.{Chooses, ChosenBy, AskedForBy, TakenBy};

use crate::marks::Frames;
use search::{Meter, Pair, Search, Tag};

// The alternative, if there is one; of how many frames the marks stand; and what is left of the budget, 0 where it is out and nothing is said.
#[derive(Clone, Copy)]
pub struct Found {
    pub alternative: Option<usize>,
    pub known: usize,
    pub meter: Meter,
}

// The alternative, if one is told, and what is left of the budget.
#[derive(Clone, Copy)]
pub struct Pick {
    pub alternative: Option<usize>,
    pub left: usize,
}

// Of how many frames the marks stand.
fn stand(all: bool, depth: usize, known: usize) -> usize
    ensures { result ≡ cond all depth known }
{
    if all { depth } else { known }
}

// The lowest alternative of a pair over the frames, of which the topmost is where its nonterminal returns to.
pub fn lowest(search: Search, ws: &mut [u32], frames: Frames, pair: Pair, meter: Meter) -> Found
    requires { Chooses search ws.old frames pair }
    ensures { ChosenBy search.entry ws.old ws.new frames pair meter result }
{
    let mut at = meter;
    for (k, f) in grammar::first_places(search.tables, pair.nonterminal)
        .iter()
        .enumerate()
    {
        let first = usize::from(*f);
        let descent = crate::descent::descend(search, ws, frames, first, pair.position, &mut at);
        let Ok(down) = descent else {
            return Found {
                alternative: None,
                known: 0,
                meter: Meter {
                    left: 0,
                    high: at.high,
                },
            };
        };
        if at.left == 0 {
            return Found {
                alternative: None,
                known: 0,
                meter: at,
            };
        }
        if down.yes {
            return Found {
                alternative: Some(k + 1),
                known: stand(down.single, frames.depth, frames.known),
                meter: at,
            };
        }
    }
    Found {
        alternative: None,
        known: frames.known,
        meter: at,
    }
}

// Some alternative of a pair serves: the lowest that does, if it is told without going down the stack. There is only one; or all derive the empty row; or
// the pair has a single end. Else none is told.
pub fn direct(search: Search, ws: &mut [u32], pair: Pair, budget: usize) -> Pick
    requires { Asks search ws.old pair }
    ensures { TakenBy search.entry ws.old ws.new pair budget result }
{
    if derivation::alternatives(search.tables, pair.nonterminal) < 2 {
        return Pick {
            alternative: Some(1),
            left: budget,
        };
    }
    let t = derivation::token_at(search.note, pair.position);
    if !first_follow::starts(search.masks, t, pair.nonterminal) {
        return Pick {
            alternative: crate::empties::empty(
                search.tables,
                first_follow::nullable(search.masks),
                pair.nonterminal,
            ),
            left: budget,
        };
    }
    let left = asked(search, ws, pair, budget);
    if left == 0 {
        return Pick {
            alternative: None,
            left: 0,
        };
    }
    match search.size.tag_of(ws, pair) {
        Tag::None => Pick {
            alternative: None,
            left,
        },
        Tag::One(_, b, _) => Pick {
            alternative: Some(b),
            left,
        },
        Tag::Several => Pick {
            alternative: None,
            left,
        },
    }
}

// A pair, worked out if it is not yet. What is left of the budget.
fn asked(search: Search, ws: &mut [u32], pair: Pair, budget: usize) -> usize
    requires { Asks search ws.old pair }
    ensures { AskedForBy search.entry ws.old ws.new pair budget result }
{
    if search::is_done(ws, pair) {
        return budget;
    }
    let mut meter = Meter {
        left: budget,
        high: 0,
    };
    match search.settle(ws, pair, &mut meter) {
        Ok(()) => meter.left,
        Err(_) => 0,
    }
}
