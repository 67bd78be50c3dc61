// From a place down over the open frames. The lowest frame returns to the end place, where the note's end is due.
ghost use Rattle.opening.specs.inside.Descent.{DescendsFrom, SpreadsFrom, DescendedBy, ScatteredBy};

use crate::marks::Frames;
use positions::Positions;
use search::{Exhausted, Meter, Search, Way};

// Whether a place and all frames derive the rest; and whether each frame was come to at one position, so that all have marks if they do.
#[derive(Clone, Copy, Debug, PartialEq, Eq)]
pub struct Descent {
    pub yes: bool,
    pub single: bool,
}

// From the positions of a set at place p. In shape this is `descend`, but only a single position leaves marks and says so: two laws, so two functions.
// Both loops go down the frames until there is an answer, and the next place is read from a frame: this is no walk over a range.
fn spread(
    search: Search,
    ws: &mut [u32],
    frames: Frames,
    p: usize,
    from: Positions,
    meter: &mut Meter,
) -> Result<Descent, Exhausted>
    requires { SpreadsFrom search ws.old frames p from.words }
    ensures { ScatteredBy search.entry ws.old ws.new frames p from.words meter.old meter.new result }
{
    let n = search.note.len();
    let mut q = p;
    let mut x = from;
    let mut k = frames.depth;
    loop {
        x = crate::leading::spread(search, ws, q, x, meter)?;
        meter.pay(1)?;
        k -= 1;
        if frames.among(ws, k, x) {
            return Ok(Descent {
                yes: true,
                single: false,
            });
        }
        if k == 0 {
            return Ok(Descent {
                yes: x.has(n),
                single: false,
            });
        }
        q = machine::frames::return_place(ws, frames.base, k);
    }
}

// From place q at position i.
pub fn descend(
    search: Search,
    ws: &mut [u32],
    frames: Frames,
    q: usize,
    i: usize,
    meter: &mut Meter,
) -> Result<Descent, Exhausted>
    requires { DescendsFrom search ws.old frames q i }
    ensures { DescendedBy search.entry ws.old ws.new frames q i meter.old meter.new result }
{
    let n = search.note.len();
    let mut p = q;
    let mut j = i;
    let mut k = frames.depth;
    loop {
        let way = crate::leading::lead(search, ws, p, j, meter)?;
        meter.pay(1)?;
        match way {
            Way::Needs(_) => return Err(Exhausted),
            Way::Nowhere(_) => {
                return Ok(Descent {
                    yes: false,
                    single: false,
                });
            }
            Way::Several { place, pair } => {
                let x = search.size.set_of(ws, pair);
                let below = Frames {
                    base: frames.base,
                    depth: k,
                    known: frames.known,
                };
                return spread(search, ws, below, place, x, meter);
            }
            Way::Ends(m) => {
                j = m;
                k -= 1;
                if frames.meets(ws, k, j) {
                    return Ok(Descent {
                        yes: true,
                        single: true,
                    });
                }
                if k == 0 {
                    return Ok(Descent {
                        yes: j == n,
                        single: true,
                    });
                }
                p = machine::frames::return_place(ws, frames.base, k);
            }
        }
    }
}
