// Along a production, and from a set of positions, what that needs being worked out.
ghost use Rattle.search.specs.inside.Ways.{Goes};
ghost use Rattle.search.specs.inside.Walks.{WalksFrom};
ghost use Rattle.opening.specs.inside.Leading.{LedBy, LedAllBy};

use positions::Positions;
use search::{Exhausted, Halt, Meter, Search, Way};

// From place p at position i on: where the production leads. Nothing is counted: it is asked again until it needs no other pair. `spread` is the same from a
// set, but answers with a set: another type of answer, with another law.
pub fn lead(
    search: Search,
    ws: &mut [u32],
    p: usize,
    i: usize,
    meter: &mut Meter,
) -> Result<Way, Exhausted>
    requires { Goes search ws.old p i }
    ensures { LedBy search.entry ws.old ws.new p i meter.old meter.new result }
{
    loop {
        let way = search.along(ws, p, i);
        let Way::Needs(pair) = way else {
            return Ok(way);
        };
        search.settle(ws, pair, meter)?;
        meter.pay(1)?;
    }
}

// From each position of a set at place p on: where that leads.
pub fn spread(
    search: Search,
    ws: &mut [u32],
    p: usize,
    from: Positions,
    meter: &mut Meter,
) -> Result<Positions, Exhausted>
    requires { WalksFrom search ws.old p from.words }
    ensures { LedAllBy search.entry ws.old ws.new p from.words meter.old meter.new result }
{
    loop {
        match search.walk(ws, p, from, meter) {
            Ok(to) => return Ok(to),
            Err(Halt::Out) => return Err(Exhausted),
            Err(Halt::Needs(pair)) => {
                search.settle(ws, pair, meter)?;
                meter.pay(1)?;
            }
        }
    }
}
