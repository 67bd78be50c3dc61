// A pair is tried: the ends of all its alternatives, if all pairs that they ask are worked out.
ghost use Rattle.search.specs.inside.Searching.{Asks};
ghost use Rattle.search.specs.inside.Trials.{TriedBy, Branches, BranchedBy};

use crate::adding::Ends;
use crate::given::Search;
use crate::meter::Meter;
use crate::walking::Halt;
use crate::ways::Way;
use crate::words::Pair;

impl<'a> Search<'a> {
    // The ends of alternative k of a join those that were found, from place p on, from the several ends of a pair.
    fn branch(
        self,
        ws: &[u32],
        a: usize,
        k: usize,
        ends: Ends,
        p: usize,
        pair: Pair,
        meter: &mut Meter,
    ) -> Result<Ends, Halt>
        requires { Branches self ws.now a k ends p pair }
        ensures { BranchedBy self.entry ws.now a k ends p pair meter.old meter.new result }
    {
        let from = self.size.set_of(ws, pair);
        let to = self.walk(ws, p, from, meter)?;
        Ok(self.add_all(ends, a, k, to))
    }

    // The ends of a pair.
    pub fn attempt(self, ws: &[u32], pair: Pair, meter: &mut Meter) -> Result<Ends, Halt>
        requires { Asks self ws.now pair }
        ensures { TriedBy self.entry ws.now pair meter.old meter.new result }
    {
        let a = pair.nonterminal;
        let mut ends = crate::adding::no_ends();
        for (before, f) in grammar::first_places(self.tables, a).iter().enumerate() {
            meter.pay(1)?;
            let k = before + 1;
            match self.along(ws, usize::from(*f), pair.position) {
                Way::Needs(needed) => return Err(Halt::Needs(needed)),
                Way::Nowhere(j) => meter.reach(j),
                Way::Ends(j) => {
                    meter.reach(j);
                    ends = self.add_allowed(ends, a, k, j);
                }
                Way::Several { place, pair: asked } => {
                    ends = self.branch(ws, a, k, ends, place, asked, meter)?;
                }
            }
        }
        Ok(ends)
    }
}
