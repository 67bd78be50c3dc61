// Pairs are worked out: each is tried, and where it asks a pair that is not worked out, it waits and that one is tried first.
ghost use Rattle.search.specs.inside.Searching.{Asks};
ghost use Rattle.search.specs.inside.Trials.{SettledBy};

use crate::given::Search;
use crate::meter::{Exhausted, Meter};
use crate::walking::Halt;
use crate::words::Pair;

impl<'a> Search<'a> {
    // Works out a pair.
    pub fn settle(self, ws: &mut [u32], pair: Pair, meter: &mut Meter) -> Result<(), Exhausted>
        requires { Asks self ws.old pair }
        ensures { SettledBy self.entry ws.old ws.new pair meter.old meter.new result }
    {
        let size = self.size;
        let room = size.nonterminals * (size.n + 1);
        let mut next = pair;
        let mut waiting = 0;
        loop {
            let trial = self.attempt(ws, next, meter);
            meter.pay(1)?;
            match trial {
                Ok(ends) => {
                    size.store(ws, next, ends.tag, ends.set);
                    if waiting == 0 {
                        return Ok(());
                    }
                    waiting -= 1;
                    next = size.wait_of(ws, waiting);
                }
                Err(Halt::Needs(needed)) => {
                    if waiting == room {
                        return Err(Exhausted);
                    }
                    size.put_wait(ws, waiting, next);
                    waiting += 1;
                    next = needed;
                }
                Err(Halt::Out) => return Err(Exhausted),
            }
        }
    }
}
