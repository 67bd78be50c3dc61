// Along a production, symbol by symbol, as far as single ends lead.
ghost use Rattle.search.specs.inside.Ways.{Goes, WentBy};

use crate::given::Search;
use crate::replies::Reply;
use crate::words::Pair;
use grammar::Symbol;

// Where a production leads: it ends at a position, and nowhere else; it ends nowhere, and came so far; a pair is not worked out; or it goes on at a place
// from the several ends of a pair.
#[derive(Clone, Copy, Debug, PartialEq, Eq)]
pub enum Way {
    Ends(usize),
    Nowhere(usize),
    Needs(Pair),
    Several { place: usize, pair: Pair },
}

impl<'a> Search<'a> {
    // From place f at position i on.
    pub fn along(self, ws: &[u32], f: usize, i: usize) -> Way
        requires { Goes self ws.now f i }
        ensures { WentBy self.entry ws.now f i result }
    {
        let mut p = f;
        let mut j = i;
        loop {
            let symbol = grammar::place_at(self.tables, p).symbol;
            p += 1;
            match symbol {
                Symbol::End => return Way::Ends(j),
                Symbol::Token(k) => {
                    if !cells::matches(self.tables, self.note, k, j) {
                        return Way::Nowhere(j);
                    }
                    j += 1;
                }
                Symbol::Nonterminal(b) => {
                    let pair = Pair {
                        nonterminal: b,
                        position: j,
                    };
                    match self.known(ws, pair) {
                        Reply::Unknown => return Way::Needs(pair),
                        Reply::Nowhere => return Way::Nowhere(j),
                        Reply::Several => return Way::Several { place: p, pair },
                        Reply::Only(m) => j = m,
                    }
                }
            }
        }
    }
}
