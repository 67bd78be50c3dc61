// The same from a set of positions, where a pair has several ends: from each of them, symbol by symbol.
ghost use Rattle.std.specs.Prelude.{◌≡◌};
ghost use Rattle.grammar.specs.declared.Symbol.TheVariants.{Token, Nonterminal};
ghost use Rattle.search.specs.declared.walking.Halt.TheVariants.{Out};
ghost use Rattle.search.specs.inside.Walks.{WalksFrom, Passes, PassedBy, WalkedBy};

use crate::given::Search;
use crate::meter::{Exhausted, Meter};
use crate::replies::Reply;
use crate::words::Pair;
use grammar::Symbol;
use positions::Positions;

// Why it stops: a pair is needed that is not worked out, or the budget is out.
#[derive(Clone, Copy, Debug, PartialEq, Eq)]
pub enum Halt {
    Needs(Pair),
    Out,
}

impl From<Exhausted> for Halt {
    ghost from_gives = { λ _ e. e ≡ Out };

    fn from(_e: Exhausted) -> Halt {
        Halt::Out
    }
}

// What a member costs.
const MEMBER: usize = 4;

impl<'a> Search<'a> {
    // Over token k, which place p faces.
    fn over_token(
        self,
        ws: &[u32],
        p: usize,
        from: Positions,
        k: usize,
        meter: &mut Meter,
    ) -> Result<Positions, Halt>
        requires { Passes self ws.now p from.words (Token k) }
        ensures { PassedBy self.entry ws.now p from.words meter.old meter.new result }
    {
        let n = self.note.len();
        let mut to = Positions::empty();
        for m in from.members(0, n) {
            meter.pay(MEMBER)?;
            if cells::matches(self.tables, self.note, k, m) {
                to = to.with(m + 1);
                meter.reach(m + 1);
            }
        }
        Ok(to)
    }

    // Over nonterminal b, which place p faces.
    fn over_call(
        self,
        ws: &[u32],
        p: usize,
        from: Positions,
        b: usize,
        meter: &mut Meter,
    ) -> Result<Positions, Halt>
        requires { Passes self ws.now p from.words (Nonterminal b) }
        ensures { PassedBy self.entry ws.now p from.words meter.old meter.new result }
    {
        let n = self.note.len();
        let mut to = Positions::empty();
        for m in from.members(0, n) {
            meter.pay(MEMBER)?;
            let pair = Pair {
                nonterminal: b,
                position: m,
            };
            match self.known(ws, pair) {
                Reply::Unknown => return Err(Halt::Needs(pair)),
                Reply::Nowhere => {}
                Reply::Only(j) => to = to.with(j),
                Reply::Several => to = to.union(self.size.set_of(ws, pair)),
            }
        }
        Ok(to)
    }

    // From place f on, from each of the positions: where its production ends.
    pub fn walk(
        self,
        ws: &[u32],
        f: usize,
        from: Positions,
        meter: &mut Meter,
    ) -> Result<Positions, Halt>
        requires { WalksFrom self ws.now f from.words }
        ensures { WalkedBy self.entry ws.now f from.words meter.old meter.new result }
    {
        let mut x = from;
        let mut p = f;
        loop {
            let q = p;
            p += 1;
            match grammar::place_at(self.tables, q).symbol {
                Symbol::End => return Ok(x),
                Symbol::Token(k) => x = self.over_token(ws, q, x, k, meter)?,
                Symbol::Nonterminal(b) => x = self.over_call(ws, q, x, b, meter)?,
            }
        }
    }
}
