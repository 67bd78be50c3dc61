// What a reading has worked out to choose by: nothing yet; ends on demand, as long as their budget lasts; or the derivation cells. It stands in a tally of two
// words: the budget that is left, and 1, or 0 where no search has begun, so that 1 says that the budget is out; and how far into the note the search came, or,
// before it has begun, the most that it may spend.
ghost use Rattle.std.specs.Prelude.{◌≡◌, suc, ◌+◌, ◌-◌, ◌≤◌, ◌<◌, min, length};
ghost use Rattle.serving.specs.inside.Aids.{tally_words, MayBegin, Begun, budget_in, high_in, tally_of, units_of, sets_of};

use search::Meter;

// Words of a tally. specs/Aids has the same.
pub const TALLY: usize = 2;

// More than any search spends.
pub const AMPLE: u32 = 65536;

// The units of work that a reading may spend on ends on demand: one for each alternative that is tried and each frame that is gone down, four for a position
// of a set. Delivery notes take some six a token; what takes more than this is mostly done faster by the cells.
fn units(places: usize, n: usize) -> usize
    requires { (places ≤ 255) × (n ≤ 128) }
    ensures { result ≡ units_of places n }
{
    128 + (8 + places / 12) * (n + 1)
}

// No search has begun, and one may spend so much at most. No answer depends on it.
pub fn allow(tally: &mut [u32], most: u32)
    requires { length tally.old ≡ tally_words }
    ensures { tally.new ≡ tally_of 0 most }
{
    tally[0] = 0;
    tally[1] = most;
}

// What is left of the budget, and how far the search came.
pub fn meter(tally: &[u32]) -> Meter
    requires { length tally.now ≡ tally_words }
    ensures { (result.left ≡ budget_in tally.now - 1) × (result.high ≡ high_in tally.now) }
{
    let budget = base::number(tally[0]);
    if budget == 0 {
        return Meter {
            left: 0,
            high: base::number(tally[1]),
        };
    }
    Meter {
        left: budget - 1,
        high: base::number(tally[1]),
    }
}

// Keeps both. No position behind the end mark is come to, so that what is kept fits a word.
pub fn keep(tally: &mut [u32], meter: Meter, n: usize)
    requires { (length tally.old ≡ tally_words) × (meter.left < 65536) × (n ≤ 128) }
    ensures { tally.new ≡ tally_of (suc meter.left) (min meter.high (n + 1)) }
{
    tally[0] = base::word(meter.left + 1);
    tally[1] = base::word(meter.high.min(n + 1));
}

// Begins the search, unless one has begun: FIRST and FOLLOW, and no pair worked out. Where the words of the cells are not enough for it, its budget is out
// at once.
pub fn begin(tables: &[u16], note: &[u16], masks: &mut [u32], tally: &mut [u32], ws: &mut [u32])
    requires { MayBegin tables.now note.now masks.old tally.old ws.old }
    ensures { Begun tables.now note.now masks.old tally.old ws.old
        masks.new tally.new ws.new }
{
    if tally[0] != 0 {
        return;
    }
    if !search::fits(tables) {
        tally[0] = 1;
        return;
    }
    first_follow::mark(tables, masks);
    search::size_of(tables, note).clear(ws);
    let left = units(grammar::size(tables), note.len()).min(base::number(tally[1]));
    keep(tally, Meter { left, high: 0 }, note.len());
}

// Of how many open frames the sets stand, where `known` have marks or sets.
pub fn standing(tally: &[u32], known: usize) -> usize
    requires { length tally.now ≡ tally_words }
    ensures { result ≡ sets_of tally.now known }
{
    if tally[0] == 1 { known } else { 0 }
}
