// What the search keeps, in the words that hold the cells where the whole table is worked out: for each position the set of nonterminals of which the
// pair is worked out; a tag for each pair; a set of positions for each, read only where the tag says that there are several ends; and the pairs that wait.
// Only the first of these are cleared: nothing else is read of a pair that is not worked out.
ghost use Rattle.std.specs.Prelude.{◌≡◌, false, cond, ℕ, suc, ◌+◌, ◌*◌, ◌≤◌, ◌<◌, leb, length, get_or, set};
ghost use Rattle.base.specs.Bits.{test_bit};
ghost use Rattle.grammar.specs.Limits.{max_nonterminals};
ghost use Rattle.grammar.specs.inside.Tables.{grammar_in, nonterminals_in, table_words};
ghost use Rattle.positions.specs.inside.Positions.{set_words};
ghost use Rattle.positions.specs.inside.Words.{set_at};
ghost use Rattle.filtering.specs.inside.Settling.{Stored};
ghost use Rattle.search.specs.inside.Words.{pair_at, tag_at, pair_set, waits_at, pair_count, per_alternative, second_bit, tag_from};
ghost use Rattle.search.specs.inside.Words.{TagFits, tag_of};
ghost use Rattle.search.specs.inside.Words.{done_in, state_in, Kept};
ghost use Rattle.search.specs.inside.Places.{Small, PairOf, Placed, Room, pair_in};
ghost use Rattle.search.specs.inside.Searching.{Sized};

use positions::Positions;

// What places in the words depend on: the note's length, and how many nonterminals there are.
#[derive(Clone, Copy)]
pub struct Size {
    pub n: usize,
    pub nonterminals: usize,
}

// A nonterminal, and the position of the note at which its productions begin.
#[derive(Clone, Copy, Debug, PartialEq, Eq)]
pub struct Pair {
    pub nonterminal: usize,
    pub position: usize,
}

// What is known of the ends of a pair: there is none; a single one, with the lowest alternative that gives it, and whether another one does too; several.
#[derive(Clone, Copy)]
pub enum Tag {
    None,
    One(usize, usize, bool),
    Several,
}

// A tag in a word: the end and 1, then the alternative, then whether there is a second one. specs/Words has the same.
const ALTERNATIVES: usize = 256;

const SECOND: usize = 8192;

const SEVERAL: usize = 255;

pub fn size_of(tables: &[u16], note: &[u16]) -> Size
    requires { length tables.now ≡ table_words }
    ensures { Sized tables.now note.now result }
{
    Size {
        n: note.len(),
        nonterminals: grammar::nonterminals(tables),
    }
}

// Whether the words of the cells, five for each place and position, are enough: all but grammars of hardly more places than nonterminals.
pub fn fits(tables: &[u16]) -> bool
    requires { length tables.now ≡ table_words }
    ensures { result ≡ leb (suc (7 * nonterminals_in tables.now)) (set_words * (grammar_in tables.now).size) }
{
    7 * grammar::nonterminals(tables) + 1 <= positions::WORDS * grammar::size(tables)
}

// Whether a pair is worked out.
pub fn is_done(ws: &[u32], pair: Pair) -> bool
    requires { (pair.position < length ws.now) × (pair.nonterminal < max_nonterminals) }
    ensures { result ≡ test_bit (get_or ws.now pair.position 0) pair.nonterminal }
{
    base::has(ws[pair.position], pair.nonterminal)
}

// The tag of a word.
fn tag_in(word: u32) -> Tag
    ensures { result ≡ tag_from word }
{
    let w = base::number(word);
    let e = w % ALTERNATIVES;
    if e == 0 {
        return Tag::None;
    }
    if e == SEVERAL {
        return Tag::Several;
    }
    Tag::One(e - 1, w / ALTERNATIVES % 32, SECOND <= w)
}

fn second(more: bool) -> usize
    ensures { result ≡ cond more second_bit 0 }
{
    if more { SECOND } else { 0 }
}

// The word of a tag.
fn tag_word(tag: Tag) -> u32
    requires { TagFits tag }
    ensures { tag_from result ≡ tag }
{
    match tag {
        Tag::None => 0,
        Tag::One(m, b, more) => base::word(m + 1 + ALTERNATIVES * b + second(more)),
        Tag::Several => base::word(SEVERAL),
    }
}

impl Size {
    // No pair is worked out.
    pub fn clear(self, ws: &mut [u32])
        requires { self.n < length ws.old }
        ensures { Kept (suc self.n) ws.old ws.new × ((a i : ℕ) → done_in self.nonterminals self.n ws.new a i ≡ false) }
    {
        ws[..=self.n].fill(0);
    }

    // The number of a pair.
    fn number(self, pair: Pair) -> usize
        requires { PairOf self pair }
        ensures { result ≡ pair_at self.nonterminals pair.nonterminal pair.position }
    {
        pair.position * self.nonterminals + pair.nonterminal
    }

    // Where its tag stands.
    fn tag_at(self, pair: Pair) -> usize
        requires { PairOf self pair }
        ensures { result ≡ tag_at self.nonterminals self.n pair.nonterminal pair.position }
    {
        self.n + 1 + self.number(pair)
    }

    // Where its set stands.
    fn set_at(self, pair: Pair) -> usize
        requires { PairOf self pair }
        ensures { result ≡ pair_set self.nonterminals self.n pair.nonterminal pair.position }
    {
        (self.n + 1) * (self.nonterminals + 1) + positions::WORDS * self.number(pair)
    }

    // Where the pairs that wait begin.
    fn waits_at(self) -> usize
        requires { Small self }
        ensures { result ≡ waits_at self.nonterminals self.n }
    {
        (self.n + 1) * (6 * self.nonterminals + 1)
    }

    // The tag that stands for a pair.
    pub fn tag_of(self, ws: &[u32], pair: Pair) -> Tag
        requires { Placed self pair ws.now }
        ensures { result ≡ tag_from (get_or ws.now (tag_at self.nonterminals self.n pair.nonterminal pair.position) 0) }
    {
        tag_in(ws[self.tag_at(pair)])
    }

    // The set that stands for it.
    pub fn set_of(self, ws: &[u32], pair: Pair) -> Positions
        requires { Placed self pair ws.now }
        ensures { result.words ≡ set_at ws.now (pair_set self.nonterminals self.n pair.nonterminal pair.position) }
    {
        positions::read(ws, self.set_at(pair))
    }

    // A pair is worked out: its tag, and its set if there are several ends.
    pub fn store(self, ws: &mut [u32], pair: Pair, tag: Tag, ends: Positions)
        requires { Placed self pair ws.old × TagFits tag }
        ensures { Kept (waits_at self.nonterminals self.n) ws.old ws.new
            × Stored (state_in self.nonterminals self.n ws.old) pair.nonterminal pair.position (tag_of tag ends.words)
            (state_in self.nonterminals self.n ws.new) }
    {
        ws[self.tag_at(pair)] = tag_word(tag);
        ws[pair.position] = base::with(ws[pair.position], pair.nonterminal);
        match tag {
            Tag::None => {}
            Tag::One(_, _, _) => {}
            Tag::Several => positions::put(ws, self.set_at(pair), ends),
        }
    }

    // A pair waits as the k-th.
    pub fn put_wait(self, ws: &mut [u32], k: usize, pair: Pair)
        requires { Placed self pair ws.old × (k < pair_count self.nonterminals self.n) }
        ensures { ws.new ≡ set ws.old (waits_at self.nonterminals self.n + k) (pair.position * per_alternative + pair.nonterminal) }
    {
        ws[self.waits_at() + k] = base::word(pair.position * ALTERNATIVES + pair.nonterminal);
    }

    // The k-th pair that waits.
    pub fn wait_of(self, ws: &[u32], k: usize) -> Pair
        requires { Small self × Room self ws.now × (k < pair_count self.nonterminals self.n) }
        ensures { result ≡ pair_in (get_or ws.now (waits_at self.nonterminals self.n + k) 0) }
    {
        let w = base::number(ws[self.waits_at() + k]);
        Pair {
            nonterminal: w % ALTERNATIVES,
            position: w / ALTERNATIVES,
        }
    }
}
