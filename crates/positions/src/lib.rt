// Sets of positions of a note, each below COUNT, as the bits of five words: by value, and in lent words. No proof above this crate sees a bit of them.
#![tactic(auto)]

ghost use Rattle.std.specs.Prelude.{◌≡◌, ◌+◌, ◌≤◌, ◌<◌, length};
ghost use Rattle.base.specs.Bits.{word_bits};
ghost use Rattle.positions.specs.inside.Positions.{position_count, set_words, empty_set, member, with_of, union_of, meets_of, opposite_of};
ghost use Rattle.positions.specs.inside.Positions.{Full};
ghost use Rattle.positions.specs.inside.Members.{LowestFrom, LeastFrom};
ghost use Rattle.positions.specs.inside.Words.{member_at, set_at, put_at, Joined};

// Words of a set. specs/Positions has the same.
pub const WORDS: usize = 5;

// Positions that a set can hold: no note has more.
pub const COUNT: usize = WORDS * base::WORD_BITS;

#[derive(Clone, Copy, PartialEq, Eq)]
pub struct Positions {
    pub words: [u32; WORDS],
}

impl Positions {
    pub fn empty() -> Self
        ensures { result.words ≡ empty_set }
    {
        Positions { words: [0; WORDS] }
    }

    // Whether j is a member.
    pub fn has(self, j: usize) -> bool
        requires { j < position_count }
        ensures { result ≡ member self.words j }
    {
        let i = j / base::WORD_BITS;
        base::has(self.words[i], j % base::WORD_BITS)
    }

    // The set with the member j.
    pub fn with(self, j: usize) -> Self
        requires { j < position_count }
        ensures { result.words ≡ with_of self.words j }
    {
        let mut s = self;
        let i = j / base::WORD_BITS;
        s.words[i] = base::with(s.words[i], j % base::WORD_BITS);
        s
    }

    // What is in one of the two sets or in both.
    pub fn union(self, o: Positions) -> Self
        ensures { result.words ≡ union_of self.words o.words }
    {
        Positions {
            words: [
                self.words[0] | o.words[0],
                self.words[1] | o.words[1],
                self.words[2] | o.words[2],
                self.words[3] | o.words[3],
                self.words[4] | o.words[4],
            ],
        }
    }

    // Whether the two sets share a member.
    pub fn meets(self, o: Positions) -> bool
        ensures { result ≡ meets_of self.words o.words }
    {
        (self.words[0] & o.words[0])
            | (self.words[1] & o.words[1])
            | (self.words[2] & o.words[2])
            | (self.words[3] & o.words[3])
            | (self.words[4] & o.words[4])
            != 0
    }

    // The least member from `from` on.
    pub fn least(self, from: usize) -> Option<usize>
        ensures { LeastFrom self.words from result }
    {
        let mut k = from % base::WORD_BITS;
        for w in from / base::WORD_BITS..WORDS {
            if let Some(bit) = from_bit(self.words[w], k) {
                return Some(w * base::WORD_BITS + bit);
            }
            k = 0;
        }
        None
    }

    // The positions that are no members.
    fn opposite(self) -> Self
        ensures { result.words ≡ opposite_of self.words }
    {
        Positions {
            words: [
                base::opposite(self.words[0]),
                base::opposite(self.words[1]),
                base::opposite(self.words[2]),
                base::opposite(self.words[3]),
                base::opposite(self.words[4]),
            ],
        }
    }

    // Whether every position from `from` up to n is a member.
    pub fn full(self, from: usize, n: usize) -> bool
        requires { n < position_count }
        ensures { Full result self.words from n }
    {
        self.opposite()
            .least(from)
            .is_none_or(|missing| n < missing)
    }

    // The members from `from` up to `last`, in rising order.
    pub fn members(self, from: usize, last: usize) -> Members
        ensures { result ≡ record { set = self; at = from; last = last } }
    {
        Members {
            set: self,
            at: from,
            last,
        }
    }
}

// The lowest bit of x from k on.
pub fn from_bit(x: u32, k: usize) -> Option<usize>
    requires { k < word_bits }
    ensures { LowestFrom x k result }
{
    let y = x >> k;
    if y == 0 {
        return None;
    }
    Some(k + base::number(u32::trailing_zeros(y)))
}

// The members of a set in rising order, from one position on up to another.
#[derive(Clone, Drop)]
pub struct Members {
    pub set: Positions,
    pub at: usize,
    pub last: usize,
}

impl Iterator for Members {
    ghost use Rattle.std.specs.Prelude.{◌-◌};
    ghost use Rattle.std.specs.Iterator.{at_most};
    ghost use Rattle.positions.specs.inside.Members.{Walks};

    type Item = usize;

    ghost next_gives = { Walks };

    ghost remaining = { λ it. at_most (position_count - it.at) };

    fn next(&mut self) -> Option<usize> {
        let m = self.set.least(self.at)?;
        if self.last < m {
            return None;
        }
        self.at = m + 1;
        Some(m)
    }
}

// The set that stands at `at`.
pub fn read(ws: &[u32], at: usize) -> Positions
    requires { at + set_words ≤ length ws.now }
    ensures { result.words ≡ set_at ws.now at }
{
    Positions {
        words: [ws[at], ws[at + 1], ws[at + 2], ws[at + 3], ws[at + 4]],
    }
}

// Whether the set that stands at `at` holds j: one word is read, not all.
pub fn holds(ws: &[u32], at: usize, j: usize) -> bool
    requires { (at + set_words ≤ length ws.now) × (j < position_count) }
    ensures { result ≡ member_at ws.now at j }
{
    base::has(ws[at + j / base::WORD_BITS], j % base::WORD_BITS)
}

// The set s, put at `at`.
pub fn put(ws: &mut [u32], at: usize, s: Positions)
    requires { at + set_words ≤ length ws.old }
    ensures { ws.new ≡ put_at ws.old at s.words }
{
    ws[at] = s.words[0];
    ws[at + 1] = s.words[1];
    ws[at + 2] = s.words[2];
    ws[at + 3] = s.words[3];
    ws[at + 4] = s.words[4];
}

// The members of s join the set that stands at `at`. Whether anything changed.
pub fn join(ws: &mut [u32], at: usize, s: Positions) -> bool
    requires { at + set_words ≤ length ws.old }
    ensures { Joined result ws.old ws.new at s.words }
{
    let old = read(ws, at);
    let new = old.union(s);
    if new == old {
        return false;
    }
    put(ws, at, new);
    true
}
