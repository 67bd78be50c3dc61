// What is known of a pair.
ghost use Rattle.std.specs.Prelude.{◌≡◌, List, ℕ};
ghost use Rattle.filtering.specs.inside.Known.{told};
ghost use Rattle.search.specs.inside.Words.{tag_of};
ghost use Rattle.search.specs.inside.Searching.{reply_in, Asks, KnownBy};

use crate::given::Search;
use crate::words::{Pair, Tag};

// The ends of a pair, as far as they are known: not worked out; none; a single one; those of the set that stands for it.
#[derive(Clone, Copy, Debug, PartialEq, Eq)]
pub enum Reply {
    Unknown,
    Nowhere,
    Only(usize),
    Several,
}

// A tag as a reply.
fn told(tag: Tag) -> Reply
    ensures { (s : List ℕ) → reply_in s result ≡ told (tag_of tag s) }
{
    match tag {
        Tag::None => Reply::Nowhere,
        Tag::One(m, _, _) => Reply::Only(m),
        Tag::Several => Reply::Several,
    }
}

impl<'a> Search<'a> {
    // Where the productions of a pair end. Where the token there is none that its nonterminal starts with, that derives the empty row or nothing.
    pub fn known(self, ws: &[u32], pair: Pair) -> Reply
        requires { Asks self ws.now pair }
        ensures { KnownBy self.entry ws.now pair result }
    {
        let t = derivation::token_at(self.note, pair.position);
        if !first_follow::starts(self.masks, t, pair.nonterminal) {
            if first_follow::empty(self.masks, t, pair.nonterminal) {
                return Reply::Only(pair.position);
            }
            return Reply::Nowhere;
        }
        if !crate::words::is_done(ws, pair) {
            return Reply::Unknown;
        }
        told(self.size.tag_of(ws, pair))
    }
}
