// The ends of a pair, added one by one, alternative by alternative.
ghost use Rattle.std.specs.Prelude.{◌≡◌, ◌≤◌, ◌<◌, length};
ghost use Rattle.filtering.specs.inside.Tags.{add, no_end};
ghost use Rattle.search.specs.inside.Trials.{told_by, EndsFit, Adds, AddedBy, AddedAllBy};

use crate::given::Search;
use crate::words::Tag;
use positions::Positions;

// The ends so far: a tag, and the set of all where it says that there are several.
#[derive(Clone, Copy)]
pub struct Ends {
    pub tag: Tag,
    pub set: Positions,
}

pub fn no_ends() -> Ends
    ensures { (told_by result ≡ no_end) × EndsFit result }
{
    Ends {
        tag: Tag::None,
        set: Positions::empty(),
    }
}

// One end more, j by alternative k.
fn add(ends: Ends, k: usize, j: usize) -> Ends
    requires { EndsFit ends × (j ≤ 128) × (k < 32) }
    ensures { (told_by result ≡ add (told_by ends) k j) × EndsFit result }
{
    let tag = ends.tag;
    match tag {
        Tag::None => Ends {
            tag: Tag::One(j, k, false),
            set: ends.set,
        },
        Tag::One(m, b, more) => {
            if m == j {
                return Ends {
                    tag: Tag::One(m, b, more || b != k),
                    set: ends.set,
                };
            }
            let set = Positions::empty().with(m);
            Ends {
                tag: Tag::Several,
                set: set.with(j),
            }
        }
        Tag::Several => Ends {
            tag: Tag::Several,
            set: ends.set.with(j),
        },
    }
}

impl<'a> Search<'a> {
    // The same if the token at j may follow a.
    pub fn add_allowed(self, ends: Ends, a: usize, k: usize, j: usize) -> Ends
        requires { Adds self ends a k × (j ≤ length self.note.now) }
        ensures { AddedBy self.entry ends a k j result × EndsFit result }
    {
        let t = derivation::token_at(self.note, j);
        if !first_follow::follows(self.masks, t, a) {
            return ends;
        }
        add(ends, k, j)
    }

    // The same of every member of a set, in rising order.
    pub fn add_all(self, ends: Ends, a: usize, k: usize, from: Positions) -> Ends
        requires { Adds self ends a k }
        ensures { AddedAllBy self.entry ends a k from.words result × EndsFit result }
    {
        let n = self.note.len();
        let mut r = ends;
        for m in from.members(0, n) {
            r = self.add_allowed(r, a, k, m);
        }
        r
    }
}
