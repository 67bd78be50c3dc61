// Marks of open frames: a position from which a frame and all below it derive the rest of the note, in the word behind the return place. The lowest
// `known` frames have one.
ghost use Rattle.std.specs.Prelude.{◌≡◌, suc, ◌+◌, ◌*◌, ◌≤◌, ◌<◌, length};
ghost use Rattle.derivation.specs.inside.Frames.{frame_words};
ghost use Rattle.opening.specs.inside.Marks.{meets_of, mark_if_new, holds_of};

use positions::Positions;

// The open frames from word `base` on, and how many of them have marks.
#[derive(Clone, Copy, Debug, PartialEq, Eq)]
pub struct Frames {
    pub base: usize,
    pub depth: usize,
    pub known: usize,
}

impl Frames {
    // Frame k is come to at position j: whether its mark says that it leads to the end from there. A frame that has no mark gets this one.
    pub fn meets(self, ws: &mut [u32], k: usize, j: usize) -> bool
        requires { (self.base + frame_words * suc k ≤ length ws.old) × (j < 4294967296) }
        ensures { (result ≡ meets_of ws.old self.base self.known k j) × (ws.new ≡ mark_if_new ws.old self.base self.known k j) }
    {
        let at = self.base + machine::frames::FRAME * k + 1;
        if k < self.known {
            return base::number(ws[at]) == j;
        }
        ws[at] = base::word(j);
        false
    }

    // Frame k is come to at some of the positions of a set: whether its mark is among them. Nothing is marked.
    pub fn among(self, ws: &[u32], k: usize, x: Positions) -> bool
        requires { self.base + frame_words * suc k ≤ length ws.now }
        ensures { result ≡ holds_of ws.now self.base self.known k x.words }
    {
        if self.known <= k {
            return false;
        }
        let m = base::number(ws[self.base + machine::frames::FRAME * k + 1]);
        if positions::COUNT <= m {
            return false;
        }
        x.has(m)
    }
}
