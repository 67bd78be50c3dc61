// An alternative is taken without a set: its frame is a return place alone.
ghost use Rattle.std.specs.Prelude.{◌≡◌, suc, ◌+◌, ◌*◌, ◌≤◌, ◌<◌, min, length, set};
ghost use Rattle.derivation.specs.inside.Frames.{frame_words};

use machine::At;

// The topmost frame of an alternative that needed no set: its return place alone. How many sets stand after that.
pub fn push(ws: &mut [u32], base: usize, known: usize, at: At) -> usize
    requires { (base + frame_words * suc at.depth ≤ length ws.old) × (at.place < 4294967296) }
    ensures { (ws.new ≡ set ws.old (base + frame_words * at.depth) at.place) × (result ≡ min known at.depth) }
{
    ws[base + machine::frames::FRAME * at.depth] = base::word(at.place);
    known.min(at.depth)
}
