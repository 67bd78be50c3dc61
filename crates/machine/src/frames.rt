// What is still open, in the working space behind the cells: frames of six words, the return place, and the positions from which it and all frames
// below derive the rest of the note.
ghost use Rattle.std.specs.Prelude.{◌≡◌, suc, ◌+◌, ◌*◌, ◌≤◌, ◌<◌, length, get_or};
ghost use Rattle.positions.specs.inside.Words.{set_at, put_at};
ghost use Rattle.derivation.specs.inside.Frames.{frame_words};
ghost use Rattle.machine.specs.inside.Frames.{push_of};

use positions::Positions;

// Words of a frame.
pub const FRAME: usize = 6;

// Where frame k of the frames that begin at `base` returns to.
pub fn return_place(ws: &[u32], base: usize, k: usize) -> usize
    requires { base + frame_words * suc k ≤ length ws.now }
    ensures { result ≡ get_or ws.now (base + frame_words * k) 0 }
{
    base::number(ws[base + FRAME * k])
}

// The positions from which frame k and all below it derive the rest.
pub fn rest(ws: &[u32], base: usize, k: usize) -> Positions
    requires { base + frame_words * suc k ≤ length ws.now }
    ensures { result.words ≡ set_at ws.now (base + frame_words * k + 1) }
{
    positions::read(ws, base + FRAME * k + 1)
}

// The set of frame k becomes s.
pub fn put_rest(ws: &mut [u32], base: usize, k: usize, s: Positions)
    requires { base + frame_words * suc k ≤ length ws.old }
    ensures { ws.new ≡ put_at ws.old (base + frame_words * k + 1) s.words }
{
    positions::put(ws, base + FRAME * k + 1, s);
}

// Frame k: return place q, and the positions s.
pub fn push(ws: &mut [u32], base: usize, k: usize, q: usize, s: Positions)
    requires { (base + frame_words * suc k ≤ length ws.old) × (q < 4294967296) }
    ensures { ws.new ≡ push_of ws.old base k q s.words }
{
    ws[base + FRAME * k] = base::word(q);
    put_rest(ws, base, k, s);
}
