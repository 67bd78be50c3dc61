// The sets of open frames that hold only return places so far, made right where they can be asked from a place at a position.
ghost use Rattle.serving.specs.inside.Sets.{Framed, AskedDown, ServedUp, Settling, SetsSettled};

use machine::{At, Space};
use positions::Positions;

// From the topmost of `depth` frames down to frame `known`: into its set the positions at which it can be asked, where the topmost is asked at `asked`.
fn ask_down(ws: &mut [u32], space: Space, n: usize, known: usize, depth: usize, asked: Positions)
    requires { Framed space.places n space.base known depth ws.old }
    ensures { AskedDown space.places n space.base known depth asked.words ws.old ws.new }
{
    let mut s = asked;
    for k in (known..depth).rev() {
        machine::frames::put_rest(ws, space.base, k, s);
        let q = machine::frames::return_place(ws, space.base, k);
        s = cells::onward(ws, space.places, n, s, Positions::empty(), 0, q);
    }
}

// From frame `known` up to the topmost of `depth` frames: of its set the positions from which it can end in the set below.
fn serve_up(ws: &mut [u32], space: Space, n: usize, known: usize, depth: usize)
    requires { Framed space.places n space.base known depth ws.old }
    ensures { ServedUp space.places n space.base known depth ws.old ws.new }
{
    for k in known..depth {
        let asked = machine::frames::rest(ws, space.base, k);
        let q = machine::frames::return_place(ws, space.base, k);
        let below = machine::frames::rest(ws, space.base, k - 1);
        let r = machine::choice::serving(ws, space.places, n, asked, q, below);
        machine::frames::put_rest(ws, space.base, k, r);
    }
}

// The sets of the lowest `known` frames are right where they can be asked from where the machine stands, and now all are.
pub fn settle(tables: &[u16], note: &[u16], ws: &mut [u32], space: Space, known: usize, at: At)
    requires { Settling tables.now note.now ws.old space known at }
    ensures { SetsSettled tables.now note.now ws.old ws.new known at.depth at.place at.position }
{
    let n = note.len();
    let asked = cells::cell(ws, space.places, at.place, at.position);
    ask_down(ws, space, n, known, at.depth, asked);
    serve_up(ws, space, n, known, at.depth);
}
