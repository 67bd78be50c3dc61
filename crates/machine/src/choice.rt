// Which alternatives serve: by which the rest of the note can be derived with what is open.
ghost use Rattle.std.specs.Prelude.{◌≡◌, ◌<◌};
ghost use Rattle.cells.specs.inside.Chart.{Lent, Awaits};
ghost use Rattle.machine.specs.inside.Choice.{Leading, Numbered, lowest_in};

use positions::Positions;

// The members of `ends`, up to the note's end at n, from which place q derives up to a member of `rest`.
pub fn serving(
    ws: &[u32],
    places: usize,
    n: usize,
    ends: Positions,
    q: usize,
    rest: Positions,
) -> Positions
    requires { Lent places n ws.now × (q < places) }
    ensures { Leading places ws.now n ends.words q rest.words result.words }
{
    let mut r = Positions::empty();
    for m in ends.members(0, n) {
        if cells::cell(ws, places, q, m).meets(rest) {
            r = r.with(m);
        }
    }
    r
}

// The lowest alternative of a by which a position in s is come to from i, counted from 1.
pub fn lowest(tables: &[u16], ws: &[u32], a: usize, i: usize, s: Positions) -> Option<usize>
    requires { Awaits tables.now ws.now a i }
    ensures { Numbered result (λ r. r ≡ lowest_in tables.now ws.now a i s.words) }
{
    let places = grammar::size(tables);
    grammar::first_places(tables, a)
        .iter()
        .position(|f| cells::cell(ws, places, usize::from(*f), i).meets(s))
        .map(|k| k + 1)
}
