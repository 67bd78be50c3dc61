// The note as a whole: whether it is a sentence, and where it goes wrong if it is not, by ends on demand.
ghost use Rattle.std.specs.Prelude.{◌≡◌, ℕ, ◌≤◌, length};
ghost use Rattle.derivation.specs.Space.{max_tokens};
ghost use Rattle.derivation.specs.inside.Ready.{Ready};
ghost use Rattle.search.specs.inside.Searching.{Sized, Roomy};
ghost use Rattle.serving.specs.inside.Judging.{MayJudge, StartsFrom, StartedBy, Judges, tells_end};

use search::{Meter, Pair, Reply, Search};

// Whether it is, each with the place where a note that is none goes wrong; or the budget is out.
#[derive(Clone, Copy)]
pub enum Judged {
    Sentence(usize),
    Wrong(usize),
    Out,
}

// Works out the start symbol from the note's beginning on, unless that is done.
fn ask_start(search: Search, tally: &mut [u32], ws: &mut [u32])
    requires { StartsFrom search tally.old ws.old }
    ensures { StartedBy search.entry tally.old ws.old tally.new ws.new }
{
    let n = search.note.len();
    let start = Pair {
        nonterminal: 0,
        position: 0,
    };
    match search.known(ws, start) {
        Reply::Unknown => {
            let mut meter = crate::aids::meter(tally);
            match search.settle(ws, start, &mut meter) {
                Ok(()) => crate::aids::keep(tally, meter, n),
                Err(_) => {
                    let spent = Meter {
                        left: 0,
                        high: meter.high,
                    };
                    crate::aids::keep(tally, spent, n);
                }
            }
        }
        Reply::Nowhere => {}
        Reply::Only(_) => {}
        Reply::Several => {}
    }
}

// Whether the note's end is among the ends that a reply tells of the start symbol.
fn ends_note(search: Search, ws: &[u32], reply: Reply) -> bool
    requires { Ready search.tables.now × Sized search.tables.now search.note.now search.size × Roomy search.tables.now search.note.now ws.now
        × (length search.note.now ≤ max_tokens) }
    ensures { result ≡ tells_end search.entry.tables.now search.entry.note.now ws.now reply }
{
    let n = search.size.n;
    match reply {
        Reply::Unknown => false,
        Reply::Nowhere => false,
        Reply::Only(m) => n == m,
        Reply::Several => {
            let start = Pair {
                nonterminal: 0,
                position: 0,
            };
            let ends = search.size.set_of(ws, start);
            ends.has(n)
        }
    }
}

// The answer, and what is worked out for it stays.
pub fn judge(
    tables: &[u16],
    note: &[u16],
    masks: &mut [u32],
    tally: &mut [u32],
    ws: &mut [u32],
) -> Judged
    requires { (known : ℕ) × MayJudge tables.now note.now masks.old tally.old ws.old known }
    ensures { Judges tables.now note.now masks.old tally.old ws.old masks.new
        tally.new ws.new result }
{
    crate::aids::begin(tables, note, masks, tally, ws);
    if tally[0] < 2 {
        return Judged::Out;
    }
    let size = search::size_of(tables, note);
    let search = Search {
        tables,
        masks,
        note,
        size,
    };
    ask_start(search, tally, ws);
    if tally[0] < 2 {
        return Judged::Out;
    }
    let meter = crate::aids::meter(tally);
    let place = meter.high.min(note.len());
    let start = Pair {
        nonterminal: 0,
        position: 0,
    };
    let reply = search.known(ws, start);
    if ends_note(search, ws, reply) {
        return Judged::Sentence(place);
    }
    Judged::Wrong(place)
}
