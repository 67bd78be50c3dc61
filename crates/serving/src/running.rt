// The machine, whatever chooses where a nonterminal waits.
ghost use Rattle.std.specs.Prelude.{◌≡◌, List, ℕ, length};
ghost use Rattle.grammar.specs.Limits.{end_place};
ghost use Rattle.grammar.specs.inside.Tables.{grammar_in};
ghost use Rattle.derivation.specs.Runs.{marked};
ghost use Rattle.derivation.specs.Machine.{Chooser, reading};
ghost use Rattle.machine.specs.inside.Choice.{Numbered};
ghost use Rattle.machine.specs.inside.Space.{opened};
ghost use Rattle.serving.specs.inside.Aids.{MayServe};
ghost use Rattle.serving.specs.inside.Running.{MayGo, Picked, Halted};

use crate::picking::Pick;
use machine::{At, Conclusion, Space, Turn};

// How the machine stopped, and of how many open frames marks or sets stood.
#[derive(Clone, Copy)]
pub struct Stop {
    pub outcome: Conclusion,
    pub known: usize,
}

// What chooses where a nonterminal waits.
pub trait Choose {
    // The state that a chooser of the definitions carries, that chooser for tables and a note, and the state that this one stands for.
    ghost State: { Type 0 };

    ghost chooser: { List ℕ → List ℕ → Chooser State };

    ghost state: { Self → State };

    // What it keeps all along, of tables, note, masks, tally and working space; and what it knows besides where nonterminal a waits at position i, over d
    // frames and its return place q: of tables, note, tally, working space, d, q, a and i.
    ghost keeps: { Self → List ℕ → List ℕ → List ℕ → List ℕ → List ℕ → Type 0 };

    ghost knows: { List ℕ → List ℕ → List ℕ → List ℕ → ℕ → ℕ → ℕ → ℕ → Type 0 };

    // What stays the same of it, whatever it chooses.
    ghost Same: { Type 0 };

    ghost same: { Self → Same };

    // Nonterminal a waits: what is taken, and its return place as frame at.depth.
    fn choose(
        &mut self,
        tables: &[u16],
        note: &[u16],
        masks: &mut [u32],
        tally: &mut [u32],
        ws: &mut [u32],
        space: Space,
        known: usize,
        at: At,
        a: usize,
    ) -> Pick
        requires { MayServe tables.now note.now masks.old tally.old ws.old space known at a
            × keeps self.old tables.now note.now masks.old tally.old ws.old
            × knows tables.now note.now tally.old ws.old at.depth at.place a at.position }
        ensures { (same self.new ≡ same self.old)
            × Numbered result.alternative (Picked tables.now note.now
            (chooser tables.now note.now (state self.old) (opened tables.now note.now ws.old at.depth at.place) a at.position)
            (state self.new) (keeps self.new tables.now note.now masks.new tally.new ws.new)
            (knows tables.now note.now tally.new ws.new) ws.old masks.new tally.new ws.new
            at.depth at.place a at.position result.known) };
}

// From nonterminal 0 over the end place on: at each nonterminal what is chosen.
pub fn run<C: Choose>(
    tables: &[u16],
    note: &[u16],
    row: &mut [u16],
    masks: &mut [u32],
    tally: &mut [u32],
    ws: &mut [u32],
    by: &mut C,
) -> Stop
    requires { MayGo tables.now note.now masks.old tally.old ws.old
        × C.keeps by.old tables.now note.now masks.old tally.old ws.old
        × C.knows tables.now note.now tally.old ws.old 0 end_place 0 0 }
    ensures { (C.same by.new ≡ C.same by.old)
        × Halted (reading (grammar_in tables.now) (marked note.now) (C.chooser tables.now note.now) (length row.old) (C.state by.old))
        (C.state by.new) (C.keeps by.new tables.now note.now masks.new tally.new ws.new)
        tables.now note.now row.old ws.old result row.new masks.new tally.new ws.new }
{
    let space = machine::space_of(tables, note);
    let mut count = 0;
    let mut known = 0;
    let mut a = 0;
    let mut at = At {
        place: grammar::END_PLACE,
        position: 0,
        depth: 0,
    };
    loop {
        if count == row.len() {
            return Stop {
                outcome: Conclusion::Full,
                known,
            };
        }
        let pick = by.choose(tables, note, masks, tally, ws, space, known, at, a);
        known = pick.known;
        let Some(b) = pick.alternative else {
            return Stop {
                outcome: Conclusion::Stuck,
                known,
            };
        };
        row[count] = base::narrow(b);
        count += 1;
        match machine::enter(tables, note, ws, space.base, at, a, b) {
            Turn::Ended => {
                return Stop {
                    outcome: Conclusion::Accepted(count),
                    known,
                };
            }
            Turn::Stuck => {
                return Stop {
                    outcome: Conclusion::Stuck,
                    known,
                };
            }
            Turn::Calls(next, called) => {
                at = next;
                a = called;
            }
        }
    }
}
