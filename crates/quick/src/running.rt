// The machine with the quick reading's choices.
ghost use Rattle.std.specs.Prelude.{◌≤◌, length};
ghost use Rattle.words.specs.Layout.{min_words};
ghost use Rattle.gate.specs.inside.Passing.{Admitted};
ghost use Rattle.serving.specs.inside.Aids.{Unbegun};
ghost use Rattle.quick.specs.inside.Run.{QuickRan};

use choosing::Predicting;
use serving::Stop;

// From nonterminal 0 over the end place on: at each nonterminal what is predicted, and where that is FULL the lowest alternative that serves.
pub fn run(
    tables: &[u16],
    note: &[u16],
    row: &mut [u16],
    masks: &mut [u32],
    tally: &mut [u32],
    cache: &mut [u32],
    ws: &mut [u32],
) -> Stop
    requires { Admitted tables.now note.now (length ws.old) × (min_words ≤ length cache.old) × Unbegun masks.old tally.old }
    ensures { QuickRan tables.now note.now row.old ws.old cache.old
        result row.new masks.new tally.new ws.new cache.new }
{
    let mut predicting = Predicting { cache };
    serving::run(tables, note, row, masks, tally, ws, &mut predicting)
}
