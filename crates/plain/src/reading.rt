// The plain reading: the gate, the note as a whole, the machine, and what follows from how it stops.
ghost use Rattle.std.specs.Prelude.{◌≡◌, length};
ghost use Rattle.grammar.specs.inside.Tables.{grammar_in};
ghost use Rattle.derivation.specs.Plain.{on_conclusion, read_note};
ghost use Rattle.gate.specs.Reading.{reading_number, reading_place, reading_count, answered};
ghost use Rattle.gate.specs.inside.Passing.{Admitted};
ghost use Rattle.machine.specs.inside.Ending.{outcome_in};
ghost use Rattle.plain.specs.inside.Run.{MayRun, PlainRan, Stopped};
ghost use Rattle.plain.specs.Contract.{PlainDid};

use crate::lowest::Lowest;
use gate::ReadingRefusal;
use machine::Conclusion;
use serving::{Judged, Stop};

// The machine from nonterminal 0 over the end place on: at each nonterminal the lowest alternative that serves.
fn run(
    tables: &[u16],
    note: &[u16],
    row: &mut [u16],
    masks: &mut [u32],
    tally: &mut [u32],
    ws: &mut [u32],
) -> Stop
    requires { MayRun tables.now note.now masks.old tally.old ws.old }
    ensures { PlainRan tables.now note.now row.old ws.old result row.new masks.new
        tally.new ws.new }
{
    serving::run(tables, note, row, masks, tally, ws, &mut Lowest)
}

// What follows from how it stopped: a sentence whose derivation the row does not hold is 14; else the cells decide.
fn finish(
    tables: &[u16],
    note: &[u16],
    row: &mut [u16],
    tally: &[u32],
    ws: &mut [u32],
    stop: Stop,
    sentence: bool,
) -> Result<usize, ReadingRefusal>
    requires { Stopped tables.now note.now row.old tally.now ws.old stop sentence }
    ensures { answered result row.new
        ≡ on_conclusion (grammar_in tables.now) note.now row.old (outcome_in stop.outcome row.old) }
{
    let outcome = stop.outcome;
    let stand = serving::standing(tally, stop.known);
    match outcome {
        Conclusion::Accepted(entries) => {
            base::clear_from(row, entries);
            Ok(entries)
        }
        Conclusion::Full => {
            if sentence {
                base::clear_from(row, 0);
                return Err(ReadingRefusal::ShortRow);
            }
            serving::fill_cells(tables, note, ws, stand);
            machine::finish(tables, note, row, ws, Conclusion::Full)
        }
        Conclusion::Stuck => {
            serving::fill_cells(tables, note, ws, stand);
            machine::finish(tables, note, row, ws, Conclusion::Stuck)
        }
    }
}

// The note, for which the gate was passed; a search spends `most` at most. Where ends on demand tell that it is no sentence, the machine does not run.
fn read(
    tables: &[u16],
    note: &[u16],
    row: &mut [u16],
    ws: &mut [u32],
    most: u32,
) -> Result<usize, ReadingRefusal>
    requires { Admitted tables.now note.now (length ws.old) }
    ensures { answered result row.new ≡ read_note (grammar_in tables.now) note.now row.old }
{
    let mut masks = [0u32; first_follow::MASK_WORDS];
    let mut tally = [0u32; serving::TALLY];
    serving::allow(&mut tally, most);
    let judged = serving::judge(tables, note, &mut masks, &mut tally, ws);
    match judged {
        Judged::Wrong(place) => {
            base::clear_from(row, 0);
            Err(ReadingRefusal::NoSentence(place))
        }
        Judged::Sentence(_) => {
            let stop = run(tables, note, row, &mut masks, &mut tally, ws);
            finish(tables, note, row, &tally, ws, stop, true)
        }
        Judged::Out => {
            let stop = run(tables, note, row, &mut masks, &mut tally, ws);
            finish(tables, note, row, &tally, ws, stop, false)
        }
    }
}

// The same reading with a search that spends `most` at most: no answer depends on it.
pub fn within(
    grammar: &[u8],
    note: &[u16],
    row: &mut [u16],
    workspace: &mut [u32],
    most: u32,
) -> Result<usize, ReadingRefusal>
    ensures { PlainDid grammar.now note.now row.old (length workspace.old)
        (reading_number result) (reading_place result) (reading_count result) row.new }
{
    let mut tables = [0u16; grammar::TABLE_WORDS];
    gate::pass(grammar, note, workspace.len(), &mut tables)?;
    read(&tables, note, row, workspace, most)
}

// Reads a note plainly. The row then holds the derivation and zeros behind it; after 10 and 14 it is all zeros; after any other refusal it is as it was.
pub fn plain(
    grammar: &[u8],
    note: &[u16],
    row: &mut [u16],
    workspace: &mut [u32],
) -> Result<usize, ReadingRefusal>
    ensures { PlainDid grammar.now note.now row.old (length workspace.old)
        (reading_number result) (reading_place result) (reading_count result) row.new }
{
    within(grammar, note, row, workspace, serving::AMPLE)
}
