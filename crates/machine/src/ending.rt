// How a reading ends: the machine's outcome as an answer, with the row that belongs to it.
ghost use Rattle.std.specs.Prelude.{◌≡◌};
ghost use Rattle.grammar.specs.inside.Tables.{grammar_in};
ghost use Rattle.derivation.specs.Plain.{sentence?, clear, on_conclusion};
ghost use Rattle.derivation.specs.ReachRounds.{wrong_place};
ghost use Rattle.gate.specs.Reading.{answered};
ghost use Rattle.reach.specs.inside.Passes.{Given};
ghost use Rattle.machine.specs.inside.Ending.{outcome_in, Counted};

use gate::ReadingRefusal;
use positions::Positions;

// How the machine stops: with so many entries of the row written; where nothing fits; where the row is full and a nonterminal waits.
#[derive(Clone, Copy)]
pub enum Conclusion {
    Accepted(usize),
    Stuck,
    Full,
}

// Whether the note is a sentence.
fn is_sentence(tables: &[u16], note: &[u16], ws: &[u32]) -> bool
    requires { Given tables.now note.now ws.now }
    ensures { result ≡ sentence? (grammar_in tables.now) note.now }
{
    let s = Positions::empty().with(note.len());
    crate::choice::lowest(tables, ws, 0, 0, s).is_some()
}

// No sentence: zeros, and the place where the note goes wrong.
fn no_sentence(
    tables: &[u16],
    note: &[u16],
    row: &mut [u16],
    ws: &[u32],
) -> Result<usize, ReadingRefusal>
    requires { Given tables.now note.now ws.now }
    ensures { answered result row.new ≡ clear 10 (wrong_place (grammar_in tables.now) note.now) row.old }
{
    base::clear_from(row, 0);
    let wrong = reach::wrong_place(tables, note, ws);
    Err(ReadingRefusal::NoSentence(wrong))
}

// What follows from how the machine stopped: where the row was full, the note alone decides between 10 and 14.
pub fn finish(
    tables: &[u16],
    note: &[u16],
    row: &mut [u16],
    ws: &[u32],
    outcome: Conclusion,
) -> Result<usize, ReadingRefusal>
    requires { Given tables.now note.now ws.now × Counted outcome row.old }
    ensures { answered result row.new
        ≡ on_conclusion (grammar_in tables.now) note.now row.old (outcome_in outcome row.old) }
{
    match outcome {
        Conclusion::Accepted(entries) => {
            base::clear_from(row, entries);
            Ok(entries)
        }
        Conclusion::Stuck => no_sentence(tables, note, row, ws),
        Conclusion::Full => {
            if is_sentence(tables, note, ws) {
                base::clear_from(row, 0);
                return Err(ReadingRefusal::ShortRow);
            }
            no_sentence(tables, note, row, ws)
        }
    }
}
