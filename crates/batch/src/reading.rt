// The notes of a batch, in order.
ghost use Rattle.std.specs.Prelude.{◌≡◌, ◌+◌, ◌/◌, ◌≤◌, length};
ghost use Rattle.std.proofs.lemmas.List.Edits.{sets};
ghost use Rattle.grammar.specs.inside.Tables.{grammar_in};
ghost use Rattle.derivation.specs.inside.Ready.{Ready};
ghost use Rattle.adaptive.specs.Calls.{call};
ghost use Rattle.quick.specs.inside.Replied.{replied, LongEnough};
ghost use Rattle.batch.specs.Batches.{answers_each};
ghost use Rattle.batch.specs.Contract.{batch_number, batch_place, SpaceKept, BatchDid};
ghost use Rattle.batch.specs.inside.Turns.{three_of, note_by, rest_of, Parted, AllRead};

use crate::answer::BatchRefusal;
use crate::parts::ANSWERS_EACH;
use gate::ReadingRefusal;
use number::Numbered;
use words::CacheRefusal;

// Number, place and count of a reading, from answer i on.
fn tell(answers: &mut [u64], i: usize, reading: Result<usize, ReadingRefusal>)
    requires { i + answers_each ≤ length answers.old }
    ensures { answers.new ≡ sets answers.old i (three_of reading) }
{
    answers[i] = reading.number() as u64;
    answers[i + 1] = reading.place() as u64;
    answers[i + 2] = reading.unwrap_or(0) as u64;
}

// One note by the tables of a sound grammar, over a cache that stands so to it.
fn read(
    tables: &[u16],
    note: &[u16],
    row: &mut [u16],
    cache: &mut [u32],
    ws: &mut [u32],
    standing: Result<(), CacheRefusal>,
) -> Result<usize, ReadingRefusal>
    requires { Ready tables.now × LongEnough standing cache.old }
    ensures { replied result row.new cache.new
        ≡ note_by standing (grammar_in tables.now) cache.old
        (call note.now row.old (length ws.old)) }
{
    gate::note_gate(tables, note, ws.len())?;
    quick::over(tables, note, row, cache, ws, standing, quick::AMPLE)
}

// The notes one after another: each over the cache as the one before it left it, and its part of the row begins where that one's ended.
fn read_all(
    tables: &[u16],
    tokens: &[u16],
    lengths: &[u16],
    answers: &mut [u64],
    row: &mut [u16],
    cache: &mut [u32],
    ws: &mut [u32],
    standing: Result<(), CacheRefusal>,
)
    requires { Parted tables.now tokens.now lengths.now answers.old row.old cache.old standing }
    ensures { AllRead cache.old (rest_of (note_by standing (grammar_in tables.now)) (length ws.old)
        (length row.old / length lengths.now) lengths.now tokens.now row.old cache.old)
        answers.new row.new cache.new }
{
    let part = row.len() / lengths.len();
    let mut from = 0;
    let mut at = 0;
    for (k, n) in lengths.iter().enumerate() {
        let to = from + usize::from(*n);
        let reading = read(
            tables,
            &tokens[from..to],
            &mut row[at..at + part],
            cache,
            ws,
            standing,
        );
        tell(answers, ANSWERS_EACH * k, reading);
        from = to;
        at += part;
    }
}

// Reads the notes of a truck over a cache that was begun for the grammar. What each note is answered, the row and the cache are those of quick readings made
// singly in that order, each with an equal part of the row and the whole working space; a note that is refused does not stop the next. Where the call is
// refused, answers, row, cache and working space are as they were.
pub fn batch(
    grammar: &[u8],
    tokens: &[u16],
    lengths: &[u16],
    answers: &mut [u64],
    row: &mut [u16],
    cache: &mut [u32],
    workspace: &mut [u32],
) -> Result<(), BatchRefusal>
    ensures { BatchDid grammar.now tokens.now lengths.now answers.old row.old
        (length workspace.old) cache.old (batch_number result) (batch_place result) answers.new row.new cache.new
        × SpaceKept (batch_number result) workspace.old workspace.new }
{
    let mut tables = [0u16; grammar::TABLE_WORDS];
    soundness::compile(grammar, &mut tables)?;
    if !crate::parts::fits(tokens, lengths, answers, row) {
        return Err(BatchRefusal::BadBatch);
    }
    let standing = words::stands(grammar, cache);
    read_all(
        &tables, tokens, lengths, answers, row, cache, workspace, standing,
    );
    Ok(())
}
