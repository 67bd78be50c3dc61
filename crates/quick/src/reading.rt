// The quick reading: the gate, the refusals of the cache, the machine over it, and what follows from how it stops.
ghost use Rattle.std.specs.Prelude.{◌≡◌, ◌≤◌, length};
ghost use Rattle.grammar.specs.inside.Tables.{grammar_in};
ghost use Rattle.derivation.specs.Plain.{clear, on_conclusion};
ghost use Rattle.words.specs.Layout.{min_words};
ghost use Rattle.gate.specs.Reading.{reading_number, reading_place, reading_count, answered};
ghost use Rattle.gate.specs.inside.Passing.{Admitted};
ghost use Rattle.machine.specs.inside.Ending.{outcome_in};
ghost use Rattle.serving.specs.inside.Judging.{MayJudge};
ghost use Rattle.quick.specs.inside.Run.{Stopped, stop_of};
ghost use Rattle.quick.specs.inside.Replied.{replied, note_reply, cache_refused, LongEnough, over_standing};
ghost use Rattle.quick.specs.Contract.{QuickDid};

use gate::ReadingRefusal;
use machine::Conclusion;
use serving::{Judged, Stop};
use words::CacheRefusal;

// No sentence: zeros, and the place where the note goes wrong.
fn wrong(row: &mut [u16], place: usize) -> Result<usize, ReadingRefusal>
    ensures { answered result row.new ≡ clear 10 place row.old }
{
    base::clear_from(row, 0);
    Err(ReadingRefusal::NoSentence(place))
}

// The machine stopped before the note was accepted: the note as a whole decides between 10 and 14 and tells the place.
fn refuse(
    tables: &[u16],
    note: &[u16],
    row: &mut [u16],
    masks: &mut [u32],
    tally: &mut [u32],
    ws: &mut [u32],
    known: usize,
    full: bool,
) -> Result<usize, ReadingRefusal>
    requires { MayJudge tables.now note.now masks.old tally.old ws.old known }
    ensures { answered result row.new
        ≡ on_conclusion (grammar_in tables.now) note.now row.old (stop_of full) }
{
    let stand = serving::standing(tally, known);
    let judged = serving::judge(tables, note, masks, tally, ws);
    match judged {
        Judged::Wrong(place) => wrong(row, place),
        Judged::Sentence(place) => {
            if full {
                base::clear_from(row, 0);
                return Err(ReadingRefusal::ShortRow);
            }
            wrong(row, place)
        }
        Judged::Out => {
            serving::fill_cells(tables, note, ws, stand);
            if full {
                return machine::finish(tables, note, row, ws, Conclusion::Full);
            }
            machine::finish(tables, note, row, ws, Conclusion::Stuck)
        }
    }
}

// What follows from how the machine stopped.
fn finish(
    tables: &[u16],
    note: &[u16],
    row: &mut [u16],
    masks: &mut [u32],
    tally: &mut [u32],
    ws: &mut [u32],
    stop: Stop,
) -> Result<usize, ReadingRefusal>
    requires { Stopped tables.now note.now row.old masks.old tally.old ws.old stop }
    ensures { answered result row.new
        ≡ on_conclusion (grammar_in tables.now) note.now row.old (outcome_in stop.outcome row.old) }
{
    let outcome = stop.outcome;
    match outcome {
        Conclusion::Accepted(entries) => {
            base::clear_from(row, entries);
            Ok(entries)
        }
        Conclusion::Stuck => refuse(tables, note, row, masks, tally, ws, stop.known, false),
        Conclusion::Full => refuse(tables, note, row, masks, tally, ws, stop.known, true),
    }
}

// The note, for which the gate was passed, over a begun cache; a search spends `most` at most.
fn read(
    tables: &[u16],
    note: &[u16],
    row: &mut [u16],
    cache: &mut [u32],
    ws: &mut [u32],
    most: u32,
) -> Result<usize, ReadingRefusal>
    requires { Admitted tables.now note.now (length ws.old) × (min_words ≤ length cache.old) }
    ensures { replied result row.new cache.new
        ≡ note_reply (grammar_in tables.now) note.now row.old cache.old }
{
    let mut masks = [0u32; first_follow::MASK_WORDS];
    let mut tally = [0u32; serving::TALLY];
    serving::allow(&mut tally, most);
    let stop = crate::running::run(tables, note, row, &mut masks, &mut tally, cache, ws);
    finish(tables, note, row, &mut masks, &mut tally, ws, stop)
}

// 12 and 13, as a reading answers them.
fn refused(refusal: CacheRefusal) -> ReadingRefusal
    ensures { result ≡ cache_refused refusal }
{
    match refusal {
        CacheRefusal::Short => ReadingRefusal::ShortCache,
        CacheRefusal::Foreign => ReadingRefusal::ForeignCache,
    }
}

// A note that passed the gate, over a cache that stands so to the grammar: 12, 13, or the reading, with a search that spends `most` at most.
pub fn over(
    tables: &[u16],
    note: &[u16],
    row: &mut [u16],
    cache: &mut [u32],
    ws: &mut [u32],
    standing: Result<(), CacheRefusal>,
    most: u32,
) -> Result<usize, ReadingRefusal>
    requires { Admitted tables.now note.now (length ws.old) × LongEnough standing cache.old }
    ensures { replied result row.new cache.new
        ≡ over_standing standing (grammar_in tables.now) note.now row.old cache.old }
{
    if let Err(refusal) = standing {
        return Err(refused(refusal));
    }
    read(tables, note, row, cache, ws, most)
}

// The quick reading with a search that spends `most` at most: no answer depends on it, nor does what is learned.
pub fn within(
    grammar: &[u8],
    note: &[u16],
    row: &mut [u16],
    cache: &mut [u32],
    workspace: &mut [u32],
    most: u32,
) -> Result<usize, ReadingRefusal>
    ensures { QuickDid grammar.now note.now row.old (length workspace.old) cache.old
        (reading_number result) (reading_place result) (reading_count result) row.new cache.new }
{
    let mut tables = [0u16; grammar::TABLE_WORDS];
    gate::pass(grammar, note, workspace.len(), &mut tables)?;
    let standing = words::stands(grammar, cache);
    over(&tables, note, row, cache, workspace, standing, most)
}

// Reads a note over a cache that was begun for the grammar: number, place, count and row are those of the plain reading, and the cache learns. The row then
// holds the derivation and zeros behind it; after 10 and 14 it is all zeros, and the cache keeps what it learned; after any other refusal both are as they
// were. Words that begin and this call did not leave, and that got no yes of an audit, may make the answer wrong, and nothing else.
pub fn quick(
    grammar: &[u8],
    note: &[u16],
    row: &mut [u16],
    cache: &mut [u32],
    workspace: &mut [u32],
) -> Result<usize, ReadingRefusal>
    ensures { QuickDid grammar.now note.now row.old (length workspace.old) cache.old
        (reading_number result) (reading_place result) (reading_count result) row.new cache.new }
{
    within(grammar, note, row, cache, workspace, serving::AMPLE)
}
