// The library's calls for C and Rust: thin, with numbers and slices alone.
#![tactic(auto)]

ghost use Rattle.std.specs.Prelude.{length, ◌≡◌};
ghost use Rattle.soundness.specs.Check.{CheckDid};
ghost use Rattle.words.specs.Begin.{BeginDid};
ghost use Rattle.plain.specs.Contract.{PlainDid};
ghost use Rattle.quick.specs.Contract.{QuickDid};
ghost use Rattle.batch.specs.Contract.{BatchDid, SpaceKept};
ghost use Rattle.audit.specs.Contract.{AuditDid};
ghost use Rattle.splitter.specs.Contract.{SplitDid};
ghost use Rattle.measuring.specs.Measuring.{figures, figures_of, measure_of};
ghost use Rattle.allstar_c.specs.Version.{version};

use measuring::Sizes;
use number::Numbered;

// The library's version. specs/Version has the same.
const MAJOR: u32 = 1;

const MINOR: u32 = 4;

const PATCH: u32 = 0;

// Checks a grammar. Answers the scope's number, 0 if it is sound, and stores the place.
#[unsafe(no_mangle)]
pub extern "C" fn allstar_check(grammar: &[u8], place: &mut u64) -> u32
    ensures { CheckDid grammar.now result place.new }
{
    let verdict = soundness::check(grammar);
    *place = verdict.place() as u64;
    verdict.number()
}

// Begins a cache for a grammar. Answers the scope's number, 0 if the cache has begun, stores the place, and leaves the cache as beginning does.
#[unsafe(no_mangle)]
pub extern "C" fn allstar_begin(grammar: &[u8], cache: &mut [u32], place: &mut u64) -> u32
    ensures { BeginDid grammar.now cache.old result place.new cache.new }
{
    let beginning = cache::begin(grammar, cache);
    *place = beginning.place() as u64;
    beginning.number()
}

// Reads a note plainly. Answers the scope's number, 0 if the note was read, stores the place and the count of row entries, and leaves the row as the
// plain reading does.
#[unsafe(no_mangle)]
pub extern "C" fn allstar_plain(
    grammar: &[u8],
    note: &[u16],
    row: &mut [u16],
    workspace: &mut [u32],
    place: &mut u64,
    count: &mut u64,
) -> u32
    ensures { PlainDid grammar.now note.now row.old (length workspace.old)
        result place.new count.new row.new }
{
    let reading = plain::plain(grammar, note, row, workspace);
    *place = reading.place() as u64;
    *count = reading.unwrap_or(0) as u64;
    reading.number()
}

// Reads a note over a cache that was begun for the grammar. Answers the scope's number, 0 if the note was read, stores the place and the count of row
// entries, and leaves the row and the cache as the quick reading does.
#[unsafe(no_mangle)]
pub extern "C" fn allstar_quick(
    grammar: &[u8],
    note: &[u16],
    row: &mut [u16],
    cache: &mut [u32],
    workspace: &mut [u32],
    place: &mut u64,
    count: &mut u64,
) -> u32
    ensures { QuickDid grammar.now note.now row.old (length workspace.old) cache.old
        result place.new count.new row.new cache.new }
{
    let reply = quick::quick(grammar, note, row, cache, workspace);
    *place = reply.place() as u64;
    *count = reply.unwrap_or(0) as u64;
    reply.number()
}

// Reads the notes of a truck over a cache that was begun for the grammar. Answers the scope's number, 0 if every note has its answers, stores the place, and
// leaves the answers, the row and the cache as quick readings made singly in that order do.
#[unsafe(no_mangle)]
pub extern "C" fn allstar_batch(
    grammar: &[u8],
    tokens: &[u16],
    lengths: &[u16],
    answers: &mut [u64],
    row: &mut [u16],
    cache: &mut [u32],
    workspace: &mut [u32],
    place: &mut u64,
) -> u32
    ensures { BatchDid grammar.now tokens.now lengths.now answers.old row.old
        (length workspace.old) cache.old result place.new answers.new row.new cache.new
        × SpaceKept result workspace.old workspace.new }
{
    let outcome = batch::batch(grammar, tokens, lengths, answers, row, cache, workspace);
    *place = outcome.place() as u64;
    outcome.number()
}

// Audits a cache for a grammar. Answers the scope's number, 0 for a yes, and stores the place. The cache is lent to be looked at alone.
#[unsafe(no_mangle)]
pub extern "C" fn allstar_audit(grammar: &[u8], cache: &[u32], place: &mut u64) -> u32
    ensures { AuditDid grammar.now cache.now result place.new }
{
    let audited = audit::audit(grammar, cache);
    *place = audited.place() as u64;
    audited.number()
}

// Makes tokens of a typed line. Answers the scope's number, 0 if the line was split, stores the place and the count of tokens, and leaves the row as
// splitting does.
#[unsafe(no_mangle)]
pub extern "C" fn allstar_split(
    line: &[u8],
    words: &[u8],
    tokens: &mut [u16],
    place: &mut u64,
    count: &mut u64,
) -> u32
    ensures { SplitDid line.now words.now tokens.old
        result place.new count.new tokens.new }
{
    let splitting = splitter::split(line, words, tokens);
    *place = splitting.place() as u64;
    *count = splitting.count() as u64;
    splitting.number()
}

// Measures a grammar. Answers the check's number, 0 if it is sound, and stores the place and the highest token kind, the number of nonterminals and the
// number of places: three zeros if it is refused.
#[unsafe(no_mangle)]
pub extern "C" fn allstar_measure(
    grammar: &[u8],
    place: &mut u64,
    kinds: &mut u64,
    nonterminals: &mut u64,
    places: &mut u64,
) -> u32
    ensures { figures result place.new kinds.new nonterminals.new places.new
        ≡ figures_of (measure_of grammar.now) }
{
    let measure = measuring::measure(grammar);
    let sizes = measure.unwrap_or(Sizes {
        kinds: 0,
        nonterminals: 0,
        places: 0,
    });
    *place = measure.place() as u64;
    *kinds = sizes.kinds as u64;
    *nonterminals = sizes.nonterminals as u64;
    *places = sizes.places as u64;
    measure.number()
}

// The library's version as one number: 10,000 times the major, 100 times the minor and the patch.
#[unsafe(no_mangle)]
pub extern "C" fn allstar_version() -> u32
    ensures { result ≡ version }
{
    MAJOR * 10000 + MINOR * 100 + PATCH
}
