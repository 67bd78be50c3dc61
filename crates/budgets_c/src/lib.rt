// The readings with a bound on what ends on demand may spend, as calls for the tests: whatever it is, the contracts are those of the library's calls.
#![tactic(auto)]

ghost use Rattle.std.specs.Prelude.{length};
ghost use Rattle.plain.specs.Contract.{PlainDid};
ghost use Rattle.quick.specs.Contract.{QuickDid};

use number::Numbered;

// Reads a note plainly.
#[unsafe(no_mangle)]
pub extern "C" fn budget_plain(
    grammar: &[u8],
    note: &[u16],
    row: &mut [u16],
    workspace: &mut [u32],
    most: u32,
    place: &mut u64,
    count: &mut u64,
) -> u32
    ensures { PlainDid grammar.now note.now row.old (length workspace.old)
        result place.new count.new row.new }
{
    let reading = plain::within(grammar, note, row, workspace, most);
    *place = reading.place() as u64;
    *count = reading.unwrap_or(0) as u64;
    reading.number()
}

// Reads a note over a cache that was begun for the grammar.
#[unsafe(no_mangle)]
pub extern "C" fn budget_quick(
    grammar: &[u8],
    note: &[u16],
    row: &mut [u16],
    cache: &mut [u32],
    workspace: &mut [u32],
    most: u32,
    place: &mut u64,
    count: &mut u64,
) -> u32
    ensures { QuickDid grammar.now note.now row.old (length workspace.old) cache.old
        result place.new count.new row.new cache.new }
{
    let reply = quick::within(grammar, note, row, cache, workspace, most);
    *place = reply.place() as u64;
    *count = reply.unwrap_or(0) as u64;
    reply.number()
}
