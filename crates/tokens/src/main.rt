// Makes tokens of typed lines. The first line on standard input is a list of words that have kinds of their own; for each line behind it a line is printed:
// the kinds of its tokens, or `no`, the refusal's number and the place.
#![tactic(auto)]

ghost use Rattle.std.specs.Prelude.{◌≡◌, ◌≤◌, false, Contains, IfOk, OnErr, length, take};
ghost use Rattle.lines.specs.Kept.{line_end};
ghost use Rattle.lines.specs.Headed.{headed, headed_on, headed_after};
ghost use Rattle.tokens.specs.Sizes.{max_list, max_kept_line};

use std::io;
use std::io::{Read, Write};

// The bytes of the list's line that are kept. A longer list, of more words than these bytes hold, is refused whatever it says.
const LIST_BYTES: usize = 65536;

// The bytes of a typed line that are kept: one more than a line may have, so that a longer line is still too long. specs/Sizes has the same.
const LINE_BYTES: usize = allstar::MAX_LINE + 1;

// The entries of a row: the most tokens of a line.
const ROW_ENTRIES: usize = allstar::MAX_TOKENS;

// The bytes of one reading of the input.
const READING_BYTES: usize = 4096;

// How far the input has come: whether the list's line is open, and how many bytes are kept of it and of the open line behind it.
#[derive(Clone, Copy)]
struct Progress {
    in_list: bool,
    listed: usize,
    kept: usize,
}

// Writes so many kinds, blanks between.
fn write_kinds<W: Write>(out: &mut W, row: &[u16], count: usize) -> io::Result<()> {
    for (i, kind) in row.iter().take(count).enumerate() {
        if 0 < i {
            out.write_all(b" ")?;
        }
        write!(out, "{kind}")?;
    }
    Ok(())
}

// Splits a line by a list and writes the answer.
fn tell<W: Write>(out: &mut W, line: &[u8], list: &[u8]) -> io::Result<()> {
    let mut row = [0u16; ROW_ENTRIES];
    let splitting = allstar::split(line, list, &mut row);
    let number = splitting.number();
    if number == 0 {
        write_kinds(out, &row, splitting.count())?;
        return out.write_all(b"\n");
    }
    let place = splitting.place();
    writeln!(out, "no {number} {place}")
}

// Answers a line, or what is kept of it. A list that may not all have been kept is answered as one that is none: a blank alone.
fn answer<W: Write>(out: &mut W, line: &[u8], list: &[u8]) -> io::Result<()> {
    if LIST_BYTES <= list.len() {
        tell(out, line, b" ")
    } else {
        tell(out, line, list)
    }
}

// One byte more: a typed line that it ends is answered. Only an answer can fail, and one that does leaves the list and the line as they were.
fn step<W: Write>(
    out: &mut W,
    byte: u8,
    list: &mut [u8],
    line: &mut [u8],
    at: Progress,
) -> io::Result<Progress>
    requires listed_bound { at.listed ≤ max_list }
    requires kept_bound { at.kept ≤ max_kept_line }
    requires list_length { length list.old ≡ max_list }
    requires line_length { length line.old ≡ max_kept_line }
    ensures lines_after { IfOk result (λ to. headed to.in_list (take to.listed list.new) (take to.kept line.new)
        ≡ headed_on max_list max_kept_line (headed at.in_list (take at.listed list.old) (take at.kept line.old)) byte) }
    ensures listed_upper { IfOk result (λ to. to.listed ≤ max_list) }
    ensures kept_upper { IfOk result (λ to. to.kept ≤ max_kept_line) }
    ensures fails_at_end { OnErr result (byte ≡ line_end) }
    ensures fails_behind_list { OnErr result (at.in_list ≡ false) }
    ensures failed_list { OnErr result (list.new ≡ list.old) }
    ensures failed_line { OnErr result (line.new ≡ line.old) }
{
    if at.in_list {
        if byte == 10 {
            return Ok(Progress {
                in_list: false,
                listed: at.listed,
                kept: at.kept,
            });
        }
        let more = lines::keep(list, at.listed, byte);
        return Ok(Progress {
            in_list: true,
            listed: more,
            kept: at.kept,
        });
    }
    if byte != 10 {
        let more = lines::keep(line, at.kept, byte);
        return Ok(Progress {
            in_list: false,
            listed: at.listed,
            kept: more,
        });
    }
    answer(out, &line[..at.kept], &list[..at.listed])?;
    Ok(Progress {
        in_list: false,
        listed: at.listed,
        kept: 0,
    })
}

// The bytes of one reading of the input. What is then kept are the first bytes of the list's line and of the open line behind it (`kept-headed` of `lines`).
// Only a reading that ends a line can fail.
fn feed<W: Write>(
    out: &mut W,
    bytes: &[u8],
    list: &mut [u8],
    line: &mut [u8],
    start: Progress,
) -> io::Result<Progress>
    requires listed_bound { start.listed ≤ max_list }
    requires kept_bound { start.kept ≤ max_kept_line }
    requires list_length { length list.old ≡ max_list }
    requires line_length { length line.old ≡ max_kept_line }
    ensures lines_after { IfOk result (λ to. headed to.in_list (take to.listed list.new) (take to.kept line.new)
        ≡ headed_after max_list max_kept_line
        (headed start.in_list (take start.listed list.old) (take start.kept line.old)) bytes.now) }
    ensures listed_upper { IfOk result (λ to. to.listed ≤ max_list) }
    ensures kept_upper { IfOk result (λ to. to.kept ≤ max_kept_line) }
    ensures fails_at_end { OnErr result (Contains bytes.now line_end) }
{
    let mut at = start;
    for byte in bytes {
        at = step(out, *byte, list, line, at)?;
    }
    Ok(at)
}

// Reads some of the input: 0 bytes at its end.
fn read_some<R: Read>(input: &mut R, bytes: &mut [u8]) -> io::Result<usize>
    ensures { IfOk result (λ n. n ≤ length bytes.new) }
{
    input.read(bytes)
}

// Answers every typed line of the input. A last line may lack its byte 10; nothing behind the last byte 10 is no line. A proved loop has to end, and nothing
// says that the input does: so the readings are counted, up to a number that no run reaches.
fn answer_all<R: Read, W: Write>(input: &mut R, out: &mut W) -> io::Result<()> {
    let mut list = [0u8; LIST_BYTES];
    let mut line = [0u8; LINE_BYTES];
    let mut bytes = [0u8; READING_BYTES];
    let mut at = Progress {
        in_list: true,
        listed: 0,
        kept: 0,
    };
    for _ in 0..u64::MAX {
        let n = read_some(input, &mut bytes)?;
        if n == 0 {
            break;
        }
        at = feed(out, &bytes[..n], &mut list, &mut line, at)?;
    }
    if 0 < at.kept {
        answer(out, &line[..at.kept], &list[..at.listed])?;
    }
    Ok(())
}

fn main(rt: HostRuntime) -> io::Result<()> {
    answer_all(&mut rt.stdin(), &mut rt.stdout())
}
