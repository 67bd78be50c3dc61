// Reads notes on standard input, one to a line, and prints a line for each: `ok` and the entries of the row, or `no`, the refusal's number and the place,
// or `bad` where the line is no note. Each is read quickly by grammar G1, over one cache throughout.
#![tactic(auto)]

ghost use Rattle.std.specs.Prelude.{◌≡◌, ◌≤◌, Contains, IfOk, OnErr, length, take};
ghost use Rattle.lines.specs.Line.{max_kept_bytes};
ghost use Rattle.lines.specs.Kept.{line_end, kept_on, kept_after};

use allstar::Numbered;
use std::io;
use std::io::{Read, Write};

// The entries of a row: by G1 a note has as many as tokens.
const ROW_ENTRIES: usize = lines::MAX_TOKENS;

// The words of the cache: it has six slots.
const CACHE_WORDS: usize = allstar::FIXED_WORDS + 6 * allstar::SLOT_WORDS;

// The bytes of one reading of the input.
const READING_BYTES: usize = 4096;

// Grammar G1: tokens 1 and 2; nonterminal 0 is [1] or [1, less], nonterminal 1 is [grade] or [grade, less].
const G1: [u8; 14] = [2, 2, 2, 1, 3, 2, 3, 4, 2, 1, 2, 2, 2, 4];

// The places of G1.
const G1_PLACES: usize = 10;

// The words that refusal 11 asks for.
const SPACE_WORDS: usize = allstar::SPACE_WORDS
    + allstar::SPACE_WORDS_EACH * (G1_PLACES * (lines::MAX_TOKENS + 1));

// Writes a blank and a number.
fn write_number<W: Write>(out: &mut W, n: u64) -> io::Result<()> {
    write!(out, " {n}")
}

// Writes so many entries of the row.
fn write_entries<W: Write>(out: &mut W, row: &[u16], count: usize) -> io::Result<()> {
    for entry in row.iter().take(count) {
        write_number(out, u64::from(*entry))?;
    }
    Ok(())
}

// Reads a note and writes its line.
fn tell<W: Write>(
    out: &mut W,
    note: &[u16],
    cache: &mut [u32],
    space: &mut [u32],
) -> io::Result<()> {
    let mut row = [0u16; ROW_ENTRIES];
    match allstar::quick(&G1, note, &mut row, cache, space) {
        Ok(count) => {
            out.write_all(b"ok")?;
            write_entries(out, &row, count)?;
        }
        Err(refusal) => {
            out.write_all(b"no")?;
            write_number(out, u64::from(refusal.number()))?;
            write_number(out, refusal.place() as u64)?;
        }
    }
    out.write_all(b"\n")
}

// Answers a line, or what is kept of it.
fn answer<W: Write>(
    out: &mut W,
    line: &[u8],
    cache: &mut [u32],
    space: &mut [u32],
) -> io::Result<()> {
    let mut note = [0u16; lines::MAX_TOKENS];
    match lines::parse(line, &mut note) {
        Some(n) => tell(out, &note[..n], cache, space),
        None => out.write_all(b"bad\n"),
    }
}

// One byte more: a line that it ends is answered, and answers how many bytes are kept of the line that is open then. Only an answer can fail, and one that does
// leaves the line as it was.
fn step<W: Write>(
    out: &mut W,
    byte: u8,
    line: &mut [u8],
    kept: usize,
    cache: &mut [u32],
    space: &mut [u32],
) -> io::Result<usize>
    requires kept_bound { kept ≤ max_kept_bytes }
    requires line_length { length line.old ≡ max_kept_bytes }
    ensures line_after { IfOk result (λ n. take n line.new ≡ kept_on max_kept_bytes (take kept line.old) byte) }
    ensures upper_bound { IfOk result (λ n. n ≤ max_kept_bytes) }
    ensures fails_at_end { OnErr result (byte ≡ line_end) }
    ensures failed_line { OnErr result (line.new ≡ line.old) }
{
    if byte != 10 {
        return Ok(lines::keep(line, kept, byte));
    }
    answer(out, &line[..kept], cache, space)?;
    Ok(0)
}

// The bytes of one reading of the input. What is then kept of the open line says what all of it says (`kept-open-says` of `lines`). Only a reading that ends
// a line can fail.
fn feed<W: Write>(
    out: &mut W,
    bytes: &[u8],
    line: &mut [u8],
    kept: usize,
    cache: &mut [u32],
    space: &mut [u32],
) -> io::Result<usize>
    requires kept_bound { kept ≤ max_kept_bytes }
    requires line_length { length line.old ≡ max_kept_bytes }
    ensures line_after { IfOk result (λ n. take n line.new ≡ kept_after max_kept_bytes (take kept line.old) bytes.now) }
    ensures upper_bound { IfOk result (λ n. n ≤ max_kept_bytes) }
    ensures fails_at_end { OnErr result (Contains bytes.now line_end) }
{
    let mut k = kept;
    for byte in bytes {
        k = step(out, *byte, line, k, cache, space)?;
    }
    Ok(k)
}

// Reads some of the input: 0 bytes at its end.
fn read_some<R: Read>(input: &mut R, bytes: &mut [u8]) -> io::Result<usize>
    ensures { IfOk result (λ n. n ≤ length bytes.new) }
{
    input.read(bytes)
}

// Answers every line of the input. A last line may lack its byte 10; nothing behind the last byte 10 is no line. A proved loop has to end, and nothing says
// that the input does: so the readings are counted, up to a number that no run reaches.
fn answer_all<R: Read, W: Write>(
    input: &mut R,
    out: &mut W,
    cache: &mut [u32],
    space: &mut [u32],
) -> io::Result<()> {
    let mut line = [0u8; lines::KEPT_BYTES];
    let mut bytes = [0u8; READING_BYTES];
    let mut kept = 0;
    for _ in 0..u64::MAX {
        let n = read_some(input, &mut bytes)?;
        if n == 0 {
            break;
        }
        kept = feed(out, &bytes[..n], &mut line, kept, cache, space)?;
    }
    if 0 < kept {
        answer(out, &line[..kept], cache, space)?;
    }
    Ok(())
}

fn main(rt: HostRuntime) -> io::Result<()> {
    let mut cache = [0u32; CACHE_WORDS];
    let mut space = [0u32; SPACE_WORDS];
    let _ = allstar::begin(&G1, &mut cache);
    answer_all(&mut rt.stdin(), &mut rt.stdout(), &mut cache, &mut space)
}
