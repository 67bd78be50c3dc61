// Reads a grammar and a cache on standard input and prints `yes` if quick readings by the grammar may be trusted over the cache, or `no`, the refusal's number
// and the place. The input is the number of grammar bytes as four bytes, the lowest first; the grammar; and the cache's words, four bytes each, the lowest
// first.
#![tactic(auto)]

ghost use Rattle.std.specs.Prelude.{◌≤◌, IfOk, length};

use allstar::{AuditRefusal, Numbered};
use std::io;
use std::io::{Read, Write};

// The words of the longest cache that is looked at: it has as many slots as are ever used.
const CACHE_WORDS: usize = allstar::FIXED_WORDS + allstar::MAX_SLOTS * allstar::SLOT_WORDS;

// The bytes of one reading of the input, and the grammar bytes that are kept.
const READING_BYTES: usize = 4096;

// What is answered for words that are torn: more than the cache takes, or a last one that is cut off.
const TORN: usize = CACHE_WORDS + 1;

// Puts the words of some bytes behind the first `held` words of the cache, as far as there is room, and answers how many it holds then. Bytes that make no
// whole word are left out.
fn put(bytes: &[u8], cache: &mut [u32], held: usize) -> usize
    requires { held ≤ length cache.old }
    ensures lower_bound { held ≤ result }
    ensures upper_bound { result ≤ length cache.new }
{
    let (words, _) = bytes.as_chunks::<4>();
    for (word, bytes) in cache[held..].iter_mut().zip(words) {
        *word = u32::from_le_bytes(*bytes);
    }
    held + words.len().min(cache.len() - held)
}

// Reads the words of the input, up to its end, and answers how many there are, or that they are torn.
fn read_words<R: Read>(input: &mut R, cache: &mut [u32]) -> io::Result<usize> {
    let mut bytes = [0u8; READING_BYTES];
    let room = cache.len();
    let mut held = 0;
    while held < room {
        let n = lines::read_full(input, &mut bytes)?;
        let more = put(&bytes[..n], cache, held);
        if n % 4 != 0 || more - held != n / 4 {
            return Ok(TORN);
        }
        if n < READING_BYTES {
            return Ok(more);
        }
        held = more;
    }
    if lines::read_full(input, &mut bytes)? == 0 {
        return Ok(held);
    }
    Ok(TORN)
}

// Reads the number of grammar bytes: 0 where the input ends before that.
fn read_count<R: Read>(input: &mut R) -> io::Result<usize> {
    let mut head = [0u8; 4];
    if lines::read_full(input, &mut head)? < 4 {
        return Ok(0);
    }
    Ok(u32::from_le_bytes(head) as usize)
}

// How many of so many grammar bytes are kept.
fn kept(count: usize) -> usize
    ensures { result ≤ 4096 }
{
    count.min(READING_BYTES)
}

// Reads that many grammar bytes, as far as they are there and are kept, and answers how many these are.
fn read_grammar<R: Read>(input: &mut R, bytes: &mut [u8], count: usize) -> io::Result<usize>
    requires { 4096 ≤ length bytes.old }
    ensures { IfOk result (λ n. n ≤ length bytes.new) }
{
    let most = kept(count);
    lines::read_full(input, &mut bytes[..most])
}

// Reads the words behind a grammar: none where fewer of its bytes were kept than it should have.
fn read_behind<R: Read>(
    input: &mut R,
    got: usize,
    count: usize,
    cache: &mut [u32],
) -> io::Result<usize> {
    if got < count {
        return Ok(0);
    }
    read_words(input, cache)
}

// Writes an answer.
fn tell<W: Write>(out: &mut W, answer: &Result<(), AuditRefusal>) -> io::Result<()> {
    match answer {
        Ok(()) => out.write_all(b"yes\n"),
        Err(refusal) => {
            let number = refusal.number();
            let place = refusal.place();
            writeln!(out, "no {number} {place}")
        }
    }
}

// Answers for a grammar and the first so many words. A cache that is torn was not begun at a length that can be lent.
fn answer<W: Write>(out: &mut W, grammar: &[u8], cache: &[u32], words: usize) -> io::Result<()> {
    if words <= cache.len() {
        return tell(out, &allstar::audit(grammar, &cache[..words]));
    }
    match allstar::check(grammar) {
        Ok(()) => tell(out, &Err(AuditRefusal::ForeignCache)),
        Err(refusal) => tell(out, &Err(AuditRefusal::Grammar(refusal))),
    }
}

// A grammar is complete, or refused, within its first 870 bytes (`check-first` of `soundness`), and 4,096 are kept: where there are more of them, or fewer than
// the number says, no words are left for the cache.
fn main(rt: HostRuntime) -> io::Result<()> {
    let mut grammar = [0u8; READING_BYTES];
    let mut cache = [0u32; CACHE_WORDS];
    let mut input = rt.stdin();
    let count = read_count(&mut input)?;
    let n = read_grammar(&mut input, &mut grammar, count)?;
    let words = read_behind(&mut input, n, count, &mut cache)?;
    answer(&mut rt.stdout(), &grammar[..n], &cache, words)
}
