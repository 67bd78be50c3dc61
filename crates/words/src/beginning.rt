// How a cache begins for a grammar, and whether it has begun for it.
ghost use Rattle.std.specs.Prelude.{◌≡◌, ◌≤◌, ◌<◌, ◌/◌, ◌%◌, ◌^◌, length};
ghost use Rattle.std.proofs.lemmas.List.Edits.{sets};
ghost use Rattle.words.specs.Layout.{length_at, held_at};
ghost use Rattle.words.specs.Begin.{size_words, begin12, begun?, BeginDid};
ghost use Rattle.words.specs.Beginning.{refused_number, refused_place, beginning_number, beginning_place, begun_by};
ghost use Rattle.words.specs.declared.beginning.BeginningRefusal.TheVariants.{Grammar};
ghost use Rattle.words.specs.inside.Bytes.{sizes_held};

use crate::layout::{BYTE_COUNT_AT, HELD_AT, LENGTH_AT, LENGTH_HIGH_AT, MIN_WORDS};
use number::{Numbered, Refusal};

// Why a cache has not begun.
#[derive(Clone, Copy, Debug, PartialEq, Eq)]
pub enum BeginningRefusal {
    // 1 to 7: the grammar is refused.
    Grammar(Refusal),
    // 12: the cache is too short.
    ShortCache,
}

impl From<Refusal> for BeginningRefusal {
    ghost from_gives = { λ r e. e ≡ Grammar r };

    fn from(r: Refusal) -> BeginningRefusal {
        BeginningRefusal::Grammar(r)
    }
}

impl Numbered for BeginningRefusal {
    ghost scope_number = { refused_number };

    ghost scope_place = { refused_place };

    fn number(&self) -> u32 {
        match self {
            BeginningRefusal::Grammar(r) => r.number(),
            BeginningRefusal::ShortCache => 12,
        }
    }

    // 0 where none is named.
    fn place(&self) -> usize {
        match self {
            BeginningRefusal::Grammar(r) => r.place(),
            BeginningRefusal::ShortCache => 0,
        }
    }
}

// The low 32 bits of a length.
fn low(n: usize) -> u32
    ensures { result ≡ n % 2 ^ 32 }
{
    (n % 4294967296) as u32
}

// The bits of a length above them.
fn high(n: usize) -> u32
    ensures { result ≡ n / 2 ^ 32 }
{
    (n >> 32) as u32
}

// Stores the cache's length, and the number of the grammar's bytes.
fn write_sizes(count: usize, cache: &mut [u32])
    requires { (held_at ≤ length cache.old) × (count < 2 ^ 32) }
    ensures { cache.new ≡ sets cache.old length_at (size_words count (length cache.old)) }
{
    let n = cache.len();
    cache[LENGTH_AT] = low(n);
    cache[LENGTH_HIGH_AT] = high(n);
    cache[BYTE_COUNT_AT] = base::word(count);
}

// Whether the cache's length, and this number of bytes, are stored.
fn has_sizes(count: usize, cache: &[u32]) -> bool
    ensures { result ≡ sizes_held count cache.now }
{
    let n = cache.len();
    HELD_AT <= n
        && cache[LENGTH_AT] == low(n)
        && cache[LENGTH_HIGH_AT] == high(n)
        && base::number(cache[BYTE_COUNT_AT]) == count
}

// 12, and then every word is settled.
fn settle(bytes: &[u8], cache: &mut [u32]) -> Result<(), BeginningRefusal>
    requires { length bytes.now < 2 ^ 10 }
    ensures { begun_by result cache.new ≡ begin12 bytes.now cache.old }
{
    if cache.len() < MIN_WORDS {
        return Err(BeginningRefusal::ShortCache);
    }
    cache.fill(0);
    write_sizes(bytes.len(), cache);
    crate::bytes::write_bytes(bytes, cache);
    Ok(())
}

// Begins a cache for a grammar: every word is settled. Where it is refused, every word stays as it was.
pub fn begin(grammar: &[u8], cache: &mut [u32]) -> Result<(), BeginningRefusal>
    ensures { BeginDid grammar.now cache.old (beginning_number result) (beginning_place result) cache.new }
{
    soundness::check(grammar)?;
    settle(grammar, cache)
}

// Whether a cache has begun for this grammar at this length: 13 is refused where it has not.
pub fn is_begun(grammar: &[u8], cache: &[u32]) -> bool
    ensures { result ≡ begun? grammar.now cache.now }
{
    if !has_sizes(grammar.len(), cache) {
        return false;
    }
    crate::bytes::has_bytes(grammar, cache)
}
