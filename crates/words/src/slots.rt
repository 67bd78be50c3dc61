// The fields of a cache's words. Nothing is assumed of the words: a count above the most that is kept is read as that.
ghost use Rattle.std.specs.Prelude.{◌≡◌, ◌≤◌, ◌<◌, length};
ghost use Rattle.std.specs.Option.{MatchOption};
ghost use Rattle.grammar.specs.Limits.{max_kinds, max_nonterminals};
ghost use Rattle.words.specs.Layout.{min_words, max_slots, slots, slot_at, step_at, full_word, state_word};
ghost use Rattle.words.specs.Words.{held, searched, start_of, step_of, decision, kept_count, kept_words};

use crate::layout::{
    COUNT_AT, FIXED_WORDS, FULL, HELD_AT, MAX_SLOTS, SLOT_HEAD, SLOT_WORDS, STARTS_AT, STATES,
    STEPS_AT,
};
use configurations::{CONFIG_WORDS, KEPT};

// The slots of a cache of n words.
pub fn slots(n: usize) -> usize
    ensures { result ≡ slots n }
{
    (n.saturating_sub(FIXED_WORDS) / SLOT_WORDS).min(MAX_SLOTS)
}

// How many states are held.
pub fn held(cache: &[u32]) -> usize
    requires { min_words ≤ length cache.now }
    ensures { result ≡ held cache.now }
{
    base::number(cache[HELD_AT])
}

// What is recorded for the start of decision a.
pub fn start_of(cache: &[u32], a: usize) -> u32
    requires { (min_words ≤ length cache.now) × (a < max_nonterminals) }
    ensures { result ≡ start_of cache.now a }
{
    cache[STARTS_AT + a]
}

// How many slots are searched for a state.
pub fn searched(cache: &[u32]) -> usize
    requires { min_words ≤ length cache.now }
    ensures { result ≡ searched cache.now }
{
    held(cache).min(slots(cache.len()))
}

// Where slot s begins.
pub fn slot_at(s: usize) -> usize
    requires { s ≤ max_slots }
    ensures { result ≡ slot_at s }
{
    FIXED_WORDS + SLOT_WORDS * s
}

// Where the step of slot s over token t is recorded.
pub fn step_at(s: usize, t: usize) -> usize
    requires { (s ≤ max_slots) × (t ≤ max_kinds) }
    ensures { result ≡ step_at s t }
{
    slot_at(s) + (STEPS_AT + t)
}

// The decision of slot s.
pub fn decision(cache: &[u32], s: usize) -> usize
    requires { s < slots (length cache.now) }
    ensures { result ≡ decision cache.now s }
{
    base::number(cache[slot_at(s)])
}

// What is recorded for the step of slot s over token t.
pub fn step_of(cache: &[u32], s: usize, t: usize) -> u32
    requires { (s < slots (length cache.now)) × (t ≤ max_kinds) }
    ensures { result ≡ step_of cache.now s t }
{
    cache[step_at(s, t)]
}

// How many configurations slot s keeps.
fn kept_count(cache: &[u32], s: usize) -> usize
    requires { s < slots (length cache.now) }
    ensures { result ≡ kept_count cache.now s }
{
    base::number(cache[slot_at(s) + COUNT_AT]).min(KEPT)
}

// The words of the configurations that slot s keeps.
pub fn kept(cache: &[u32], s: usize) -> &[u32]
    requires { s < slots (length cache.now) }
    ensures { result.now ≡ kept_words cache.now s }
{
    let from = slot_at(s) + SLOT_HEAD;
    &cache[from..from + CONFIG_WORDS * kept_count(cache, s)]
}

// The word that records state s.
pub fn state_word(s: usize) -> u32
    requires { s < max_slots }
    ensures { result ≡ state_word s }
{
    base::word(STATES + s)
}

// The state that a word records, if it records one: none is recorded by 0, an alternative or FULL.
pub fn state_of(word: u32) -> Option<usize>
    ensures { MatchOption result (word ≤ full_word) (λ s. word ≡ state_word s) }
{
    if word <= FULL {
        None
    } else {
        Some(base::number(word) - STATES)
    }
}
