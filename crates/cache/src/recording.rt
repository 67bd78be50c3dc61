// States and outcomes are looked up, and recorded.
ghost use Rattle.std.specs.Prelude.{◌≡◌, ◌+◌, ◌≤◌, ◌<◌, length};
ghost use lib.Seq.{sets};
ghost use Rattle.words.specs.Layout.{min_words, slots};
ghost use Rattle.cache.specs.inside.Calls.{KeptConfigs, Next, Recordable};
ghost use Rattle.cache.specs.Recording.{learned};
ghost use Rattle.cache.specs.inside.ByWords.{holds_words, find_words, found_in, add_words, say_word, new_words, state_words, RoomFor, outcome_words};

use configurations::CONFIG_WORDS;
use learning::Outcome;
use words::layout::{COUNT_AT, FULL, HELD_AT, SLOT_HEAD};

// Whether slot s holds the configurations of these words for decision a.
pub fn holds(cache: &[u32], a: usize, kept: &[u32], s: usize) -> bool
    requires { s < slots (length cache.now) }
    ensures { result ≡ holds_words cache.now a kept.now s }
{
    words::slots::decision(cache, s) == a && words::slots::kept(cache, s) == kept
}

// The slot that holds them, among those that hold states.
fn find(cache: &[u32], a: usize, kept: &[u32]) -> Option<usize>
    requires { min_words ≤ length cache.now }
    ensures { result ≡ found_in (find_words cache.now a kept.now) }
{
    (0..words::slots::searched(cache)).find(|s| holds(cache, a, kept, *s))
}

// Stores these words from `at` on. A loop: where a slice is copied by the library, an archive for C asks for memmove from outside.
fn store(cache: &mut [u32], at: usize, words: &[u32])
    requires { at + length words.now ≤ length cache.old }
    ensures { cache.new ≡ sets cache.old at words.now }
{
    for (k, word) in words.iter().enumerate() {
        cache[at + k] = *word;
    }
}

// Stores the state of these configurations in slot s, the next one.
fn add_state(cache: &mut [u32], s: usize, a: usize, kept: &[u32])
    requires { Next cache.old s a × KeptConfigs kept.now }
    ensures { cache.new ≡ add_words cache.old a kept.now }
{
    let at = words::slots::slot_at(s);
    cache[at] = base::word(a);
    cache[at + COUNT_AT] = base::word(kept.len() / CONFIG_WORDS);
    store(cache, at + SLOT_HEAD, kept);
    cache[HELD_AT] = base::word(s + 1);
}

// Records an outcome in word i.
fn say(cache: &mut [u32], i: usize, w: u32) -> u32
    requires { i < length cache.old }
    ensures { learned result cache.new ≡ say_word i cache.old w }
{
    cache[i] = w;
    w
}

// A state that no slot holds takes the next one; with no slot free nothing is recorded, and the outcome counts as FULL.
fn new_state(cache: &mut [u32], i: usize, a: usize, kept: &[u32]) -> u32
    requires { Recordable cache.old i a × KeptConfigs kept.now }
    ensures { learned result cache.new ≡ new_words i cache.old a kept.now }
{
    let s = words::slots::held(cache);
    if s < words::slots::slots(cache.len()) {
        add_state(cache, s, a, kept);
        return say(cache, i, words::slots::state_word(s));
    }
    FULL
}

// A state of these configurations.
fn record_state(cache: &mut [u32], i: usize, a: usize, kept: &[u32]) -> u32
    requires { Recordable cache.old i a × KeptConfigs kept.now }
    ensures { learned result cache.new ≡ state_words i cache.old a kept.now }
{
    match find(cache, a, kept) {
        Some(s) => say(cache, i, words::slots::state_word(s)),
        None => new_state(cache, i, a, kept),
    }
}

// Records an outcome of decision a, which lookahead told with these members, in word i.
pub fn record_outcome(
    cache: &mut [u32],
    i: usize,
    a: usize,
    outcome: Outcome,
    members: &[u32],
) -> u32
    requires { Recordable cache.old i a × RoomFor outcome members.now }
    ensures { learned result cache.new ≡ outcome_words i cache.old a outcome members.now }
{
    match outcome {
        Outcome::Full => say(cache, i, FULL),
        Outcome::Alternative(b) => say(cache, i, b),
        Outcome::State(first, n) => {
            let kept = &members[CONFIG_WORDS * first..CONFIG_WORDS * (first + n)];
            record_state(cache, i, a, kept)
        }
    }
}
