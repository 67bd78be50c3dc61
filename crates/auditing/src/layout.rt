// The layout: zeros where no field is, and slots that hold a state as they must.
ghost use Rattle.std.specs.Prelude.{◌≡◌, ◌==◌, ◌+◌, ◌%◌, ◌≤◌, ◌<◌, length};
ghost use Rattle.std.specs.List.{list_all};
ghost use Rattle.base.specs.Search.{all_from};
ghost use Rattle.grammar.specs.inside.Tables.{grammar_in};
ghost use Rattle.derivation.specs.inside.Ready.{Ready};
ghost use Rattle.configurations.specs.Packing.{config_words};
ghost use Rattle.words.specs.Layout.{min_words, fixed_words, bytes_at, slots};
ghost use Rattle.auditing.specs.Coherence.{fixed?, decides?, kept?, slot?, laid_out?};

use configurations::{CONFIG_WORDS, KEPT};
use words::layout::{
    BYTES_AT, COUNT_AT, FIXED_WORDS, HELD_AT, LENGTH_AT, SLOT_HEAD, SLOT_WORDS, STARTS_AT,
};

// Whether these words are 0. All are looked at, whatever they are: that is faster, since most are 0.
fn zeros(words: &[u32]) -> bool
    ensures { result ≡ list_all (λ w. w == 0) words.now }
{
    words.iter().fold(0, |all, word| all | *word) == 0
}

// Whether the words before the slots are 0 where they have no use; the grammar bytes have n words.
fn fixed(cache: &[u32], n: usize) -> bool
    requires { (min_words ≤ length cache.now) × (bytes_at + n ≤ fixed_words) }
    ensures { result ≡ fixed? n cache.now }
{
    if !zeros(&cache[..LENGTH_AT]) {
        return false;
    }
    if !zeros(&cache[HELD_AT + 1..STARTS_AT]) {
        return false;
    }
    zeros(&cache[BYTES_AT + n..FIXED_WORDS])
}

// Whether a is a nonterminal of two or more productions.
pub fn decides(tables: &[u16], a: usize) -> bool
    requires { Ready tables.now }
    ensures { result ≡ decides? (grammar_in tables.now) a }
{
    if grammar::nonterminals(tables) <= a {
        return false;
    }
    1 < derivation::alternatives(tables, a)
}

// Whether these are words of configurations as a state keeps them: numbers in range, no bit too many, each below the next.
fn kept(words: &[u32]) -> bool
    requires { length words.now % config_words ≡ 0 }
    ensures { result ≡ kept? words.now }
{
    for k in 0..words.len() / CONFIG_WORDS {
        let c = configurations::member(words, k);
        if !c.fits() {
            return false;
        }
        let follows = 0 < k;
        if follows && !configurations::member(words, k - 1).precedes(c) {
            return false;
        }
    }
    true
}

// Whether slot s is laid out as a state.
fn slot(tables: &[u16], cache: &[u32], s: usize) -> bool
    requires { Ready tables.now × (s < slots (length cache.now)) }
    ensures { result ≡ slot? (grammar_in tables.now) cache.now s }
{
    if !decides(tables, words::slots::decision(cache, s)) {
        return false;
    }
    let at = words::slots::slot_at(s);
    let n = base::number(cache[at + COUNT_AT]);
    if n == 0 {
        return false;
    }
    if KEPT < n {
        return false;
    }
    let from = at + SLOT_HEAD;
    let behind = from + CONFIG_WORDS * n;
    if !kept(&cache[from..behind]) {
        return false;
    }
    let steps = words::slots::step_at(s, grammar::kinds(tables)) + 1;
    if !zeros(&cache[steps..from]) {
        return false;
    }
    zeros(&cache[behind..at + SLOT_WORDS])
}

// Whether every held slot is.
fn all_slots(tables: &[u16], cache: &[u32], held: usize) -> bool
    requires { Ready tables.now × (held ≤ slots (length cache.now)) }
    ensures { result ≡ all_from (slot? (grammar_in tables.now) cache.now) 0 held }
{
    (0..held).all(|s| slot(tables, cache, s))
}

// Whether all is laid out as documented; the grammar bytes have n words.
pub fn laid_out(tables: &[u16], cache: &[u32], n: usize) -> bool
    requires { Ready tables.now × (min_words ≤ length cache.now) × (bytes_at + n ≤ fixed_words) }
    ensures { result ≡ laid_out? (grammar_in tables.now) n cache.now }
{
    let held = words::slots::held(cache);
    if words::slots::slots(cache.len()) < held {
        return false;
    }
    if !fixed(cache, n) {
        return false;
    }
    if !zeros(&cache[words::slots::slot_at(held)..]) {
        return false;
    }
    all_slots(tables, cache, held)
}
