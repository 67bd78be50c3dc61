// The records: every start and step that is recorded is worked out again and compared with its word.
ghost use Rattle.std.specs.Prelude.{◌≡◌, ◌≤◌, ◌<◌};
ghost use Rattle.base.specs.Search.{all_from};
ghost use Rattle.grammar.specs.Limits.{max_nonterminals, max_kinds};
ghost use Rattle.grammar.specs.inside.Tables.{grammar_in};
ghost use Rattle.derivation.specs.inside.Ready.{Ready};
ghost use Rattle.words.specs.Words.{held};
ghost use Rattle.cache.specs.inside.ByWords.{RoomFor};
ghost use Rattle.auditing.specs.Coherence.{names?, start?, step?, steps?, recorded?};
ghost use Rattle.auditing.specs.inside.Relied.{Held, Judging, Judges};

use configurations::{CONFIG_WORDS, MEMBER_WORDS};
use learning::Outcome;
use words::layout::FULL;

// Whether w names a held slot that keeps these configurations for decision a.
fn names(cache: &[u32], a: usize, w: u32, kept: &[u32]) -> bool
    requires { Held cache.now }
    ensures { result ≡ names? cache.now a w kept.now }
{
    match words::slots::state_of(w) {
        Some(s) => s < words::slots::held(cache) && cache::holds(cache, a, kept, s),
        None => false,
    }
}

// Whether w says the outcome of decision a that lookahead told with these members.
fn says(cache: &[u32], a: usize, w: u32, outcome: Outcome, members: &[u32]) -> bool
    requires { Held cache.now × RoomFor outcome members.now }
    ensures { Judges outcome members.now cache.now a w result }
{
    match outcome {
        Outcome::Full => w == FULL,
        Outcome::Alternative(b) => w == b,
        Outcome::State(first, n) => {
            let kept = &members[CONFIG_WORDS * first..CONFIG_WORDS * (first + n)];
            names(cache, a, w, kept)
        }
    }
}

// Whether nothing is recorded for the start of nonterminal a; or it is a decision, and what the rules give is.
fn start(tables: &[u16], cache: &[u32], a: usize, members: &mut [u32]) -> bool
    requires { Judging tables.now cache.now members.old × (a < max_nonterminals) }
    ensures { result ≡ start? (grammar_in tables.now) cache.now a }
{
    let w = words::slots::start_of(cache, a);
    if w == 0 {
        return true;
    }
    if !crate::layout::decides(tables, a) {
        return false;
    }
    let outcome = learning::start(tables, a, members);
    says(cache, a, w, outcome, members)
}

// Whether nothing is recorded for the step of slot s over token t, or what the rules give is.
fn step(tables: &[u16], cache: &[u32], s: usize, t: usize, members: &mut [u32]) -> bool
    requires { Judging tables.now cache.now members.old × (s < held cache.now) × (t ≤ max_kinds) }
    ensures { result ≡ step? (grammar_in tables.now) cache.now s t }
{
    let w = words::slots::step_of(cache, s, t);
    if w == 0 {
        return true;
    }
    let outcome = cache::step_outcome(tables, cache, s, t, members);
    let a = words::slots::decision(cache, s);
    says(cache, a, w, outcome, members)
}

// The starts.
fn starts(tables: &[u16], cache: &[u32], members: &mut [u32]) -> bool
    requires { Judging tables.now cache.now members.old }
    ensures { result ≡ all_from (start? (grammar_in tables.now) cache.now) 0 max_nonterminals }
{
    for a in 0..grammar::MAX_NONTERMINALS {
        if !start(tables, cache, a, members) {
            return false;
        }
    }
    true
}

// The steps of slot s, the one over the end mark included.
fn steps(tables: &[u16], cache: &[u32], s: usize, members: &mut [u32]) -> bool
    requires { Judging tables.now cache.now members.old × (s < held cache.now) }
    ensures { result ≡ steps? (grammar_in tables.now) cache.now s }
{
    for t in 0..=grammar::kinds(tables) {
        if !step(tables, cache, s, t, members) {
            return false;
        }
    }
    true
}

// The steps of every held slot.
fn all_steps(tables: &[u16], cache: &[u32], members: &mut [u32]) -> bool
    requires { Judging tables.now cache.now members.old }
    ensures { result ≡ all_from (steps? (grammar_in tables.now) cache.now) 0 (held cache.now) }
{
    for s in 0..words::slots::held(cache) {
        if !steps(tables, cache, s, members) {
            return false;
        }
    }
    true
}

// Whether every recorded start and step is what the rules give. All are worked out in the same words.
pub fn recorded(tables: &[u16], cache: &[u32]) -> bool
    requires { Ready tables.now × Held cache.now }
    ensures { result ≡ recorded? (grammar_in tables.now) cache.now }
{
    let mut members = [0u32; MEMBER_WORDS];
    if !starts(tables, cache, &mut members) {
        return false;
    }
    all_steps(tables, cache, &mut members)
}
