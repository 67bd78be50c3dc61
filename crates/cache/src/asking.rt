// Outcomes of starts and steps: as recorded, or worked out and recorded. What is recorded costs one word.
ghost use Rattle.std.specs.Prelude.{◌≡◌, ◌<◌, ◌^◌, length};
ghost use Rattle.grammar.specs.inside.Tables.{grammar_in};
ghost use Rattle.lookahead.specs.Outcomes.{step_outcome};
ghost use Rattle.configurations.specs.inside.Packed.{member_words};
ghost use Rattle.learning.specs.inside.Told.{Tells};
ghost use Rattle.words.specs.Words.{start_of, kept_in};
ghost use Rattle.cache.specs.inside.Calls.{Askable, Steppable, Unstepped};
ghost use Rattle.cache.specs.Recording.{learned, ask_start, ask_step};

use configurations::MEMBER_WORDS;
use learning::Outcome;
use words::layout::STARTS_AT;

// The outcome of the start of decision a, worked out and recorded.
fn learn_start(tables: &[u16], cache: &mut [u32], a: usize) -> u32
    requires { Askable tables.now cache.old a × (start_of cache.old a ≡ 0) }
    ensures { learned result cache.new ≡ ask_start (grammar_in tables.now) cache.old a }
{
    let mut members = [0u32; MEMBER_WORDS];
    let outcome = learning::start(tables, a, &mut members);
    crate::recording::record_outcome(cache, STARTS_AT + a, a, outcome, &members)
}

// The outcome of the start of decision a.
pub fn ask_start(tables: &[u16], cache: &mut [u32], a: usize) -> u32
    requires { Askable tables.now cache.old a }
    ensures { learned result cache.new ≡ ask_start (grammar_in tables.now) cache.old a }
{
    let w = words::slots::start_of(cache, a);
    if w != 0 {
        return w;
    }
    learn_start(tables, cache, a)
}

// The outcome of the step of slot s over token t, worked out.
pub fn step_outcome(
    tables: &[u16],
    cache: &[u32],
    s: usize,
    t: usize,
    members: &mut [u32],
) -> Outcome
    requires { Steppable tables.now cache.now s t × (length members.old ≡ member_words) }
    ensures { Tells result members.new (step_outcome (grammar_in tables.now) t (kept_in cache.now s)) }
{
    learning::step(tables, t, words::slots::kept(cache, s), members)
}

// The same, recorded.
fn learn_step(tables: &[u16], cache: &mut [u32], a: usize, s: usize, t: usize) -> u32
    requires { Steppable tables.now cache.old s t × Unstepped cache.old a s t }
    ensures { learned result cache.new ≡ ask_step (grammar_in tables.now) cache.old a s t }
{
    let mut members = [0u32; MEMBER_WORDS];
    let outcome = step_outcome(tables, cache, s, t, &mut members);
    crate::recording::record_outcome(cache, words::slots::step_at(s, t), a, outcome, &members)
}

// The outcome of the step of state s of decision a over token t.
pub fn ask_step(tables: &[u16], cache: &mut [u32], a: usize, s: usize, t: usize) -> u32
    requires { Steppable tables.now cache.old s t × (a < 2 ^ 32) }
    ensures { learned result cache.new ≡ ask_step (grammar_in tables.now) cache.old a s t }
{
    let w = words::slots::step_of(cache, s, t);
    if w != 0 {
        return w;
    }
    learn_step(tables, cache, a, s, t)
}
