// Single questions to a cache, as calls for the tests: the start of a decision, the step from a state over a token. A question that makes no sense is
// answered by 0, and changes nothing.
#![tactic(auto)]

ghost use Rattle.std.specs.Prelude.{◌≡◌};
ghost use Rattle.grammar.specs.inside.Tables.{grammar_in};
ghost use Rattle.derivation.specs.inside.Ready.{Ready};
ghost use Rattle.cache.specs.Recording.{learned};
ghost use Rattle.learning_c.specs.Questions.{start_in, step_in, start_asked, step_asked};

// The start of decision a, for a sound grammar.
fn start(tables: &[u16], cache: &mut [u32], a: usize) -> u32
    requires { Ready tables.now }
    ensures { learned result cache.new ≡ start_in (grammar_in tables.now) cache.old a }
{
    if cache.len() < cache::MIN_WORDS {
        return 0;
    }
    if a < grammar::nonterminals(tables) {
        return cache::ask_start(tables, cache, a);
    }
    0
}

// The step from slot s over token t, for a sound grammar.
fn step(tables: &[u16], cache: &mut [u32], s: usize, t: usize) -> u32
    requires { Ready tables.now }
    ensures { learned result cache.new ≡ step_in (grammar_in tables.now) cache.old s t }
{
    if grammar::MAX_KINDS < t {
        return 0;
    }
    if s < cache::slot_count(cache.len()) {
        let a = cache::decision(cache, s);
        return cache::ask_step(tables, cache, a, s, t);
    }
    0
}

// Asks for the start of a decision.
#[unsafe(no_mangle)]
pub extern "C" fn learning_start(grammar: &[u8], cache: &mut [u32], decision: u32) -> u32
    ensures { learned result cache.new ≡ start_asked grammar.now cache.old decision }
{
    let mut tables = [0u16; grammar::TABLE_WORDS];
    match soundness::compile(grammar, &mut tables) {
        Err(_) => 0,
        Ok(()) => start(&tables, cache, base::number(decision)),
    }
}

// Asks for the step from a state over a token. The decision is the one that the state's slot says.
#[unsafe(no_mangle)]
pub extern "C" fn learning_step(grammar: &[u8], cache: &mut [u32], state: u32, token: u32) -> u32
    ensures { learned result cache.new ≡ step_asked grammar.now cache.old state token }
{
    let mut tables = [0u16; grammar::TABLE_WORDS];
    match soundness::compile(grammar, &mut tables) {
        Err(_) => 0,
        Ok(()) => step(&tables, cache, base::number(state), base::number(token)),
    }
}
