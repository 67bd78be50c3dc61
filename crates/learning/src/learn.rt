// The outcomes of starts and steps: their configurations are gathered in a row of words and closed there, the kept ones are sorted and judged. They are
// left as they stand, which is how a state keeps them.
ghost use Rattle.std.specs.Prelude.{◌≡◌, [], ◌≤◌, length};
ghost use Rattle.grammar.specs.Limits.{end_place};
ghost use Rattle.grammar.specs.Grammar.{facing};
ghost use Rattle.grammar.specs.inside.Tables.{grammar_in, table_words};
ghost use Rattle.derivation.specs.inside.Ready.{Ready};
ghost use Rattle.lookahead.specs.Closing.{max_members, add, add_all, close_from};
ghost use Rattle.lookahead.specs.Outcomes.{onward, passes_at, start_configs, step_configs, start_outcome, step_outcome};
ghost use Rattle.configurations.specs.Packing.{unpack_all};
ghost use Rattle.configurations.specs.inside.Packed.{config_of, member_words};
ghost use Rattle.configurations.specs.inside.Held.{configs_from, Room, Grows};
ghost use Rattle.learning.specs.inside.Told.{Tells, outcome_of, Gathers};

use crate::rules::Outcome;
use configurations::Packed;
use grammar::Symbol;

// The outcome of the first members.
fn finish(tables: &[u16], members: &mut [u32], from: usize) -> Outcome
    requires { Ready tables.now × Room members.old from }
    ensures { Tells result members.new (outcome_of (grammar_in tables.now)
        (close_from (grammar_in tables.now) max_members 0 (configs_from members.old 0 from))) }
{
    let Some(n) = closing::close(tables, members, from) else {
        return Outcome::Full;
    };
    let Some(first) = configurations::sort(tables, members, n) else {
        return Outcome::Full;
    };
    crate::rules::judge(members, first, n)
}

// The first place of each production of nonterminal a; alternatives count from 1.
fn begin(tables: &[u16], members: &mut [u32], a: usize) -> Option<usize>
    requires { Gathers tables.now members.old a }
    ensures { Grows result members.new (add_all [] (start_configs (grammar_in tables.now) a)) }
{
    let mut n = 0;
    for (k, f) in grammar::first_places(tables, a).iter().enumerate() {
        n = configurations::add(members, n, configurations::begun(usize::from(*f), k + 1))?;
    }
    Some(n)
}

// Whether token t may stand where c is.
fn passes(tables: &[u16], t: usize, c: Packed) -> bool
    requires { length tables.now ≡ table_words }
    ensures { result ≡ passes_at (grammar_in tables.now) t (facing (grammar_in tables.now) (config_of c).place) }
{
    match grammar::place_at(tables, c.place()).symbol {
        Symbol::Token(k) => grammar::admits(tables, k, t),
        _ => false,
    }
}

// One place behind c, unless its stack is too deep.
fn pass(members: &mut [u32], n: usize, c: Packed) -> Option<usize>
    requires { Room members.old n × ((config_of c).place ≤ end_place) }
    ensures { Grows result members.new (add (configs_from members.old 0 n) (onward (config_of c))) }
{
    if configurations::ENTRIES < c.entries() {
        return None;
    }
    configurations::add(members, n, c.onward())
}

// The configurations of a state that face token t, one place on.
fn advance(tables: &[u16], t: usize, configs: &[u32], members: &mut [u32]) -> Option<usize>
    requires { Ready tables.now × (length members.old ≡ member_words) }
    ensures { Grows result members.new
        (add_all [] (step_configs (grammar_in tables.now) t (unpack_all configs.now))) }
{
    let mut n = 0;
    for j in 0..configs.len() / configurations::CONFIG_WORDS {
        let c = configurations::member(configs, j);
        if passes(tables, t, c) {
            n = pass(members, n, c)?;
        }
    }
    Some(n)
}

// The outcome of the start of decision a. It is worked out in `members`, and so the words of a state are left there.
pub fn start(tables: &[u16], a: usize, members: &mut [u32]) -> Outcome
    requires { Gathers tables.now members.old a }
    ensures { Tells result members.new (start_outcome (grammar_in tables.now) a) }
{
    let Some(n) = begin(tables, members, a) else {
        return Outcome::Full;
    };
    finish(tables, members, n)
}

// The outcome of a step over token t from the state whose words are `configs`. Any words say configurations.
pub fn step(tables: &[u16], t: usize, configs: &[u32], members: &mut [u32]) -> Outcome
    requires { Ready tables.now × (length members.old ≡ member_words) }
    ensures { Tells result members.new (step_outcome (grammar_in tables.now) t (unpack_all configs.now)) }
{
    let Some(n) = advance(tables, t, configs, members) else {
        return Outcome::Full;
    };
    finish(tables, members, n)
}
