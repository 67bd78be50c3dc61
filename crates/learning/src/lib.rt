// What lookahead learns of a grammar: the outcomes of the start of a decision and of a step over a token, and the configurations that a state keeps
// (the scope, "What the cache learns").
//
// A closed set is a row of words, lent by the caller: `learn` gathers the first members, `closing` makes the moves of each, `configurations` sorts those
// to keep at the row's end, and `rules` judges them; a state's words are left there.
#![tactic(auto)]

mod learn;
mod rules;

pub use learn::{start, step};
pub use rules::Outcome;
