// Which nonterminals derive some row of tokens, and which the empty row.
#![tactic(auto)]

mod closure;
mod rounds;

pub use closure::{nullable, productive};
