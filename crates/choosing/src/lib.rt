// How the quick reading chooses where a nonterminal waits: a single alternative as it is, else the predicted one, and where a prediction says FULL the
// lowest from which the rest of the note can be derived.
#![tactic(auto)]

mod deciding;

pub use deciding::{Predicting, decide};
