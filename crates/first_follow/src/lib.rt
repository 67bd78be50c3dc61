// FIRST and FOLLOW: for each kind of token the set of the nonterminals that may start with it, and of those that it may follow, as the bits of words that
// the caller lends. One pass over the places of the productions tells what stands next to what, two closures how far that carries.
#![tactic(auto)]

mod gathering;
mod joining;
mod marking;
mod reading;

pub use marking::mark;
pub use reading::{MASK_WORDS, empty, follows, nullable, starts};
