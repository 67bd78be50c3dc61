// Left recursion: for each nonterminal the set of those that one move leads to, and of those that one or more lead to, as one row of bits each.
#![tactic(auto)]

mod ending;
mod firsts;
mod moves;
mod reaching;

pub use ending::all_end;
pub use firsts::{HeadSets, heads, nullable};
pub use moves::corners;
pub use reaching::reach;
