// The closure of a set of configurations: the moves of each member, until there is nothing new.
#![tactic(auto)]

mod worklist;

pub use worklist::close;
