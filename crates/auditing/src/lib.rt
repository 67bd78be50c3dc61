// Whether the words of a cache are coherent: laid out as documented, no decision with two equal states, and every record what the learning rules give.
#![tactic(auto)]

mod coherence;
mod layout;
mod records;
mod states;

pub use coherence::coherent;
