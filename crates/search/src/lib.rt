// Ends on demand: where the productions of a nonterminal that begin at a position of the note end, worked out for those pairs of the two that something
// asks for, each once. What may start with a token and what it may follow keeps most pairs from being asked. A budget bounds the work: where it is out,
// nothing is answered, and who asked works out the derivation cells of the whole note instead.
#![tactic(auto)]

mod adding;
mod given;
mod meter;
mod replies;
mod settling;
mod trying;
mod walking;
mod ways;
mod words;

pub use given::Search;
pub use meter::{Exhausted, Meter};
pub use replies::Reply;
pub use walking::Halt;
pub use ways::Way;
pub use words::{Pair, Size, Tag, fits, is_done, size_of};
