// The words of the lookahead cache: by named fields, how they begin, and whether they have begun for a grammar.
#![tactic(auto)]

mod beginning;
mod bytes;
pub mod layout;
pub mod slots;
mod standing;

pub use beginning::{BeginningRefusal, begin, is_begun};
pub use layout::MIN_WORDS;
pub use standing::{CacheRefusal, stands};
