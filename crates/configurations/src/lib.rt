// Packed configurations, the members of a closed set in a row of words, and the kept ones of them in order.
#![tactic(auto)]

mod config;
mod kept;
mod members;
mod words;

pub use config::{ENTRIES, Packed, begun};
pub use kept::{KEPT, sort};
pub use members::{MEMBER_WORDS, add};
pub use words::{CONFIG_WORDS, member};
