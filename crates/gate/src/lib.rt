// The gate before every reading: the scope's refusals 1 to 9 and 11, in their order, once.
#![tactic(auto)]

pub mod passing;
pub mod reading;
pub mod tokens;

pub use passing::{MAX_TOKENS, SPACE_WORDS, SPACE_WORDS_EACH, note_gate, pass};
pub use reading::ReadingRefusal;
