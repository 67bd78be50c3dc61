// The lookahead cache: what is looked up and recorded in it, and what it predicts. How its words begin is `words`.
#![tactic(auto)]

mod asking;
mod following;
mod prediction;
mod recording;

pub use asking::{ask_start, ask_step, step_outcome};
pub use prediction::predict;
pub use recording::holds;
pub use words::slots::{decision, slots as slot_count};
pub use words::{BeginningRefusal, MIN_WORDS, begin, is_begun};
