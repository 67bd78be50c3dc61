// The machine that reads a note, step by step: a place over the open frames, at a position of the note. Every reading runs it; they differ in how they
// choose an alternative where a nonterminal waits.
#![tactic(auto)]

pub mod choice;
pub mod ending;
pub mod frames;
pub mod steps;

pub use ending::{Conclusion, finish};
pub use steps::{At, Space, Turn, call, enter, space_of};
