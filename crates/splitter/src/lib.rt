// Typed lines become tokens: a line of bytes is cut into words, numbers and marks, and each gets its kind.
#![tactic(auto)]

pub mod classes;
pub mod cutting;
pub mod listing;
pub mod runs;
pub mod splitting;
pub mod words;

pub use splitting::{MAX_LINE, Splitting, split};
