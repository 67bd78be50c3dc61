// A truck's notes in one call: quick readings one after another over one cache, each with its part of the row. The grammar is checked once, and what the
// cache was begun for is looked at once.
#![tactic(auto)]

mod answer;
mod parts;
mod reading;

pub use answer::BatchRefusal;
pub use parts::MAX_NOTES;
pub use reading::batch;
