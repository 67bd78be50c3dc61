// The quick reading: alternatives are predicted by what the lookahead cache has learned; the lowest that serves is asked for only where that says nothing.
#![tactic(auto)]

mod reading;
mod running;

pub use reading::{over, quick, within};
pub use serving::AMPLE;
