// The plain reading: each alternative is the lowest that serves.
#![tactic(auto)]

mod lowest;
pub mod reading;

pub use gate::ReadingRefusal;
pub use reading::{plain, within};
