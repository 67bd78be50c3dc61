// The grammar check: refusals 1 to 5 from the bytes, then 7 and 6 from the tables. A grammar that passes is sound.
#![tactic(auto)]

mod judgement;

pub use judgement::{check, compile};
