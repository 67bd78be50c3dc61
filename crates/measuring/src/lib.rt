// What a caller has to know of a grammar before lending working space: the check's verdict and, of a sound grammar, its three sizes.
#![tactic(auto)]

mod measuring;

pub use measuring::{Sizes, measure};
