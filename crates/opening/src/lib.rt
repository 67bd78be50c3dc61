// Down the stack: whether a place and all open frames below it derive the rest of the note, and the lowest alternative by which they do, from the ends
// of pairs that are worked out on the way.
#![tactic(auto)]

mod choice;
mod descent;
mod empties;
mod leading;
mod marks;

pub use choice::{Found, Pick, direct, lowest};
pub use marks::Frames;
