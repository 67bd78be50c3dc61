// The lowest alternative that serves where a nonterminal waits: by which the rest of the note can be derived with what is open. Ends on demand
// tell it as long as their budget lasts, then the derivation cells; until it is first asked for, a frame is a return place alone.
#![tactic(auto)]

mod aids;
mod judging;
mod picking;
mod pushing;
mod running;
mod sets;
mod tabling;

pub use aids::{AMPLE, TALLY, allow, standing};
pub use judging::{Judged, judge};
pub use picking::{Pick, serve, take};
pub use pushing::push;
pub use running::{Choose, Stop, run};
pub use tabling::fill_cells;
