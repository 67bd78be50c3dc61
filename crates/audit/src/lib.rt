// An audit for caches that another program wrote.
#![tactic(auto)]

mod answer;
mod judging;

pub use answer::AuditRefusal;
pub use judging::audit;
