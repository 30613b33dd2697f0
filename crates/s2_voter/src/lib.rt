//! The voter: it latches what the members ask for, and says when their requests agree.
//!
//! The rules are this project's own (`docs/MACHINE.md`).
#![tactic(auto)]

mod laws;
mod timers;
mod verdicts;
mod voter;

pub use laws::two_equal_latches_decide;
pub use timers::{DECISION_TIMER, LONG_DECISION_TIMER, timer_of};
pub use verdicts::Verdict;
pub use voter::Voter;

#[cfg(test)]
mod tests;
