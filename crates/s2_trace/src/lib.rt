//! The state of one processor with flat memories at any run count, under a list of deliveries.
#![tactic(auto)]

mod checkpoint;
mod numbers;
mod stretch;
mod timeline;
mod trace;

pub use numbers::{CHECKPOINTS, MOST_DELIVERIES};
pub use trace::Trace;

#[cfg(test)]
mod tests;
