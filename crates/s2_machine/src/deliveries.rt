//! When an event acts.

use s2_ports::Event;

/// An event, and the run count before whose cycle it acts.
#[derive(Debug, Clone, Copy, PartialEq, Eq)]
pub struct Delivery {
    /// The number of cycles that were run before it acts.
    pub run: u64,
    /// What acts.
    pub event: Event,
}
