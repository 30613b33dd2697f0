//! What one R2000 with flat memories is, as definitions that have no code: they stand in `specs/`.
//!
//! The types below are the values that the definitions share with the code.
#![tactic(auto)]

mod ask;
mod deliveries;
mod step;

pub use ask::Ask;
pub use deliveries::Delivery;
pub use step::Step;
