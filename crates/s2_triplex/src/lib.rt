//! What the triple machine is, and what each of its steps does, as definitions that have no code: they stand
//! in `specs/`.
//!
//! The type below is a value that the definitions share with the code.
#![tactic(auto)]

mod membership;
mod numbers;

pub use membership::Membership;
pub use numbers::INBOX_EVENTS;
