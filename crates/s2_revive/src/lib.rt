//! Global memory on two boards, of which one that is out may be mended: word by word it takes over what the
//! other one has, and then it is in again.
//!
//! The rules are this project's own (`docs/MACHINE.md`).
#![tactic(auto)]

mod revive;

pub use revive::{Mending, Revive};

#[cfg(test)]
mod tests;
