//! The triple machine: three modules, a voter, global memory on two boards, and the devices.
//!
//! Each step is the one that `s2_triplex` defines; the rules are this project's own (`docs/MACHINE.md`).
#![tactic(auto)]

mod access;
mod acts;
mod decision;
mod deliveries;
mod firing;
mod frame;
mod inbox;
mod parts;
mod plant;
mod reintegration;
mod turn;

pub use plant::Plant;
pub use turn::{TickRun, Turn};

#[cfg(test)]
mod tests;
