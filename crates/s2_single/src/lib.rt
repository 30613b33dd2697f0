//! One R2000 with flat memories and its devices: the machine that a program meets, with no second processor,
//! no voter and no ticks.
#![tactic(auto)]

mod outside_access;
mod single;

pub use single::{Burst, Single};

#[cfg(test)]
mod tests;
