//! The built-in workloads: a program that computes for a while, and a script under which one processor
//! fails and is brought back.
#![tactic(auto)]

mod building;
mod laws;
mod program;
mod script;
#[cfg(test)]
mod tests;
mod workloads;

pub use building::workload;
pub use laws::images_are_unique;
pub use workloads::{WORKLOADS, Workload};
