//! One processor module: a processor, its local memory with a mark for each page, and its port, in which it
//! holds what it asks of the outside until it is answered.
//!
//! Three of them make the machine. Each call is a step of the module as `s2_triplex` defines it; the rules
//! are this project's own (`docs/MACHINE.md`).
#![tactic(auto)]

mod module;
mod requests;

pub use module::Module;
pub use s2_core::Ask;

#[cfg(test)]
mod tests;
