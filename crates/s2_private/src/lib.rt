//! The private-write area: what a store to it gathers of the processors that agree on the store. The rules are
//! this project's own (`docs/MACHINE.md`).
#![tactic(auto)]

mod values;

pub use values::gather;

#[cfg(test)]
mod tests;
