//! Stores of words: what the processor's core asks of its local memory.
#![tactic(auto)]

mod flat;
mod store;

pub use flat::FlatStore;
pub use store::{PAGE_WORDS, Store, mark};

#[cfg(test)]
mod tests;
