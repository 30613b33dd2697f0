//! Global memory on two boards: each word stands on both, with a parity bit, and one board may fail.
//!
//! The rules are this project's own (`docs/MACHINE.md`).
#![tactic(auto)]

mod bits;
mod board;
mod duplex;
mod laws;

pub use duplex::{BothBoards, Duplex, Got};
pub use laws::{
    contents_are_unique, fault_keeps_contents, new_boards_stand, read_keeps_contents,
    write_sets_one_word,
};

#[cfg(test)]
mod tests;
