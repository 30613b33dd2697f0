//! One cycle of the R2000, over any store of words.
//!
//! A cycle stays within its processor and local memory, or it accesses global memory or a device once. [`ask`]
//! says which; [`turn`] runs one that stays, and [`finish`] ends one whose access was answered. [`try_turn`] runs
//! the cycle if it stays, and says whether it did; [`work`] says what it asks where it did not.
//!
//! What a cycle does is a step, a value that `instruction_rows` makes and `write_back` carries out. To make that
//! value and take it apart again costs more than most rows do, so `execution` carries out the rows that programs
//! use most without it (`direct_rows`, `direct_access`), by operands that are taken from the word itself. Each
//! of these is proved to leave what its step leaves. Local memory by kseg0, where most programs fetch, load and
//! store, is tested first (`kseg0`), and then a page that the translation lookaside buffer remembers (`recalled`). The functions of that way are hinted to be built into their callers.
#![tactic(auto)]

mod asking;
mod branches;
mod computation;
mod cycles;
mod direct_access;
mod direct_rows;
mod execution;
mod fetch;
mod instruction_rows;
mod kseg0;
mod laws;
mod local_work;
mod memory_access;
mod reach;
mod recalled;
mod system_rows;
mod write_back;

pub use asking::asking_step;
pub use cycles::{ask, finish, finish_step, try_turn, turn, work};
pub use instruction_rows::step;
pub use laws::{
    each_cycle_counts, equal_cycles, local_cycles_stay_inside, r2000_is_core, runs_add,
};
pub use local_work::ask_of;
pub use s2_machine::Ask;

#[cfg(test)]
mod tests;
