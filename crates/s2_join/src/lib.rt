//! The order in which a processor that was voted out gets the state of the others back, while they run.
//!
//! Its local list is copied a page at a time, each at one Sync, and a page to which the members store
//! meanwhile is copied again. When few pages are left, or after so many Syncs that a program which stores
//! everywhere cannot put it off for ever, one Sync copies all that is left, and then the saved state of
//! the processor itself. These rules are this project's own (`docs/MACHINE.md`).
#![tactic(auto)]

mod item;
mod join;

pub use item::Item;
pub use join::{CLOSING_PAGES, Join, SAVED_WORDS, SINGLE_PAGE_SYNCS};

#[cfg(test)]
mod tests;
