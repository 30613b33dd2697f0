//! Local memory in pages, of which each has a mark that says whether a word of it was set.
//!
//! The marks tell a reintegration which pages the members stored to. Pages and marks are this project's
//! own (`docs/MACHINE.md`).
#![tactic(auto)]

mod page_store;

pub use page_store::{LOCAL_PAGES, PageStore};

#[cfg(test)]
mod tests;
