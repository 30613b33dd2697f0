//! The translation lookaside buffer: 64 entries that translate virtual pages.
#![tactic(auto)]

mod buffer;
mod entries;
mod index;
mod outcomes;

pub use buffer::Tlb;
pub use entries::{
    ADDRESS_SPACES, ASID_UNIT, DIRTY, GLOBAL, PAGE_BYTES, TLB_ENTRIES, UNCACHED, VALID,
};
pub use outcomes::Look;

#[cfg(test)]
mod tests;
