//! The count of events that the processors agree to take at a frame's end.
#![tactic(auto)]

mod counts;
mod laws;

pub use counts::{DELIVERY_LIMIT, agreed};
pub use laws::two_counts_bound_the_agreed;

#[cfg(test)]
mod tests;
