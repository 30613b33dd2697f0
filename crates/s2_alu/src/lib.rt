//! Arithmetic of the instruction rows, each by its definition over whole and signed numbers.
#![tactic(auto)]

mod branches;
mod immediates;
mod products;
mod shifts;
mod sums;
mod three_registers;

pub use branches::taken;
pub use immediates::immediate;
pub use products::mul_div;
pub use shifts::shift;
pub use sums::{add_signed, sub_signed};
pub use three_registers::three;

#[cfg(test)]
mod tests;
