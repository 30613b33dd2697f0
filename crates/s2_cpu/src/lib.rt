//! A processor's state: its start, the translation of its addresses and its exceptions.
#![tactic(auto)]

mod exception_state;
mod exceptions;
mod general_registers;
mod processor;
mod translation;

pub use exception_state::{BOOT_GENERAL_VECTOR, BOOT_REFILL_VECTOR, GENERAL_VECTOR, REFILL_VECTOR};
pub use exceptions::{Access, Exc};
pub use general_registers::{REGISTERS, Regs};
pub use processor::Cpu;

#[cfg(test)]
mod tests;
