//! The devices: console, keyboard, timer, halt register and the slots of the private-write area. Their rules are this project's own
//! (`docs/MACHINE.md`).
#![tactic(auto)]

mod board;
mod effect;
mod numbers;
mod slots;

pub use board::Board;
pub use effect::Effect;
pub use numbers::{KEYBOARD_LINE, NO_BYTE, OVERRUN, TIMER_LINE, WAITING_BYTES};
pub use slots::Slots;

#[cfg(test)]
mod tests;
