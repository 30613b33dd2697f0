//! Instruction words: the decoder and the encoder of the R2000's instruction table.
#![tactic(auto)]

mod decoding;
mod encoding;
pub mod fields;
mod instr;
mod properness;
#[cfg(test)]
mod tests;
mod units;

pub use decoding::decode;
pub use encoding::encode;
pub use instr::{Instr, Op3, OpB, OpD, OpI, OpM, OpS};
pub use properness::proper;
pub use units::unit;
