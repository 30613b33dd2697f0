//! From the bytes of an ELF file to a program in memory.
#![tactic(auto)]

mod conditions;
mod fault;
mod headers;
mod image;
mod placing;
mod reader;
#[cfg(test)]
mod tests;

pub use fault::{ElfFail, ElfFault};
pub use image::Image;
pub use reader::{blank, read_elf};
