//! A program as parts of words, and its plain ELF file.
#![tactic(auto)]

mod file;
mod program;

pub use file::to_elf;
pub use program::{Part, Program};
