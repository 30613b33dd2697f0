//! The state of a processor as words: each part of it can be read and loaded by a number.
//!
//! A reintegration copies these words from one processor to another, and a script changes one of them. The
//! order of the words is this project's own (`docs/MACHINE.md`).
#![tactic(auto)]

mod laws;
mod numbers;
mod words;

pub use laws::{all_words_restore, load_changes_one_word, load_keeps_state};
pub use numbers::{
    BAD_VADDR_WORD, CAUSE_WORD, CONTEXT_WORD, ENTRY_HI_WORD, ENTRY_LO_WORD, EPC_WORD,
    FIRST_ENTRY_WORD, FLAGS_BITS, FLAGS_WORD, HI_WORD, INDEX_WORD, LINES_STATES, LINES_UNIT,
    LO_WORD, LOAD_REG_UNIT, LOAD_VALUE_WORD, NPC_WORD, PC_WORD, RUN_HIGH_UNIT, RUN_HIGH_WORD,
    RUN_LOW_WORD, STATUS_WORD,
};
pub use s2_join::SAVED_WORDS;
pub use words::{copy_state, load_word, processor_state, save_word};

#[cfg(test)]
mod tests;
