//! The system control coprocessor of the MIPS R2000: its registers, the test for an interrupt, and what an
//! exception leaves.
#![tactic(auto)]

mod codes;
mod kept;
mod masks;
mod numbers;
mod registers;

pub use codes::{ADEL, ADES, BP, CPU, DBE, IBE, INT, MOD, OV, RI, SYS, TLBL, TLBS};
pub use kept::KeptRegister;
pub use masks::{
    BRANCH_DELAY, CAUSE_BITS, CAUSE_WRITTEN, CONTEXT_BITS, CONTEXT_WRITTEN, INDEX_BITS,
    INTERRUPT_BITS, NO_ENTRY, PROCESSOR_ID, STATUS_BITS,
};
pub use numbers::{
    BAD_VADDR, CAUSE, CONTEXT, ENTRY_HI, ENTRY_LO, EPC, INDEX, PRID, RANDOM, RANDOM_PERIOD,
    RANDOM_START, STATUS,
};
pub use registers::{Cp0, random_index};

#[cfg(test)]
mod tests;
