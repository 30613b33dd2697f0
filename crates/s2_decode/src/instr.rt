//! Instructions as values, by the groups of the instruction table.
//!
//! Register numbers and shift amounts are below 32, an immediate and an offset are the low 16 bits of
//! the word, a target its low 26 bits. Source: the instruction formats and the opcode maps of the MIPS
//! R2000.

/// The rows of three registers: `rd` takes a value made of `rs` and `rt`.
#[derive(Debug, Clone, Copy, PartialEq, Eq)]
pub enum Op3 {
    /// The sum; a signed overflow raises an exception.
    Add,
    /// The sum, modulo 2^32.
    Addu,
    /// The difference; a signed overflow raises an exception.
    Sub,
    /// The difference, modulo 2^32.
    Subu,
    /// And, bit by bit.
    And,
    /// Or, bit by bit.
    Or,
    /// Exclusive or, bit by bit.
    Xor,
    /// Neither, bit by bit.
    Nor,
    /// 1 where `rs` is below `rt` as signed numbers, else 0.
    Slt,
    /// 1 where `rs` is below `rt` as unsigned numbers, else 0.
    Sltu,
    /// `rt` shifted left by the low five bits of `rs`.
    Sllv,
    /// `rt` shifted right by the low five bits of `rs`, zeros coming in.
    Srlv,
    /// `rt` shifted right by the low five bits of `rs`, copies of its sign coming in.
    Srav,
}

/// The rows that shift by an amount in the word.
#[derive(Debug, Clone, Copy, PartialEq, Eq)]
pub enum OpS {
    /// Shift left logical.
    Sll,
    /// Shift right logical: zeros come in.
    Srl,
    /// Shift right arithmetic: copies of the sign come in.
    Sra,
}

/// The rows with an immediate: `rt` takes a value made of `rs` and the immediate.
#[derive(Debug, Clone, Copy, PartialEq, Eq)]
pub enum OpI {
    /// The sum with the sign-extended immediate; a signed overflow raises an exception.
    Addi,
    /// The sum with the sign-extended immediate, modulo 2^32.
    Addiu,
    /// 1 where `rs` is below the sign-extended immediate as signed numbers, else 0.
    Slti,
    /// 1 where `rs` is below the sign-extended immediate as unsigned numbers, else 0.
    Sltiu,
    /// And with the zero-extended immediate.
    Andi,
    /// Or with the zero-extended immediate.
    Ori,
    /// Exclusive or with the zero-extended immediate.
    Xori,
}

/// The rows that multiply and divide, into HI and LO.
#[derive(Debug, Clone, Copy, PartialEq, Eq)]
pub enum OpD {
    /// The signed product of 64 bits.
    Mult,
    /// The unsigned product of 64 bits.
    Multu,
    /// The signed quotient, toward zero, in LO, and the remainder in HI.
    Div,
    /// The unsigned quotient in LO, and the remainder in HI.
    Divu,
}

/// The branches.
#[derive(Debug, Clone, Copy, PartialEq, Eq)]
pub enum OpB {
    /// Where `rs` equals `rt`.
    Beq,
    /// Where `rs` differs from `rt`.
    Bne,
    /// Where `rs` is at most 0, as a signed number.
    Blez,
    /// Where `rs` is above 0, as a signed number.
    Bgtz,
    /// Where `rs` is below 0, as a signed number.
    Bltz,
    /// Where `rs` is at least 0, as a signed number.
    Bgez,
    /// As Bltz; register 31 takes the link, taken or not.
    Bltzal,
    /// As Bgez; register 31 takes the link, taken or not.
    Bgezal,
}

/// The loads and stores.
#[derive(Debug, Clone, Copy, PartialEq, Eq)]
pub enum OpM {
    /// Load a byte, sign-extended.
    Lb,
    /// Load a half word, sign-extended.
    Lh,
    /// Load the left part of a word that need not be aligned.
    Lwl,
    /// Load a word.
    Lw,
    /// Load a byte, zero-extended.
    Lbu,
    /// Load a half word, zero-extended.
    Lhu,
    /// Load the right part of a word that need not be aligned.
    Lwr,
    /// Store a byte.
    Sb,
    /// Store a half word.
    Sh,
    /// Store the left part of a word that need not be aligned.
    Swl,
    /// Store a word.
    Sw,
    /// Store the right part of a word that need not be aligned.
    Swr,
}

/// An instruction word, decoded.
#[derive(Debug, Clone, Copy, PartialEq, Eq)]
pub enum Instr {
    /// `rd` takes a value made of `rs` and `rt`.
    Three { op: Op3, rd: u8, rs: u8, rt: u8 },
    /// `rd` takes the shifted value of `rt`.
    Shift { op: OpS, rd: u8, rt: u8, sa: u8 },
    /// `rt` takes a value made of `rs` and the immediate.
    Imm { op: OpI, rt: u8, rs: u8, imm: u16 },
    /// `rt` takes the immediate in its upper half.
    Lui { rt: u8, imm: u16 },
    /// HI and LO take the product, or the remainder and the quotient, of `rs` and `rt`.
    MulDiv { op: OpD, rs: u8, rt: u8 },
    /// `rd` takes HI, or LO where `hi` is false.
    MoveFrom { hi: bool, rd: u8 },
    /// HI takes `rs`, or LO where `hi` is false.
    MoveTo { hi: bool, rs: u8 },
    /// A jump within the 256 MiB of the delay slot; with `link`, register 31 takes the link.
    Jump { link: bool, target: u32 },
    /// A jump to the address in `rs`.
    JumpReg { rs: u8 },
    /// A jump to the address in `rs`; `rd` takes the link.
    JumpLinkReg { rd: u8, rs: u8 },
    /// A branch relative to the delay slot, by `off` words; `rt` is 0 for all but Beq and Bne.
    Branch { op: OpB, rs: u8, rt: u8, off: u16 },
    /// A load or store of `rt` at the sum of `base` and the sign-extended offset.
    Memory { op: OpM, rt: u8, base: u8, off: u16 },
    /// A system call.
    Syscall,
    /// A breakpoint.
    Break,
    /// `rt` takes register `rd` of coprocessor 0, one instruction later.
    Mfc0 { rt: u8, rd: u8 },
    /// Register `rd` of coprocessor 0 takes `rt`.
    Mtc0 { rt: u8, rd: u8 },
    /// Read the indexed entry of the translation lookaside buffer.
    Tlbr,
    /// Write the indexed entry of the translation lookaside buffer.
    Tlbwi,
    /// Write a random entry of the translation lookaside buffer.
    Tlbwr,
    /// Probe the translation lookaside buffer.
    Tlbp,
    /// Restore from exception.
    Rfe,
    /// A word of coprocessor 1, 2 or 3, which this machine does not have.
    Foreign { unit: u8, word: u32 },
    /// A word that is in no row of the table.
    Reserved(u32),
}
