//! What a cycle does.

use s2_base::Place;
use s2_cpu::Exc;
use s2_decode::OpM;

/// What a cycle does, once its instruction is decoded and its operands are read. Register 0 stays 0.
#[derive(Debug, Clone, Copy, PartialEq, Eq)]
pub enum Step {
    /// An exception is taken.
    Raise(Exc),
    /// The next instruction follows, and nothing else changes.
    Proceed,
    /// Register `reg` takes a word, and the next instruction follows.
    Set {
        reg: u8,
        value: u32,
    },
    /// HI and LO take two words, and the next instruction follows.
    SetHiLo {
        hi: u32,
        lo: u32,
    },
    /// A branch or a jump: one that is taken has a target, a virtual address. Register `link` takes the
    /// address behind the delay slot, taken or not.
    Jump {
        target: Option<u32>,
        link: u8,
    },
    /// Register `reg` takes a word one instruction later.
    Delay {
        reg: u8,
        value: u32,
    },
    /// Register `reg` takes one instruction later what `op` makes of the word at a place, of which the
    /// virtual address names the byte `byte`, below 4. `address` is the word's physical address, a
    /// multiple of 4.
    Load {
        op: OpM,
        reg: u8,
        byte: u8,
        address: u32,
        place: Place,
    },
    /// The bytes of `word` under the mask, below 16, are stored at a place. `address` is the physical
    /// address of the word there, a multiple of 4.
    Store {
        word: u32,
        mask: u8,
        address: u32,
        place: Place,
    },
    /// Register `reg` of coprocessor 0 takes a word.
    SetControl {
        reg: u8,
        value: u32,
    },
    /// EntryHi and EntryLo take the entry of the translation lookaside buffer that Index names.
    ReadEntry,
    /// The entry `index`, below 64, takes EntryHi and EntryLo.
    WriteEntry {
        index: u32,
    },
    /// Index takes the number of the entry that matches EntryHi.
    ProbeEntry,
    /// The modes that were saved at an exception return.
    Restore,
}
