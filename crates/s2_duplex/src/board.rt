//! One board of global memory. Indexes are those of the global list, below `GLOBAL_WORDS`.

ghost use Rattle.std.specs.Prelude.{◌≡◌, ◌<◌, IfOk, false, length, true};
ghost use Rattle.s2_duplex.specs.DuplexBoards.{board_word, has_parity, is_valid, new_board, with_word, written_board};
ghost use Rattle.s2_duplex.specs.ToleratedFaults.{IsFaultBelow, faulty, has_all_parity};

use crate::bits::{ParityBits, is_same, parity};
use s2_base::{GLOBAL_WORDS, Memory};
use s2_ports::BoardFault;
use std::alloc::Global;
use std::marker::Model;

/// Words with a parity bit each, of a board that is in or out.
#[derive(Drop)]
pub(crate) struct MemoryBoard {
    is_in: bool,
    words: Vec<u32>,
    parity: ParityBits,
}

impl Model for MemoryBoard {
    ghost use Rattle.std.specs.Prelude.{◌≡◌, length};
    ghost use Rattle.s2_duplex.specs.DuplexBoards.{BoardState};
    ghost use Rattle.s2_base.specs.declared.map.TheConstants.{GLOBAL_WORDS};

    ghost Value = { BoardState };

    ghost view = { λ b. record { is_in = b.is_in; words = b.words.items; parity = b.parity } };

    ghost invariant = { λ b. (length b.words.items ≡ GLOBAL_WORDS) × (length b.parity ≡ GLOBAL_WORDS) };
}

impl MemoryBoard {
    /// A board that is in, with the given words, which are copied, and right parity.
    ///
    /// `Memory` where the words or the parity bits were refused their memory.
    pub(crate) fn new(alloc: Global, words: &[u32]) -> Result<MemoryBoard, Memory>
        requires { length words.now ≡ GLOBAL_WORDS }
        ensures { IfOk result (λ board. board ≡ new_board words.now) }
    {
        let parity = ParityBits::of(alloc, words)?;
        match words.to_vec(alloc) {
            Ok(words) => {
                Ok(MemoryBoard {
                    is_in: true,
                    words,
                    parity,
                })
            }
            Err(_) => Err(Memory),
        }
    }

    /// Whether the board is in.
    pub(crate) fn is_in(&self) -> bool
        ensures { result ≡ self.now.is_in }
    {
        self.is_in
    }

    /// The word at `i`, be it bad or not.
    pub(crate) fn word(&self, i: u32) -> u32
        requires { i < GLOBAL_WORDS }
        ensures { result ≡ board_word self.now i }
    {
        self.words[i as usize]
    }

    /// Whether the parity bit of the word at `i` fits.
    pub(crate) fn has_parity(&self, i: u32) -> bool
        requires { i < GLOBAL_WORDS }
        ensures { result ≡ has_parity self.now i }
    {
        is_same(parity(self.words[i as usize]), self.parity.get(i as usize))
    }

    /// Whether the board is in and the word at `i` is not bad.
    pub(crate) fn is_valid(&self, i: u32) -> bool
        requires { i < GLOBAL_WORDS }
        ensures { result ≡ is_valid self.now i }
    {
        self.is_in && self.has_parity(i)
    }

    /// Whether no word is bad.
    pub(crate) fn has_all_parity(&self) -> bool
        ensures { result ≡ has_all_parity self.now }
    {
        let count = self.words.len() as u32;
        for i in 0..count {
            if !self.has_parity(i) {
                return false;
            }
        }
        true
    }

    /// The word at `i` becomes `word`, with right parity.
    pub(crate) fn set(&mut self, i: u32, word: u32)
        requires { i < GLOBAL_WORDS }
        ensures { self.new ≡ with_word self.old i word }
    {
        self.words[i as usize] = word;
        self.parity.set(i as usize, parity(word));
    }

    /// The board is in.
    pub(crate) fn bring_in(&mut self)
        ensures { self.new ≡ record self.old { is_in = true } }
    {
        self.is_in = true;
    }

    /// The same, where the board is in.
    pub(crate) fn write(&mut self, i: u32, word: u32)
        requires { i < GLOBAL_WORDS }
        ensures { self.new ≡ written_board self.old i word }
    {
        if self.is_in() {
            self.set(i, word);
        }
    }

    /// The fault strikes this board.
    pub(crate) fn fail(&mut self, fault: &BoardFault)
        requires { IsFaultBelow GLOBAL_WORDS fault.now }
        ensures { self.new ≡ faulty self.old fault.now }
    {
        match fault {
            BoardFault::Dead { board: _ } => self.is_in = false,
            BoardFault::Flip {
                board: _,
                index,
                bit,
            } => self.words[*index as usize] ^= 1 << *bit,
        }
    }
}
