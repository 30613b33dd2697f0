//! The boards with a mending, and the calls of global memory.

ghost use Rattle.std.specs.Prelude.{◌≡◌, ◌<◌, ℕ, IfErr, IfOk, None, is_ok, length, slice_index, slice_set};
ghost use Rattle.s2_base.specs.Words.{bytes_into_of};
ghost use Rattle.s2_base.specs.declared.map.TheConstants.{GLOBAL_WORDS};
ghost use Rattle.s2_duplex.specs.DuplexBoards.{valid_word};
ghost use Rattle.s2_duplex.specs.ToleratedFaults.{IsFaultBelow, faulty_board};
ghost use Rattle.s2_revive.specs.IdleRuns.{boards_idled_by, words_left};
ghost use Rattle.s2_revive.specs.MendingBoards.{boards_idled, memory_of, mended_by, mending_begins, mending_begun, mending_board, mending_read, mending_written, new_mending};
ghost use Rattle.s2_revive.specs.MendingFaults.{ends_mending, is_fault_tolerated, is_mending_board, mending_faulted};

use s2_base::{GLOBAL_WORDS, Memory};
use s2_duplex::{BothBoards, Duplex, Got};
use s2_ports::BoardFault;
use std::alloc::Global;
use std::marker::Model;

/// A board that mends.
#[derive(Debug, Clone, Copy, PartialEq, Eq)]
pub struct Mending {
    /// The board, 0 or 1.
    pub board: u8,
    /// The cursor: how many of its words are mended, below `GLOBAL_WORDS`.
    pub cursor: u32,
}

/// Global memory on two boards, 0 and 1, of which one that is out may mend.
///
/// Below the cursor a board that mends has the words of the list that the boards stand for, with right parity.
/// It counts as out: no read uses it.
#[derive(Drop)]
pub struct Revive {
    boards: Duplex,
    mending: Option<Mending>,
}

impl Model for Revive {
    ghost use Rattle.s2_revive.specs.MendingBoards.{IsMendingIn, MendingBoards};

    ghost Value = { MendingBoards };

    ghost view = { λ r. record { pair = r.boards; mending = r.mending } };

    ghost invariant = { λ r. IsMendingIn r.boards r.mending };
}

/// Whether board `b` mends.
fn is_mending(mending: Option<Mending>, b: u8) -> bool
    ensures { result ≡ is_mending_board b mending }
{
    match mending {
        Some(mending) => mending.board == b,
        None => false,
    }
}

/// Whether a fault strikes the board that mends, and is its end.
fn ends(mending: Option<Mending>, fault: &BoardFault) -> bool
    ensures { result ≡ ends_mending mending fault.now }
{
    match fault {
        BoardFault::Dead { board } => is_mending(mending, *board),
        BoardFault::Flip {
            board: _,
            index: _,
            bit: _,
        } => false,
    }
}

impl Revive {
    /// Both boards in, each with the given words, of which there are `GLOBAL_WORDS`, and right parity. Nothing
    /// mends.
    ///
    /// `Memory` where a board was refused its memory.
    pub fn new(alloc: Global, words: &[u32]) -> Result<Revive, Memory>
        requires { length words.now ≡ GLOBAL_WORDS }
        ensures boards { IfOk result (λ boards. boards ≡ new_mending words.now) }
        ensures contents { IfOk result (λ boards. memory_of boards ≡ words.now) }
    {
        let boards = Duplex::new(alloc, words)?;
        Ok(Revive {
            boards,
            mending: None,
        })
    }

    /// The word at `i`, which is below `GLOBAL_WORDS`.
    ///
    /// Where both boards are in and the word is bad on one of them, it is rewritten there from the other,
    /// and the answer names that board. What the boards stand for stays.
    pub fn read(&mut self, i: u32) -> Got
        requires { i < GLOBAL_WORDS }
        ensures boards { self.new ≡ (mending_read self.old i).boards }
        ensures repaired { result.repaired ≡ (mending_read self.old i).repaired }

        ensures word { result.word ≡ slice_index (memory_of self.old) i }
        ensures contents { memory_of self.new ≡ memory_of self.old }
    {
        self.boards.read(i)
    }

    /// The masked bytes of the word at `i`, which is below `GLOBAL_WORDS`, become those of `word`, on each
    /// board that is in and, below the cursor, on the one that mends, with right parity. `mask` is below 16.
    pub fn write(&mut self, i: u32, word: u32, mask: u8)
        requires index { i < GLOBAL_WORDS }
        requires mask { mask < 16 }
        ensures boards { self.new
            ≡ mending_written self.old i (bytes_into_of (valid_word self.old.pair i) word mask) }
        ensures contents { memory_of self.new
            ≡ slice_set (memory_of self.old) i
            (bytes_into_of (slice_index (memory_of self.old) i) word mask) }
    {
        self.boards.write(i, word, mask);
        if let Some(mending) = self.mending {
            if i < mending.cursor {
                self.boards.copy_word(mending.board, i);
            }
        }
    }

    /// A fault of a board. What the boards stand for stays. Where the board that is dead mends, that ends.
    ///
    /// `BothBoards`, with the board that the fault names, exactly where a word could be lost on both: where a
    /// board is out, unless it is to be dead and mends; where a board is to be dead and the other has a bad
    /// word; where a bit is to change and the word is bad on either board. Then nothing changes.
    pub fn fault(&mut self, fault: &BoardFault) -> Result<(), BothBoards>
        requires { IsFaultBelow GLOBAL_WORDS fault.now }
        ensures tolerated { is_ok result ≡ is_fault_tolerated self.old fault.now }
        ensures named { IfErr result (λ refusal. refusal.board ≡ faulty_board fault.now) }

        ensures boards { self.new ≡ mending_faulted self.old fault.now }
        ensures contents { memory_of self.new ≡ memory_of self.old }
    {
        if ends(self.mending, fault) {
            self.mending = None;
            Ok(())
        } else {
            self.boards.fault(fault)
        }
    }

    /// The mending of board `b`, 0 or 1, begins where it is out and none mends; and whether it does.
    pub fn mend(&mut self, b: u8) -> bool
        requires { b < 2 }
        ensures begins { result ≡ mending_begins b self.old }
        ensures boards { self.new ≡ mending_begun b self.old }
        ensures contents { memory_of self.new ≡ memory_of self.old }
    {
        if self.mending.is_some() || self.boards.out() != Some(b) {
            return false;
        }
        self.mending = Some(Mending {
            board: b,
            cursor: 0,
        });
        true
    }

    /// One more word of a board that mends; the board, where it is in with this word.
    pub fn idle(&mut self) -> Option<u8>
        ensures boards { self.new ≡ boards_idled self.old }
        ensures mended { result ≡ mended_by self.old.mending }
        ensures contents { memory_of self.new ≡ memory_of self.old }
    {
        match self.mending {
            Some(mending) => {
                self.boards.copy_word(mending.board, mending.cursor);
                if mending.cursor + 1 < GLOBAL_WORDS {
                    self.mending = Some(Mending {
                        board: mending.board,
                        cursor: mending.cursor + 1,
                    });
                    None
                } else {
                    self.boards.bring_in(mending.board);
                    self.mending = None;
                    Some(mending.board)
                }
            }
            None => None,
        }
    }

    /// How many words are still to copy to the board that mends, the last one among them; without end where none
    /// mends.
    pub fn left(&self) -> u64
        ensures left { result ≡ words_left self.now.mending }
        ensures some { 0 < result }
    {
        match self.mending {
            Some(mending) => u64::from(GLOBAL_WORDS - mending.cursor),
            None => u64::MAX,
        }
    }

    /// So many idle turns, one after another.
    fn idle_each(&mut self, n: u64)
        ensures boards { self.new ≡ boards_idled_by n self.old }
        ensures contents { memory_of self.new ≡ memory_of self.old }
    {
        for done in 0..n {
            let _mended = self.idle();
        }
    }

    /// So many idle turns, fewer than words are still to copy: no board is in with one of them.
    pub fn idle_by(&mut self, n: u64)
        requires { n < words_left self.old.mending }
        ensures boards { self.new ≡ boards_idled_by n self.old }
        ensures silent { (j : ℕ) → j < n → mended_by (boards_idled_by j self.old).mending ≡ None }
        ensures contents { memory_of self.new ≡ memory_of self.old }
    {
        match self.mending {
            Some(_mending) => self.idle_each(n),
            None => {}
        }
    }

    /// The board that mends; `None` exactly where nothing mends.
    pub fn mending(&self) -> Option<u8>
        ensures { result ≡ mending_board self.now.mending }
    {
        match self.mending {
            Some(mending) => Some(mending.board),
            None => None,
        }
    }
}
