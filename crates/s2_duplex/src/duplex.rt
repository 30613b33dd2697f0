//! The two boards, and the calls of global memory.

ghost use Rattle.std.specs.Prelude.{◌≡◌, ◌<◌, IfErr, IfOk, Some, is_ok, length, slice_index, slice_set, true};
ghost use Rattle.s2_base.specs.Words.{bytes_into_of};
ghost use Rattle.s2_duplex.specs.DuplexBoards.{board_word, boards_read, boards_written, contents, has_parity, new_boards, pair_of, valid_word, word_in};
ghost use Rattle.s2_duplex.specs.MendedBoards.{board_of, board_out, boards_copied, boards_joined, IsMended};
ghost use Rattle.s2_duplex.specs.ToleratedFaults.{IsFaultBelow, boards_faulted, boards_struck, faulty_board, is_tolerated};

use crate::board::MemoryBoard;
use s2_base::{GLOBAL_WORDS, Memory, bytes_into};
use s2_ports::BoardFault;
use std::alloc::Global;
use std::marker::Model;

/// Global memory on two boards, 0 and 1.
///
/// A board is in, or out until it is brought in. A word whose parity bit does not fit is bad. At each place at least one
/// board that is in has a word that is not bad; the list of these words is what the boards stand for.
#[derive(Drop)]
pub struct Duplex {
    first: MemoryBoard,
    second: MemoryBoard,
}

impl Model for Duplex {
    ghost use Rattle.s2_duplex.specs.DuplexBoards.{BoardPair, IsDuplex, pair_of};

    ghost Value = { BoardPair };

    ghost view = { λ d. pair_of d.first d.second };

    ghost invariant = { λ d. IsDuplex (pair_of d.first d.second) };
}

/// What a read gives.
#[derive(Debug, Clone, Copy, PartialEq, Eq)]
pub struct Got {
    /// The word.
    pub word: u32,
    /// The board of which the word was rewritten, if it was.
    pub repaired: Option<u8>,
}

/// The refusal of a fault that could lose a word on both boards.
#[derive(Debug, Clone, Copy, PartialEq, Eq)]
pub struct BothBoards {
    /// The board that the fault names.
    pub board: u8,
}

impl Duplex {
    /// Both boards in, each with the given words, of which there are `GLOBAL_WORDS`, and right parity.
    ///
    /// `Memory` where a board was refused its memory.
    pub fn new(alloc: Global, words: &[u32]) -> Result<Duplex, Memory>
        requires { length words.now ≡ GLOBAL_WORDS }
        ensures boards { IfOk result (λ boards. boards ≡ new_boards words.now) }
        ensures contents { IfOk result (λ boards. contents boards ≡ words.now) }
    {
        let first = MemoryBoard::new(alloc, words)?;
        let second = MemoryBoard::new(alloc, words)?;
        Ok(Duplex { first, second })
    }

    /// The word at `i`, which is below `GLOBAL_WORDS`.
    ///
    /// Where both boards are in and the word is bad on one of them, it is rewritten there from the other,
    /// and the answer names that board. What the boards stand for stays.
    pub fn read(&mut self, i: u32) -> Got
        requires { i < GLOBAL_WORDS }
        ensures boards { self.new ≡ (boards_read self.old i).boards }
        ensures repaired { result.repaired ≡ (boards_read self.old i).repaired }

        ensures word { result.word ≡ slice_index (contents self.old) i }
        ensures contents { contents self.new ≡ contents self.old }
    {
        let repaired = repair(&mut self.first, &mut self.second, i);
        let word = word_of(&self.first, &self.second, i);
        Got { word, repaired }
    }

    /// The masked bytes of the word at `i`, which is below `GLOBAL_WORDS`, become those of `word`, on each
    /// board that is in and with right parity. `mask` is below 16.
    pub fn write(&mut self, i: u32, word: u32, mask: u8)
        requires index { i < GLOBAL_WORDS }
        requires mask { mask < 16 }
        ensures boards { self.new
            ≡ boards_written self.old i (bytes_into_of (valid_word self.old i) word mask) }
        ensures contents { contents self.new
            ≡ slice_set (contents self.old) i
            (bytes_into_of (slice_index (contents self.old) i) word mask) }
        ensures valid { valid_word self.new i ≡ bytes_into_of (valid_word self.old i) word mask }
    {
        let merged = bytes_into(valid(&self.first, &self.second, i), word, mask);
        self.first.write(i, merged);
        self.second.write(i, merged);
    }

    /// A fault of a board. What the boards stand for stays.
    ///
    /// `BothBoards`, with the board that the fault names, exactly where a word could be lost on both: where a
    /// board is out; where a board is to be dead and the other has a bad word; where a bit is to change and
    /// the word is bad on either board. Then nothing changes.
    pub fn fault(&mut self, fault: &BoardFault) -> Result<(), BothBoards>
        requires { IsFaultBelow GLOBAL_WORDS fault.now }
        ensures tolerated { is_ok result ≡ is_tolerated self.old fault.now }
        ensures named { IfErr result (λ refusal. refusal.board ≡ faulty_board fault.now) }

        ensures boards { self.new ≡ boards_faulted self.old fault.now }
        ensures contents { contents self.new ≡ contents self.old }
    {
        if tolerates(&self.first, &self.second, fault) {
            strike(&mut self.first, &mut self.second, fault);
            Ok(())
        } else {
            Err(BothBoards {
                board: named(fault),
            })
        }
    }

    /// The board that is out; `None` exactly where both are in.
    pub fn out(&self) -> Option<u8>
        ensures { result ≡ board_out self.now }
    {
        if !self.first.is_in() {
            Some(0)
        } else if !self.second.is_in() {
            Some(1)
        } else {
            None
        }
    }

    /// Word `i`, below `GLOBAL_WORDS`, of board `b`, which is out, becomes that of the list, with right parity. The
    /// list stays, and each other word and parity bit.
    pub fn copy_word(&mut self, b: u8, i: u32)
        requires out { board_out self.old ≡ Some b }
        requires i { i < GLOBAL_WORDS }
        ensures boards { self.new ≡ boards_copied b i self.old }
        ensures word { board_word (board_of b self.new) i ≡ slice_index (contents self.old) i }
        ensures parity { has_parity (board_of b self.new) i ≡ true }
        ensures contents { contents self.new ≡ contents self.old }
    {
        copy_to(&mut self.first, &mut self.second, b, i);
    }

    /// Board `b`, which is out and has each word of the list with right parity, is in. The list stays.
    pub fn bring_in(&mut self, b: u8)
        requires out { board_out self.old ≡ Some b }
        requires mended { IsMended b self.old }
        ensures boards { self.new ≡ boards_joined b self.old }
        ensures contents { contents self.new ≡ contents self.old }
    {
        join(&mut self.first, &mut self.second, b);
    }
}

/// The valid word at `i` is set in a board.
fn copy_to(first: &mut MemoryBoard, second: &mut MemoryBoard, b: u8, i: u32)
    requires { i < GLOBAL_WORDS }
    ensures { pair_of first.new second.new ≡ boards_copied b i (pair_of first.old second.old) }
{
    let word = valid(first, second, i);
    if b == 0 {
        first.set(i, word);
    } else {
        second.set(i, word);
    }
}

/// A board is in.
fn join(first: &mut MemoryBoard, second: &mut MemoryBoard, b: u8)
    ensures { pair_of first.new second.new ≡ boards_joined b (pair_of first.old second.old) }
{
    if b == 0 {
        first.bring_in();
    } else {
        second.bring_in();
    }
}

/// The fault strikes the board that it names.
fn strike(first: &mut MemoryBoard, second: &mut MemoryBoard, fault: &BoardFault)
    requires { IsFaultBelow GLOBAL_WORDS fault.now }
    ensures { pair_of first.new second.new ≡ boards_struck (pair_of first.old second.old) fault.now }
{
    if named(fault) == 0 {
        first.fail(fault);
    } else {
        second.fail(fault);
    }
}

/// The word at `i` that is bad on one of two boards that are in is rewritten from the other; that one's number.
fn repair(first: &mut MemoryBoard, second: &mut MemoryBoard, i: u32) -> Option<u8>
    requires { i < GLOBAL_WORDS }
    ensures boards { pair_of first.new second.new
        ≡ (boards_read (pair_of first.old second.old) i).boards }
    ensures repaired { result ≡ (boards_read (pair_of first.old second.old) i).repaired }
{
    let both = first.is_in() && second.is_in();
    if !both {
        None
    } else if !first.has_parity(i) {
        first.set(i, second.word(i));
        Some(0)
    } else if !second.has_parity(i) {
        second.set(i, first.word(i));
        Some(1)
    } else {
        None
    }
}

/// The word at `i` of the first board that is in, which is a valid one after a repair.
fn word_of(first: &MemoryBoard, second: &MemoryBoard, i: u32) -> u32
    requires { i < GLOBAL_WORDS }
    ensures { result ≡ word_in (pair_of first.now second.now) i }
{
    if first.is_in() {
        first.word(i)
    } else {
        second.word(i)
    }
}

/// The valid word at `i`.
fn valid(first: &MemoryBoard, second: &MemoryBoard, i: u32) -> u32
    requires { i < GLOBAL_WORDS }
    ensures { result ≡ valid_word (pair_of first.now second.now) i }
{
    if first.is_valid(i) {
        first.word(i)
    } else {
        second.word(i)
    }
}

/// The board that a fault names.
fn named(fault: &BoardFault) -> u8
    ensures { result ≡ faulty_board fault.now }
{
    match fault {
        BoardFault::Dead { board } => *board,
        BoardFault::Flip {
            board,
            index: _,
            bit: _,
        } => *board,
    }
}

/// Whether no word is lost on both boards by the fault.
fn tolerates(first: &MemoryBoard, second: &MemoryBoard, fault: &BoardFault) -> bool
    requires { IsFaultBelow GLOBAL_WORDS fault.now }
    ensures { result ≡ is_tolerated (pair_of first.now second.now) fault.now }
{
    if !first.is_in() || !second.is_in() {
        return false;
    }
    match fault {
        BoardFault::Dead { board } => {
            if *board == 0 {
                second.has_all_parity()
            } else {
                first.has_all_parity()
            }
        }
        BoardFault::Flip {
            board: _,
            index,
            bit: _,
        } => first.has_parity(*index) && second.has_parity(*index),
    }
}
