//! What a step of the triple machine makes known.

ghost use Rattle.s2_plant.specs.StepParts.{blank_turn};
ghost use Rattle.s2_plant.specs.TickRuns.{answer_of, is_silent};
ghost use Rattle.std.specs.Prelude.{◌≡◌, ◌≤◌, length};

use arrayvec::ArrayVec;
use s2_journal::{Note, Reason};
use std::marker::Model;

/// What a step makes known: its notes in their order, at most one byte for the console, and the halt value
/// after the step.
///
/// A tick notes who is out, then the word that was rewritten on a board, then the events that were delivered; or, where
/// the voter's turn is idle, the board that is mended.
#[derive(Drop)]
pub struct Turn {
    /// The notes in their order.
    pub notes: ArrayVec<Note, 12>,
    /// The byte for the console.
    pub out: Option<u8>,
    /// The halt value, once the program has halted.
    pub halt: Option<u32>,
}

impl Model for Turn {
    ghost use Rattle.s2_triplex.specs.StepTurns.{Turn};

    ghost Value = { Turn };

    ghost view = { λ t. record { notes = t.notes.items; out = t.out; halt = t.halt } };
}

/// Nothing is known yet.
pub fn blank() -> Turn
    ensures { result ≡ blank_turn }
{
    Turn {
        notes: ArrayVec::new(),
        out: None,
        halt: None,
    }
}

/// What a run of ticks answers: how many ticks came before the last, which made nothing known, and what the last
/// answered.
#[derive(Drop)]
pub struct TickRun {
    /// How many ticks came before the last.
    pub before: u64,
    /// What the last tick answered.
    pub last: Result<Turn, Reason>,
}

/// How a run of ticks ended whose last turn is kept elsewhere.
#[derive(Debug, Clone, Copy, PartialEq, Eq)]
pub struct TickEnd {
    /// How many ticks came before the last.
    pub before: u64,
    /// Why the last was refused, if it was.
    pub refused: Option<Reason>,
}

/// What a tick answers that was refused, or else gave a turn.
pub fn answer(refused: Option<Reason>, turn: Turn) -> Result<Turn, Reason>
    ensures { result ≡ answer_of refused turn }
{
    match refused {
        Some(reason) => Err(reason),
        None => Ok(turn),
    }
}

/// Whether a tick makes nothing known.
pub fn is_silent(refused: &Option<Reason>, turn: &Turn) -> bool
    ensures { result ≡ is_silent (answer_of refused.now turn.now) }
{
    refused.is_none() && turn.says_nothing()
}

impl Turn {
    /// The notes in their order.
    pub fn notes(&self) -> &[Note]
        ensures notes { result.now ≡ self.now.notes }
        ensures few { length result.now ≤ 12 }
    {
        self.notes.as_slice()
    }

    /// The byte for the console, if there is one.
    pub fn byte(&self) -> Option<u8>
        ensures { result ≡ self.now.out }
    {
        self.out
    }

    /// Whether it makes nothing known.
    fn says_nothing(&self) -> bool
        ensures { result ≡ is_silent (Ok self.now) }
    {
        self.notes.is_empty() && self.out.is_none() && self.halt.is_none()
    }
}
