//! The notes of a step.

ghost use Rattle.s2_triplex_laws.specs.StepNotes.{TickTurnTells, ActTurnTells, TurnTellsAdvance};

/// How many notes a step has at most.
///
/// The number is this project's own.
pub const TURN_NOTES: usize = 12;

/// The notes of a tick tell its deliveries, and are few.
pub fn tick_turn_tells()
    ensures { TickTurnTells }
{}

/// The notes of an act tell no delivery, and are few.
pub fn act_turn_tells()
    ensures { ActTurnTells }
{}

/// What a step does to the reference machine is told by its notes and its byte.
pub fn turn_tells_advance()
    ensures { TurnTellsAdvance }
{}
