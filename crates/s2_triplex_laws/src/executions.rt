//! The states of a triple machine, its steps, and whole executions.

ghost use Rattle.s2_triplex_laws.specs.TriplexStates.{StartIsState, StartIsReference, TickKeepsState, ActKeepsState, TickAdvances, ActAdvances, StepsKeepFrame};
ghost use Rattle.s2_triplex_laws.specs.TriplexExecutions.{ExecutionBegins, ExecutionGoesOn, EveryExecution, EveryR2000Execution};

/// The start of a program keeps all that a state keeps.
pub fn start_is_state()
    ensures { StartIsState }
{}

/// The reference machine is then that of one processor alone.
pub fn start_is_reference()
    ensures { StartIsReference }
{}

/// A tick leads from a state to a state, be it refused or not.
pub fn tick_keeps_state()
    ensures { TickKeepsState }
{}

/// So does an act of a script.
pub fn act_keeps_state()
    ensures { ActKeepsState }
{}

/// The turn of a tick that is accepted tells the deliveries and the byte with which the reference machine
/// goes on, as one processor alone.
pub fn tick_advances()
    ensures { TickAdvances }
{}

/// So does the turn of an act that is accepted.
pub fn act_advances()
    ensures { ActAdvances }
{}

/// No step changes the frame.
pub fn steps_keep_frame()
    ensures { StepsKeepFrame }
{}

/// Before its first step a machine has written the bytes of one processor alone, over the deliveries told.
pub fn execution_begins()
    ensures { ExecutionBegins }
{}

/// So it has after each step that is accepted, with the byte and the deliveries that its turn tells.
pub fn execution_goes_on()
    ensures { ExecutionGoesOn }
{}

/// For every list of ticks and acts from the start of a program, up to a halt or the first that is refused:
/// the bytes that the turns tell are those of one processor with flat memories, over the deliveries that they
/// tell; it is the reference machine of the last state; and that keeps all that a state keeps.
pub fn every_execution()
    ensures { EveryExecution }
{}

/// So it is of the machine that is built: the bytes are those of the R2000 alone.
pub fn every_r2000_execution()
    ensures { EveryR2000Execution }
{}
