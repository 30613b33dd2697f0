//! What each lawful step keeps, and how long requests wait: with no premise but that the step is lawful.

ghost use Rattle.s2_triplex_laws.specs.LawfulSteps.{ActKeepsInvariant, BoardFaultKeepsInvariant, DecisionsFindAllLatched, EventKeepsInvariant, FaultKeepsInvariant, FirstStateInvariant, RemovalKeepsInvariant, TickKeepsInvariant, TicksDecideRight};
ghost use Rattle.s2_triplex_laws.specs.RequestWaits.{RequestsWaitBriefly, VerdictsComeInTime};

/// The state at the start of a program keeps masking and bounded skew.
pub fn first_state_invariant()
    ensures { FirstStateInvariant }
{}

/// A tick that is not refused keeps them, and advances the reference machine.
pub fn tick_keeps_invariant()
    ensures { TickKeepsInvariant }
{}

/// Where a decision is due at such a tick, every good processor is latched.
pub fn decisions_find_all_latched()
    ensures { DecisionsFindAllLatched }
{}

/// What such a tick decides is right and in time, and no verdict is split.
pub fn ticks_decide_right()
    ensures { TicksDecideRight }
{}

/// A fault of one processor that is not refused keeps masking and bounded skew, whatever its module is then.
pub fn fault_keeps_invariant()
    ensures { FaultKeepsInvariant }
{}

/// A removal that is not refused keeps them.
pub fn removal_keeps_invariant()
    ensures { RemovalKeepsInvariant }
{}

/// An event keeps them.
pub fn event_keeps_invariant()
    ensures { EventKeepsInvariant }
{}

/// A fault of a board that is not refused keeps them, and the contents of global memory.
pub fn board_fault_keeps_invariant()
    ensures { BoardFaultKeepsInvariant }
{}

/// Each act but the begin of a reintegration keeps them, where it is not refused.
pub fn act_keeps_invariant()
    ensures { ActKeepsInvariant }
{}

/// Between ticks a good processor's request has waited for less than the stated wait of the frame.
pub fn requests_wait_briefly()
    ensures { RequestsWaitBriefly }
{}

/// At the verdict of a tick a good processor's request has waited for the stated wait of the frame at most.
pub fn verdicts_come_in_time()
    ensures { VerdictsComeInTime }
{}
