//! The reference machine and the good processors, and how its runs add up.

ghost use Rattle.s2_triplex_laws.specs.ReferenceFacts.{DeliveredRunsAdd, FrameEndsAreDue, GoodAreAhead, RunGoesOn};

/// Local cycles lead from the reference machine to every good processor.
pub fn good_are_ahead()
    ensures { GoodAreAhead }
{}

/// A frame's end is due in a good processor exactly at a frame's end, and none has passed one since the last
/// resume.
pub fn frame_ends_are_due()
    ensures { FrameEndsAreDue }
{}

/// A run to a run count and on to another, each under its deliveries, is one run.
pub fn delivered_runs_add()
    ensures { DeliveredRunsAdd }
{}

/// A run that came to the reference machine goes on over a step that advances it.
pub fn run_goes_on()
    ensures { RunGoesOn }
{}
