//! Laws on which the machine of three processors rests, over plain data.
//!
//! Each law is a public function without a body, whose contract is the law: the statement stands in
//! `specs/`. A program never calls one; a body whose proof needs a law may.
#![tactic(auto)]

ghost use Rattle.s2_plant_laws.specs.BoundedSkew.{TickBoundsSkew, ActBoundsSkew, ResumeBoundsSkew};
ghost use Rattle.s2_plant_laws.specs.ClockPace.{TickBoundsClock};
ghost use Rattle.s2_plant_laws.specs.FairClocks.{FairTicks};
ghost use Rattle.s2_plant_laws.specs.NextRequest.{RequestComes, RequestIsLastWork};
ghost use Rattle.s2_plant_laws.specs.TickHistory.{FairClockWorks};
ghost use Rattle.s2_plant_laws.specs.VoterTimer.{VoterTimer};
ghost use Rattle.s2_plant_laws.specs.WaitingTime.{VerdictBoundsWait, SkewBoundsWait, StatedWait};
ghost use Rattle.s2_plant_laws.specs.WorkSpan.{SpanIsLeast, SpanBounds};

mod numbers;
mod repair;

pub use numbers::{
    LONG_SKEW_BOUND, LONG_STATED_REINTEGRATION, LONG_STATED_WAIT, SKEW_BOUND, STATED_REINTEGRATION,
    STATED_WAIT,
};
pub use repair::{
    copied_pages_after_act, copied_pages_after_run, copied_pages_after_sync,
    copied_pages_after_word, copied_pages_at_start, lists_equal_at_last_word, next_sync_moves,
    repair_counts, repair_progresses, stated_reintegration, stores_mark_pages, words_of_sync,
};

/// The span of j firings of work is the least number of ticks that hold them on every fair clock.
pub fn span_is_least()
    ensures { SpanIsLeast }
{}

/// The spans of a frame's work, 1,107 ticks for 1,024 run cycles and 4,409 for 4,096; and by how much a span
/// exceeds its work, with every frame that a machine may be given.
pub fn span_bounds()
    ensures { SpanBounds }
{}

/// A fair clock does j firings of work within the span of j.
pub fn fair_clock_works()
    ensures { FairClockWorks }
{}

/// A tick is refused exactly where a good processor would be too slow, and the clocks stay fair.
pub fn fair_ticks()
    ensures { FairTicks }
{}

/// A tick leaves one good processor within its bounds.
pub fn tick_bounds_clock()
    ensures { TickBoundsClock }
{}

/// A tick without a decision leaves the skew bounded.
pub fn tick_bounds_skew()
    ensures { TickBoundsSkew }
{}

/// An act of the script leaves the skew bounded, whichever processor it disturbs.
pub fn act_bounds_skew()
    ensures { ActBoundsSkew }
{}

/// The skew is bounded at each resume: at the start, after a decision, and while a repair copies.
pub fn resume_bounds_skew()
    ensures { ResumeBoundsSkew }
{}

/// At the verdict of a tick no request has waited longer than the skew and the timer.
pub fn verdict_bounds_wait()
    ensures { VerdictBoundsWait }
{}

/// Where the skew is bounded, so is each waiting time.
pub fn skew_bounds_wait()
    ensures { SkewBoundsWait }
{}

/// The stated wait, 210 ticks with frames of up to 1,024 run cycles and 696 with longer ones, is the skew and the
/// timer together, and no request waits longer.
pub fn stated_wait()
    ensures { StatedWait }
{}

/// The age and the timer of these laws are the voter's.
pub fn voter_timer()
    ensures { VoterTimer }
{}

/// Where a processor asks for the outside within so many cycles, there is a first request.
pub fn request_comes()
    ensures { RequestComes }
{}

/// The first request comes exactly before the last firing of the work up to it.
pub fn request_is_last_work()
    ensures { RequestIsLastWork }
{}
