//! The timers of the voter: how long a decision waits for a member that is not latched, by the frame.

ghost use Rattle.std.specs.Prelude.{◌≡◌};
ghost use Rattle.s2_voter.specs.Timers.{timer_of as timer_of_frame};
ghost use Rattle.s2_voter.specs.VoterState.{IsTimer};

use s2_clock::FRAME;

/// The age at which a decision is due although a member is not latched, in ticks since the second latch, with
/// frames of up to [`FRAME`](s2_clock::FRAME) run cycles.
///
/// The number is this project's own.
pub const DECISION_TIMER: u16 = 128;

/// The same with longer frames.
pub const LONG_DECISION_TIMER: u16 = 384;

/// The voter's timer in a machine with a frame of so many run cycles, in ticks.
pub fn timer_of(frame: u64) -> u16
    ensures timer { result ≡ timer_of_frame frame }
    ensures one { IsTimer result }
{
    if frame > FRAME {
        LONG_DECISION_TIMER
    } else {
        DECISION_TIMER
    }
}
