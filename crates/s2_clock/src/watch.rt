//! The watch over three clocks.

ghost use Rattle.s2_clock.specs.ClockWatch.{is_covered, is_firing, is_recorded_as_fired, is_tainted, window_at, windows_fired, windows_run, slow_at as slow_at_p, slow_of, fair_windows, tick_answer, watch_after, windows_after};
ghost use Rattle.s2_clock.specs.TickWindow.{misses_in};
ghost use Rattle.s2_clock.specs.declared.numbers.TheConstants.{MISSES_ALLOWED};
ghost use Rattle.std.specs.Prelude.{◌≡◌, ◌≢◌, ◌<◌, ◌≤◌, ℕ, None, true, length};

use crate::numbers::MISSES_ALLOWED;
use crate::window::TickWindow;
use std::marker::Model;

/// The reason why a tick is refused: a good processor whose clock is too slow.
#[derive(Debug, Clone, Copy, PartialEq, Eq)]
pub struct Slow {
    /// The processor's number, 0, 1 or 2. It is the least of those that are too slow.
    pub p: u8,
    /// How many of the last [`WINDOW`](crate::WINDOW) ticks it would have missed, the refused one included.
    pub misses: u8,
}

/// The last ticks of the three processors.
///
/// Contracts see it as three lists of [`WINDOW`](crate::WINDOW) ticks each, the newest first: true
/// where the processor fired.
#[derive(Drop)]
pub struct Watch {
    windows: [TickWindow; 3],
}

impl Model for Watch {
    ghost use Rattle.std.specs.Prelude.{List, Bool};

    ghost Value = { List (List Bool) };

    ghost view = { λ w. w.windows };
}

/// Whether a mask has processor p fire.
fn fires(mask: u8, p: u8) -> bool
    requires { p < 3 }
    ensures { result ≡ is_firing mask p }
{
    (mask >> p) & 1 == 1
}

/// Whether processor p is the tainted one.
fn taints(tainted: Option<u8>, p: u8) -> bool
    ensures { result ≡ is_tainted tainted p }
{
    tainted == Some(p)
}

/// Whether processor p is recorded as fired at a tick with a mask.
fn is_recorded(mask: u8, tainted: Option<u8>, p: u8) -> bool
    requires { p < 3 }
    ensures { result ≡ is_recorded_as_fired mask tainted p }
{
    fires(mask, p) || taints(tainted, p)
}

/// Whether each processor fires at a tick with a mask, the tainted one aside: no such tick is refused.
pub fn covers(mask: u8, tainted: Option<u8>) -> bool
    ensures { result ≡ is_covered mask tainted }
{
    is_recorded(mask, tainted, 0) && is_recorded(mask, tainted, 1) && is_recorded(mask, tainted, 2)
}

impl Watch {
    /// Three processors that fired at every tick so far, as at the start of a run.
    pub fn new() -> Watch
        ensures { result ≡ fair_windows }
    {
        Watch {
            windows: [TickWindow::new(), TickWindow::new(), TickWindow::new()],
        }
    }

    /// Says of processor p that it is too slow for a tick, where it is.
    fn slow_at(&self, mask: u8, tainted: Option<u8>, p: u8) -> Option<Slow>
        requires { p < 3 }
        ensures { result ≡ slow_at_p mask tainted self.now p }
    {
        let misses = self.windows[p as usize].misses_after(fires(mask, p));
        if misses > MISSES_ALLOWED && !taints(tainted, p) {
            Some(Slow { p, misses })
        } else {
            None
        }
    }

    /// The least processor that is too slow for a tick at which the processors fire whose bits are set in the
    /// mask: bit p for processor p. `None` exactly where the tick would not be refused. Nothing is recorded.
    pub fn slow(&self, mask: u8, tainted: Option<u8>) -> Option<Slow>
        ensures { result ≡ slow_of mask tainted self.now }
    {
        let first = self.slow_at(mask, tainted, 0);
        let second = self.slow_at(mask, tainted, 1);
        let third = self.slow_at(mask, tainted, 2);
        first.or(second).or(third)
    }

    /// Records one tick for which no processor is too slow. For the tainted processor, which may have any clock,
    /// it is recorded as fired.
    pub fn record(&mut self, mask: u8, tainted: Option<u8>)
        requires mask { mask < 8 }
        requires fair { slow_of mask tainted self.old ≡ None }
        ensures { self.new ≡ windows_after mask tainted self.old }
    {
        self.windows[0].record(fires(mask, 0), taints(tainted, 0));
        self.windows[1].record(fires(mask, 1), taints(tainted, 1));
        self.windows[2].record(fires(mask, 2), taints(tainted, 2));
    }

    /// Records one tick, at which the processors fire whose bits are set in the mask: bit p for
    /// processor p. For the tainted processor, which may have any clock, it is recorded as fired.
    ///
    /// Refused exactly where a processor that is not tainted would have missed more than
    /// [`MISSES_ALLOWED`](crate::MISSES_ALLOWED) of its last [`WINDOW`](crate::WINDOW) ticks, this one
    /// included. The answer names the least such processor, and nothing is recorded.
    ///
    /// Source: this project's own rule of fair clocks (`docs/MACHINE.md`, "Clocks").
    pub fn tick(&mut self, mask: u8, tainted: Option<u8>) -> Result<(), Slow>
        requires { mask < 8 }
        ensures answer { result ≡ tick_answer (slow_of mask tainted self.old) }
        ensures windows { self.new ≡ watch_after mask tainted self.old }
    {
        if let Some(slow) = self.slow(mask, tainted) {
            return Err(slow);
        }
        self.record(mask, tainted);
        Ok(())
    }

    /// Records so many ticks at which each processor fired, or is recorded so.
    fn fire(&mut self, n: u64)
        ensures windows { self.new ≡ windows_fired n self.old }
        ensures size { length self.old ≡ 3 }
        ensures first { misses_in (window_at self.old 0) ≤ MISSES_ALLOWED }
        ensures second { misses_in (window_at self.old 1) ≤ MISSES_ALLOWED }
        ensures third { misses_in (window_at self.old 2) ≤ MISSES_ALLOWED }
    {
        self.windows[0].fire(n);
        self.windows[1].fire(n);
        self.windows[2].fire(n);
    }

    /// Records so many ticks with a mask at which each processor fires, the tainted one aside. None of them is
    /// refused.
    pub fn record_fired(&mut self, mask: u8, tainted: Option<u8>, n: u64)
        requires covered { is_covered mask tainted ≡ true }
        ensures windows { self.new ≡ windows_run mask tainted n self.old }
        ensures lawful { (j : ℕ) → slow_of mask tainted (windows_run mask tainted j self.old) ≡ None }
    {
        self.fire(n);
    }

    /// Records the ticks with a mask that are not refused, at most so many, one after another; and how many these
    /// are, fewer than were asked for exactly where the next would be refused.
    pub fn run(&mut self, mask: u8, tainted: Option<u8>, n: u64) -> u64
        requires { mask < 8 }
        ensures few { result ≤ n }
        ensures windows { self.new ≡ windows_run mask tainted result self.old }
        ensures lawful { (j : ℕ) → j < result → slow_of mask tainted (windows_run mask tainted j self.old) ≡ None }
        ensures refused { result < n → slow_of mask tainted self.new ≢ None }
    {
        if covers(mask, tainted) {
            self.record_fired(mask, tainted, n);
            return n;
        }
        for i in 0..n {
            if self.slow(mask, tainted).is_some() {
                return i;
            }
            self.record(mask, tainted);
        }
        n
    }
}
