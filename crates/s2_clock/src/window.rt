//! The last ticks of one processor, as a shift register.

ghost use Rattle.s2_clock.specs.declared.numbers.TheConstants.{WINDOW, MISSES_ALLOWED};
ghost use Rattle.s2_clock.specs.TickWindow.{bits_shown, misses_in, fair_window, window_after, window_fired};
ghost use Rattle.std.specs.Prelude.{◌≡◌, ◌≤◌, ◌||◌, false};

use crate::numbers::WINDOW;
use std::marker::Model;

/// The last [`WINDOW`](crate::WINDOW) ticks of one processor, of which it missed at most
/// [`MISSES_ALLOWED`](crate::MISSES_ALLOWED).
///
/// Contracts see it as the list of these ticks, the newest first: true where the processor fired.
#[derive(Drop)]
pub struct TickWindow {
    /// The ticks as bits, the newest lowest: 1 where the tick was missed.
    word: u64,
}

impl Model for TickWindow {
    ghost use Rattle.std.specs.Prelude.{List, Bool, ◌≤◌};
    ghost use Rattle.s2_clock.specs.declared.numbers.TheConstants.{WINDOW, MISSES_ALLOWED};
    ghost use Rattle.s2_clock.specs.TickWindow.{bits_shown, misses_in};

    ghost Value = { List Bool };

    ghost view = { λ t. bits_shown WINDOW t.word };

    ghost invariant = { λ t. misses_in (bits_shown WINDOW t.word) ≤ MISSES_ALLOWED };
}

/// The bits after one more tick. The oldest is shifted out.
fn shifted(word: u64, fired: bool) -> u64
    ensures { bits_shown WINDOW result ≡ window_after fired (bits_shown WINDOW word) }
{
    (word << 1) | u64::from(!fired)
}

/// The bits after so many firings. The oldest are shifted out.
fn fired(word: u64, n: u64) -> u64
    ensures { bits_shown WINDOW result ≡ window_fired n (bits_shown WINDOW word) }
{
    if n < WINDOW as u64 { word << n } else { 0 }
}

/// How many misses the bits show.
fn misses(word: u64) -> u8
    ensures value { result ≡ misses_in (bits_shown WINDOW word) }
    ensures most { result ≤ WINDOW }
{
    word.count_ones() as u8
}

impl TickWindow {
    /// A processor that fired at every tick.
    pub fn new() -> TickWindow
        ensures { result ≡ fair_window }
    {
        TickWindow { word: 0 }
    }

    /// How many of the last ticks are missed once one more has passed, that one included.
    pub fn misses_after(&self, fired: bool) -> u8
        ensures { result ≡ misses_in (window_after fired self.now) }
    {
        misses(shifted(self.word, fired))
    }

    /// Records one more tick, of the tainted processor as fired. The oldest is forgotten.
    pub fn record(&mut self, fired: bool, tainted: bool)
        requires fair { tainted ≡ false → misses_in (window_after fired self.old) ≤ MISSES_ALLOWED }
        ensures { self.new ≡ window_after (fired || tainted) self.old }
    {
        self.word = shifted(self.word, fired || tainted);
    }

    /// Records so many ticks at which it fired. The oldest are forgotten.
    pub fn fire(&mut self, n: u64)
        ensures window { self.new ≡ window_fired n self.old }
        ensures fair { misses_in self.old ≤ MISSES_ALLOWED }
    {
        self.word = fired(self.word, n);
    }
}
