//! The rule of fair clocks: no good processor misses more than 4 of the last 64 ticks.
//!
//! The three processors are in step only as long as their clocks are. At each tick a mask says which of
//! them fire. [`Watch`] sees every mask before the machine does, and refuses the tick that would leave a
//! good processor too far behind: what the machine promises is promised for fair clocks alone.
#![tactic(auto)]

mod numbers;
mod watch;
mod window;

pub use numbers::{
    FRAME, LONGEST_FRAME, MISSES_ALLOWED, REFRESH_FIRINGS, REFRESH_PERIOD, SHORTEST_FRAME, WINDOW,
};
pub use watch::{Slow, Watch, covers};

#[cfg(test)]
mod tests;
