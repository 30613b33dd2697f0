//! The top call: a program and a script in, console bytes and a report out.
#![tactic(auto)]

mod check;
mod closing;
mod cycles;
mod dispatch;
mod fault;
mod laws;
mod limits;
mod lines;
mod load;
mod loading;
mod output;
mod replay;
mod report;
mod run;
mod script_lines;
mod single;
mod status;
mod stepping;
mod verdict;
mod words;

pub use dispatch::serve;
pub use laws::{
    inputs_have_one_run, mend_lines_leave_scripts, mends_leave_scripts, replays_give_the_same,
    scripts_are_masked, unversioned_scripts_stay,
};
pub use limits::{FILE_LIMIT, INPUT_LIMIT, TICK_LIMIT};
pub use status::Status;

#[cfg(test)]
mod tests;
