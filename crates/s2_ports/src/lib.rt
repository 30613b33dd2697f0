//! What goes between a processor module, the voter and the devices: requests, replies and events.
#![tactic(auto)]

mod events;
mod requests;

pub use events::{BoardFault, Event, NO_VALUE};
pub use requests::{Kind, Posted, Reply, Request, same};
