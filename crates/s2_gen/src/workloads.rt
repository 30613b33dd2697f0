//! What a workload is.

use s2_elf::Image;
use s2_script::Entry;

/// How many workloads there are; they are numbered from 1. The limit is this project's own.
pub const WORKLOADS: u32 = 1000;

/// A built-in workload.
#[derive(Drop)]
pub struct Workload {
    /// The program in memory.
    pub image: Image,
    /// What the lines of its script say, in their order.
    pub entries: Vec<Entry>,
}
