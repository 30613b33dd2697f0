//! What a cycle asks of the outside.

use s2_ports::Request;

/// Whether a cycle stays within its processor and local memory.
#[derive(Debug, Clone, Copy, PartialEq, Eq)]
pub enum Ask {
    /// It does.
    Local,
    /// It accesses global memory or a device, by this request.
    Outside(Request),
}
