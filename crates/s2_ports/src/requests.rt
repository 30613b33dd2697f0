//! What leaves a processor module, and what it is answered. The rules are this project's own
//! (`docs/MACHINE.md`).

ghost use Rattle.std.specs.Prelude.{◌≡◌, ◌↔◌, IsTrue};

/// What a request asks for.
#[derive(Debug, Clone, Copy, PartialEq, Eq)]
pub enum Kind {
    /// The word at the address.
    Load,
    /// That the masked bytes at the address take those of the word.
    Store,
    /// The synchronisation at a frame's end.
    Sync,
}

/// An access that leaves its module, by global memory or a device, or a frame's end.
#[derive(Debug, Clone, Copy, PartialEq, Eq)]
pub struct Request {
    /// What is asked for.
    pub kind: Kind,
    /// The physical address, a multiple of 4. At a frame's end it is 0.
    pub address: u32,
    /// The stored bytes in their places, and 0 elsewhere. For a load and at a frame's end it is 0.
    pub word: u32,
    /// Four bits: bit 3 stands for the byte at the lowest address. For a load it is 15, at a frame's end 0.
    pub mask: u8,
    /// The run count before the cycle that asks.
    pub run: u64,
}

/// A request in a module's port.
#[derive(Debug, Clone, Copy, PartialEq, Eq)]
pub struct Posted {
    /// What is asked.
    pub request: Request,
    /// How many events had been accepted when it was posted.
    pub seen: u64,
}

/// The answer to a request.
#[derive(Debug, Clone, Copy, PartialEq, Eq)]
pub struct Reply {
    /// The word that a load reads. For a store and at a frame's end it is 0.
    pub word: u32,
    /// The interrupt lines of the devices after the access, below 4: bit 0 while bytes wait, bit 1 while
    /// the timer line is up.
    pub lines: u8,
}

/// Whether two requests are the same: exactly where all five fields are equal.
///
/// The voter compares by this alone, whatever was seen of events.
pub fn same(a: &Request, b: &Request) -> bool
    ensures equal { IsTrue result ↔ (a.now ≡ b.now) }
{
    a == b
}
