//! Lines that are taken a byte at a time.

ghost use Rattle.std.specs.Prelude.{◌≡◌, ◌≤◌, ◌↔◌, ℕ, List, [], take, length};
ghost use Rattle.s2_text.specs.declared.lines.Fed.{Fed};
ghost use Rattle.s2_text.specs.declared.lines.TheConstants.{LINE_FEED};
ghost use Rattle.s2_text.specs.HeldLine.{held_after};

use arrayvec::ArrayVec;
use std::marker::Model;

/// How many bytes a line of a script has at most, without its line feed (`docs/FORMATS.md`).
pub const LINE_BYTES: usize = 128;
/// How many bytes of a line are held: one more than a line may have, so that a longer one is seen to be bad.
pub const HELD_BYTES: usize = 129;
/// The byte that ends a line.
pub const LINE_FEED: u8 = b'\n';
/// The byte that a comment begins with.
pub const HASH: u8 = b'#';

/// What became of a byte.
#[derive(Debug, Clone, Copy, PartialEq, Eq)]
pub enum Fed {
    /// It is part of the line.
    Held,
    /// It was the line feed that ends the line.
    Ended,
}

/// The line so far: its first bytes, at most `HELD_BYTES`. Contracts see it as their list.
#[derive(Drop)]
pub struct Lines {
    bytes: ArrayVec<u8, HELD_BYTES>,
}

impl Model for Lines {
    ghost use Rattle.std.specs.Prelude.{ℕ, ◌≤◌, List, length};
    ghost use Rattle.s2_text.specs.declared.lines.TheConstants.{HELD_BYTES};

    ghost Value = { List ℕ };

    ghost view = { λ l. l.bytes.items };

    ghost invariant = { λ l. length l.bytes.items ≤ HELD_BYTES };
}

impl Lines {
    /// An empty line.
    pub fn new() -> Lines
        ensures { result ≡ [] }
    {
        Lines {
            bytes: ArrayVec::new(),
        }
    }

    /// Takes the next byte.
    ///
    /// `Ended` exactly for a line feed, and then the line stays as it is until it is cleared. Another byte
    /// is kept where fewer than `HELD_BYTES` are held, and dropped otherwise.
    pub fn feed(&mut self, byte: u8) -> Fed
        ensures ended { (result ≡ Fed.Ended) ↔ (byte ≡ LINE_FEED) }
        ensures line { self.new ≡ held_after self.old byte }
    {
        if byte == LINE_FEED {
            return Fed::Ended;
        }
        if self.bytes.len() < HELD_BYTES {
            self.bytes.push(byte);
        }
        Fed::Held
    }

    /// The line so far.
    pub fn line(&self) -> &[u8]
        ensures { result.now ≡ self.now }
    {
        self.bytes.as_slice()
    }

    /// Begins the next line.
    pub fn clear(&mut self)
        ensures { self.new ≡ [] }
    {
        self.bytes.clear();
    }
}

/// The first `most` bytes of a line, or all of a shorter one.
pub fn front(line: &[u8], most: usize) -> &[u8]
    ensures front { result.now ≡ take most line.now }
    ensures short { length result.now ≤ most }
{
    if line.len() > most {
        &line[..most]
    } else {
        line
    }
}
