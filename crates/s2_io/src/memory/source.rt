//! Sources in memory.

ghost use Rattle.std.specs.Prelude.{◌≡◌, ◌<◌, ◌≤◌, ◌++◌, IfOk, IsOk, OnErr, OnOk, is_err, length, take, drop, Some};
ghost use Rattle.s2_io.specs.Counts.{Rose, count_of};
ghost use Rattle.s2_io.specs.Sources.{dropped, Gives};
ghost use Rattle.s2_io.specs.ListedCalls.{uncalled, called, is_failing};
ghost use Rattle.s2_io.specs.MemorySources.{given_count, source_after};

use super::calls::Calls;
use crate::{Failed, Source};
use s2_base::Memory;
use std::alloc::Global;
use std::marker::Model;

/// Bytes in memory to be read, without a read that fails.
#[derive(Drop)]
pub struct QuietSource {
    bytes: Vec<u8>,
    at: usize,
    piece: usize,
}

impl Model for QuietSource {
    ghost use Rattle.std.specs.Prelude.{◌<◌, ◌≤◌, length, drop};
    ghost use Rattle.s2_io.specs.MemorySources.{SourceState};

    ghost Value = { SourceState };

    ghost view = { λ s. record { left = drop s.at s.bytes.items; piece = s.piece } };

    ghost invariant = { λ s. (s.at ≤ length s.bytes.items) × (0 < s.piece) };
}

impl QuietSource {
    /// A source of these bytes, which gives at most `piece` of them at a read, at least 1.
    ///
    /// `Memory` where the copy of the bytes was refused its memory.
    pub fn new(alloc: Global, bytes: &[u8], piece: usize) -> Result<QuietSource, Memory>
        requires { 0 < piece }
        ensures { IfOk result (λ s. s ≡ record { left = bytes.now; piece = piece }) }
    {
        match bytes.to_vec(alloc) {
            Ok(bytes) => Ok(QuietSource {
                bytes,
                at: 0,
                piece,
            }),
            Err(_) => Err(Memory),
        }
    }

    /// The bytes that are left.
    pub fn left(&self) -> &[u8]
        ensures { result.now ≡ self.now.left }
    {
        &self.bytes[self.at..]
    }

    /// How many reads failed: none.
    pub fn faults(&self) -> u64
        ensures { result ≡ 0 }
    {
        0
    }
}

impl Source for QuietSource {
    ghost left = { λ s. Some s.left };

    ghost faults = { λ _. 0 };

    fn read(&mut self, into: &mut [u8]) -> Result<usize, Failed>
        requires { 0 < length into.old }
        ensures count { IfOk result (λ n. n ≤ length into.new) }
        ensures bytes { IfOk result (λ n. Gives (Some self.old.left) n into.new) }
        ensures rest { Some self.new.left ≡ dropped (Some self.old.left) (count_of result) }

        // It never fails, and gives as much as may be.
        ensures never_fails { IsOk result }
        ensures given { IfOk result (λ n. n ≡ given_count self.old (length into.old)) }
        ensures into { into.new ≡ take (count_of result) self.old.left ++ drop (count_of result) into.old }
        ensures source { self.new ≡ source_after self.old (count_of result) }
    {
        let rest = &self.bytes[self.at..];
        let n = rest.len().min(into.len()).min(self.piece);
        into[..n].copy_from_slice(&rest[..n]);
        self.at += n;
        Ok(n)
    }
}

/// Bytes in memory to be read, of whose reads the listed ones fail.
#[derive(Drop)]
pub struct MemSource {
    quiet: QuietSource,
    calls: Calls,
}

impl Model for MemSource {
    ghost use Rattle.s2_io.specs.MemorySources.{MemSourceState};

    ghost Value = { MemSourceState };

    ghost view = { λ s. record { source = s.quiet; calls = s.calls } };
}

impl MemSource {
    /// A source of these bytes, which gives at most `piece` of them at a read, at least 1, and whose
    /// reads with a number of `fails` fail. The first read has number 1.
    ///
    /// `Memory` where a copy was refused its memory.
    pub fn new(
        alloc: Global,
        bytes: &[u8],
        piece: usize,
        fails: &[u64],
    ) -> Result<MemSource, Memory>
        requires { 0 < piece }
        ensures { IfOk result (λ s. s ≡ record {
          source = record { left = bytes.now; piece = piece };
          calls = uncalled fails.now;
        }) }
    {
        let calls = Calls::new(alloc, fails)?;
        let quiet = QuietSource::new(alloc, bytes, piece)?;
        Ok(MemSource { quiet, calls })
    }

    /// The bytes that are left.
    pub fn left(&self) -> &[u8]
        ensures { result.now ≡ self.now.source.left }
    {
        self.quiet.left()
    }

    /// How many reads failed.
    pub fn faults(&self) -> u64
        ensures { result ≡ self.now.calls.faults }
    {
        self.calls.faults()
    }
}

impl Source for MemSource {
    ghost left = { λ s. Some s.source.left };

    ghost faults = { λ s. s.calls.faults };

    fn read(&mut self, into: &mut [u8]) -> Result<usize, Failed>
        requires { 0 < length into.old }
        ensures count { IfOk result (λ n. n ≤ length into.new) }
        ensures bytes { IfOk result (λ n. Gives (Some self.old.source.left) n into.new) }
        ensures rest { Some self.new.source.left ≡ dropped (Some self.old.source.left) (count_of result) }
        ensures faults_stay { self.old.calls.faults ≤ self.new.calls.faults }
        ensures failed { OnErr result (Rose self.old.calls.faults self.new.calls.faults) }
        ensures passed { OnOk result (self.new.calls.faults ≡ self.old.calls.faults) }

        // It fails at exactly the listed reads, and else gives as much as may be.
        ensures fails { is_err result ≡ is_failing self.old.calls }
        ensures given { IfOk result (λ n. n ≡ given_count self.old.source (length into.old)) }
        ensures into { into.new ≡ take (count_of result) self.old.source.left ++ drop (count_of result) into.old }
        ensures source { self.new.source ≡ source_after self.old.source (count_of result) }
        ensures calls { self.new.calls ≡ called self.old.calls (is_err result) }
    {
        let read_fails = self.calls.is_failing();
        self.calls.count(read_fails);
        if read_fails {
            return Err(Failed);
        }
        self.quiet.read(into)
    }
}
