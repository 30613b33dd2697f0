//! Sinks in memory.

ghost use Rattle.std.specs.Prelude.{◌≡◌, ◌≢◌, ◌<◌, ◌≤◌, IfOk, IsOk, OnErr, OnOk, is_err, length, take, Some};
ghost use Rattle.s2_io.specs.Counts.{Rose, count_of};
ghost use Rattle.s2_io.specs.Sinks.{appended};
ghost use Rattle.s2_io.specs.ListedCalls.{uncalled, called, is_failing};
ghost use Rattle.s2_io.specs.MemorySinks.{empty_sink, taken_count, sink_after};

use super::calls::Calls;
use crate::{Failed, Sink};
use s2_base::Memory;
use std::alloc::Global;
use std::marker::Model;

/// A list of bytes that grows up to its capacity, without a write that fails.
#[derive(Drop)]
pub struct QuietSink {
    bytes: Vec<u8>,
    capacity: usize,
    piece: usize,
    empty_takes: u64,
}

impl Model for QuietSink {
    ghost use Rattle.std.specs.Prelude.{◌<◌, ◌≤◌, length, vec_len, vec_capacity};
    ghost use Rattle.s2_io.specs.MemorySinks.{SinkState};

    ghost Value = { SinkState };

    ghost view = { λ s. record { taken = s.bytes.items; capacity = s.capacity; piece = s.piece; empty_takes = s.empty_takes } };

    ghost invariant = { λ s. (vec_len s.bytes ≤ s.capacity) × (s.capacity ≤ vec_capacity s.bytes) × (0 < s.piece) };
}

impl QuietSink {
    /// A sink that takes `capacity` bytes in all and at most `piece` of them at a write, at least 1. All
    /// of its room is made here.
    ///
    /// `Memory` where that room was refused.
    pub fn new(alloc: Global, capacity: usize, piece: usize) -> Result<QuietSink, Memory>
        requires { 0 < piece }
        ensures { IfOk result (λ s. s ≡ empty_sink capacity piece) }
    {
        match Vec::with_capacity(alloc, capacity) {
            Ok(bytes) => Ok(QuietSink {
                bytes,
                capacity,
                piece,
                empty_takes: 0,
            }),
            Err(_) => Err(Memory),
        }
    }

    /// All bytes that were taken, in order.
    pub fn taken(&self) -> &[u8]
        ensures { result.now ≡ self.now.taken }
    {
        self.bytes.as_slice()
    }

    /// How many writes failed: none.
    pub fn faults(&self) -> u64
        ensures { result ≡ 0 }
    {
        0
    }

    /// How many writes took nothing, for want of room.
    pub fn empty_takes(&self) -> u64
        ensures { result ≡ self.now.empty_takes }
    {
        self.empty_takes
    }
}

impl Sink for QuietSink {
    ghost taken = { λ s. Some s.taken };

    ghost faults = { λ _. 0 };

    ghost empty_takes = { λ s. s.empty_takes };

    fn write(&mut self, from: &[u8]) -> Result<usize, Failed>
        requires { 0 < length from.now }
        ensures count { IfOk result (λ n. n ≤ length from.now) }
        ensures bytes { Some self.new.taken ≡ appended (Some self.old.taken) (take (count_of result) from.now) }
        ensures empty_takes_stay { self.old.empty_takes ≤ self.new.empty_takes }
        ensures empty { IfOk result (λ n. n ≡ 0 → Rose self.old.empty_takes self.new.empty_takes) }
        ensures some { IfOk result (λ n. n ≢ 0 → self.new.empty_takes ≡ self.old.empty_takes) }

        // It never fails, and takes as much as may be; a write is an empty take exactly where no room is
        // left.
        ensures never_fails { IsOk result }
        ensures given { IfOk result (λ n. n ≡ taken_count self.old (length from.now)) }
        ensures sink { self.new ≡ sink_after self.old from.now result }
    {
        let room = self.capacity - self.bytes.len();
        let n = from.len().min(self.piece).min(room);
        self.bytes.extend_from_slice(&from[..n]).unwrap();
        if n == 0 {
            self.empty_takes = self.empty_takes.saturating_add(1);
        }
        Ok(n)
    }
}

/// A list of bytes that grows up to its capacity, and of whose writes the listed ones fail.
#[derive(Drop)]
pub struct MemSink {
    quiet: QuietSink,
    calls: Calls,
}

impl Model for MemSink {
    ghost use Rattle.s2_io.specs.MemorySinks.{MemSinkState};

    ghost Value = { MemSinkState };

    ghost view = { λ s. record { sink = s.quiet; calls = s.calls } };
}

impl MemSink {
    /// A sink that takes `capacity` bytes in all and at most `piece` of them at a write, at least 1, and
    /// whose writes with a number of `fails` fail. The first write has number 1. All of its room is made
    /// here.
    ///
    /// `Memory` where that room or the copy of `fails` was refused.
    pub fn new(
        alloc: Global,
        capacity: usize,
        piece: usize,
        fails: &[u64],
    ) -> Result<MemSink, Memory>
        requires { 0 < piece }
        ensures { IfOk result (λ s. s ≡ record { sink = empty_sink capacity piece; calls = uncalled fails.now }) }
    {
        let calls = Calls::new(alloc, fails)?;
        let quiet = QuietSink::new(alloc, capacity, piece)?;
        Ok(MemSink { quiet, calls })
    }

    /// All bytes that were taken, in order.
    pub fn taken(&self) -> &[u8]
        ensures { result.now ≡ self.now.sink.taken }
    {
        self.quiet.taken()
    }

    /// How many writes failed.
    pub fn faults(&self) -> u64
        ensures { result ≡ self.now.calls.faults }
    {
        self.calls.faults()
    }

    /// How many writes took nothing, for want of room.
    pub fn empty_takes(&self) -> u64
        ensures { result ≡ self.now.sink.empty_takes }
    {
        self.quiet.empty_takes()
    }
}

impl Sink for MemSink {
    ghost taken = { λ s. Some s.sink.taken };

    ghost faults = { λ s. s.calls.faults };

    ghost empty_takes = { λ s. s.sink.empty_takes };

    fn write(&mut self, from: &[u8]) -> Result<usize, Failed>
        requires { 0 < length from.now }
        ensures count { IfOk result (λ n. n ≤ length from.now) }
        ensures bytes { Some self.new.sink.taken
            ≡ appended (Some self.old.sink.taken) (take (count_of result) from.now) }
        ensures faults_stay { self.old.calls.faults ≤ self.new.calls.faults }
        ensures failed { OnErr result (Rose self.old.calls.faults self.new.calls.faults) }
        ensures passed { OnOk result (self.new.calls.faults ≡ self.old.calls.faults) }
        ensures empty_takes_stay { self.old.sink.empty_takes ≤ self.new.sink.empty_takes }
        ensures empty { IfOk result (λ n. n ≡ 0 → Rose self.old.sink.empty_takes self.new.sink.empty_takes) }
        ensures some { IfOk result (λ n. n ≢ 0 → self.new.sink.empty_takes ≡ self.old.sink.empty_takes) }
        ensures none { OnErr result (self.new.sink.empty_takes ≡ self.old.sink.empty_takes) }

        // It fails at exactly the listed writes, and else takes as much as may be; a write is an empty
        // take exactly where no room is left.
        ensures fails { is_err result ≡ is_failing self.old.calls }
        ensures given { IfOk result (λ n. n ≡ taken_count self.old.sink (length from.now)) }
        ensures sink { self.new.sink ≡ sink_after self.old.sink from.now result }
        ensures calls { self.new.calls ≡ called self.old.calls (is_err result) }
    {
        let write_fails = self.calls.is_failing();
        self.calls.count(write_fails);
        if write_fails {
            return Err(Failed);
        }
        self.quiet.write(from)
    }
}
