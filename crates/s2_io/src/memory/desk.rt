//! Desks in memory.

ghost use Rattle.std.specs.Prelude.{◌≡◌, ◌≢◌, ◌<◌, ◌≤◌, ◌↔◌, ℕ, List, IfOk, IfErr, IsTrue, length, Some};
ghost use Rattle.s2_io.specs.Desks.{GivesHeld, DeskCause, SameFaults, SameLarge, large_after};
ghost use Rattle.s2_io.specs.ListedCalls.{uncalled, called};
ghost use Rattle.s2_io.specs.MemoryDesks.{held_of, is_desk_failing};

use super::calls::Calls;
use crate::{Desk, DeskFault};
use s2_base::Memory;
use std::alloc::Global;
use std::marker::Model;

/// One file in memory, which stands under every name, without a call that fails.
#[derive(Drop)]
pub struct QuietDesk {
    bytes: Vec<u8>,
    large: u64,
}

impl Model for QuietDesk {
    ghost use Rattle.s2_io.specs.MemoryDesks.{DeskState};

    ghost Value = { DeskState };

    ghost view = { λ d. record { bytes = d.bytes.items; large = d.large } };
}

impl QuietDesk {
    /// A desk that holds these bytes under every name, whatever `_name` is.
    ///
    /// `Memory` where the copy of the bytes was refused its memory.
    pub fn new(alloc: Global, _name: &str, bytes: &[u8]) -> Result<QuietDesk, Memory>
        ensures { IfOk result (λ d. d ≡ record { bytes = bytes.now; large = 0 }) }
    {
        match bytes.to_vec(alloc) {
            Ok(bytes) => Ok(QuietDesk { bytes, large: 0 }),
            Err(_) => Err(Memory),
        }
    }

    /// How many calls failed: none.
    pub fn faults(&self) -> u64
        ensures { result ≡ 0 }
    {
        0
    }
}

impl Desk for QuietDesk {
    ghost held = { λ d _. Some d.bytes };

    ghost faults = { λ _ _. 0 };

    ghost large = { λ d. d.large };

    fn whole(&mut self, alloc: Global, _name: &str, limit: usize) -> Result<Vec<u8>, DeskFault>
        ensures bytes { IfOk result (λ v. GivesHeld (Some self.old.bytes) v.items) }
        ensures bounded { IfOk result (λ v. length v.items ≤ limit) }
        ensures cause { IfErr result (λ e. DeskCause e (Some self.old.bytes) limit 0 0 self.old.large self.new.large) }
        ensures held_stays { self.new.bytes ≡ self.old.bytes }
        ensures large_stays { self.old.large ≤ self.new.large }
        ensures fitted { SameLarge result self.old.large self.new.large }

        // It never fails, and a file is too big exactly above the limit.
        ensures never_fails { result ≢ Err DeskFault.Failed }
        ensures too_big { IfErr result (λ e. e ≢ DeskFault.Memory → limit < length self.old.bytes) }
        ensures given { IfOk result (λ v. v.items ≡ self.old.bytes) }
        ensures large { self.new.large ≡ large_after result self.old.large }
    {
        if self.bytes.len() > limit {
            self.large = self.large.saturating_add(1);
            return Err(DeskFault::TooBig { limit });
        }
        match self.bytes.as_slice().to_vec(alloc) {
            Ok(bytes) => Ok(bytes),
            Err(_) => Err(DeskFault::Memory),
        }
    }
}

/// One file in memory, which stands under its name, and of whose calls the listed ones fail.
#[derive(Drop)]
pub struct MemDesk {
    name: String,
    quiet: QuietDesk,
    calls: Calls,
}

impl Model for MemDesk {
    ghost use Rattle.std.specs.Prelude.{string_bytes};
    ghost use Rattle.s2_io.specs.MemoryDesks.{MemDeskState};

    ghost Value = { MemDeskState };

    ghost view = { λ d. record { name = string_bytes d.name; desk = d.quiet; calls = d.calls } };
}

impl MemDesk {
    /// A desk that holds these bytes under this name, and whose calls with a number of `fails` fail.
    /// The first call has number 1. A call for another name fails too.
    ///
    /// `Memory` where a copy was refused its memory.
    pub fn new(alloc: Global, name: &str, bytes: &[u8], fails: &[u64]) -> Result<MemDesk, Memory>
        ensures { IfOk result (λ d. d ≡ record {
          name = name.now;
          desk = record { bytes = bytes.now; large = 0 };
          calls = uncalled fails.now;
        }) }
    {
        let calls = Calls::new(alloc, fails)?;
        let quiet = QuietDesk::new(alloc, name, bytes)?;
        match String::from_str(alloc, name) {
            Ok(name) => Ok(MemDesk { name, quiet, calls }),
            Err(_) => Err(Memory),
        }
    }

    /// How many calls failed, under every name.
    pub fn faults(&self) -> u64
        ensures { result ≡ self.now.calls.faults }
    {
        self.calls.faults()
    }
}

impl Desk for MemDesk {
    ghost held = { held_of };

    ghost faults = { λ d _. d.calls.faults };

    ghost large = { λ d. d.desk.large };

    fn whole(&mut self, alloc: Global, name: &str, limit: usize) -> Result<Vec<u8>, DeskFault>
        ensures bytes { IfOk result (λ v. GivesHeld (held_of self.old name.now) v.items) }
        ensures bounded { IfOk result (λ v. length v.items ≤ limit) }
        ensures cause { IfErr result (λ e. DeskCause e (held_of self.old name.now) limit
            self.old.calls.faults self.new.calls.faults self.old.desk.large self.new.desk.large) }
        ensures held_stays { (n : List ℕ) → held_of self.new n ≡ held_of self.old n }
        ensures faults_stay { self.old.calls.faults ≤ self.new.calls.faults }
        ensures large_stays { self.old.desk.large ≤ self.new.desk.large }
        ensures passed { SameFaults result (λ _. self.old.calls.faults) (λ _. self.new.calls.faults) }
        ensures fitted { SameLarge result self.old.desk.large self.new.desk.large }

        // It fails at exactly the listed calls and under a name that it does not hold, and a file is
        // too big exactly above the limit.
        ensures fails { IsTrue (is_desk_failing self.old name.now) ↔ (result ≡ Err DeskFault.Failed) }
        ensures too_big { IfErr result (λ e. e ≢ DeskFault.Failed → e ≢ DeskFault.Memory → limit < length self.old.desk.bytes) }
        ensures given { IfOk result (λ v. v.items ≡ self.old.desk.bytes) }
        ensures calls { self.new.calls ≡ called self.old.calls (is_desk_failing self.old name.now) }
        ensures large { self.new.desk.large ≡ large_after result self.old.desk.large }
    {
        let call_fails = self.calls.is_failing() || name != self.name.as_str();
        self.calls.count(call_fails);
        if call_fails {
            return Err(DeskFault::Failed);
        }
        self.quiet.whole(alloc, name, limit)
    }
}
