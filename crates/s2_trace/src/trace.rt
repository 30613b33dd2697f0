//! The state of one processor at any run count.

ghost use Rattle.std.specs.Prelude.{◌≡◌, ◌<◌, ◌++◌, ◌∷◌, [], true, false, length, nat_lt, slice_index, Some, IfOk, if◌then◌else◌};
ghost use Rattle.s2_base.specs.declared.map.TheConstants.{LOCAL_WORDS};
ghost use Rattle.s2_join.specs.declared.join.TheConstants.{SAVED_WORDS};
ghost use Rattle.s2_machine.specs.Machine.{Machine};
ghost use Rattle.s2_ports.specs.Events.{IsEventInRange};
ghost use Rattle.s2_saved.specs.SavedWords.{saved_words};
ghost use Rattle.s2_trace.specs.declared.numbers.TheConstants.{CHECKPOINTS, MOST_DELIVERIES};
ghost use Rattle.s2_trace.specs.Travel.{kept_run, slot};
ghost use Rattle.s2_trace.specs.TraceState.{machine_at, fresh_trace, AreUpTo, KeepsLast};

use crate::timeline::Timeline;
use s2_base::Memory;
use s2_elf::Image;
use s2_machine::Delivery;
use s2_ports::Event;
use s2_saved::save_word;
use std::alloc::Global;
use std::marker::Model;

/// One processor with flat memories under a list of deliveries, whose machine is asked for at run counts, forwards
/// and backwards. Only `new` takes memory, some 40 MB.
#[derive(Drop)]
pub struct Trace {
    timeline: Timeline,
    asked: bool,
}

impl Model for Trace {
    ghost use Rattle.s2_trace.specs.TraceState.{TraceState, IsTrace};

    ghost Value = { TraceState };

    ghost view = { λ t. record {
      start = t.timeline.start;
      every = t.timeline.every;
      deliveries = t.timeline.deliveries;
      present = t.timeline.present;
      slots = t.timeline.slots;
      asked = t.asked;
    } };

    ghost invariant = { λ t. IsTrace t.timeline t.asked };
}

impl Trace {
    /// The trace of a program, at its start. A machine is kept at each multiple of `every`, which is not 0.
    ///
    /// `Memory` where its room was refused.
    pub fn new(alloc: Global, image: &Image, every: u64) -> Result<Trace, Memory>
        requires { 0 < every }
        ensures { IfOk result (λ t. t ≡ fresh_trace image.now every) }
    {
        let timeline = Timeline::new(alloc, image, every)?;
        Ok(Trace {
            timeline,
            asked: false,
        })
    }

    /// One delivery more, not before the last one, and before any run count was asked for: false exactly where
    /// `MOST_DELIVERIES` are held, and then nothing changes. Private values are at most `NO_VALUE` each.
    pub fn push(&mut self, run: u64, event: Event) -> bool
        requires order { AreUpTo run self.old.deliveries }
        requires first { self.old.asked ≡ false }
        requires range { IsEventInRange event }
        ensures room { result ≡ nat_lt (length self.old.deliveries) MOST_DELIVERIES }
        ensures next { (self.new.asked ≡ false) × AreUpTo run self.new.deliveries }
        ensures pushed { self.new ≡ (if result then record self.old { deliveries = self.old.deliveries ++ record { run = run; event = event } ∷ [] } else self.old) }
    {
        self.timeline.push(Delivery { run, event })
    }

    /// The present machine is the one at run count `n`, or the one that has halted before. Of the multiples of
    /// `every` that it has passed or reached beyond where it was, the last `CHECKPOINTS` are kept.
    pub fn at(&mut self, n: u64)
        ensures present { self.new.present ≡ machine_at self.old n }
        ensures slots { KeepsLast self.old self.new }
        ensures rest { self.new ≡ record self.old { present = self.new.present; slots = self.new.slots; asked = true } }
    {
        self.timeline.at(n);
        self.asked = true;
    }

    /// The run count of the machine in slot `i`, if one is kept there.
    pub fn kept(&self, i: u8) -> Option<u64>
        requires { i < CHECKPOINTS }
        ensures run { result ≡ kept_run (slot self.now.slots i) }
        ensures machine { (m : Machine) → slot self.now.slots i ≡ Some m → m ≡ machine_at self.now m.cpu.run }
    {
        self.timeline.kept(i)
    }

    /// Saved word `k`, below `SAVED_WORDS`, of the present machine's processor.
    pub fn word(&self, k: u8) -> u32
        requires { k < SAVED_WORDS }
        ensures { result ≡ slice_index (saved_words self.now.present.cpu) k }
    {
        save_word(self.timeline.present().cpu(), k)
    }

    /// Word `i`, below `LOCAL_WORDS`, of the present machine's local list.
    pub fn local_word(&self, i: u32) -> u32
        requires { i < LOCAL_WORDS }
        ensures { result ≡ slice_index self.now.present.local i }
    {
        self.timeline.present().local_word(i)
    }

    /// The present machine's run count.
    pub fn run(&self) -> u64
        ensures { result ≡ self.now.present.cpu.run }
    {
        self.timeline.run()
    }
}
