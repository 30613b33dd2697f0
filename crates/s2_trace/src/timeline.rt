//! A run that is stopped at chosen run counts.

ghost use Rattle.std.specs.Prelude.{◌≡◌, ◌<◌, ◌≤◌, ◌-◌, true, false, length, min, nat_lt, None, IfOk, IsSome, if◌then◌else◌};
ghost use Rattle.s2_ports.specs.Events.{IsEventInRange};
ghost use Rattle.s2_machine.specs.Machine.{started};
ghost use Rattle.s2_trace.specs.declared.numbers.TheConstants.{CHECKPOINTS, MOST_DELIVERIES};
ghost use Rattle.s2_trace.specs.Timeline.{after_step, after_stretch, cycles_ahead, is_checkpoint, keeps_above, settled, slot_of, with_checkpoint};
ghost use Rattle.s2_trace.specs.Travel.{HasArrived, IsOnTheWay, IsPutBack, IsTimeline, fresh_timeline, kept_run, pushed, restarted, resumed, slot};

use crate::checkpoint::{Checkpoint, empty_checkpoints, latest};
use crate::numbers::{CHECKPOINTS, MOST_DELIVERIES};
use crate::stretch::{
    cycles_to_checkpoint, cycles_to_delivery, deliver_due, first_later, keeping_from, run_cycles,
};
use s2_base::Memory;
use s2_elf::Image;
use s2_machine::Delivery;
use s2_single::Single;
use std::alloc::Global;
use std::marker::Model;

/// The machine at the start of a program, its present machine, its deliveries, and the machines that are kept.
#[derive(Drop)]
pub struct Timeline {
    start: Single,
    every: u64,
    deliveries: Vec<Delivery>,
    present: Single,
    next: usize,
    slots: Vec<Checkpoint>,
}

impl Model for Timeline {
    ghost use Rattle.std.specs.Prelude.{◌≤◌, ◌<◌, ◌≡◌, drop, length, vec_capacity};
    ghost use Rattle.s2_trace.specs.declared.numbers.TheConstants.{CHECKPOINTS, MOST_DELIVERIES};
    ghost use Rattle.s2_trace.specs.Timeline.{Timeline};
    ghost use Rattle.s2_trace.specs.Travel.{AreInRange};

    ghost Value = { Timeline };

    ghost view = { λ t. record {
      start = t.start;
      every = t.every;
      deliveries = t.deliveries.items;
      present = t.present;
      waiting = drop t.next t.deliveries.items;
      slots = t.slots.items;
    } };

    ghost invariant = { λ t. (t.next ≤ length t.deliveries.items) × (0 < t.every) × (length t.slots.items ≡ CHECKPOINTS)
        × (MOST_DELIVERIES ≤ vec_capacity t.deliveries) × AreInRange t.deliveries.items };
}

impl Timeline {
    /// The timeline of a program, before any delivery.
    ///
    /// `Memory` where its room was refused.
    pub fn new(alloc: Global, image: &Image, every: u64) -> Result<Timeline, Memory>
        requires { 0 < every }
        ensures { IfOk result (λ t. t ≡ fresh_timeline (started image.now.entry image.now.local image.now.global) every) }
    {
        let deliveries = match Vec::with_capacity(alloc, MOST_DELIVERIES) {
            Ok(deliveries) => deliveries,
            Err(_) => return Err(Memory),
        };
        let slots = empty_checkpoints(alloc, image)?;
        let start = Single::new(alloc, image)?;
        let present = Single::new(alloc, image)?;
        Ok(Timeline {
            start,
            every,
            deliveries,
            present,
            next: 0,
            slots,
        })
    }

    /// One delivery more: false exactly where `MOST_DELIVERIES` are held, and then nothing changes.
    pub fn push(&mut self, delivery: Delivery) -> bool
        requires { IsEventInRange delivery.event }
        ensures room { result ≡ nat_lt (length self.old.deliveries) MOST_DELIVERIES }
        ensures pushed { self.new ≡ (if result then pushed self.old delivery else self.old) }
    {
        if self.deliveries.len() >= MOST_DELIVERIES {
            return false;
        }
        self.deliveries.push(delivery).is_ok()
    }

    /// The present machine.
    pub fn present(&self) -> &Single
        ensures { result.now ≡ self.now.present }
    {
        &self.present
    }

    /// The run count of the machine in slot `i`, if one is kept there.
    pub fn kept(&self, i: u8) -> Option<u64>
        requires { i < CHECKPOINTS }
        ensures { result ≡ kept_run (slot self.now.slots i) }
    {
        self.slots[i as usize].run()
    }

    /// The machine is the started one again.
    fn restart(&mut self)
        ensures { self.new ≡ restarted self.old }
    {
        self.present.copy_from(&self.start);
        self.next = 0;
    }

    /// The machine is the kept one of slot `i`.
    fn resume(&mut self, i: usize)
        requires within { i < length self.old.slots }
        requires kept { IsSome (slot self.old.slots i) }
        ensures machine { slot self.old.slots i ≡ Some self.new.present }
        ensures resumed { self.new ≡ resumed self.old self.new.present }
    {
        self.slots[i].restore(&mut self.present);
        self.next = first_later(self.deliveries.as_slice(), self.present.run());
    }

    /// Where the machine has passed run count `n`, it is the newest one that was kept up to there, or the started one.
    fn put_back(&mut self, n: u64)
        requires { IsTimeline self.old }
        ensures { IsPutBack n self.old self.new }
    {
        if self.present.run() <= n {
            return;
        }
        if let Some(i) = latest(self.slots.as_slice(), n) {
            self.resume(i);
            return;
        }
        self.restart();
    }

    /// Runs to run count `n`, and keeps machines above the run count that it came from: the last `CHECKPOINTS` that are
    /// to be kept. Where the machine halts before `n`, those are found in a second run.
    pub fn at(&mut self, n: u64)
        requires { IsTimeline self.old }
        ensures { HasArrived self.old.present.cpu.run n self.old self.new }
    {
        let floor = self.run();
        let from = self.keeping_from(floor, n);
        self.run_from(from, n);
        let last = self.keeping_from(floor, self.run());
        if last < from {
            self.run_from(last, n);
        }
    }

    /// The present machine's run count.
    pub fn run(&self) -> u64
        ensures { result ≡ self.now.present.cpu.run }
    {
        self.present.run()
    }

    /// The run count above which machines are kept on a run from `floor` to `end`.
    fn keeping_from(&self, floor: u64, end: u64) -> u64
        ensures { result ≡ keeps_above self.now.every floor end }
    {
        keeping_from(self.every, floor, end)
    }

    /// Runs to run count `n`, from a machine that has passed neither that nor `floor`, and keeps machines above `floor`.
    fn run_from(&mut self, floor: u64, n: u64)
        requires { IsTimeline self.old }
        ensures { HasArrived floor n self.old self.new }
    {
        self.put_back(floor.min(n));
        self.settle();
        self.go_on(floor, n);
    }

    /// The deliveries act that are due.
    fn settle(&mut self)
        ensures { self.new ≡ settled self.old }
    {
        self.next = deliver_due(&mut self.present, self.deliveries.as_slice(), self.next);
    }

    /// Cycles to the next run count at which something is to be done.
    fn run_stretch(&mut self, n: u64)
        ensures { self.new ≡ after_stretch n self.old }
    {
        let run = self.present.run();
        let most = n
            .saturating_sub(run)
            .min(cycles_to_checkpoint(self.every, run));
        let cycles = cycles_to_delivery(most, run, self.deliveries.as_slice(), self.next);
        run_cycles(&mut self.present, cycles);
    }

    /// The present machine is kept where its run count is above `floor` and a multiple of `every`.
    fn keep(&mut self, floor: u64)
        ensures { self.new ≡ with_checkpoint floor self.old }
    {
        let run = self.present.run();
        if floor < run && run % self.every == 0 {
            let slot = (run / self.every % CHECKPOINTS as u64) as usize;
            self.slots[slot].keep(&self.present);
        }
    }

    /// One stretch of a run to run count `n`.
    fn step(&mut self, floor: u64, n: u64)
        ensures { self.new ≡ after_step floor n self.old }
    {
        self.run_stretch(n);
        self.settle();
        self.keep(floor);
    }

    /// Whether the present machine has neither halted nor come to run count `n`.
    fn goes_on(&self, n: u64) -> bool
        ensures yes { (result ≡ true) → (self.now.present.halt ≡ None) × (self.now.present.cpu.run < n) }
        ensures no { (result ≡ false) → self.now.present.halt ≡ None → n ≤ self.now.present.cpu.run }
    {
        match self.present.halted() {
            Some(_) => false,
            None => self.present.run() < n,
        }
    }

    /// Runs to run count `n` or to a halt, and keeps machines above run count `floor`.
    fn go_on(&mut self, floor: u64, n: u64)
        requires { IsOnTheWay floor n self.old self.old }
        ensures { HasArrived floor n self.old self.new }
    {
        while self.goes_on(n) {
            self.step(floor, n);
        }
    }
}
