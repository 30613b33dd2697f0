//! The stretches of a run: cycles to a run count, and the deliveries that are due.

ghost use Rattle.std.specs.Prelude.{◌≡◌, ◌+◌, ◌<◌, ◌≤◌, ◌-◌, ◌^◌, length, drop};
ghost use Rattle.s2_ports.specs.Events.{IsEventInRange};
ghost use Rattle.s2_machine.specs.MachineRun.{later_deliveries};
ghost use Rattle.s2_trace.specs.Timeline.{after_cycles, after_due, after_event_unless, keeps_above, to_delivery, to_checkpoint};
ghost use Rattle.s2_trace.specs.Travel.{AreInRange};

use crate::numbers::CHECKPOINTS;
use s2_machine::Delivery;
use s2_ports::Event;
use s2_single::Single;

/// Runs at most `cycles` cycles, to a halt.
pub fn run_cycles(machine: &mut Single, cycles: u64)
    ensures { machine.new ≡ after_cycles cycles machine.old }
{
    let mut left = cycles;
    while left > 0 {
        if machine.halted().is_some() {
            return;
        }
        left = machine.burst(left).left;
    }
}

/// An event acts on a machine that has not halted.
fn deliver(machine: &mut Single, event: Event)
    requires { IsEventInRange event }
    ensures { machine.new ≡ after_event_unless machine.old event }
{
    if machine.halted().is_none() {
        machine.deliver(event);
    }
}

/// The deliveries from number `next` on act that are due at the machine's run count, unless it has halted: the
/// number of the first that is not due.
pub fn deliver_due(machine: &mut Single, deliveries: &[Delivery], next: usize) -> usize
    requires next { next ≤ length deliveries.now }
    requires range { AreInRange deliveries.now }
    ensures machine { machine.new ≡ after_due (drop next deliveries.now) machine.old }
    ensures next { drop result deliveries.now ≡ later_deliveries machine.old.cpu.run (drop next deliveries.now) }
    ensures within { result ≤ length deliveries.now }
{
    let run = machine.run();
    let mut at = next;
    while at < deliveries.len() {
        let delivery = deliveries[at];
        if delivery.run > run {
            return at;
        }
        deliver(machine, delivery.event);
        at += 1;
    }
    at
}

/// The number of the first delivery that is not due at a run count.
pub fn first_later(deliveries: &[Delivery], run: u64) -> usize
    ensures next { drop result deliveries.now ≡ later_deliveries run deliveries.now }
    ensures within { result ≤ length deliveries.now }
{
    for (at, delivery) in deliveries.iter().enumerate() {
        if delivery.run > run {
            return at;
        }
    }
    deliveries.len()
}

/// How many cycles there are to the next run count that is a multiple of `every`.
pub fn cycles_to_checkpoint(every: u64, run: u64) -> u64
    requires { 0 < every }
    ensures { result ≡ to_checkpoint every run }
{
    every - run % every
}

/// The run count above which machines are kept on a run from run count `floor` to `end`: the last `CHECKPOINTS`
/// multiples of `every` are above it, so no other needs to be kept.
pub fn keeping_from(every: u64, floor: u64, end: u64) -> u64
    ensures { result ≡ keeps_above every floor end }
{
    let span = every.saturating_mul(CHECKPOINTS as u64);
    floor.max(end.saturating_sub(span))
}

/// The least of `most` and how many cycles there are to the next delivery.
pub fn cycles_to_delivery(most: u64, run: u64, deliveries: &[Delivery], next: usize) -> u64
    ensures { result ≡ to_delivery most run (drop next deliveries.now) }
{
    if next < deliveries.len() {
        most.min(deliveries[next].run.saturating_sub(run))
    } else {
        most
    }
}
