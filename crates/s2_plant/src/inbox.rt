//! The events that wait for their delivery.

ghost use Rattle.s2_plant.specs.StepParts.{event_list};
ghost use Rattle.s2_ports.specs.Events.{IsEventInRange, comes_from_outside};
ghost use Rattle.s2_triplex.specs.declared.numbers.TheConstants.{INBOX_EVENTS};
ghost use Rattle.std.specs.Prelude.{◌≡◌, ◌<◌, ◌∷◌, ◌++◌, [], IfOk, IfSome, true, drop, length, nat_lt, take, if◌then◌else◌};

use circular_buffer::HeapCircularBuffer;
use s2_base::Memory;
use s2_ports::Event;
use s2_triplex::INBOX_EVENTS;
use std::alloc::Global;
use std::marker::Model;

/// Events from outside, in the order in which they came, at most `INBOX_EVENTS`. Only `new` takes memory.
#[derive(Drop)]
pub struct Inbox {
    events: HeapCircularBuffer<Event>,
}

impl Model for Inbox {
    ghost use Rattle.std.specs.Prelude.{◌≡◌, ◌≤◌, List, length};
    ghost use Rattle.s2_ports.specs.declared.events.Event.{Event};
    ghost use Rattle.s2_triplex.specs.declared.numbers.TheConstants.{INBOX_EVENTS};
    ghost use Rattle.s2_triplex.specs.WaitingEvents.{AreFromOutside};

    ghost Value = { List Event };

    ghost view = { λ i. i.events.items };

    ghost invariant = { λ i. (i.events.capacity ≡ INBOX_EVENTS) × (length i.events.items ≤ INBOX_EVENTS)
        × AreFromOutside i.events.items };
}

/// One more event behind the others, for which there is room.
fn push(events: &mut HeapCircularBuffer<Event>, event: Event)
    requires { length events.old.items < events.old.capacity }
    ensures items { events.new.items ≡ events.old.items ++ event ∷ [] }
    ensures capacity { events.new.capacity ≡ events.old.capacity }
{
    let _added = events.try_push_back(event);
}

impl Inbox {
    /// No event waits, and there is room for `INBOX_EVENTS`.
    ///
    /// `Memory` where the room was refused.
    pub fn new(alloc: Global) -> Result<Inbox, Memory>
        ensures { IfOk result (λ i. i ≡ []) }
    {
        match HeapCircularBuffer::with_capacity(alloc, INBOX_EVENTS) {
            Ok(events) => Ok(Inbox { events }),
            Err(_) => Err(Memory),
        }
    }

    /// One more event waits, unless `INBOX_EVENTS` do; and whether it does. It comes from outside.
    #[tactic(auto, using(crate::proofs::DeliveredEvents::grown_outside))]
    pub fn add(&mut self, event: Event) -> bool
        requires { comes_from_outside event ≡ true }
        ensures value { result ≡ nat_lt (length self.old) INBOX_EVENTS }
        ensures events { self.new
            ≡ (if nat_lt (length self.old) INBOX_EVENTS then self.old ++ event ∷ [] else self.old) }
    {
        if self.events.len() < INBOX_EVENTS {
            push(&mut self.events, event);
            true
        } else {
            false
        }
    }

    /// The event that came first, which waits no longer.
    #[tactic(auto, using(crate::proofs::DeliveredEvents::taken))]
    pub fn take(&mut self) -> Option<Event>
        ensures value { take 1 self.old ≡ event_list result }
        ensures range { IfSome result IsEventInRange }
        ensures events { self.new ≡ drop 1 self.old }
    {
        self.events.pop_front()
    }
}
