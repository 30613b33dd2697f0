//! The delivery of events at an agreed Sync, and the counts that it is agreed by.

ghost use Rattle.s2_device.specs.DeviceState.{device_after};
ghost use Rattle.s2_triplex.specs.StepTurns.{delivery_notes};
ghost use Rattle.s2_triplex.specs.VotedAccess.{deliveries_at, device_after_events, seen_in, seen_of};
ghost use Rattle.s2_voter.specs.VoterState.{IsVoter};
ghost use Rattle.std.specs.Prelude.{◌≡◌, ◌<◌, ◌≤◌, ◌+◌, ◌++◌, drop, length, take};

use crate::inbox::Inbox;
use arrayvec::ArrayVec;
use s2_device::Board;
use s2_journal::Note;
use s2_ports::{Posted, Request, same};
use s2_voter::Voter;

/// The first event that waits acts, with a note, where one waits.
fn deliver_one(devices: &mut Board, inbox: &mut Inbox, notes: &mut ArrayVec<Note, 12>, run: u64)
    requires room { length notes.old.items < 12 }
    ensures device { devices.new ≡ device_after_events devices.old (take 1 inbox.old) }
    ensures inbox { inbox.new ≡ drop 1 inbox.old }
    ensures notes { notes.new.items
        ≡ notes.old.items ++ delivery_notes (deliveries_at run (take 1 inbox.old)) }
    ensures most { length notes.new.items ≤ length notes.old.items + 1 }
{
    match inbox.take() {
        Some(event) => {
            devices.deliver(event);
            notes.push(Note::Delivered { run, event });
        }
        None => {}
    }
}

/// So many of the events that wait act, in their order, each with a note.
pub fn deliver_all(
    devices: &mut Board,
    inbox: &mut Inbox,
    notes: &mut ArrayVec<Note, 12>,
    run: u64,
    n: u64,
)
    requires room { length notes.old.items ≤ 2 }
    requires most { n ≤ 8 }
    ensures device { devices.new ≡ device_after_events devices.old (take n inbox.old) }
    ensures inbox { inbox.new ≡ drop n inbox.old }
    ensures notes { notes.new.items
        ≡ notes.old.items ++ delivery_notes (deliveries_at run (take n inbox.old)) }
{
    for i in 0..n {
        deliver_one(devices, inbox, notes, run);
    }
}
