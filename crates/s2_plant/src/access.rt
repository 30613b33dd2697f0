//! The access that was agreed: of global memory, on both boards, or of a device.

ghost use Rattle.s2_base.specs.declared.devices.TheConstants.{PRIV2};
ghost use Rattle.s2_base.specs.declared.map.TheConstants.{GLOBAL_WORDS};
ghost use Rattle.s2_base.specs.Map.{place_at};
ghost use Rattle.s2_base.specs.Words.{bytes_into_of};
ghost use Rattle.s2_device.specs.DeviceState.{Device};
ghost use Rattle.s2_duplex.specs.DuplexBoards.{valid_word};
ghost use Rattle.s2_revive.specs.MendingBoards.{memory_of, mending_written};
ghost use Rattle.s2_machine.specs.OutsideAccess.{access_at, access_of_request};
ghost use Rattle.s2_machine.specs.PrivateArea.{is_private_place, stores_at};
ghost use Rattle.s2_plant.specs.StepParts.{agreed_events, effect_of, event_list};
ghost use Rattle.s2_ports.specs.Events.{IsEventInRange};
ghost use Rattle.s2_triplex.specs.R2000Triplex.{boards_after_access, boards_after_request};
ghost use Rattle.s2_triplex.specs.StepTurns.{delivery_notes, repair_notes};
ghost use Rattle.s2_triplex.specs.VotedAccess.{deliveries_at, device_after_events, global_index, repaired_at};
ghost use Rattle.std.specs.Prelude.{◌≡◌, ◌<◌, ◌≤◌, ◌+◌, ◌++◌, ℕ, List, None, IfSome, length};

use arrayvec::ArrayVec;
use s2_base::{PRIV, Place, place};
use s2_device::{Board, Effect};
use s2_journal::Note;
use s2_module::Module;
use s2_ports::{Event, Kind, Request};
use s2_private::gather;
use s2_revive::Revive;
use s2_voter::Voter;

/// What an access gives.
#[derive(Debug, Clone, Copy, PartialEq, Eq)]
pub struct Accessed {
    /// The word that is read, the byte for the console and the halt value.
    pub effect: Effect,
    /// The board of which a word was rewritten, if one was.
    pub repaired: Option<u8>,
}

/// An access that reads a word and has no other effect.
fn word_alone(word: u32, repaired: Option<u8>) -> Accessed
    ensures effect { result.effect ≡ record { word = word; out = None; halt = None } }
    ensures repaired { result.repaired ≡ repaired }
{
    Accessed {
        effect: Effect {
            word,
            out: None,
            halt: None,
        },
        repaired,
    }
}

/// The masked bytes of word `i` of global memory become those of `word`. Of the mask, four bits count.
#[tactic(auto, using(crate::proofs::ByteMasks::four_bits))]
fn store(boards: &mut Revive, i: u32, word: u32, mask: u8)
    requires { i < GLOBAL_WORDS }
    ensures { boards.new ≡ mending_written boards.old i (bytes_into_of (valid_word boards.old.pair i) word mask) }
{
    boards.write(i, word, mask % 16);
}

/// The access of word `i` of global memory.
fn access_global(boards: &mut Revive, i: u32, request: &Request) -> Accessed
    requires { i < GLOBAL_WORDS }
    ensures boards { boards.new
        ≡ (boards_after_access boards.old request.now.kind request.now.word request.now.mask (Place.Global i)).boards }
    ensures repaired { result.repaired
        ≡ (boards_after_access boards.old request.now.kind request.now.word request.now.mask (Place.Global i)).repaired }
    ensures effect { (device : Device) → result.effect
        ≡ effect_of (access_at (memory_of boards.old) device request.now.kind request.now.word request.now.mask (Place.Global i)) }
{
    match request.kind {
        Kind::Load => {
            let got = boards.read(i);
            word_alone(got.word, got.repaired)
        }
        Kind::Store => {
            store(boards, i, request.word, request.mask);
            word_alone(0, None)
        }
        Kind::Sync => word_alone(0, None),
    }
}

/// The access of register `k` of the devices.
fn access_device(devices: &mut Board, k: u32, request: &Request) -> Accessed
    requires { k ≤ PRIV2 }
    ensures device { (global : List ℕ) → devices.new
        ≡ (access_at global devices.old request.now.kind request.now.word request.now.mask (Place.Device k)).device }
    ensures effect { (global : List ℕ) → result.effect
        ≡ effect_of (access_at global devices.old request.now.kind request.now.word request.now.mask (Place.Device k)) }
    ensures repaired { result.repaired ≡ None }
{
    let effect = match request.kind {
        Kind::Load => devices.access(k, false, 0),
        Kind::Store => devices.access(k, true, request.word),
        Kind::Sync => Effect {
            word: 0,
            out: None,
            halt: None,
        },
    };
    Accessed {
        effect,
        repaired: None,
    }
}

/// The access of a request.
pub fn access(boards: &mut Revive, devices: &mut Board, request: &Request) -> Accessed
    ensures boards { boards.new ≡ (boards_after_request boards.old request.now).boards }
    ensures repaired { result.repaired ≡ (boards_after_request boards.old request.now).repaired }
    ensures device { devices.new
        ≡ (access_of_request (memory_of boards.old) devices.old request.now).device }
    ensures effect { result.effect
        ≡ effect_of (access_of_request (memory_of boards.old) devices.old request.now) }
{
    match place(request.address) {
        Place::Global(i) => access_global(boards, i, request),
        Place::Device(k) => access_device(devices, k, request),
        Place::Local(_) | Place::Boot(_) | Place::Nowhere => word_alone(0, None),
    }
}

/// Whether a place is that of PRIV.
fn is_private_place(place: Place) -> bool
    ensures { result ≡ is_private_place place }
{
    match place {
        Place::Device(k) => k == PRIV,
        Place::Local(_) | Place::Boot(_) | Place::Global(_) | Place::Nowhere => false,
    }
}

/// Whether a request stores to PRIV.
fn stores_private(request: &Request) -> bool
    ensures { result ≡ stores_at request.now.kind (place_at request.now.address) }
{
    match request.kind {
        Kind::Store => is_private_place(place(request.address)),
        Kind::Load | Kind::Sync => false,
    }
}

/// The event of an agreed store to PRIV, and none of another request.
pub fn private_event(modules: &[Module; 3], voter: &Voter, request: &Request) -> Option<Event>
    ensures event { event_list result
        ≡ agreed_events voter.now modules.now request.now request.now.kind }
    ensures range { IfSome result IsEventInRange }
{
    if stores_private(request) {
        let values = [
            modules[0].private(),
            modules[1].private(),
            modules[2].private(),
        ];
        Some(gather(voter, request, &values))
    } else {
        None
    }
}

/// It acts on the devices before the access does.
pub fn deliver_private(devices: &mut Board, event: Option<Event>)
    requires { IfSome event IsEventInRange }
    ensures { devices.new ≡ device_after_events devices.old (event_list event) }
{
    if let Some(event) = event {
        devices.deliver(event);
    }
}

/// Its note.
pub fn note_private(notes: &mut ArrayVec<Note, 12>, run: u64, event: Option<Event>)
    requires { length notes.old.items < 12 }
    ensures { notes.new.items
        ≡ notes.old.items ++ delivery_notes (deliveries_at run (event_list event)) }
{
    if let Some(event) = event {
        notes.push(Note::Delivered { run, event });
    }
}

/// The index of the word of global memory at an address, and 0 elsewhere.
fn index_at(address: u32) -> u32
    ensures { result ≡ global_index (place_at address) }
{
    match place(address) {
        Place::Global(i) => i,
        Place::Local(_) | Place::Boot(_) | Place::Device(_) | Place::Nowhere => 0,
    }
}

/// The note of a word that was rewritten on a board, if one was.
pub fn note_repair(notes: &mut ArrayVec<Note, 12>, tick: u64, address: u32, repaired: Option<u8>)
    requires { length notes.old.items < 12 }
    ensures notes { notes.new.items
        ≡ notes.old.items ++ repair_notes tick (repaired_at address repaired) }
    ensures most { length notes.new.items ≤ length notes.old.items + 1 }
{
    if let Some(board) = repaired {
        let index = index_at(address);
        notes.push(Note::Repaired { tick, board, index });
    }
}
