//! What a step asks of the outside, and how a word of local memory is stored.

ghost use Rattle.std.specs.Prelude.{◌≡◌, ◌<◌, length};
ghost use Rattle.s2_base.specs.Words.{bytes_into_of};
ghost use Rattle.s2_machine.specs.LocalWork.{ask_at, ask_of_step, load_request, store_request, local_stored_at, marked_at};
ghost use Rattle.s2_machine.specs.StepRanges.{IsSound, HasMask};

use s2_base::{LOCAL_WORDS, Place, bytes_into};
use s2_cpu::Cpu;
use s2_machine::{Ask, Step};
use s2_ports::{Kind, Request};
use s2_store::Store;

/// The mask of a whole word.
const WHOLE_WORD: u8 = 15;

/// An access of global memory or a device is a request.
fn ask_at(place: Place, request: Request) -> Ask
    requires { request.mask < 16 }
    ensures ask { result ≡ ask_at place request }
    ensures mask { HasMask result }
{
    match place {
        Place::Global(_) | Place::Device(_) => Ask::Outside(request),
        Place::Local(_) | Place::Boot(_) | Place::Nowhere => Ask::Local,
    }
}

/// The request of a load: the whole word.
pub fn load_request(cpu: &Cpu, address: u32) -> Request
    ensures { result ≡ load_request cpu.now address }
{
    Request {
        kind: Kind::Load,
        address,
        word: 0,
        mask: WHOLE_WORD,
        run: cpu.run,
    }
}

/// The request of a store.
pub fn store_request(cpu: &Cpu, address: u32, word: u32, mask: u8) -> Request
    ensures { result ≡ store_request cpu.now address word mask }
{
    Request {
        kind: Kind::Store,
        address,
        word,
        mask,
        run: cpu.run,
    }
}

/// What a step asks of the outside.
pub fn ask_of(cpu: &Cpu, step: Step) -> Ask
    requires { IsSound step }
    ensures ask { result ≡ ask_of_step cpu.now step }
    ensures mask { HasMask result }
{
    match step {
        Step::Load { address, place, .. } => ask_at(place, load_request(cpu, address)),
        Step::Store {
            word,
            mask,
            address,
            place,
        } => ask_at(place, store_request(cpu, address, word, mask)),
        _ => Ask::Local,
    }
}

/// A word whose masked bytes come from another; where all do, it is that one.
#[inline(always)]
fn bytes_over(old: u32, word: u32, mask: u8) -> u32
    requires { mask < 16 }
    ensures { result ≡ bytes_into_of old word mask }
{
    if mask == WHOLE_WORD {
        word
    } else {
        bytes_into(old, word, mask)
    }
}

/// Stores the masked bytes of a word at word `i` of local memory.
#[inline(always)]
pub fn store_word<S: Store>(store: &mut S, i: u32, word: u32, mask: u8)
    requires index { i < LOCAL_WORDS }
    requires mask { mask < 16 }
    requires words { length (S.words store.old) ≡ LOCAL_WORDS }
    ensures words { S.words store.new ≡ local_stored_at (S.words store.old) (Place.Local i) word mask }
    ensures size { length (S.words store.new) ≡ length (S.words store.old) }
    ensures marks { S.marks store.new ≡ marked_at (S.marks store.old) (Place.Local i) }
    ensures rest { S.rest store.new ≡ S.rest store.old }
{
    let old = store.word(i);
    store.set(i, bytes_over(old, word, mask));
}
