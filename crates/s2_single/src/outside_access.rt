//! The access of global memory or a device that a cycle asks for.

ghost use Rattle.std.specs.Prelude.{◌≡◌, ◌<◌, ◌≤◌, ℕ, List, None, length};
ghost use Rattle.s2_base.specs.declared.devices.TheConstants.{PRIV2};
ghost use Rattle.s2_base.specs.declared.map.TheConstants.{GLOBAL_WORDS};
ghost use Rattle.s2_device.specs.DeviceState.{Device};
ghost use Rattle.s2_machine.specs.OutsideAccess.{access_of_request, access_at};

use s2_base::{Place, bytes_into, place};
use s2_device::{Board, Effect};
use s2_ports::{Kind, Request};
use s2_store::{FlatStore, Store};

/// What an access gives that reads a word and has no effect outside.
fn word_alone(word: u32) -> Effect
    ensures { result ≡ record { word = word; out = None; halt = None } }
{
    Effect {
        word,
        out: None,
        halt: None,
    }
}

/// The access of word `i` of global memory: a load reads it, a store writes its masked bytes.
fn access_global(global: &mut FlatStore, i: u32, request: &Request) -> Effect
    requires index { i < length global.old }
    requires mask { request.now.mask < 16 }
    ensures access { (device : Device)
        → access_at global.old device request.now.kind request.now.word request.now.mask (Place.Global i)
        ≡ record { word = result.word; global = global.new; device = device; out = result.out; halt = result.halt } }
    ensures size { length global.new ≡ length global.old }
{
    match request.kind {
        Kind::Load => word_alone(global.word(i)),
        Kind::Store => {
            let old = global.word(i);
            global.set(i, bytes_into(old, request.word, request.mask));
            word_alone(0)
        }
        Kind::Sync => word_alone(0),
    }
}

/// The access of device register `k`.
fn access_device(board: &mut Board, k: u32, request: &Request) -> Effect
    requires { k ≤ PRIV2 }
    ensures { (global : List ℕ)
        → access_at global board.old request.now.kind request.now.word request.now.mask (Place.Device k)
        ≡ record { word = result.word; global = global; device = board.new; out = result.out; halt = result.halt } }
{
    match request.kind {
        Kind::Load => board.access(k, false, 0),
        Kind::Store => board.access(k, true, request.word),
        Kind::Sync => word_alone(0),
    }
}

/// The access of a request: the word that it reads, its byte for the console and its halt value.
pub fn access(global: &mut FlatStore, board: &mut Board, request: &Request) -> Effect
    requires words { length global.old ≡ GLOBAL_WORDS }
    requires mask { request.now.mask < 16 }
    ensures access { access_of_request global.old board.old request.now
        ≡ record { word = result.word; global = global.new; device = board.new; out = result.out; halt = result.halt } }
    ensures size { length global.new ≡ length global.old }
{
    match place(request.address) {
        Place::Global(i) => access_global(global, i, request),
        Place::Device(k) => access_device(board, k, request),
        Place::Local(_) | Place::Boot(_) | Place::Nowhere => word_alone(0),
    }
}
