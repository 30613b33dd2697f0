//! The requests of a module: the synchronisation at a frame's end, and whether it asks for a given one.

ghost use Rattle.s2_triplex.specs.ModuleState.{is_frame_end, sync_request};
ghost use Rattle.s2_triplex.specs.ModuleAnswer.{is_asking};
ghost use Rattle.s2_voter.specs.RequestEquality.{is_same_request};
ghost use Rattle.std.specs.Prelude.{◌≡◌, ◌<◌, ◌%◌, ◌==◌};

use s2_clock::FRAME;
use s2_core::Ask;
use s2_ports::{Kind, Request, same};

/// The request at a frame's end, at a run count.
pub fn sync(run: u64) -> Request
    ensures { result ≡ sync_request run }
{
    Request {
        kind: Kind::Sync,
        address: 0,
        word: 0,
        mask: 0,
        run,
    }
}

/// Whether a frame of so many run cycles ends at a run count: at each positive multiple. One of none never ends.
#[inline(always)]
#[tactic(auto, using(crate::proofs::ModuleViews::no_frame_end))]
pub fn ends_frame(frame: u16, run: u64) -> bool
    ensures { result ≡ is_frame_end frame run }
{
    frame > 0 && run > 0 && is_whole(frame, run)
}

/// Whether a run count is a multiple of a frame: with [`FRAME`](s2_clock::FRAME) without a division.
fn is_whole(frame: u16, run: u64) -> bool
    requires { 0 < frame }
    ensures { result ≡ (run % frame == 0) }
{
    if frame as u64 == FRAME {
        run % FRAME == 0
    } else {
        run % frame as u64 == 0
    }
}

/// Whether two requests are equal.
fn is_same(a: &Request, b: &Request) -> bool
    ensures { result ≡ is_same_request a.now b.now }
{
    same(a, b)
}

/// Whether what is asked is this request.
pub fn asks_for(ask: &Ask, request: &Request) -> bool
    ensures { result ≡ is_asking ask.now request.now }
{
    match ask {
        Ask::Local => false,
        Ask::Outside(asked) => is_same(request, asked),
    }
}
