//! What the voter says, and which request its latches share.

ghost use Rattle.std.specs.Prelude.{◌≡◌, count_by};
ghost use Rattle.s2_voter.specs.RequestEquality.{is_same_request};
ghost use Rattle.s2_voter.specs.Verdicts.{agreed_request, holds_request, request_of};

use s2_ports::{Posted, Request, same};

/// What the voter says.
#[derive(Debug, Clone, Copy, PartialEq, Eq)]
pub enum Verdict {
    /// No decision is due.
    Waiting,
    /// At least two latched members ask for the request. The remaining member, if any, is named: it differs
    /// where its latch holds another request, and it is late where it has no latch.
    Done {
        /// What the two ask for.
        request: Request,
        /// The member that differs.
        differ: Option<u8>,
        /// The member that is late.
        late: Option<u8>,
    },
    /// A decision is due, and no two latched requests are equal.
    Split,
}

/// What a latch asks for.
fn request(latch: &Option<Posted>) -> Option<Request>
    ensures { result ≡ request_of latch.now }
{
    match latch {
        Some(posted) => Some(posted.request),
        None => None,
    }
}

/// Whether two requests are equal.
fn is_same(a: &Request, b: &Request) -> bool
    ensures { result ≡ is_same_request a.now b.now }
{
    same(a, b)
}

/// Whether a latch asks for the request.
pub(crate) fn holds(latch: &Option<Posted>, request: &Request) -> bool
    ensures { result ≡ holds_request request.now latch.now }
{
    match latch {
        Some(posted) => is_same(request, &posted.request),
        None => false,
    }
}

/// How many latches ask for the request.
fn holders(latches: &[Option<Posted>], request: &Request) -> usize
    ensures { result ≡ count_by (holds_request request.now) latches.now }
{
    latches.iter().filter(|latch| holds(latch, request)).count()
}

/// The request that two latches share.
pub(crate) fn agreed(latches: &[Option<Posted>]) -> Option<Request>
    ensures { result ≡ agreed_request latches.now }
{
    latches
        .iter()
        .filter_map(|latch| request(latch))
        .find(|request| holders(latches, request) > 1)
}
