//! The private values of the processors that agree.

ghost use Rattle.std.specs.Prelude.{◌≡◌, ◌≤◌, length};
ghost use Rattle.s2_ports.specs.Events.{IsEventInRange};
ghost use Rattle.s2_ports.specs.declared.events.TheConstants.{NO_VALUE};
ghost use Rattle.s2_voter.specs.RequestEquality.{is_same_request};
ghost use Rattle.s2_private.specs.PrivateValues.{agreeing_value, gathered};

use s2_ports::{Event, NO_VALUE, Posted, Request, same};
use s2_voter::Voter;

/// The event of an agreed store to PRIV, of the private values of processors 0, 1 and 2.
///
/// A processor's number is its value where its latch has a request equal to the agreed one, and `NO_VALUE`
/// otherwise. There are three values. Source: the private-write area of this project (`docs/MACHINE.md`).
pub fn gather(voter: &Voter, agreed: &Request, values: &[u8]) -> Event
    requires three { length values.now ≡ 3 }
    ensures event { result ≡ gathered voter.now agreed.now values.now }
    ensures range { IsEventInRange result }
{
    Event::Private {
        a: value(voter.latched(0), agreed, values[0]),
        b: value(voter.latched(1), agreed, values[1]),
        c: value(voter.latched(2), agreed, values[2]),
    }
}

/// The number of a processor with this latch and this private value.
fn value(latch: Option<Posted>, agreed: &Request, private: u8) -> u16
    ensures value { result ≡ agreeing_value agreed.now latch private }
    ensures most { result ≤ NO_VALUE }
{
    match latch {
        Some(posted) => {
            if is_same(agreed, &posted.request) {
                u16::from(private)
            } else {
                NO_VALUE
            }
        }
        None => NO_VALUE,
    }
}

/// Whether two requests are equal.
fn is_same(a: &Request, b: &Request) -> bool
    ensures { result ≡ is_same_request a.now b.now }
{
    same(a, b)
}
