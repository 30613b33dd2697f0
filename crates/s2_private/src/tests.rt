//! A decision of two with a late third, and one that differs.

use crate::gather;
use s2_ports::{Event, Kind, NO_VALUE, Posted, Request};
use s2_voter::Voter;
use std::test::Fail;

/// A store of `word` to PRIV.
fn posted(word: u32) -> Posted {
    Posted {
        request: Request {
            kind: Kind::Store,
            address: 0x1F00_0018,
            word,
            mask: 15,
            run: 7,
        },
        seen: 2,
    }
}

#[test]
fn who_does_not_agree_has_no_value(rt: HostRuntime) -> Result<(), Fail> {
    let agreed = posted(5).request;
    let mut voter = Voter::new();
    voter.latch(1, posted(5));
    voter.latch(2, posted(5));
    let late = Event::Private {
        a: NO_VALUE,
        b: 255,
        c: 0,
    };
    assert_eq!(rt; gather(&voter, &agreed, &[9, 255, 0]), late);
    voter.latch(0, posted(6));
    assert_eq!(rt; gather(&voter, &agreed, &[9, 255, 0]), late);
    Ok(())
}
