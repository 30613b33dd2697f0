//! A voter in a few situations of the rule, and one whose latches are cleared.

use crate::{Verdict, Voter, timer_of};
use s2_ports::{Kind, Posted, Request};
use std::test::Fail;

/// A store of `word`, posted after two events.
fn posted(word: u32) -> Posted {
    Posted {
        request: Request {
            kind: Kind::Store,
            address: 0x0400_0000,
            word,
            mask: 15,
            run: 7,
        },
        seen: 2,
    }
}

#[test]
fn a_member_that_asks_for_another_word_differs(rt: HostRuntime) -> Result<(), Fail> {
    let mut voter = Voter::new();
    voter.latch(1, posted(5));
    voter.latch(0, posted(6));
    assert_eq!(rt; voter.verdict(), Verdict::Waiting);
    voter.latch(2, posted(5));
    let done = Verdict::Done {
        request: posted(5).request,
        differ: Some(0),
        late: None,
    };
    assert_eq!(rt; voter.verdict(), done);
    Ok(())
}

#[test]
fn a_member_is_late_128_ticks_after_the_second_latch(rt: HostRuntime) -> Result<(), Fail> {
    let mut voter = Voter::new();
    voter.latch(0, posted(5));
    voter.latch(1, posted(5));
    for _ in 0..127 {
        voter.tick();
    }
    assert_eq!(rt; voter.verdict(), Verdict::Waiting);
    voter.tick();
    let done = Verdict::Done {
        request: posted(5).request,
        differ: None,
        late: Some(2),
    };
    assert_eq!(rt; voter.verdict(), done);
    Ok(())
}

#[test]
fn a_member_is_late_384_ticks_after_the_second_latch_with_the_long_timer(
    rt: HostRuntime,
) -> Result<(), Fail> {
    let mut voter = Voter::new();
    voter.set_timer(timer_of(1025));
    voter.latch(0, posted(5));
    voter.latch(1, posted(5));
    for _ in 0..383 {
        voter.tick();
    }
    assert_eq!(rt; voter.verdict(), Verdict::Waiting);
    voter.tick();
    let done = Verdict::Done {
        request: posted(5).request,
        differ: None,
        late: Some(2),
    };
    assert_eq!(rt; voter.verdict(), done);
    Ok(())
}
