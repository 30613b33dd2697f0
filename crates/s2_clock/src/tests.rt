//! The rule of fair clocks, run.

ghost use Rattle.std.specs.Prelude.{◌<◌};

use crate::{Slow, Watch};
use std::test::Fail;

/// Runs so many ticks with one mask, of which none may be refused.
fn run(rt: &impl std::process::Abort, watch: &mut Watch, ticks: u8, mask: u8)
    requires { mask < 8 }
{
    for _ in 0..ticks {
        assert_eq!(rt; watch.tick(mask, None), Ok(()));
    }
}

#[test]
fn the_fifth_miss_in_sixty_four_ticks_is_refused(rt: HostRuntime) -> Result<(), Fail> {
    let mut watch = Watch::new();
    run(&rt, &mut watch, 4, 0b011);
    run(&rt, &mut watch, 59, 0b111);
    assert_eq!(rt; watch.tick(0b011, None), Err(Slow { p: 2, misses: 5 }));
    run(&rt, &mut watch, 1, 0b111);
    assert_eq!(rt;
        watch.tick(0b011, None),
        Ok(()),
        "the oldest miss is forgotten"
    );
    Ok(())
}

#[test]
fn the_least_slow_processor_is_named_and_the_tainted_one_is_not_watched(
    rt: HostRuntime,
) -> Result<(), Fail> {
    let mut watch = Watch::new();
    run(&rt, &mut watch, 4, 0b001);
    assert_eq!(rt; watch.tick(0b000, None), Err(Slow { p: 1, misses: 5 }));
    assert_eq!(rt; watch.tick(0b000, Some(1)), Err(Slow { p: 2, misses: 5 }));
    assert_eq!(rt; watch.tick(0b101, Some(1)), Ok(()));
    assert_eq!(rt;
        watch.tick(0b101, None),
        Err(Slow { p: 1, misses: 5 }),
        "its tick under taint was no miss"
    );
    Ok(())
}
