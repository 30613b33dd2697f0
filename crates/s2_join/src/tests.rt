//! The order of copying at worked places.

ghost use Rattle.std.specs.Prelude.{◌<◌};

use crate::{Item, Join};
use std::test::Fail;

/// Copies until no word is left, and counts the words of the local list and the saved words.
fn copy_all(join: &mut Join) -> (u32, u32) {
    let mut local = 0u32;
    let mut saved = 0u32;
    for _ in 0..300_000u32 {
        if join.resting() {
            return (local, saved);
        }
        match join.next() {
            Item::Local(_) => local = local.wrapping_add(1),
            Item::Saved(_) => saved = saved.wrapping_add(1),
        }
    }
    (local, saved)
}

/// A Sync before which the members stored to each page below `pages`, and the words that it copies.
fn sync(join: &mut Join, pages: u16) -> Option<(u32, u32)>
    requires { pages < 272 }
{
    for page in 0..pages {
        if !join.resting() || join.ended() {
            return None;
        }
        join.stored(page);
    }
    if !join.resting() || join.ended() {
        return None;
    }
    join.at_sync();
    Some(copy_all(join))
}

#[test]
fn page_0_is_copied_first_and_then_page_1_though_page_0_is_stored_to(
    rt: HostRuntime,
) -> Result<(), Fail> {
    let mut join = Join::begin(1);
    join.at_sync();
    for i in 0..1024u32 {
        if join.resting() {
            return Err(Fail::new("too few words"));
        }
        assert_eq!(rt; join.next(), Item::Local(i));
    }
    if !join.resting() || join.ended() {
        return Err(Fail::new("too many words"));
    }
    join.stored(0);
    join.at_sync();
    if join.resting() {
        return Err(Fail::new("no word"));
    }
    assert_eq!(rt; join.next(), Item::Local(1024));
    assert_eq!(rt; join.left(), 1023);
    assert_eq!(rt; join.joiner(), 1);
    Ok(())
}

#[test]
fn without_stores_264_syncs_copy_a_page_each_and_the_next_one_closes(
    rt: HostRuntime,
) -> Result<(), Fail> {
    let mut join = Join::begin(2);
    for number in 0..264u32 {
        assert_eq!(rt; sync(&mut join, 0), Some((1024, 0)), "Sync {number}");
    }
    assert_eq!(rt; join.unclean(), 8);
    assert_eq!(rt; join.ended(), false);
    assert_eq!(rt; sync(&mut join, 0), Some((8192, 176)));
    assert_eq!(rt; join.unclean(), 0);
    assert_eq!(rt; join.ended(), true);
    Ok(())
}

#[test]
fn under_stores_to_256_pages_544_syncs_copy_a_page_each_and_the_next_one_closes(
    rt: HostRuntime,
) -> Result<(), Fail> {
    let mut join = Join::begin(1);
    for number in 0..544u32 {
        assert_eq!(rt; sync(&mut join, 256), Some((1024, 0)), "Sync {number}");
    }
    assert_eq!(rt; join.ended(), false);
    assert_eq!(rt; sync(&mut join, 256), Some((262_144, 176)));
    assert_eq!(rt; join.ended(), true);
    Ok(())
}
