//! Counts whose agreement is known from the rule.

use crate::agreed;
use std::test::Fail;

#[test]
fn the_median_is_kept_within_one_delivery(rt: HostRuntime) -> Result<(), Fail> {
    assert_eq!(rt; agreed(&[0, 1, 0], 0), 0);
    assert_eq!(rt; agreed(&[9, 9, 18_446_744_073_709_551_615], 0), 8);
    assert_eq!(rt; agreed(&[3, 5], 4), 4);
    Ok(())
}
