//! The agreed count. The rule is this project's own (`docs/MACHINE.md`).

ghost use Rattle.std.specs.Prelude.{◌≡◌, ◌+◌, ◌-◌, ◌^◌, ◌≤◌, length, max, min};
ghost use Rattle.s2_agree.specs.AgreedCount.{agreed_count, lower_median};

/// How many events one frame's end delivers at most.
///
/// The number is this project's own.
pub const DELIVERY_LIMIT: u64 = 8;

/// The count of events on which two or three processors agree, of the counts that they have seen.
///
/// It is the middle of three counts or the lesser of two, raised to `delivered`, the number of events
/// delivered so far, and lowered to `DELIVERY_LIMIT` more. `delivered` is at most 2^64 - 9; the counts
/// may be any numbers. Source: the agreement on events of this project (`docs/MACHINE.md`).
pub fn agreed(seen: &[u64], delivered: u64) -> u64
    requires two { 2 ≤ length seen.now }
    requires three { length seen.now ≤ 3 }
    requires room { delivered ≤ 2 ^ 64 - 9 }
    ensures count { result ≡ agreed_count seen.now delivered }
    ensures raised { delivered ≤ result }
    ensures lowered { result ≤ delivered + DELIVERY_LIMIT }
{
    delivered.max(median(seen).min(delivered + DELIVERY_LIMIT))
}

/// The middle of three counts, or the lesser of two.
fn median(seen: &[u64]) -> u64
    requires two { 2 ≤ length seen.now }
    requires three { length seen.now ≤ 3 }
    ensures { result ≡ lower_median seen.now }
{
    if seen.len() == 2 {
        seen[0].min(seen[1])
    } else {
        middle(seen[0], seen[1], seen[2])
    }
}

/// The middle of three counts.
fn middle(a: u64, b: u64, c: u64) -> u64
    ensures { result ≡ max (min a b) (min (max a b) c) }
{
    a.min(b).max(a.max(b).min(c))
}
