//! What the agreed count keeps where two of the counts are right.

ghost use Rattle.s2_agree.specs.CountBounds.{TwoCountsBoundTheAgreed};

/// Where two of two or three counts lie between the events delivered and the events accepted, so does the
/// agreed count, whatever the third is.
pub fn two_counts_bound_the_agreed()
    ensures { TwoCountsBoundTheAgreed }
{}
