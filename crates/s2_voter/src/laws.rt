//! What two equal latches decide, whatever the third holds.

ghost use Rattle.s2_voter.specs.VoterLaws.{TwoEqualLatchesDecide};

/// Where the latches of two processors hold one request, the verdict is that request as soon as a decision is
/// due, and neither of the two is named.
pub fn two_equal_latches_decide()
    ensures { TwoEqualLatchesDecide }
{}
