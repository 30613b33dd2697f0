//! The voter's part of a step, as calls of the voter.

ghost use Rattle.s2_triplex_laws.specs.VoterTurn.{LatchingByCalls, RemovalIsACall, MembersLeaveByCalls, NamedAreProcessors, JoinerIsAdded};

/// Up to the verdict of a tick: the age grows, and then each member without a latch, whose port holds a
/// request, is latched.
pub fn latching_by_calls()
    ensures { LatchingByCalls }
{}

/// A removal drops a member.
pub fn removal_is_a_call()
    ensures { RemovalIsACall }
{}

/// A decision drops whom it names, and clears the latches and the age.
pub fn members_leave_by_calls()
    ensures { MembersLeaveByCalls }
{}

/// Whom a decision names is 0, 1 or 2.
pub fn named_are_processors()
    ensures { NamedAreProcessors }
{}

/// A processor that was brought back is added to the members.
pub fn joiner_is_added()
    ensures { JoinerIsAdded }
{}
