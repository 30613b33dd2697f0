//! The order of events.

ghost use Rattle.s2_triplex_laws.specs.EventOrder.{ActsAcceptInOrder, FrameEndsDeliverWhatWasSeen, TicksDeliverInOrder};
ghost use Rattle.s2_triplex_laws.specs.PromptEvents.{StepsDeliverInOrder, StepsKeepSeen, SyncsArePrompt};

/// What a tick delivers, and then what still waits, is what waited.
pub fn ticks_deliver_in_order()
    ensures { TicksDeliverInOrder }
{}

/// An event that is accepted waits behind the others.
pub fn acts_accept_in_order()
    ensures { ActsAcceptInOrder }
{}

/// A frame's end delivers what all good processors had seen when they asked for it, or eight events.
pub fn frame_ends_deliver_what_was_seen()
    ensures { FrameEndsDeliverWhatWasSeen }
{}

/// A step keeps what the good processors had seen when they posted a request.
pub fn steps_keep_what_was_seen()
    ensures { StepsKeepSeen }
{}

/// A synchronisation delivers what was accepted before any good processor posted it, or eight events.
pub fn syncs_are_prompt()
    ensures { SyncsArePrompt }
{}

/// What a step delivers, and then what still waits, is what waited and the event that it brings.
pub fn steps_deliver_in_order()
    ensures { StepsDeliverInOrder }
{}
