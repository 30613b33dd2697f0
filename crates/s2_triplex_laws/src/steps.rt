//! What each kind of step keeps: latches agree, replicas are equal, and the reference machine runs on as one
//! processor alone would.

ghost use Rattle.s2_triplex_laws.specs.StepMasking.{AccessAdvancesReference, AccessKeepsAgreement, AccessKeepsReplicas, BoardFaultKeepsMasking, EventKeepsMasking, FaultKeepsMasking, RemovalKeepsMasking, SyncAdvancesReference, SyncKeepsAgreement, SyncKeepsReplicas, TickKeepsMasking, WaitAdvancesReference, WaitKeepsAgreement, WaitKeepsReplicas};

/// A tick without a decision keeps membership, latches, lines and boards.
pub fn wait_keeps_agreement()
    ensures { WaitKeepsAgreement }
{}

/// A tick without a decision keeps the good processors equal up to local cycles.
pub fn wait_keeps_replicas()
    ensures { WaitKeepsReplicas }
{}

/// In a tick without a decision the reference machine goes on by local cycles at most.
pub fn wait_advances_reference()
    ensures { WaitAdvancesReference }
{}

/// A tick that decides a load or a store keeps membership, latches, lines and boards.
pub fn access_keeps_agreement()
    ensures { AccessKeepsAgreement }
{}

/// After a tick that decides a load or a store the good processors are equal.
pub fn access_keeps_replicas()
    ensures { AccessKeepsReplicas }
{}

/// A load or a store that was decided is the reference machine's own, with the same byte.
pub fn access_advances_reference()
    ensures { AccessAdvancesReference }
{}

/// A tick that decides a frame's end keeps membership, latches, lines and boards.
pub fn sync_keeps_agreement()
    ensures { SyncKeepsAgreement }
{}

/// After a tick that decides a frame's end the good processors are equal.
pub fn sync_keeps_replicas()
    ensures { SyncKeepsReplicas }
{}

/// At a frame's end the reference machine sees the same events at the same run count.
pub fn sync_advances_reference()
    ensures { SyncAdvancesReference }
{}

/// Any tick keeps all of this, where each decision finds every good processor latched.
pub fn tick_keeps_masking()
    ensures { TickKeepsMasking }
{}

/// So does a fault of one processor, whatever its module is then.
pub fn fault_keeps_masking()
    ensures { FaultKeepsMasking }
{}

/// So does the removal of one processor.
pub fn removal_keeps_masking()
    ensures { RemovalKeepsMasking }
{}

/// So does an event, which may be lost.
pub fn event_keeps_masking()
    ensures { EventKeepsMasking }
{}

/// So does a tolerated fault of a board, and it leaves the contents of global memory.
pub fn board_fault_keeps_masking()
    ensures { BoardFaultKeepsMasking }
{}
