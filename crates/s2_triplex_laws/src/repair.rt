//! Reintegration of a processor: what each step keeps of it, what it tells, and how it ends.

ghost use Rattle.s2_triplex_laws.specs.OpenRepair.{OpenReintegrationTells, NoReintegrationTells};
ghost use Rattle.s2_triplex_laws.specs.RepairSteps.{TickKeepsRepair, FaultKeepsRepair, RemovalKeepsRepair, ReviveKeepsRepair, EventKeepsRepair, LastWordReintegrates};
ghost use Rattle.s2_triplex_laws.specs.BoardFaultSteps.{BoardFaultKeepsRepair};
ghost use Rattle.s2_triplex_laws.specs.RestoredProcessors.{SavedWordsRestore};

/// While a reintegration is open, its processor alone joins and is the tainted one; the copied words of
/// clean pages are equal; and while the machine holds, no member has a latch, a full port or a mark.
pub fn open_reintegration_tells()
    ensures { OpenReintegrationTells }
{}

/// Where none is open, no processor joins and the machine does not hold.
pub fn no_reintegration_tells()
    ensures { NoReintegrationTells }
{}

/// A tick that is not refused, in a hold or not, keeps what is kept of a reintegration, beside all else.
pub fn tick_keeps_repair()
    ensures { TickKeepsRepair }
{}

/// So does a fault of one processor, whatever its module is then.
pub fn fault_keeps_repair()
    ensures { FaultKeepsRepair }
{}

/// So does a removal, which ends a reintegration.
pub fn removal_keeps_repair()
    ensures { RemovalKeepsRepair }
{}

/// So does the begin of a reintegration.
pub fn revive_keeps_repair()
    ensures { ReviveKeepsRepair }
{}

/// So does an event.
pub fn event_keeps_repair()
    ensures { EventKeepsRepair }
{}

/// So does a fault of a board, which leaves the contents of global memory, and keeps the count too.
pub fn board_fault_keeps_repair()
    ensures { BoardFaultKeepsRepair }
{}

/// After the tick that copies the last saved word all processors are in and equal, with empty ports and no
/// mark. Where no act disturbed the joining one, the local lists are equal too, and nobody is tainted.
pub fn last_word_reintegrates()
    ensures { LastWordReintegrates }
{}

/// At the end of a reintegration the processor of each module may be loaded from the saved words of the
/// lowest member, one after the other: that is the same machine.
pub fn saved_words_restore()
    ensures { SavedWordsRestore }
{}
