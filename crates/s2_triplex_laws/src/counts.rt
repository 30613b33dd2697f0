//! What is counted while a reintegration is open, and how long it lasts.

ghost use Rattle.s2_triplex_laws.specs.RepairTallies.{GoodAgreeOnSync, TickCountsRepair, FaultCountsRepair, RemovalCountsRepair, ReviveCountsRepair, EventCountsRepair, ReintegrationEndsInTime};

/// Whether a Sync is due at the run count of the last resume is the same for each good processor there.
pub fn good_agree_on_sync()
    ensures { GoodAgreeOnSync }
{}

/// A tick that is not refused keeps the count of a reintegration within its bounds.
pub fn tick_counts_repair()
    ensures { TickCountsRepair }
{}

/// So does a fault of one processor.
pub fn fault_counts_repair()
    ensures { FaultCountsRepair }
{}

/// After a removal none is open.
pub fn removal_counts_repair()
    ensures { RemovalCountsRepair }
{}

/// The count begins within its bounds.
pub fn revive_counts_repair()
    ensures { ReviveCountsRepair }
{}

/// An event keeps it there.
pub fn event_counts_repair()
    ensures { EventCountsRepair }
{}

/// While a reintegration is open, fewer ticks than the stated reintegration were run since its `revive`.
pub fn reintegration_ends_in_time()
    ensures { ReintegrationEndsInTime }
{}
