//! The private-write area.

ghost use Rattle.s2_triplex_laws.specs.PrivateFacts.{ActsLeaveDevices, PrivateStoresPrint, SlotLoadsGive, TicksPrintSlots};

/// After a tick the slots are the private values that its deliveries print last, or as before.
pub fn ticks_print_slots()
    ensures { TicksPrintSlots }
{}

/// An act leaves the devices.
pub fn acts_leave_devices()
    ensures { ActsLeaveDevices }
{}

/// An agreed store to PRIV prints the own private value of each good processor.
pub fn private_stores_print()
    ensures { PrivateStoresPrint }
{}

/// An agreed load of a slot gives every good processor the number that was printed last.
pub fn slot_loads_give()
    ensures { SlotLoadsGive }
{}
