//! Laws of the R2000 and of every core, which the machines above rest on. Each is its clause; none has a body.

ghost use Rattle.s2_machine.specs.CoreLaws.{R2000IsCore, EqualCycles, LocalCyclesStayInside, RunsAdd, EachCycleCounts};

/// The R2000 is a core: what the laws of the machines above use of one holds of it.
pub fn r2000_is_core()
    ensures { R2000IsCore }
{}

/// Equal processors and local lists ask the same and take equal cycles.
pub fn equal_cycles()
    ensures { EqualCycles }
{}

/// A cycle that asks nothing changes neither the global list, nor the devices, nor the halt value, and writes
/// no byte.
pub fn local_cycles_stay_inside()
    ensures { LocalCyclesStayInside }
{}

/// A run of n and then m cycles is a run of n + m.
pub fn runs_add()
    ensures { RunsAdd }
{}

/// The run count grows by one in each cycle, modulo 2^64.
pub fn each_cycle_counts()
    ensures { EachCycleCounts }
{}
