//! What single exceptions leave, against values worked out by hand from the manual.

use crate::{Access, Cpu, Exc};
use s2_cp0::{INT, OV, TLBL};

/// An overflow in the delay slot at 0x8001000C returns to the branch before it.
#[test]
fn an_exception_in_a_delay_slot_returns_to_the_branch(rt: HostRuntime) {
    let mut cpu = Cpu::start(0x8001_000C);
    cpu.slot = true;
    cpu.enter(Exc::plain(OV));
    assert_eq!(rt; cpu.pc, 0x8000_0080);
    assert_eq!(rt; cpu.npc, 0x8000_0084);
    assert!(rt; !cpu.slot);
    assert_eq!(rt; cpu.cp0.epc, 0x8001_0008);
    assert_eq!(rt; cpu.cp0.cause, 0x8000_0030);
}

/// In the start state page 1 has no entry, and page 0 has entry 0, which is not valid.
#[test]
fn a_miss_of_kuseg_goes_to_the_refill_vector_and_an_invalid_entry_to_the_general_one(
    rt: HostRuntime,
) {
    let mut cpu = Cpu::start(0x8001_0000);
    let miss = Exc {
        code: TLBL,
        refill: true,
        bad: Some(0x0000_1234),
        unit: 0,
    };
    assert_eq!(rt; cpu.translate(0x0000_1234, Access::Load), Err(miss));
    cpu.enter(miss);
    assert_eq!(rt; cpu.pc, 0x8000_0000);
    assert_eq!(rt; cpu.cp0.cause, 0x0000_0008);
    assert_eq!(rt; cpu.cp0.bad, 0x0000_1234);
    assert_eq!(rt; cpu.cp0.context, 0x0000_0004);
    assert_eq!(rt; cpu.cp0.entry_hi, 0x0000_1000);

    let mut other = Cpu::start(0x8001_0000);
    let invalid = Exc {
        refill: false,
        bad: Some(0x0000_0234),
        ..miss
    };
    assert_eq!(rt; other.translate(0x0000_0234, Access::Load), Err(invalid));
    other.enter(invalid);
    assert_eq!(rt; other.pc, 0x8000_0080);
}

/// The pending load reaches its register before the routine runs.
#[test]
fn an_interrupt_writes_the_pending_load(rt: HostRuntime) {
    let mut cpu = Cpu::start(0x8001_0000);
    cpu.load_reg = 9;
    cpu.load_value = 7;
    cpu.enter(Exc::plain(INT));
    assert_eq!(rt; cpu.r.get(9), 7);
    assert_eq!(rt; cpu.load_reg, 0);
    assert_eq!(rt; cpu.cp0.epc, 0x8001_0000);
}
