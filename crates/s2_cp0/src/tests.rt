//! The numbers of the manual's tables, and an interrupt from its rise to its return.

ghost use Rattle.std.specs.Prelude.{◌<◌};

use crate::{CPU, Cp0, INT, KeptRegister, TLBS};

/// What register `reg` reads at run count 0, with no line up, after MTC0 wrote all ones to it.
fn read_after_ones(reg: u8) -> u32
    requires { reg < 32 }
{
    let mut cp0 = Cp0::new();
    cp0.write(reg, 0xFFFF_FFFF);
    cp0.read(reg, 0, 0)
}

/// What a register holds after all ones were loaded.
fn word_after_ones(register: KeptRegister) -> u32 {
    let mut cp0 = Cp0::new();
    cp0.load(register, 0xFFFF_FFFF);
    cp0.word(register)
}

#[test]
fn all_ones_written_leave_the_bits_that_mtc0_writes(rt: HostRuntime) {
    assert_eq!(rt; read_after_ones(0), 0x8000_3F00);
    assert_eq!(rt; read_after_ones(1), 0x0000_3F00);
    assert_eq!(rt; read_after_ones(2), 0xFFFF_FF00);
    assert_eq!(rt; read_after_ones(3), 0);
    assert_eq!(rt; read_after_ones(4), 0xFFE0_0000);
    assert_eq!(rt; read_after_ones(8), 0);
    assert_eq!(rt; read_after_ones(10), 0xFFFF_FFC0);
    assert_eq!(rt; read_after_ones(12), 0x1043_FF3F);
    assert_eq!(rt; read_after_ones(13), 0x0000_0300);
    assert_eq!(rt; read_after_ones(14), 0);
    assert_eq!(rt; read_after_ones(15), 0x0000_0100);
    assert_eq!(rt; read_after_ones(31), 0);
}

#[test]
fn all_ones_loaded_leave_the_bits_that_a_register_keeps(rt: HostRuntime) {
    assert_eq!(rt; word_after_ones(KeptRegister::Index), 0x8000_3F00);
    assert_eq!(rt; word_after_ones(KeptRegister::EntryLo), 0xFFFF_FF00);
    assert_eq!(rt; word_after_ones(KeptRegister::Context), 0xFFFF_FFFC);
    assert_eq!(rt; word_after_ones(KeptRegister::BadVAddr), 0xFFFF_FFFF);
    assert_eq!(rt; word_after_ones(KeptRegister::EntryHi), 0xFFFF_FFC0);
    assert_eq!(rt; word_after_ones(KeptRegister::Status), 0x1043_FF3F);
    assert_eq!(rt; word_after_ones(KeptRegister::Cause), 0xB000_033C);
    assert_eq!(rt; word_after_ones(KeptRegister::Epc), 0xFFFF_FFFF);
}

#[test]
fn random_goes_from_63_down_to_8(rt: HostRuntime) {
    let cp0 = Cp0::new();
    assert_eq!(rt; cp0.read(1, 0, 0), 63 * 256);
    assert_eq!(rt; cp0.read(1, 55, 0), 8 * 256);
    assert_eq!(rt; cp0.read(1, 56, 0), 63 * 256);
}

/// Status 0x801: interrupts on, and Cause's bit 11, the timer line, enabled.
#[test]
fn the_timer_line_interrupts_once_and_rfe_returns(rt: HostRuntime) {
    let mut cp0 = Cp0::new();
    cp0.write(12, 0x801);
    assert!(rt; !cp0.pending(0));
    assert!(rt; !cp0.pending(1));
    assert!(rt; cp0.pending(2));
    cp0.raise(INT, 0, None, 0x8001_0008, false);
    assert_eq!(rt; cp0.read(12, 0, 2), 0x804);
    assert_eq!(rt; cp0.read(13, 0, 2), 0x800);
    assert_eq!(rt; cp0.read(14, 0, 2), 0x8001_0008);
    assert!(rt; !cp0.pending(2));
    cp0.pop();
    assert_eq!(rt; cp0.read(12, 0, 2), 0x801);
    assert!(rt; cp0.pending(2));
}

#[test]
fn a_store_that_finds_no_entry_leaves_its_page(rt: HostRuntime) {
    let mut cp0 = Cp0::new();
    cp0.write(4, 0xFFE0_0000);
    cp0.write(10, 0x0000_0940);
    cp0.write(13, 0x0000_0200);
    cp0.raise(TLBS, 0, Some(0x8765_4321), 0x8001_0000, true);
    assert_eq!(rt; cp0.read(8, 0, 0), 0x8765_4321);
    assert_eq!(rt; cp0.read(4, 0, 0), 0xFFE1_D950);
    assert_eq!(rt; cp0.read(10, 0, 0), 0x8765_4940);
    assert_eq!(rt; cp0.read(13, 0, 0), 0x8000_020C);
    cp0.raise(CPU, 3, None, 0x8001_0000, false);
    assert_eq!(rt; cp0.read(13, 0, 0), 0x3000_022C);
    cp0.raise(INT, 3, None, 0x8001_0000, false);
    assert_eq!(rt; cp0.read(13, 0, 0), 0x0000_0200);
    assert_eq!(rt; cp0.read(8, 0, 0), 0x8765_4321);
}
