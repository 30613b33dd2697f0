//! The state that an exception leaves.

ghost use Rattle.std.specs.Prelude.{◌≡◌};
ghost use Rattle.s2_cpu.specs.Exceptions.{IsException};
ghost use Rattle.s2_cpu.specs.ExceptionState.{after_exception, vector_of, return_address};

use crate::exceptions::Exc;
use crate::processor::Cpu;

/// The virtual address of the routine that serves a miss of kuseg (MIPS R2000, the exception vectors).
pub const REFILL_VECTOR: u32 = 0x8000_0000;
/// The virtual address of the routine that serves every other exception.
pub const GENERAL_VECTOR: u32 = 0x8000_0080;
/// As `REFILL_VECTOR`, where BEV is set.
pub const BOOT_REFILL_VECTOR: u32 = 0xBFC0_0100;
/// As `GENERAL_VECTOR`, where BEV is set.
pub const BOOT_GENERAL_VECTOR: u32 = 0xBFC0_0180;

/// The address of the routine that serves an exception.
fn vector(boot: bool, refill: bool) -> u32
    ensures { result ≡ vector_of boot refill }
{
    match (boot, refill) {
        (false, false) => GENERAL_VECTOR,
        (false, true) => REFILL_VECTOR,
        (true, false) => BOOT_GENERAL_VECTOR,
        (true, true) => BOOT_REFILL_VECTOR,
    }
}

impl Cpu {
    /// Where an exception of the next cycle returns to: its instruction, or in a delay slot the branch
    /// before it.
    fn return_address(&self) -> u32
        ensures { result ≡ return_address self.now }
    {
        if self.slot {
            self.pc.wrapping_sub(4)
        } else {
            self.pc
        }
    }

    /// An exception: the pending load is written, coprocessor 0 tells what came and where it returns to,
    /// and the routine at the exception's vector follows.
    ///
    /// The code is below 16, the unit below 4, and an exception of a look-up has its address. Source: MIPS
    /// R2000, exception processing. That the pending load is written is this project's own.
    pub fn enter(&mut self, exc: Exc)
        requires { IsException exc }
        ensures { self.new ≡ after_exception self.old exc }
    {
        let vector = vector(self.cp0.has_boot_vectors(), exc.refill);
        let return_to = self.return_address();
        self.write_load();
        self.cp0
            .raise(exc.code, exc.unit, exc.bad, return_to, self.slot);
        self.pc = vector;
        self.npc = vector.wrapping_add(4);
        self.slot = false;
    }
}
