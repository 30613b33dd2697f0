//! The registers of coprocessor 0.

ghost use Rattle.std.specs.Prelude.{◌≡◌, ℕ, ◌<◌, ◌==◌, Some, IfSome, if◌then◌else◌};
ghost use Rattle.std.specs.Int.{bit_at};
ghost use Rattle.s2_base.specs.declared.masks.TheConstants.{ENTRY_HI_BITS, ENTRY_LO_BITS};
ghost use Rattle.s2_cp0.specs.declared.masks.TheConstants.{CAUSE_BITS};
ghost use Rattle.s2_cp0.specs.ControlRegisters.{blank_registers, IsWithin, HasKeptBits, is_user, is_isolated, has_boot_vectors, is_open_to_users, is_usable, cause_with, is_interrupted, space_of, indexed_entry, random_entry};
ghost use Rattle.s2_cp0.specs.ControlRegisterAccess.{control_read, replaced_bits, control_written, kept_word, register_loaded, probed, entry_loaded};
ghost use Rattle.s2_cp0.specs.ExceptionEntry.{pushed, popped, cause_of, coprocessor_of, address_noted, raised};

use crate::codes::{CPU, MOD, TLBL, TLBS};
use crate::kept::KeptRegister;
use crate::masks::{
    BRANCH_DELAY, CAUSE_BITS, CAUSE_WRITTEN, CONTEXT_BITS, CONTEXT_WRITTEN, INDEX_BITS,
    INTERRUPT_BITS, NO_ENTRY, PROCESSOR_ID, STATUS_BITS,
};
use crate::numbers::{
    BAD_VADDR, CAUSE, CONTEXT, ENTRY_HI, ENTRY_LO, EPC, INDEX, PRID, RANDOM, RANDOM_PERIOD,
    RANDOM_START, STATUS,
};
use s2_base::{ENTRY_HI_BITS, ENTRY_LO_BITS};
use std::marker::Model;

/// The registers of coprocessor 0 that hold a word, each within the bits that it keeps.
///
/// Source: MIPS R2000, the system control coprocessor; that all other bits read 0 is this project's own.
#[derive(Debug, Clone, Copy, PartialEq, Eq)]
pub struct Cp0 {
    /// Index, register 0.
    pub index: u32,
    /// EntryLo, register 2.
    pub entry_lo: u32,
    /// Context, register 4.
    pub context: u32,
    /// BadVAddr, register 8: a virtual address.
    pub bad: u32,
    /// EntryHi, register 10.
    pub entry_hi: u32,
    /// Status, register 12.
    pub status: u32,
    /// Cause, register 13, without the interrupt lines, which it does not keep.
    pub cause: u32,
    /// EPC, register 14: a virtual address.
    pub epc: u32,
}

impl Model for Cp0 {
    ghost use Rattle.s2_cp0.specs.ControlRegisters.{ControlRegisters, HasKeptBits};

    ghost Value = { ControlRegisters };

    ghost view = { λ c. record { index = c.index; entry_lo = c.entry_lo; context = c.context; bad = c.bad; entry_hi = c.entry_hi; status = c.status; cause = c.cause; epc = c.epc } };

    ghost invariant = { λ c. HasKeptBits (record { index = c.index; entry_lo = c.entry_lo; context = c.context; bad = c.bad; entry_hi = c.entry_hi; status = c.status; cause = c.cause; epc = c.epc }) };

    ghost inverse = { λ v. record { index = v.index; entry_lo = v.entry_lo; context = v.context; bad = v.bad; entry_hi = v.entry_hi; status = v.status; cause = v.cause; epc = v.epc } };
}

impl Cp0 {
    /// The registers at the start (this project's own): all 0, so kernel mode with interrupts off.
    pub fn new() -> Cp0
        ensures { result ≡ blank_registers }
    {
        Cp0 {
            index: 0,
            entry_lo: 0,
            context: 0,
            bad: 0,
            entry_hi: 0,
            status: 0,
            cause: 0,
            epc: 0,
        }
    }

    /// What every value keeps: each register has no set bit but those that it keeps.
    pub fn within_masks(&self)
        ensures { HasKeptBits self.now }
    {
        let _status = &self.status;
    }

    /// The word that MFC0 reads from register `reg`, below 32, at the run count `run` and with the two
    /// interrupt `lines` of the devices, below 4.
    ///
    /// Source: MIPS R2000, MFC0. That Random goes by the run count, what PRId reads, and that a register
    /// which is not listed reads 0 is this project's own.
    pub fn read(&self, reg: u8, run: u64, lines: u8) -> u32
        requires reg { reg < 32 }
        requires lines { lines < 4 }
        ensures { result ≡ control_read self.now reg run lines }
    {
        match reg {
            INDEX => self.index,
            RANDOM => random_index(run) * 256,
            ENTRY_LO => self.entry_lo,
            CONTEXT => self.context,
            BAD_VADDR => self.bad,
            ENTRY_HI => self.entry_hi,
            STATUS => self.status,
            CAUSE => self.cause_with(lines),
            EPC => self.epc,
            PRID => PROCESSOR_ID,
            _ => 0,
        }
    }

    /// Cause, with the two interrupt `lines` of the devices, below 4, in bits 10 and 11.
    fn cause_with(&self, lines: u8) -> u32
        requires { lines < 4 }
        ensures { result ≡ cause_with self.now lines }
    {
        self.cause + u32::from(lines) * 1024
    }

    /// MTC0 writes the word `v` to register `reg`, below 32.
    ///
    /// Source: MIPS R2000, MTC0. That EPC cannot be written, and that a register which is not listed
    /// ignores it is this project's own.
    #[tactic(auto, using(crate::proofs::MaskBits::within_replaced))]
    pub fn write(&mut self, reg: u8, v: u32)
        requires { reg < 32 }
        ensures { self.new ≡ control_written self.old reg v }
    {
        match reg {
            INDEX => self.index = replaced(self.index, v, INDEX_BITS),
            ENTRY_LO => self.entry_lo = replaced(self.entry_lo, v, ENTRY_LO_BITS),
            CONTEXT => self.context = replaced(self.context, v, CONTEXT_WRITTEN),
            ENTRY_HI => self.entry_hi = replaced(self.entry_hi, v, ENTRY_HI_BITS),
            STATUS => self.status = replaced(self.status, v, STATUS_BITS),
            CAUSE => self.cause = replaced(self.cause, v, CAUSE_WRITTEN),
            _ => {}
        }
    }

    /// The word that a register holds.
    pub fn word(&self, register: KeptRegister) -> u32
        ensures { result ≡ kept_word self.now register }
    {
        match register {
            KeptRegister::Index => self.index,
            KeptRegister::EntryLo => self.entry_lo,
            KeptRegister::Context => self.context,
            KeptRegister::BadVAddr => self.bad,
            KeptRegister::EntryHi => self.entry_hi,
            KeptRegister::Status => self.status,
            KeptRegister::Cause => self.cause,
            KeptRegister::Epc => self.epc,
        }
    }

    /// Loads a register with a saved word, restricted to the bits that the register keeps, whether MTC0
    /// may write them or not.
    #[tactic(auto, using(crate::proofs::MaskBits::within_and))]
    pub fn load(&mut self, register: KeptRegister, word: u32)
        ensures { self.new ≡ register_loaded self.old register word }
    {
        match register {
            KeptRegister::Index => self.index = word & INDEX_BITS,
            KeptRegister::EntryLo => self.entry_lo = word & ENTRY_LO_BITS,
            KeptRegister::Context => self.context = word & CONTEXT_BITS,
            KeptRegister::BadVAddr => self.bad = word,
            KeptRegister::EntryHi => self.entry_hi = word & ENTRY_HI_BITS,
            KeptRegister::Status => self.status = word & STATUS_BITS,
            KeptRegister::Cause => self.cause = word & CAUSE_BITS,
            KeptRegister::Epc => self.epc = word,
        }
    }

    /// Saves the modes at an exception: KUp IEp KUc IEc of Status move up to KUo IEo KUp IEp, and kernel
    /// mode with interrupts off becomes the present one.
    ///
    /// Source: MIPS R2000, Status.
    pub fn push(&mut self)
        ensures { self.new ≡ pushed self.old }
    {
        let status = self.status;
        self.status = status / 64 * 64 + status % 16 * 4;
    }

    /// RFE takes the saved modes back: KUo IEo KUp IEp of Status move down to KUp IEp KUc IEc, and KUo IEo
    /// stay.
    ///
    /// Source: MIPS R2000, RFE.
    pub fn pop(&mut self)
        ensures { self.new ≡ popped self.old }
    {
        let status = self.status;
        self.status = status / 16 * 16 + status / 4 % 16;
    }

    /// Whether an enabled interrupt is up, with the two interrupt `lines` of the devices, below 4.
    ///
    /// Source: MIPS R2000, Status and Cause.
    pub fn pending(&self, lines: u8) -> bool
        requires { lines < 4 }
        ensures { result ≡ is_interrupted self.now lines }
    {
        self.status % 2 == 1 && (self.cause_with(lines) & self.status & INTERRUPT_BITS) != 0
    }

    /// An exception: `code` is ExcCode, below 16; `unit` the coprocessor's number, below 4, which counts
    /// for `CPU` alone; `bad` the virtual address that the exception has, if any; `return_to` the virtual
    /// address that it returns to; and `in_slot` says whether it came in a delay slot.
    ///
    /// Source: MIPS R2000, the exceptions; what it leaves where the manual is open is this project's own.
    pub fn raise(&mut self, code: u8, unit: u8, bad: Option<u32>, return_to: u32, in_slot: bool)
        requires code { code < 16 }
        requires unit { unit < 4 }
        ensures { self.new ≡ raised self.old code unit bad return_to in_slot }
    {
        self.push();
        if let Some(bad) = bad {
            self.note_address(code, bad);
        }
        self.cause = exception_cause(self.cause, code, unit, in_slot);
        self.epc = return_to;
    }

    /// Notes the address of an exception; after a failed look-up its page goes to Context and EntryHi too.
    fn note_address(&mut self, code: u8, bad: u32)
        ensures { self.new ≡ address_noted self.old code (Some bad) }
    {
        self.bad = bad;
        if code == MOD || code == TLBL || code == TLBS {
            self.context = self.context / 0x0020_0000 * 0x0020_0000 + bad / 4096 % 0x0008_0000 * 4;
            self.entry_hi = bad / 4096 * 4096 + self.entry_hi % 4096;
        }
    }

    /// TLBP sets Index to the entry that was found, below 64, or to P alone where none was.
    ///
    /// Source: MIPS R2000, TLBP.
    pub fn set_probed(&mut self, found: Option<u32>)
        requires { IfSome found (λ entry. entry < 64) }
        ensures { self.new ≡ probed self.old found }
    {
        match found {
            Some(entry) => self.index = entry * 256,
            None => self.index = NO_ENTRY,
        }
    }

    /// TLBR sets EntryHi and EntryLo to the two words of an entry, each of the bits that an entry keeps.
    ///
    /// Source: MIPS R2000, TLBR.
    pub fn set_entry(&mut self, hi: u32, lo: u32)
        requires hi { IsWithin hi ENTRY_HI_BITS }
        requires lo { IsWithin lo ENTRY_LO_BITS }
        ensures { self.new ≡ entry_loaded self.old hi lo }
    {
        self.entry_hi = hi;
        self.entry_lo = lo;
    }

    /// The entry that TLBWI and TLBWR write: EntryHi and EntryLo.
    pub fn entry(&self) -> (u32, u32)
        ensures { result ≡ (self.now.entry_hi, self.now.entry_lo) }
    {
        (self.entry_hi, self.entry_lo)
    }

    /// The number of the entry that TLBR reads and TLBWI writes, below 64: bits 13 to 8 of Index.
    ///
    /// Source: MIPS R2000, Index.
    pub fn index(&self) -> u32
        ensures value { result ≡ indexed_entry self.now }
        ensures range { result < 64 }
    {
        self.index / 256 % 64
    }

    /// The number of the present address space, below 64: ASID of EntryHi.
    ///
    /// Source: MIPS R2000, EntryHi.
    pub fn asid(&self) -> u32
        ensures value { result ≡ space_of self.now }
        ensures range { result < 64 }
    {
        self.entry_hi / 64 % 64
    }

    /// Whether the processor is in user mode: KUc of Status.
    pub fn is_user(&self) -> bool
        ensures { result ≡ is_user self.now }
    {
        self.status / 2 % 2 == 1
    }

    /// Whether the data cache is isolated: IsC of Status.
    pub fn is_isolated(&self) -> bool
        ensures { result ≡ is_isolated self.now }
    {
        self.status / 0x0001_0000 % 2 == 1
    }

    /// Whether the exception vectors stand in the boot store: BEV of Status.
    pub fn has_boot_vectors(&self) -> bool
        ensures { result ≡ has_boot_vectors self.now }
    {
        self.status / 0x0040_0000 % 2 == 1
    }

    /// Whether coprocessor 0 is usable in user mode too: CU0 of Status.
    pub fn is_open_to_users(&self) -> bool
        ensures { result ≡ is_open_to_users self.now }
    {
        self.status / 0x1000_0000 % 2 == 1
    }

    /// Whether coprocessor 0 is usable: in kernel mode, and where it is in user mode too.
    ///
    /// Source: MIPS R2000, Status.
    pub fn is_usable(&self) -> bool
        ensures { result ≡ is_usable self.now }
    {
        !self.is_user() || self.is_open_to_users()
    }
}

/// The number of the entry that TLBWR writes at the run count `run`, from 63 down to 8.
///
/// Source: this project's own; on the MIPS R2000 Random goes by the clock.
pub fn random_index(run: u64) -> u32
    ensures value { result ≡ random_entry run }
    ensures range { result < 64 }
{
    (RANDOM_START - run % RANDOM_PERIOD) as u32
}

/// CE of an exception: the coprocessor's number `unit`, below 4, for CpU, and 0 for every other code.
fn coprocessor_of(code: u8, unit: u8) -> u8
    requires { unit < 4 }
    ensures value { result ≡ coprocessor_of code unit }
    ensures low { result < 4 }
{
    if code == CPU { unit } else { 0 }
}

/// Cause of an exception, by what it was, `old`: `code` is ExcCode, below 16, and `unit` a coprocessor's number,
/// below 4.
fn exception_cause(old: u32, code: u8, unit: u8, in_slot: bool) -> u32
    requires code { code < 16 }
    requires unit { unit < 4 }
    ensures value { result ≡ cause_of old code unit in_slot }
    ensures within { IsWithin result CAUSE_BITS }
{
    let branch_delay = if in_slot { BRANCH_DELAY } else { 0 };
    let number = u32::from(coprocessor_of(code, unit));
    branch_delay + number * 0x1000_0000 + (old & CAUSE_WRITTEN) + u32::from(code) * 4
}

/// The word `old` with the bits of `mask` taken from `new`.
fn replaced(old: u32, new: u32, mask: u32) -> u32
    ensures value { result ≡ replaced_bits old new mask }
    ensures bits { (i : ℕ) → i < 32 → bit_at result i
        ≡ (if bit_at mask i == 1 then bit_at new i else bit_at old i) }
{
    (old & !mask) | (new & mask)
}
