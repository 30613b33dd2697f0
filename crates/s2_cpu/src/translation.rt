//! The translation of virtual addresses.

ghost use Rattle.std.specs.Prelude.{◌≡◌, ◌↔◌, IfErr, IfSome, Ok};
ghost use Rattle.s2_cpu.specs.Exceptions.{IsException};
ghost use Rattle.s2_cpu.specs.Translation.{translated, segment_of};

use crate::exceptions::{Access, Exc};
use crate::processor::Cpu;
use s2_base::{Segment, UNMAPPED_START, segment};
use s2_cp0::MOD;
use s2_tlb::Look;

impl Cpu {
    /// The physical address of a virtual one, alignment apart, or the exception that prevents the access.
    ///
    /// An address error where the user is denied the address; TLBL or TLBS where no entry of the
    /// translation lookaside buffer matches, by the refill vector for an address of kuseg in either mode,
    /// or where the entry is not valid; Mod for a store where it may not be written. Source: MIPS R2000,
    /// the memory management system.
    pub fn translate(&self, va: u32, access: Access) -> Result<u32, Exc>
        ensures value { result ≡ translated self.now va access }
        ensures sound { IfErr result IsException }
    {
        if let Some(pa) = self.recall(va, access) {
            return Ok(pa);
        }
        match segment(va, self.cp0.is_user()) {
            Segment::Denied => Err(Exc::address_error(access, va)),
            Segment::Direct(pa) => Ok(pa),
            Segment::Mapped => self.look_up(va, access),
        }
    }

    /// The physical address of an address of kuseg whose page the translation lookaside buffer remembers, where
    /// the access is allowed; it may have forgotten any page.
    #[inline(always)]
    pub fn recall(&self, va: u32, access: Access) -> Option<u32>
        ensures { IfSome result (λ pa. translated self.now va access ≡ Ok pa) }
    {
        if va >= UNMAPPED_START {
            return None;
        }
        self.recall_mapped(va, access)
    }

    /// The same for an address of a mapped segment.
    #[inline(always)]
    fn recall_mapped(&self, va: u32, access: Access) -> Option<u32>
        requires { segment_of self.now va ≡ Segment.Mapped }
        ensures { IfSome result (λ pa. translated self.now va access ≡ Ok pa) }
    {
        self.tlb.recall(va, self.cp0.asid(), access.is_store())
    }

    /// Lets the translation lookaside buffer remember the page of an address. What is seen of the processor stays
    /// as it is.
    pub fn remember(&mut self, va: u32)
        ensures { self.new ≡ self.old }
    {
        let asid = self.cp0.asid();
        self.tlb.remember(va, asid);
    }

    /// The same for an address of a mapped segment.
    fn look_up(&self, va: u32, access: Access) -> Result<u32, Exc>
        requires { segment_of self.now va ≡ Segment.Mapped }
        ensures value { result ≡ translated self.now va access }
        ensures sound { IfErr result IsException }
    {
        match self.tlb.look(va, self.cp0.asid(), access.is_store()) {
            Look::Hit(pa) => Ok(pa),
            Look::Miss => Err(Exc::failed_look_up(access, va < UNMAPPED_START, va)),
            Look::Invalid => Err(Exc::failed_look_up(access, false, va)),
            Look::ReadOnly => Err(Exc::at(MOD, va)),
        }
    }
}
