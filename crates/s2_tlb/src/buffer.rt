//! The buffer and its calls.

ghost use Rattle.std.specs.Prelude.{◌≡◌, ◌+◌, ◌*◌, ◌/◌, ◌%◌, List, ◌≢◌, ◌<◌, ◌↔◌, ℕ, true, false, IfSome};
ghost use Rattle.s2_tlb.specs.TranslationEntries.{virtual_page, address_space, entry_at, entry_is_dirty, entry_is_valid, entry_matches, entries_written, masked_entry, zero_entries, lowest_match, AreTranslationEntries, IsLowestMatch, IsTranslationEntry, NoneMatches};
ghost use Rattle.s2_tlb.specs.RememberedPages.{AreRemembered};
ghost use Rattle.s2_tlb.specs.TlbLookup.{access_outcome, look_of, match_outcome, physical_address, probe_of, LowestMatchHas};

use crate::entries::{ADDRESS_SPACES, ASID_UNIT, DIRTY, PAGE_BYTES, TLB_ENTRIES, VALID};
use crate::index::{EntryIndex, PAGES};
use crate::outcomes::Look;
use s2_base::{ENTRY_HI_BITS, ENTRY_LO_BITS};
use std::marker::Model;

/// How many pages a buffer remembers.
pub const REMEMBERED_PAGES: usize = 64;

/// The translation lookaside buffer, seen as the list of its entries, which are pairs of words (hi, lo).
///
/// Each word has only the bits that an entry keeps. Source: MIPS R2000, the translation lookaside buffer.
#[derive(Drop)]
pub struct Tlb {
    pairs: [(u32, u32); TLB_ENTRIES],
    index: EntryIndex,
    remembered: [(u32, u32); REMEMBERED_PAGES],
}

impl Model for Tlb {
    ghost use Rattle.std.specs.Prelude.{ℕ, List};
    ghost use Rattle.s2_tlb.specs.TranslationEntries.{AreTranslationEntries};
    ghost use Rattle.s2_tlb.specs.EntryIndex.{IsIndexOf};
    ghost use Rattle.s2_tlb.specs.RememberedPages.{AreRemembered};

    ghost Value = { List (ℕ × ℕ) };

    ghost view = { λ t. t.pairs };

    ghost invariant = { λ t. AreTranslationEntries t.pairs × IsIndexOf t.index t.pairs × AreRemembered t.remembered t.pairs };
}

/// What an entry that matches gives an access to a virtual address.
fn access(entry: (u32, u32), va: u32, store: bool) -> Look
    ensures { result ≡ access_outcome entry va store }
{
    if entry.1 / VALID % 2 == 0 {
        Look::Invalid
    } else if store && entry.1 / DIRTY % 2 == 0 {
        Look::ReadOnly
    } else {
        Look::Hit(entry.1 / PAGE_BYTES * PAGE_BYTES + va % PAGE_BYTES)
    }
}

/// The word by which the page of `va` is remembered in the address space `asid`.
#[inline(always)]
fn remembered_hi(va: u32, asid: u32) -> u32
    requires { asid < ADDRESS_SPACES }
    ensures { result ≡ va / 4096 * 4096 + asid * 64 + 1 }
{
    va / PAGE_BYTES * PAGE_BYTES + asid * ASID_UNIT + 1
}

/// Where the page of `va` is remembered. Programs begin their parts at multiples of large powers of two, so the low
/// bits of the page would not do.
#[inline(always)]
fn remembered_place(va: u32) -> usize
    ensures { result < REMEMBERED_PAGES }
{
    ((va / PAGE_BYTES).wrapping_mul(0x9E37_79B1) / 0x0400_0000) as usize
}

/// Whether a valid entry's word lets an access through.
#[inline(always)]
fn allows(lo: u32, store: bool) -> bool
    ensures { result ≡ true → store ≡ true → lo / DIRTY % 2 ≡ 1 }
{
    !store || lo / DIRTY % 2 == 1
}

/// Forgets all pages.
fn forget(remembered: &mut [(u32, u32); REMEMBERED_PAGES])
    ensures { (entries : List (ℕ × ℕ)) → AreRemembered remembered.new entries }
{
    *remembered = [(0, 0); REMEMBERED_PAGES];
}

impl Tlb {
    /// The buffer at the start, all of whose words are 0.
    pub fn new() -> Tlb
        ensures { result ≡ zero_entries }
    {
        Tlb {
            pairs: [(0, 0); TLB_ENTRIES],
            index: EntryIndex::new(),
            remembered: [(0, 0); REMEMBERED_PAGES],
        }
    }

    /// The entries become those of another buffer. It takes no memory.
    pub fn copy_from(&mut self, other: &Tlb)
        ensures { self.new ≡ other.now }
    {
        self.pairs = other.pairs;
        self.index.copy_from(&other.index);
        self.remembered = other.remembered;
    }

    /// The lowest entry that matches a virtual page in an address space.
    #[inline(always)]
    fn lowest(&self, page: u32, asid: u32) -> Option<u32>
        requires page { page < PAGES }
        requires asid { asid < ADDRESS_SPACES }
        ensures value { result ≡ lowest_match self.now page asid }
        ensures within { IfSome result (λ i. i < TLB_ENTRIES) }
    {
        let _pairs = &self.pairs;
        let set = self.index.matching(page, asid);
        if set == 0 {
            None
        } else {
            Some(set.trailing_zeros())
        }
    }

    /// What an access gives where `used` is the entry that matches, if one does.
    fn outcome(&self, used: Option<u32>, va: u32, store: bool) -> Look
        requires { IfSome used (λ i. i < TLB_ENTRIES) }
        ensures { result ≡ match_outcome self.now used va store }
    {
        match used {
            Some(i) => access(self.pairs[i as usize], va, store),
            None => Look::Miss,
        }
    }

    /// What an access to the mapped virtual address `va` gives in the address space `asid`, which is below 64;
    /// `store` says whether it is a store.
    ///
    /// The lowest entry that matches is used, which is this project's own. Source: MIPS R2000, the
    /// exceptions of the translation lookaside buffer.
    pub fn look(&self, va: u32, asid: u32, store: bool) -> Look
        requires { asid < ADDRESS_SPACES }
        ensures value { result ≡ look_of self.now va asid store }
        ensures miss { (result ≡ Look.Miss) ↔ NoneMatches self.now (virtual_page va) asid }
        ensures invalid { (result ≡ Look.Invalid)
            ↔ LowestMatchHas self.now (virtual_page va) asid (λ entry. entry_is_valid entry ≡ false) }
        ensures read_only { (result ≡ Look.ReadOnly)
            ↔ LowestMatchHas self.now (virtual_page va) asid (λ entry. (entry_is_valid entry ≡ true)
            × (store ≡ true) × (entry_is_dirty entry ≡ false)) }
        ensures hit { (pa : ℕ) → (result ≡ Look.Hit pa)
            ↔ LowestMatchHas self.now (virtual_page va) asid (λ entry. (entry_is_valid entry ≡ true)
            × ((store ≡ true) → (entry_is_dirty entry ≡ true)) × (pa ≡ physical_address entry va)) }
    {
        let used = self.lowest(va / PAGE_BYTES, asid);
        self.outcome(used, va, store)
    }

    /// The physical address that an access to `va` gives in the address space `asid`, where the buffer remembers
    /// the page and the access hits; it may have forgotten any page.
    #[inline(always)]
    pub fn recall(&self, va: u32, asid: u32, store: bool) -> Option<u32>
        requires { asid < ADDRESS_SPACES }
        ensures { IfSome result (λ pa. look_of self.now va asid store ≡ Look.Hit pa) }
    {
        let (hi, lo) = self.remembered[remembered_place(va)];
        if hi == remembered_hi(va, asid) && allows(lo, store) {
            Some(lo / PAGE_BYTES * PAGE_BYTES + va % PAGE_BYTES)
        } else {
            None
        }
    }

    /// Remembers the page of `va` in the address space `asid`, where a valid entry matches. No entry changes.
    pub fn remember(&mut self, va: u32, asid: u32)
        requires { asid < ADDRESS_SPACES }
        ensures { self.new ≡ self.old }
    {
        if let Some(i) = self.lowest(va / PAGE_BYTES, asid) {
            let (_hi, lo) = self.pairs[i as usize];
            if lo / VALID % 2 == 1 {
                let place = remembered_place(va);
                self.remembered[place] = (remembered_hi(va, asid), lo);
            }
        }
    }

    /// The lowest entry that matches the virtual page and the address space of `hi`, a word such as EntryHi
    /// holds, whether it is valid or not; None where none matches.
    ///
    /// Source: MIPS R2000, TLBP.
    pub fn probe(&self, hi: u32) -> Option<u32>
        ensures value { result ≡ probe_of self.now hi }
        ensures lowest { (i : ℕ) → (result ≡ Some i)
            ↔ IsLowestMatch self.now (virtual_page hi) (address_space hi) i }
        ensures none { (result ≡ None) ↔ NoneMatches self.now (virtual_page hi) (address_space hi) }
    {
        self.lowest(hi / PAGE_BYTES, hi / ASID_UNIT % ADDRESS_SPACES)
    }

    /// The pair of entry `i`, which is below 64.
    ///
    /// Source: MIPS R2000, TLBR.
    pub fn read(&self, i: u32) -> (u32, u32)
        requires { i < TLB_ENTRIES }
        ensures value { result ≡ entry_at self.now i }
        ensures entry { IsTranslationEntry result }
    {
        self.pairs[i as usize]
    }

    /// Writes a pair to entry `i`, which is below 64: of each word the bits that an entry keeps. No other
    /// entry changes.
    ///
    /// Source: MIPS R2000, TLBWI and TLBWR.
    pub fn write(&mut self, i: u32, hi: u32, lo: u32)
        requires { i < TLB_ENTRIES }
        ensures value { self.new ≡ entries_written self.old i hi lo }
        ensures entry { entry_at self.new i ≡ masked_entry hi lo }
        ensures others { (j : ℕ) → j ≢ i → entry_at self.new j ≡ entry_at self.old j }
    {
        let entry = (hi & ENTRY_HI_BITS, lo & ENTRY_LO_BITS);
        self.index.replace(i, self.pairs[i as usize], entry);
        self.pairs[i as usize] = entry;
        forget(&mut self.remembered);
    }

    /// What every buffer is: 64 entries of the bits that an entry keeps. It does nothing, and tells a caller
    /// so of the buffer that it holds.
    pub fn well_formed(&self)
        ensures { AreTranslationEntries self.now }
    {
        let _pairs = &self.pairs;
    }
}
