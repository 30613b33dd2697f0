//! Which entries match, without a search: for each value of a field, the set of the entries that have it there, as a
//! word with a bit for each entry. The sets of a page's digits and of an address space meet in the entries that match.

ghost use Rattle.std.specs.Prelude.{◌≡◌, ℕ, ◌<◌, List, length, slice_set};
ghost use Rattle.std.specs.Int.{bit_at};
ghost use Rattle.s2_tlb.specs.TranslationEntries.{entry_at, entry_matches, zero_entries, AreTranslationEntries};
ghost use Rattle.s2_tlb.specs.EntryIndex.{flag, IsIndexOf, AreSetsOf};

use crate::entries::{ADDRESS_SPACES, ASID_UNIT, GLOBAL, PAGE_BYTES};

/// How many sets a field has: its values are below this.
pub const FIELD_VALUES: usize = 64;

/// How many pages there are: the number of one is below this.
pub const PAGES: u32 = 0x0010_0000;

/// The sets of the entries by each field. The number of a page is taken as four digits of base 64.
#[derive(Drop)]
pub struct EntryIndex {
    low: [u64; FIELD_VALUES],
    second: [u64; FIELD_VALUES],
    third: [u64; FIELD_VALUES],
    high: [u64; FIELD_VALUES],
    space: [u64; FIELD_VALUES],
    global: [u64; FIELD_VALUES],
}

/// The sets of a field that is 0 in each entry.
fn all_zero() -> [u64; FIELD_VALUES]
    ensures size { length result ≡ FIELD_VALUES }
    ensures sets { (field : ℕ × ℕ → ℕ) → field (0, 0) ≡ 0 → AreSetsOf field result zero_entries }
{
    let mut sets = [0; FIELD_VALUES];
    sets[0] = u64::MAX;
    sets
}

/// Entry `i`, which had one value in a field, has another.
#[inline]
fn replace(sets: &mut [u64; FIELD_VALUES], i: u32, from: u32, to: u32)
    requires i { i < 64 }
    requires from { from < FIELD_VALUES }
    requires to { to < FIELD_VALUES }
    ensures sets { (field : ℕ × ℕ → ℕ) (entries : List (ℕ × ℕ)) (entry : ℕ × ℕ) → length entries ≡ 64
        → field (entry_at entries i) ≡ from → field entry ≡ to → AreSetsOf field sets.old entries
        → AreSetsOf field sets.new (slice_set entries i entry) }
{
    sets[from as usize] &= !(1 << i);
    sets[to as usize] |= 1 << i;
}

impl EntryIndex {
    /// The index of a new buffer.
    pub fn new() -> EntryIndex
        ensures { IsIndexOf result zero_entries }
    {
        EntryIndex {
            low: all_zero(),
            second: all_zero(),
            third: all_zero(),
            high: all_zero(),
            space: all_zero(),
            global: all_zero(),
        }
    }

    /// The sets become those of another index.
    pub fn copy_from(&mut self, other: &EntryIndex)
        ensures { self.new ≡ other.now }
    {
        self.low = other.low;
        self.second = other.second;
        self.third = other.third;
        self.high = other.high;
        self.space = other.space;
        self.global = other.global;
    }

    /// The set of the entries that match a virtual page in an address space.
    #[inline(always)]
    pub fn matching(&self, page: u32, asid: u32) -> u64
        requires page { page < PAGES }
        requires asid { asid < ADDRESS_SPACES }
        ensures { (entries : List (ℕ × ℕ)) → AreTranslationEntries entries → IsIndexOf self.now entries → (i : ℕ) → i < 64
            → bit_at result i ≡ flag (entry_matches (entry_at entries i) page asid) }
    {
        self.low[(page % 64) as usize]
            & self.second[(page / 64 % 64) as usize]
            & self.third[(page / 4096 % 64) as usize]
            & self.high[(page / 262_144 % 64) as usize]
            & (self.space[asid as usize] | self.global[1])
    }

    /// Entry `i` is another than before.
    pub fn replace(&mut self, i: u32, old: (u32, u32), new: (u32, u32))
        requires { i < 64 }
        ensures { (entries : List (ℕ × ℕ)) → length entries ≡ 64 → entry_at entries i ≡ old → IsIndexOf self.old entries
            → IsIndexOf self.new (slice_set entries i new) }
    {
        let from = old.0 / PAGE_BYTES;
        let to = new.0 / PAGE_BYTES;
        replace(&mut self.low, i, from % 64, to % 64);
        replace(&mut self.second, i, from / 64 % 64, to / 64 % 64);
        replace(&mut self.third, i, from / 4096 % 64, to / 4096 % 64);
        replace(&mut self.high, i, from / 262_144 % 64, to / 262_144 % 64);
        replace(
            &mut self.space,
            i,
            old.0 / ASID_UNIT % ADDRESS_SPACES,
            new.0 / ASID_UNIT % ADDRESS_SPACES,
        );
        replace(&mut self.global, i, old.1 / GLOBAL % 2, new.1 / GLOBAL % 2);
    }
}
