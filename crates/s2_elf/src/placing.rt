//! A segment's bytes, placed over words of memory.

ghost use Rattle.std.specs.Prelude.{◌≡◌, ℕ, ◌+◌, ◌*◌, ◌^◌, ◌<◌, ◌≤◌, ◌⊎◌, List, length, slice_index};
ghost use Rattle.s2_base.specs.declared.map.TheConstants.{BOOT_START};
ghost use Rattle.s2_elf.specs.Placing.{placed_byte, header_of, local_address_at, placed_word, HasFileBytes};

use crate::headers::SegmentHeader;
use s2_base::{BOOT_START, LOCAL_START};

/// Places a segment's bytes over the words that it touches; `base` is the physical address of the
/// first word, and words have their most significant byte at the lowest address.
///
/// The bytes that the file has come first, and zeros after them.
pub fn place_over(words: &mut [u32], base: u32, header: SegmentHeader, bytes: &[u8])
    requires addresses { base + 4 * length words.old ≤ 2 ^ 32 }
    requires file { HasFileBytes (header_of header) bytes.now }
    ensures { (i : ℕ) → i < length words.old → slice_index words.new i
        ≡ placed_word bytes.now (base + 4 * i) (slice_index words.old i) (header_of header) }
{
    let (first, last) = touched(words, base, header);
    for i in first..last {
        words[i] = placed_word(bytes, base + 4 * i as u32, words[i], header);
    }
}

/// Places a segment's bytes over the local list, whose words before `boundary` are those of local
/// memory, and the others those of the boot store.
pub fn place_local(words: &mut [u32], boundary: usize, header: SegmentHeader, bytes: &[u8])
    requires parts { boundary ≤ length words.old }
    requires addresses { BOOT_START + 4 * length words.old ≤ 2 ^ 32 }
    requires file { HasFileBytes (header_of header) bytes.now }
    ensures { (i : ℕ) → i < length words.old → slice_index words.new i
        ≡ placed_word bytes.now (local_address_at boundary i) (slice_index words.old i) (header_of header) }
{
    place_over(&mut words[..boundary], LOCAL_START, header, bytes);
    place_over(&mut words[boundary..], BOOT_START, header, bytes);
}

/// The index of the first word that a segment touches, and the one past the last.
///
/// The segment leaves each other word as it is, so it need not be looked at.
fn touched(words: &[u32], base: u32, header: SegmentHeader) -> (usize, usize)
    ensures within { result.1 ≤ length words.now }
    ensures untouched { (bytes : List ℕ) → (i : ℕ) → i < length words.now → (i < result.0) ⊎ (result.1 ≤ i)
        → placed_word bytes (base + 4 * i) (slice_index words.now i) (header_of header) ≡ slice_index words.now i }
{
    let start = header.base() as usize;
    let end = start + header.memsz as usize;
    let first = start.saturating_sub(base as usize) / 4;
    let last = end.saturating_sub(base as usize).div_ceil(4);
    (first, last.min(words.len()))
}

/// The word at a physical address once a segment is placed over it.
fn placed_word(bytes: &[u8], pa: u32, old: u32, header: SegmentHeader) -> u32
    requires address { pa + 4 ≤ 2 ^ 32 }
    requires file { HasFileBytes (header_of header) bytes.now }
    ensures { result ≡ placed_word bytes.now pa old (header_of header) }
{
    let [first, second, third, fourth] = old.to_be_bytes();
    u32::from_be_bytes([
        placed_byte(bytes, pa, first, header),
        placed_byte(bytes, pa + 1, second, header),
        placed_byte(bytes, pa + 2, third, header),
        placed_byte(bytes, pa + 3, fourth, header),
    ])
}

/// The byte at a physical address once a segment is placed over it.
fn placed_byte(bytes: &[u8], pa: u32, old: u8, header: SegmentHeader) -> u8
    requires { HasFileBytes (header_of header) bytes.now }
    ensures { result ≡ placed_byte bytes.now pa old (header_of header) }
{
    let base = header.base();
    if pa < base || pa - base >= header.memsz {
        return old;
    }
    let index = pa - base;
    if index < header.filesz {
        bytes[header.offset as usize + index as usize]
    } else {
        0
    }
}
