//! The conditions of a file that is accepted, each with its refusal.

ghost use Rattle.std.specs.Prelude.{◌≡◌, ◌+◌, ◌<◌, ◌≤◌, length, IfNone};
ghost use Rattle.std.specs.List.{list_all, range_with_len};
ghost use Rattle.s2_elf.specs.declared.headers.TheConstants.{LOAD};
ghost use Rattle.s2_elf.specs.Files.{header_count, program_header, first_false, file_conditions, table_conditions, segment_conditions, header_conditions, static_conditions, load_conditions, headers_of, entry_conditions, is_dynamic, rest_conditions, refusal, is_entry, is_store_of_code, is_loadable};
ghost use Rattle.s2_elf.specs.Placing.{header_of, room_at, room_from, HasFileBytes, HasHeaders, HasSegments};

use crate::ElfFault;
use crate::headers::{
    DYNAMIC, FILE_HEADER_SIZE, INTERPRETER, LOAD, MAGIC, MOST_HEADERS, PROGRAM_HEADER_SIZE,
    SegmentHeader, entry_of, half_at, header_count, number_at, program_header, table_of,
};
use s2_base::{BOOT_END, GLOBAL_END, LOCAL_END, Place, Segment, place, segment};

/// The first condition of a file that is false, in the order of `docs/FORMATS.md`.
#[tactic(auto, using(crate::proofs::FirstFalse::first_false_append))]
pub fn refusal(bytes: &[u8]) -> Option<ElfFault>
    ensures refusal { result ≡ refusal bytes.now }
    ensures headers { IfNone result (HasHeaders bytes.now) }
    ensures segments { IfNone result (HasSegments bytes.now) }
{
    match file_fault(bytes) {
        Some(fault) => Some(fault),
        None => headers_fault(bytes),
    }
}

/// The first condition on the program headers and the entry that is false.
#[tactic(auto, using(crate::proofs::FirstFalse::first_false_append))]
fn headers_fault(bytes: &[u8]) -> Option<ElfFault>
    requires { HasHeaders bytes.now }
    ensures fault { result ≡ first_false (rest_conditions bytes.now) }
    ensures segments { IfNone result (HasSegments bytes.now) }
{
    match static_fault(bytes) {
        Some(fault) => Some(fault),
        None => match load_fault(bytes) {
            Some(fault) => Some(fault),
            None => entry_fault(bytes),
        },
    }
}

/// The condition on the entry.
fn entry_fault(bytes: &[u8]) -> Option<ElfFault>
    requires { HasHeaders bytes.now }
    ensures { result ≡ first_false (entry_conditions bytes.now) }
{
    if is_entry(entry_of(bytes)) {
        None
    } else {
        Some(ElfFault::Entry)
    }
}

/// The first program header that asks for dynamic linking or an interpreter.
fn static_fault(bytes: &[u8]) -> Option<ElfFault>
    requires { HasHeaders bytes.now }
    ensures { result ≡ first_false (static_conditions 0 (headers_of bytes.now)) }
{
    for i in 0..header_count(bytes) {
        if is_dynamic(program_header(bytes, i)) {
            return Some(ElfFault::Dynamic(i));
        }
    }
    None
}

/// Whether a program header asks for dynamic linking or an interpreter.
fn is_dynamic(header: SegmentHeader) -> bool
    ensures { result ≡ is_dynamic (header_of header) }
{
    header.kind == DYNAMIC || header.kind == INTERPRETER
}

/// The first condition on a segment that is loaded that is false, segment by segment.
fn load_fault(bytes: &[u8]) -> Option<ElfFault>
    requires { HasHeaders bytes.now }
    ensures fault { result ≡ first_false (load_conditions (length bytes.now) 0 (headers_of bytes.now)) }
    ensures segments { IfNone result (HasSegments bytes.now) }
{
    for i in 0..header_count(bytes) {
        if let Some(fault) = header_fault(bytes, i) {
            return Some(fault);
        }
    }
    None
}

/// The first condition that is false on a program header, where it is that of a segment that is loaded.
fn header_fault(bytes: &[u8], index: u16) -> Option<ElfFault>
    requires headers { HasHeaders bytes.now }
    requires below { index < header_count bytes.now }
    ensures fault { result
        ≡ first_false (header_conditions (length bytes.now) index (program_header bytes.now index)) }
    ensures segment { IfNone result ((program_header bytes.now index).kind ≡ LOAD
        → HasFileBytes (program_header bytes.now index) bytes.now) }
{
    let header = program_header(bytes, index);
    if header.kind == LOAD {
        segment_fault(bytes, index, header)
    } else {
        None
    }
}

/// The first condition on the file's header that is false.
///
/// Source: the ELF-32 specification, ELF header. The bytes from 4 on are the file's class, its order
/// and its version; `e_type` stands at 16, `e_machine` at 18 and `e_version` at 20.
fn file_fault(bytes: &[u8]) -> Option<ElfFault>
    ensures fault { result ≡ first_false (file_conditions bytes.now) }
    ensures headers { IfNone result (HasHeaders bytes.now) }
{
    if bytes.len() < FILE_HEADER_SIZE {
        Some(ElfFault::Short(bytes.len() as u64))
    } else if number_at(bytes, 0) != MAGIC {
        Some(ElfFault::Magic)
    } else if bytes[4] != 1 {
        Some(ElfFault::Class)
    } else if bytes[5] != 2 {
        Some(ElfFault::Order)
    } else if bytes[6] != 1 || number_at(bytes, 20) != 1 {
        Some(ElfFault::Version)
    } else if half_at(bytes, 16) != 2 {
        Some(ElfFault::Kind)
    } else if half_at(bytes, 18) != 8 {
        Some(ElfFault::Machine)
    } else {
        table_fault(bytes)
    }
}

/// The first condition on the table of program headers that is false; `e_phentsize` stands at 42.
fn table_fault(bytes: &[u8]) -> Option<ElfFault>
    requires { 52 ≤ length bytes.now }
    ensures fault { result ≡ first_false (table_conditions bytes.now) }
    ensures headers { IfNone result (HasHeaders bytes.now) }
{
    let count = header_count(bytes);
    let end = u64::from(table_of(bytes)) + u64::from(PROGRAM_HEADER_SIZE) * u64::from(count);
    if count > MOST_HEADERS {
        Some(ElfFault::TooMany(count))
    } else if count != 0 && half_at(bytes, 42) != PROGRAM_HEADER_SIZE {
        Some(ElfFault::HeaderSize)
    } else if count != 0 && end > bytes.len() as u64 {
        Some(ElfFault::TableOutside)
    } else {
        None
    }
}

/// The first condition on a segment that is false, for the program header of this index.
fn segment_fault(bytes: &[u8], index: u16, header: SegmentHeader) -> Option<ElfFault>
    ensures fault { result ≡ first_false (segment_conditions (length bytes.now) index (header_of header)) }
    ensures segment { IfNone result (HasFileBytes (header_of header) bytes.now) }
{
    let end = u64::from(header.offset) + u64::from(header.filesz);
    if header.filesz > header.memsz {
        Some(ElfFault::Bounds(index))
    } else if header.filesz != 0 && end > bytes.len() as u64 {
        Some(ElfFault::FileOutside(index))
    } else if !is_placed(header.vaddr, header.memsz) {
        Some(ElfFault::Placed(index))
    } else {
        None
    }
}

/// Whether each of `size` bytes from a virtual address on may be loaded.
fn is_placed(va: u32, size: u32) -> bool
    ensures { result ≡ list_all (λ k. is_loadable (va + k)) (range_with_len 0 size) }
{
    size <= room_at(va)
}

/// How many bytes from a virtual address on may be loaded: to the end of the memory that it lies in.
fn room_at(va: u32) -> u32
    ensures { result ≡ room_at va }
{
    match segment(va, false) {
        Segment::Direct(pa) => room_from(pa),
        Segment::Mapped | Segment::Denied => 0,
    }
}

/// How many bytes from a physical address on are of the memory that it lies in, if it lies in one.
fn room_from(pa: u32) -> u32
    ensures { result ≡ room_from pa }
{
    match place(pa) {
        Place::Local(_) => LOCAL_END - pa,
        Place::Boot(_) => BOOT_END - pa,
        Place::Global(_) => GLOBAL_END - pa,
        Place::Device(_) | Place::Nowhere => 0,
    }
}

/// Whether a program may begin at a virtual address: at a word of local memory or of the boot store.
fn is_entry(va: u32) -> bool
    ensures { result ≡ is_entry va }
{
    match segment(va, false) {
        Segment::Direct(pa) => va % 4 == 0 && is_store_of_code(place(pa)),
        Segment::Mapped | Segment::Denied => false,
    }
}

/// Whether an entry may lie at a place.
fn is_store_of_code(place: Place) -> bool
    ensures { result ≡ is_store_of_code place }
{
    match place {
        Place::Local(_) | Place::Boot(_) => true,
        Place::Global(_) | Place::Device(_) | Place::Nowhere => false,
    }
}
