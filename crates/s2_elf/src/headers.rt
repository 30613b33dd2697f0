//! The numbers of a file, and a program header.

ghost use Rattle.std.specs.Prelude.{◌≡◌, ◌+◌, ◌<◌, ◌≤◌, length};
ghost use Rattle.s2_elf.specs.Files.{half_at, number_at, entry_of, table_of, header_count, header_at, program_header};
ghost use Rattle.s2_elf.specs.Images.{base_of};
ghost use Rattle.s2_elf.specs.Placing.{header_of, HasHeaders};

use byteorder::{BigEndian, ByteOrder};
use s2_base::UNMAPPED_SIZE;

/// The size of a file's header in bytes (ELF-32 specification, ELF header).
pub const FILE_HEADER_SIZE: usize = 52;

/// The size of a program header in bytes (ELF-32 specification, program header).
pub const PROGRAM_HEADER_SIZE: u16 = 32;

/// `7F 45 4C 46`, the first four bytes of a file (ELF-32 specification, ELF identification).
pub const MAGIC: u32 = 0x7F45_4C46;

/// How many program headers a file may have. The limit is this project's own.
pub const MOST_HEADERS: u16 = 64;

/// `p_type` of a segment that is loaded (ELF-32 specification, segment types), and of the two that ask for
/// dynamic linking and for an interpreter.
pub const LOAD: u32 = 1;

pub const DYNAMIC: u32 = 2;

pub const INTERPRETER: u32 = 3;

/// The fields of a program header that the loader looks at.
///
/// Source: the ELF-32 specification, program header.
#[derive(Clone, Copy)]
pub struct SegmentHeader {
    /// `p_type`: what the segment is for.
    pub kind: u32,
    /// `p_offset`: where the segment's file bytes begin in the file.
    pub offset: u32,
    /// `p_vaddr`: the virtual address of the segment's first byte.
    pub vaddr: u32,
    /// `p_filesz`: how many bytes of the segment the file has.
    pub filesz: u32,
    /// `p_memsz`: how many bytes the segment has in memory.
    pub memsz: u32,
}

impl SegmentHeader {
    /// The physical address of the segment's first byte, which is the low 29 bits of the virtual one.
    pub fn base(self) -> u32
        ensures { result ≡ base_of (header_of self) }
    {
        self.vaddr % UNMAPPED_SIZE
    }
}

/// The half word at an offset, most significant byte first.
pub fn half_at(bytes: &[u8], at: usize) -> u16
    requires { at + 2 ≤ length bytes.now }
    ensures { result ≡ half_at bytes.now at }
{
    BigEndian::read_u16(&bytes[at..at + 2])
}

/// The word at an offset, most significant byte first.
pub fn number_at(bytes: &[u8], at: usize) -> u32
    requires { at + 4 ≤ length bytes.now }
    ensures { result ≡ number_at bytes.now at }
{
    BigEndian::read_u32(&bytes[at..at + 4])
}

/// `e_entry`: the virtual address of the first instruction.
pub fn entry_of(bytes: &[u8]) -> u32
    requires { 52 ≤ length bytes.now }
    ensures { result ≡ entry_of bytes.now }
{
    number_at(bytes, 24)
}

/// `e_phoff`: where the table of program headers begins in the file.
pub fn table_of(bytes: &[u8]) -> u32
    requires { 52 ≤ length bytes.now }
    ensures { result ≡ table_of bytes.now }
{
    number_at(bytes, 28)
}

/// `e_phnum`: how many program headers there are.
pub fn header_count(bytes: &[u8]) -> u16
    requires { 52 ≤ length bytes.now }
    ensures { result ≡ header_count bytes.now }
{
    half_at(bytes, 44)
}

/// The program header of an index.
pub fn program_header(bytes: &[u8], index: u16) -> SegmentHeader
    requires headers { HasHeaders bytes.now }
    requires below { index < header_count bytes.now }
    ensures { header_of result ≡ program_header bytes.now index }
{
    let at = table_of(bytes) as usize + PROGRAM_HEADER_SIZE as usize * index as usize;
    header_at(bytes, at)
}

/// The program header at an offset.
fn header_at(bytes: &[u8], at: usize) -> SegmentHeader
    requires { at + 32 ≤ length bytes.now }
    ensures { header_of result ≡ header_at bytes.now at }
{
    SegmentHeader {
        kind: number_at(bytes, at),
        offset: number_at(bytes, at + 4),
        vaddr: number_at(bytes, at + 8),
        filesz: number_at(bytes, at + 16),
        memsz: number_at(bytes, at + 20),
    }
}
