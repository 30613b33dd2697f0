//! Why a file gives no image.

use thiserror::Error;

/// The first condition of a file that is false.
///
/// Source: the ELF-32 specification for the fields, and this project's own rules for what it loads
/// (`docs/FORMATS.md`). A number in brackets is that of a program header, from 0.
#[derive(Debug, Clone, Copy, PartialEq, Eq, Error)]
pub enum ElfFault {
    /// The file has fewer bytes than the header of a file: so many.
    #[error("short {0}")]
    Short(u64),
    /// The first four bytes are not `7F 45 4C 46`.
    #[error("magic")]
    Magic,
    /// The file is not one of 32 bits.
    #[error("class")]
    Class,
    /// The file is not big-endian.
    #[error("order")]
    Order,
    /// One of the two versions is not 1.
    #[error("version")]
    Version,
    /// The file is not an executable.
    #[error("kind")]
    Kind,
    /// The file is for another machine than MIPS.
    #[error("machine")]
    Machine,
    /// The file has more than 64 program headers: so many.
    #[error("toomany {0}")]
    TooMany(u16),
    /// A program header has another size than 32 bytes.
    #[error("headersize")]
    HeaderSize,
    /// The program headers are not all within the file.
    #[error("tableoutside")]
    TableOutside,
    /// The program header asks for dynamic linking or an interpreter.
    #[error("dynamic {0}")]
    Dynamic(u16),
    /// The segment has more file bytes than memory bytes.
    #[error("bounds {0}")]
    Bounds(u16),
    /// The segment's file bytes are not all within the file.
    #[error("fileoutside {0}")]
    FileOutside(u16),
    /// A byte of the segment lies at an address where nothing is loaded.
    #[error("placed {0}")]
    Placed(u16),
    /// The entry is no place of code.
    #[error("entry")]
    Entry,
}

/// Why the loader gives no image.
#[derive(Debug, Drop, Clone, Copy, PartialEq, Eq)]
pub enum ElfFail {
    /// The file is refused, with the first condition that is false.
    Fault(ElfFault),
    /// Memory was refused.
    Memory,
}
