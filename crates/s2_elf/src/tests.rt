//! Files that are loaded, and files that are refused, each by its cause.

use super::*;
use std::alloc::{AllocError, Global};
use std::test::Fail;

/// A program that writes "hi" and stops: `examples/hello/hello.elf` from byte 84 on.
const PROGRAM: [u32; 8] = [
    0x3C08_BF00,
    0x2409_0068,
    0xAD09_0000,
    0x2409_0069,
    0xAD09_0000,
    0x2409_000A,
    0xAD09_0000,
    0xAD00_0014,
];

/// A file of two segments, of which the second has more bytes in memory than in the file:
/// `examples/segments/segments.elf`, made from its source by GNU as and ld 2.40.
#[rattlefmt::skip]
static SEGMENTS: [u8; 436] = [
    0x7F, 0x45, 0x4C, 0x46, 0x01, 0x02, 0x01, 0x00, 0x00, 0x00, 0x00, 0x00,
    0x00, 0x00, 0x00, 0x00, 0x00, 0x02, 0x00, 0x08, 0x00, 0x00, 0x00, 0x01,
    0x80, 0x01, 0x00, 0x00, 0x00, 0x00, 0x00, 0x34, 0x00, 0x00, 0x00, 0xEC,
    0x00, 0x00, 0x10, 0x01, 0x00, 0x34, 0x00, 0x20, 0x00, 0x02, 0x00, 0x28,
    0x00, 0x05, 0x00, 0x04, 0x00, 0x00, 0x00, 0x01, 0x00, 0x00, 0x00, 0x80,
    0x80, 0x01, 0x00, 0x00, 0x80, 0x01, 0x00, 0x00, 0x00, 0x00, 0x00, 0x40,
    0x00, 0x00, 0x00, 0x40, 0x00, 0x00, 0x00, 0x07, 0x00, 0x00, 0x00, 0x10,
    0x00, 0x00, 0x00, 0x01, 0x00, 0x00, 0x00, 0xC0, 0x80, 0x02, 0x00, 0x00,
    0x80, 0x02, 0x00, 0x00, 0x00, 0x00, 0x00, 0x10, 0x00, 0x00, 0x00, 0x20,
    0x00, 0x00, 0x00, 0x06, 0x00, 0x00, 0x00, 0x10, 0x00, 0x00, 0x00, 0x00,
    0x00, 0x00, 0x00, 0x00, 0x00, 0x00, 0x00, 0x00, 0x3C, 0x08, 0xBF, 0x00,
    0x3C, 0x09, 0x80, 0x02, 0x81, 0x2A, 0x00, 0x00, 0x3C, 0x0B, 0x80, 0x02,
    0x11, 0x40, 0x00, 0x06, 0x8D, 0x6C, 0x00, 0x10, 0x25, 0x29, 0x00, 0x01,
    0x25, 0x8C, 0x00, 0x01, 0xAD, 0x6C, 0x00, 0x10, 0x10, 0x00, 0xFF, 0xF8,
    0xAD, 0x0A, 0x00, 0x00, 0x00, 0x00, 0x00, 0x00, 0xAD, 0x0C, 0x00, 0x14,
    0x00, 0x00, 0x00, 0x00, 0x00, 0x00, 0x00, 0x00, 0x00, 0x00, 0x00, 0x00,
    0x74, 0x77, 0x6F, 0x20, 0x73, 0x65, 0x67, 0x6D, 0x65, 0x6E, 0x74, 0x73,
    0x0A, 0x00, 0x00, 0x00, 0x00, 0x2E, 0x73, 0x68, 0x73, 0x74, 0x72, 0x74,
    0x61, 0x62, 0x00, 0x2E, 0x74, 0x65, 0x78, 0x74, 0x00, 0x2E, 0x64, 0x61,
    0x74, 0x61, 0x00, 0x2E, 0x62, 0x73, 0x73, 0x00, 0x00, 0x00, 0x00, 0x00,
    0x00, 0x00, 0x00, 0x00, 0x00, 0x00, 0x00, 0x00, 0x00, 0x00, 0x00, 0x00,
    0x00, 0x00, 0x00, 0x00, 0x00, 0x00, 0x00, 0x00, 0x00, 0x00, 0x00, 0x00,
    0x00, 0x00, 0x00, 0x00, 0x00, 0x00, 0x00, 0x00, 0x00, 0x00, 0x00, 0x00,
    0x00, 0x00, 0x00, 0x0B, 0x00, 0x00, 0x00, 0x01, 0x00, 0x00, 0x00, 0x07,
    0x80, 0x01, 0x00, 0x00, 0x00, 0x00, 0x00, 0x80, 0x00, 0x00, 0x00, 0x40,
    0x00, 0x00, 0x00, 0x00, 0x00, 0x00, 0x00, 0x00, 0x00, 0x00, 0x00, 0x10,
    0x00, 0x00, 0x00, 0x00, 0x00, 0x00, 0x00, 0x11, 0x00, 0x00, 0x00, 0x01,
    0x00, 0x00, 0x00, 0x03, 0x80, 0x02, 0x00, 0x00, 0x00, 0x00, 0x00, 0xC0,
    0x00, 0x00, 0x00, 0x10, 0x00, 0x00, 0x00, 0x00, 0x00, 0x00, 0x00, 0x00,
    0x00, 0x00, 0x00, 0x10, 0x00, 0x00, 0x00, 0x00, 0x00, 0x00, 0x00, 0x17,
    0x00, 0x00, 0x00, 0x08, 0x00, 0x00, 0x00, 0x03, 0x80, 0x02, 0x00, 0x10,
    0x00, 0x00, 0x00, 0xD0, 0x00, 0x00, 0x00, 0x10, 0x00, 0x00, 0x00, 0x00,
    0x00, 0x00, 0x00, 0x00, 0x00, 0x00, 0x00, 0x10, 0x00, 0x00, 0x00, 0x00,
    0x00, 0x00, 0x00, 0x01, 0x00, 0x00, 0x00, 0x03, 0x00, 0x00, 0x00, 0x00,
    0x00, 0x00, 0x00, 0x00, 0x00, 0x00, 0x00, 0xD0, 0x00, 0x00, 0x00, 0x1C,
    0x00, 0x00, 0x00, 0x00, 0x00, 0x00, 0x00, 0x00, 0x00, 0x00, 0x00, 0x01,
    0x00, 0x00, 0x00, 0x00,
];

/// The size of a file's header, and of a program header, in bytes.
const FILE_HEADER: u32 = 52;

const PROGRAM_HEADER: u32 = 32;

/// Where fields stand in the file, and in a program header.
const E_TYPE: usize = 16;

const E_MACHINE: usize = 18;

const E_VERSION: usize = 20;

const E_PHOFF: usize = 28;

const E_PHENTSIZE: usize = 42;

const E_PHNUM: usize = 44;

/// A program header: its type, its virtual address, and its bytes in the file and in memory.
type Header = (u32, u32, u32, u32);

/// A load header for a whole program at an address.
fn load_at(vaddr: u32) -> Header {
    (1, vaddr, 32, 32)
}

/// A file of an entry and of these program headers, whose file bytes are all those of the program.
fn file(alloc: Global, entry: u32, headers: &[Header]) -> Result<Vec<u8>, AllocError> {
    let count = (headers.len() % 65536) as u32;
    let first = [
        0x7F45_4C46,
        0x0102_0100,
        0,
        0,
        0x0002_0008,
        1,
        entry,
        FILE_HEADER,
        0,
        0,
    ];
    let mut bytes = Vec::new(alloc);
    for word in first {
        bytes.extend_from_slice(&u32::to_be_bytes(word))?;
    }
    for word in [0x0034_0020, count * 65536, 0] {
        bytes.extend_from_slice(&u32::to_be_bytes(word))?;
    }
    for &(kind, vaddr, filesz, memsz) in headers {
        let offset = FILE_HEADER.wrapping_add(count.wrapping_mul(PROGRAM_HEADER));
        for word in [kind, offset, vaddr, vaddr, filesz, memsz, 7, 4] {
            bytes.extend_from_slice(&word.to_be_bytes())?;
        }
    }
    for word in PROGRAM {
        bytes.extend_from_slice(&word.to_be_bytes())?;
    }
    Ok(bytes)
}

/// How many words of a list are not 0.
fn filled(words: &[u32]) -> usize {
    words.iter().filter(|word| **word != 0).count()
}

#[test]
fn loads_a_segment_into_each_memory(rt: HostRuntime) -> Result<(), Fail> {
    for (vaddr, at) in [
        (0x8001_0000, 0x4000),
        (0xBFC0_0000, 262_144),
        (0xBFC0_FFE0, 278_520),
    ] {
        let image = read_elf(
            rt.alloc(),
            &file(rt.alloc(), 0x8001_0000, &[load_at(vaddr)])?,
        )?;
        assert_eq!(rt; image.entry, 0x8001_0000);
        assert_eq!(rt;
            image.local.get(at..at + 8),
            Some(PROGRAM.as_slice()),
            "at {vaddr:x}"
        );
        assert_eq!(rt;
            (filled(&image.local), filled(&image.global)),
            (8, 0),
            "at {vaddr:x}"
        );
    }
    let image = read_elf(
        rt.alloc(),
        &file(rt.alloc(), 0x8001_0000, &[load_at(0xA400_0008)])?,
    )?;
    assert_eq!(rt; image.global.get(2..10), Some(PROGRAM.as_slice()));
    assert_eq!(rt; (filled(&image.local), filled(&image.global)), (0, 8));
    Ok(())
}

#[test]
fn a_later_segment_counts_where_two_overlap(rt: HostRuntime) -> Result<(), Fail> {
    // the second begins at the last byte of a word, and has six bytes of the file and ten zeros
    let headers = [
        load_at(0x8001_0000),
        (0x7000_0000, 0, 0, 0),
        (1, 0x8001_0003, 6, 16),
    ];
    let image = read_elf(rt.alloc(), &file(rt.alloc(), 0x8001_0000, &headers)?)?;
    let words = [
        0x3C08_BF3C,
        0x08BF_0024,
        0x0900_0000,
        0,
        0,
        0x2409_000A,
        0xAD09_0000,
        0xAD00_0014,
    ];
    assert_eq!(rt; image.local.get(0x4000..0x4008), Some(words.as_slice()));
    assert_eq!(rt; filled(&image.local), 6);
    Ok(())
}

#[test]
fn loads_what_a_linker_makes(rt: HostRuntime) -> Result<(), Fail> {
    let image = read_elf(rt.alloc(), &SEGMENTS)?;
    assert_eq!(rt; image.entry, 0x8001_0000);
    let code = [0x3C08_BF00, 0x3C09_8002, 0x812A_0000];
    let text = [0x7477_6F20, 0x7365_676D, 0x656E_7473, 0x0A00_0000, 0];
    assert_eq!(rt; image.local.get(0x4000..0x4003), Some(code.as_slice()));
    assert_eq!(rt; image.local.get(0x8000..0x8005), Some(text.as_slice()));
    let blank = blank(rt.alloc(), 0x8001_0000).map_err(|_| "memory")?;
    assert_eq!(rt; blank.entry, 0x8001_0000);
    assert_eq!(rt; (blank.local.len(), blank.global.len()), (278_528, 262_144));
    assert_eq!(rt; (filled(&blank.local), filled(&blank.global)), (0, 0));
    Ok(())
}

/// A change of a file: a place in it, and the byte that comes there.
type Change = (usize, u8);

#[test]
fn each_refusal_has_its_cause(rt: HostRuntime) -> Result<(), Fail> {
    let changed: [(&[Change], ElfFault); 9] = [
        (&[(3, 0x47)], ElfFault::Magic),
        (&[(4, 2), (5, 1)], ElfFault::Class),
        (&[(5, 1), (6, 0)], ElfFault::Order),
        (&[(E_VERSION + 3, 2), (E_TYPE + 1, 3)], ElfFault::Version),
        (&[(E_TYPE + 1, 3), (E_MACHINE + 1, 9)], ElfFault::Kind),
        (&[(E_MACHINE + 1, 9), (E_PHNUM + 1, 65)], ElfFault::Machine),
        (
            &[(E_PHNUM + 1, 65), (E_PHENTSIZE + 1, 40)],
            ElfFault::TooMany(65),
        ),
        (&[(E_PHENTSIZE + 1, 40), (E_PHOFF, 1)], ElfFault::HeaderSize),
        (
            &[(E_PHOFF, 0xFF), (E_PHOFF + 1, 0xFF)],
            ElfFault::TableOutside,
        ),
    ];
    for (changes, fault) in changed {
        let mut bytes = file(rt.alloc(), 0x8001_0000, &[load_at(0x8001_0000)])?;
        for &(place, byte) in changes {
            if place < bytes.len() {
                bytes[place] = byte;
            }
        }
        assert_eq!(rt;
            read_elf(rt.alloc(), &bytes).err(),
            Some(ElfFail::Fault(fault)),
            "{fault:?}"
        );
    }
    let whole = file(rt.alloc(), 0x8001_0000, &[load_at(0x8001_0000)])?;
    for (size, fault) in [
        (0, ElfFault::Short(0)),
        (51, ElfFault::Short(51)),
        (83, ElfFault::TableOutside),
        (115, ElfFault::FileOutside(0)),
    ] {
        let cut = whole.get(..size).ok_or("short")?;
        assert_eq!(rt;
            read_elf(rt.alloc(), cut).err(),
            Some(ElfFail::Fault(fault)),
            "of {size} bytes"
        );
    }
    Ok(())
}

#[test]
fn headers_are_tested_in_their_order(rt: HostRuntime) -> Result<(), Fail> {
    let good = load_at(0x8001_0000);
    let refused: [(u32, &[Header], ElfFault); 8] = [
        (
            0x8001_0000,
            &[(1, 0x8001_0000, 33, 32), good, (3, 0, 0, 0)],
            ElfFault::Dynamic(2),
        ),
        (0x8001_0000, &[(2, 0, 0, 0)], ElfFault::Dynamic(0)),
        (
            0x8001_0000,
            &[good, (1, 0, 33, 32), (1, 0x8001_0000, 33, 32)],
            ElfFault::Bounds(1),
        ),
        (
            0x8001_0000,
            &[good, (1, 0, 33, 33)],
            ElfFault::FileOutside(1),
        ),
        (
            0x8001_0000,
            &[(1, 0x8000_0000, 0, 0xFFFF_FFFF)],
            ElfFault::Placed(0),
        ),
        (0x8001_0000, &[(1, 0x800F_FFFC, 4, 5)], ElfFault::Placed(0)),
        (0x8001_0002, &[(1, 0xFFFF_FFFF, 0, 2)], ElfFault::Placed(0)),
        (0x8400_0000, &[good], ElfFault::Entry),
    ];
    for (entry, headers, fault) in refused {
        let bytes = file(rt.alloc(), entry, headers)?;
        assert_eq!(rt;
            read_elf(rt.alloc(), &bytes).err(),
            Some(ElfFail::Fault(fault)),
            "{fault:?}"
        );
    }
    for headers in [[(1, 0x800F_FFFC, 4, 4)].as_slice(), &[(1, 0, 0, 0)], &[]] {
        assert!(rt; read_elf(rt.alloc(), &file(rt.alloc(), 0x8001_0000, headers)?).is_ok());
    }
    Ok(())
}
