//! The plain ELF file of a program.

ghost use Rattle.std.specs.Prelude.{◌≡◌, ◌+◌, ◌*◌, ◌%◌, ◌^◌, ◌<◌, ◌≤◌, ◌++◌, OnOk, IfOk, length};
ghost use Rattle.s2_elf.specs.Files.{refusal};
ghost use Rattle.s2_elf.specs.Images.{image_of};
ghost use Rattle.s2_program.specs.Programs.{PartData, ProgramData, words_in, AreAligned};
ghost use Rattle.s2_program.specs.PlainFiles.{half_bytes, word_bytes, words_bytes, identification, kind_fields, place_fields, size_fields, file_header, size_of, where_fields, extent_fields, part_header, part_headers, contents, contents_offset, plain_file};
ghost use Rattle.s2_program.specs.ProgramImages.{image_of_program, place_refusal, IsOfPlace};

use crate::program::{Part, Program};
use s2_base::Memory;
use std::alloc::Global;

/// Writes bytes.
fn put(file: &mut Vec<u8>, bytes: &[u8]) -> Result<(), Memory>
    ensures { OnOk result (file.new.items ≡ file.old.items ++ bytes.now) }
{
    match file.extend_from_slice(bytes) {
        Ok(()) => Ok(()),
        Err(_) => Err(Memory),
    }
}

/// Writes a half word, most significant byte first.
fn put_half(file: &mut Vec<u8>, n: u16) -> Result<(), Memory>
    ensures { OnOk result (file.new.items ≡ file.old.items ++ half_bytes n) }
{
    put(file, &[(n / 256 % 256) as u8, (n % 256) as u8])
}

/// Writes a word, most significant byte first.
fn put_word(file: &mut Vec<u8>, w: u32) -> Result<(), Memory>
    ensures { OnOk result (file.new.items ≡ file.old.items ++ word_bytes w) }
{
    put(
        file,
        &[
            (w / 16777216 % 256) as u8,
            (w / 65536 % 256) as u8,
            (w / 256 % 256) as u8,
            (w % 256) as u8,
        ],
    )
}

/// Writes words.
#[tactic(auto, using(crate::proofs::PartWords::writes))]
fn put_words(file: &mut Vec<u8>, words: &[u32]) -> Result<(), Memory>
    ensures { OnOk result (file.new.items ≡ file.old.items ++ words_bytes words.now) }
{
    for word in words {
        put_word(file, *word)?;
    }
    Ok(())
}

/// `e_ident`: the magic number, a file of 32 bits, most significant byte first, of version 1, and zeros.
#[rattlefmt::skip]
const IDENTIFICATION: [u8; 16] = [0x7F, b'E', b'L', b'F', 1, 2, 1, 0, 0, 0, 0, 0, 0, 0, 0, 0];

/// Writes `e_type`, `e_machine` and `e_version`.
#[tactic(auto, using(crate::proofs::PartWords::writes))]
fn put_kind(file: &mut Vec<u8>) -> Result<(), Memory>
    ensures { OnOk result (file.new.items ≡ file.old.items ++ kind_fields) }
{
    put_half(file, 2)?;
    put_half(file, 8)?;
    put_word(file, 1)?;
    Ok(())
}

/// Writes `e_entry`, `e_phoff`, `e_shoff` and `e_flags`.
#[tactic(auto, using(crate::proofs::PartWords::writes))]
fn put_places(file: &mut Vec<u8>, entry: u32) -> Result<(), Memory>
    ensures { OnOk result (file.new.items ≡ file.old.items ++ place_fields entry) }
{
    put_word(file, entry)?;
    put_word(file, 52)?;
    put_word(file, 0)?;
    put_word(file, 0)?;
    Ok(())
}

/// Writes the sizes and counts of headers, from `e_ehsize` on.
#[tactic(auto, using(crate::proofs::PartWords::writes))]
fn put_sizes(file: &mut Vec<u8>, count: u16) -> Result<(), Memory>
    ensures { OnOk result (file.new.items ≡ file.old.items ++ size_fields count) }
{
    put_half(file, 52)?;
    put_half(file, 32)?;
    put_half(file, count)?;
    put_half(file, 0)?;
    put_half(file, 0)?;
    put_half(file, 0)?;
    Ok(())
}

/// Writes the header of a file with so many program headers.
#[tactic(auto, using(crate::proofs::PartWords::writes))]
fn put_file_header(file: &mut Vec<u8>, entry: u32, count: u16) -> Result<(), Memory>
    ensures { OnOk result (file.new.items ≡ file.old.items ++ file_header entry count) }
{
    put(file, &IDENTIFICATION)?;
    put_kind(file)?;
    put_places(file, entry)?;
    put_sizes(file, count)?;
    Ok(())
}

/// Writes `p_type`, `p_offset`, `p_vaddr` and `p_paddr` of a part.
#[tactic(auto, using(crate::proofs::PartWords::writes))]
fn put_where(file: &mut Vec<u8>, offset: u32, part: &Part) -> Result<(), Memory>
    ensures { OnOk result (file.new.items ≡ file.old.items ++ where_fields offset part.now) }
{
    put_word(file, 1)?;
    put_word(file, offset)?;
    put_word(file, part.at)?;
    put_word(file, part.at)?;
    Ok(())
}

/// Writes `p_filesz`, `p_memsz`, `p_flags` and `p_align` of a part.
#[tactic(auto, using(crate::proofs::PartWords::writes))]
fn put_extent(file: &mut Vec<u8>, part: &Part) -> Result<(), Memory>
    requires { 4 * length part.now.words < 2 ^ 32 }
    ensures { OnOk result (file.new.items ≡ file.old.items ++ extent_fields part.now) }
{
    let size = 4 * part.words.len() as u32;
    put_word(file, size)?;
    put_word(file, size)?;
    put_word(file, 7)?;
    put_word(file, 4)?;
    Ok(())
}

/// Writes the program header of a part whose bytes begin at this offset.
#[tactic(auto, using(crate::proofs::PartWords::writes))]
fn put_part_header(file: &mut Vec<u8>, offset: u32, part: &Part) -> Result<(), Memory>
    requires { 4 * length part.now.words < 2 ^ 32 }
    ensures { OnOk result (file.new.items ≡ file.old.items ++ part_header offset part.now) }
{
    put_where(file, offset, part)?;
    put_extent(file, part)?;
    Ok(())
}

/// Writes the program headers of parts whose bytes follow each other from this offset on.
fn put_part_headers(file: &mut Vec<u8>, offset: u32, parts: &[Part]) -> Result<(), Memory>
    requires { offset + 4 * words_in parts.now < 2 ^ 32 }
    ensures { OnOk result (file.new.items ≡ file.old.items ++ part_headers offset parts.now) }
{
    let mut next = offset;
    for part in parts {
        put_part_header(file, next, part)?;
        next += part.size();
    }
    Ok(())
}

/// Writes the words of parts.
#[tactic(auto, using(crate::proofs::PartWords::writes))]
fn put_contents(file: &mut Vec<u8>, parts: &[Part]) -> Result<(), Memory>
    ensures { OnOk result (file.new.items ≡ file.old.items ++ contents parts.now) }
{
    for part in parts {
        put_words(file, part.words())?;
    }
    Ok(())
}

/// The plain ELF file of a program.
#[tactic(auto, using(crate::proofs::PartWords::writes))]
fn plain(alloc: Global, p: &Program) -> Result<Vec<u8>, Memory>
    requires parts { length p.now.parts ≤ 64 }
    requires words { words_in p.now.parts ≤ 540672 }
    ensures { IfOk result (λ bytes. bytes.items ≡ plain_file p.now) }
{
    let count = p.parts.len() as u16;
    let mut file = Vec::new(alloc);
    put_file_header(&mut file, p.entry, count)?;
    put_part_headers(&mut file, 52 + 32 * count as u32, &p.parts)?;
    put_contents(&mut file, &p.parts)?;
    Ok(file)
}

/// The plain ELF file of a program: a segment for each part, in their order.
///
/// The loader refuses it only for the place of a part or of the entry, and for the first part with a byte that
/// no memory has, or else for an entry that is at no place of code. Its image has the words of the parts at
/// their places, those of a later part over those of an earlier one, and 0 elsewhere. `Memory` comes for want
/// of memory alone.
pub fn to_elf(alloc: Global, p: &Program) -> Result<Vec<u8>, Memory>
    requires parts { length p.now.parts ≤ 64 }
    requires words { words_in p.now.parts ≤ 540672 }
    requires aligned { AreAligned p.now.parts }
    ensures file { IfOk result (λ bytes. bytes.items ≡ plain_file p.now) }
    ensures refused { IfOk result (λ bytes. IsOfPlace (refusal bytes.items)) }
    ensures places { IfOk result (λ bytes. refusal bytes.items ≡ place_refusal p.now) }
    ensures image { IfOk result (λ bytes. image_of bytes.items ≡ image_of_program p.now) }
{
    p.fits();
    match plain(alloc, p) {
        Ok(file) => Ok(file),
        Err(Memory) => Err(Memory),
    }
}
