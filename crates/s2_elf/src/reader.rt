//! The loader.

ghost use Rattle.std.specs.Prelude.{◌≡◌, ℕ, ◌+◌, ◌<◌, length, replicate, slice_index, IfOk, IfErr};
ghost use Rattle.s2_base.specs.declared.map.TheConstants.{LOCAL_WORDS, GLOBAL_WORDS};
ghost use Rattle.s2_elf.specs.LoadResult.{IsImageOf, IsRefusalOf};
ghost use Rattle.s2_elf.specs.Files.{header_count};
ghost use Rattle.s2_elf.specs.Images.{image_of, blank_image, local_address, global_address};
ghost use Rattle.s2_elf.specs.Placing.{AreLaid, HasHeaders, HasSegments};

use crate::conditions::refusal;
use crate::headers::{LOAD, entry_of, header_count, program_header};
use crate::placing::{place_local, place_over};
use crate::{ElfFail, Image};
use s2_base::{GLOBAL_START, GLOBAL_WORDS, LOCAL_MEMORY_WORDS, LOCAL_WORDS, Memory};
use std::alloc::Global;

/// The image of an ELF file that is accepted: all words are 0, and then each segment that is loaded is laid
/// over them in order, so that a later one counts where two overlap.
///
/// `ElfFail::Fault` comes exactly where a condition of a file is false, with the first such. `ElfFail::Memory`
/// comes for want of memory alone, and only for a file that is accepted. Source: the ELF-32 specification for the fields; the conditions and their
/// order are this project's own (`docs/FORMATS.md`).
pub fn read_elf(alloc: Global, bytes: &[u8]) -> Result<Image, ElfFail>
    ensures accepted { IfOk result (λ image. IsImageOf bytes.now image) }
    ensures refused { IfErr result (λ e. IsRefusalOf bytes.now e) }
{
    match refusal(bytes) {
        Some(fault) => Err(ElfFail::Fault(fault)),
        None => match load(alloc, bytes) {
            Ok(image) => Ok(image),
            Err(Memory) => Err(ElfFail::Memory),
        },
    }
}

/// The image of a file that is accepted.
fn load(alloc: Global, bytes: &[u8]) -> Result<Image, Memory>
    requires headers { HasHeaders bytes.now }
    requires segments { HasSegments bytes.now }
    ensures { IfOk result (λ image. image ≡ image_of bytes.now) }
{
    let entry = entry_of(bytes);
    let (local, global) = laid_lists(alloc, bytes)?;
    Ok(Image {
        entry,
        local,
        global,
    })
}

/// The two lists, with the segments of a file laid over zeros.
fn laid_lists(alloc: Global, bytes: &[u8]) -> Result<(Vec<u32>, Vec<u32>), Memory>
    requires headers { HasHeaders bytes.now }
    requires segments { HasSegments bytes.now }
    ensures local_long { IfOk result (λ lists. length lists.0.items ≡ LOCAL_WORDS) }
    ensures global_long { IfOk result (λ lists. length lists.1.items ≡ GLOBAL_WORDS) }
    ensures local { IfOk result (λ lists.
        AreLaid bytes.now (header_count bytes.now) local_address lists.0.items) }
    ensures global { IfOk result (λ lists.
        AreLaid bytes.now (header_count bytes.now) global_address lists.1.items) }
{
    let mut local = zeros(alloc, LOCAL_WORDS as usize)?;
    let mut global = zeros(alloc, GLOBAL_WORDS as usize)?;
    lay_segments(&mut local, &mut global, bytes);
    Ok((local, global))
}

/// Lays the segments of a file over the two lists, which are 0.
fn lay_segments(local: &mut [u32], global: &mut [u32], bytes: &[u8])
    requires headers { HasHeaders bytes.now }
    requires segments { HasSegments bytes.now }
    requires local_long { length local.old ≡ LOCAL_WORDS }
    requires global_long { length global.old ≡ GLOBAL_WORDS }
    requires local_blank { AreLaid bytes.now 0 local_address local.old }
    requires global_blank { AreLaid bytes.now 0 global_address global.old }
    ensures local { AreLaid bytes.now (header_count bytes.now) local_address local.new }
    ensures global { AreLaid bytes.now (header_count bytes.now) global_address global.new }
{
    for i in 0..header_count(bytes) {
        lay_segment(local, global, bytes, i);
    }
}

/// Lays the segment of one program header over the two lists, where it is loaded.
fn lay_segment(local: &mut [u32], global: &mut [u32], bytes: &[u8], index: u16)
    requires headers { HasHeaders bytes.now }
    requires segments { HasSegments bytes.now }
    requires below { index < header_count bytes.now }
    requires local_long { length local.old ≡ LOCAL_WORDS }
    requires global_long { length global.old ≡ GLOBAL_WORDS }
    requires local_laid { AreLaid bytes.now index local_address local.old }
    requires global_laid { AreLaid bytes.now index global_address global.old }
    ensures local { AreLaid bytes.now (index + 1) local_address local.new }
    ensures global { AreLaid bytes.now (index + 1) global_address global.new }
{
    let header = program_header(bytes, index);
    if header.kind == LOAD {
        place_local(local, LOCAL_MEMORY_WORDS as usize, header, bytes);
        place_over(global, GLOBAL_START, header, bytes);
    }
}

/// So many words, each 0.
fn zeros(alloc: Global, count: usize) -> Result<Vec<u32>, Memory>
    ensures count { IfOk result (λ v. length v.items ≡ count) }
    ensures words { IfOk result (λ v. (i : ℕ) → i < length v.items → slice_index v.items i ≡ 0) }
    ensures all { IfOk result (λ v. v.items ≡ replicate count 0) }
{
    vec![in alloc; 0; count].map_err(|_| Memory)
}

/// An image of an entry, a virtual address, and of memories that are all 0.
///
/// `Memory` where one of the two lists was refused.
pub fn blank(alloc: Global, entry: u32) -> Result<Image, Memory>
    ensures { IfOk result (λ image. image ≡ blank_image entry) }
{
    let local = zeros(alloc, LOCAL_WORDS as usize)?;
    let global = zeros(alloc, GLOBAL_WORDS as usize)?;
    Ok(Image {
        entry,
        local,
        global,
    })
}
