//! The file of a listing is accepted, and has the image that was listed.

ghost use Rattle.std.specs.Prelude.{◌≡◌, IfOk, true, None};
ghost use Rattle.s2_elf.specs.Files.{is_entry, refusal};
ghost use Rattle.s2_elf.specs.Images.{image_of};

use crate::fault::AsmFail;
use crate::listing::list;
use crate::passes::assemble;
use s2_base::Memory;
use s2_elf::Image;
use s2_program::to_elf;
use std::alloc::Global;

/// The file of the program that an image's listing assembles to: it has that image, and the loader takes it
/// where the image's entry is one that it takes.
///
/// The listing has no fault. `Memory` comes for want of memory alone.
pub fn listed_file(alloc: Global, image: &Image) -> Result<Vec<u8>, Memory>
    ensures image { IfOk result (λ bytes. image_of bytes.items ≡ image.now) }
    ensures accepted { IfOk result (λ bytes. is_entry image.now.entry ≡ true → refusal bytes.items ≡ None) }
{
    let text = match list(alloc, image) {
        Ok(text) => text,
        Err(Memory) => return Err(Memory),
    };
    match assemble(alloc, text.as_slice()) {
        Ok(program) => match to_elf(alloc, &program) {
            Ok(file) => Ok(file),
            Err(Memory) => Err(Memory),
        },
        Err(AsmFail::Memory | AsmFail::Fault(_)) => Err(Memory),
    }
}
