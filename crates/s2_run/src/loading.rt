//! A program in memory, from the file of a name.

ghost use Rattle.std.specs.Prelude.{◌≡◌, ◌≤◌, ℕ, List, Some, length};
ghost use Rattle.s2_run.specs.declared.limits.TheConstants.{FILE_LIMIT};
ghost use Rattle.s2_run.specs.SeenObjects.{DeskSeen, desk_seen};
ghost use Rattle.s2_run.specs.FaultCounts.{DeskSame};
ghost use Rattle.s2_run.specs.LoadedFiles.{LoadsFile, LoadCause, LoadCounts};

use crate::limits::FILE_LIMIT;
use s2_elf::{ElfFail, ElfFault, Image, read_elf};
use s2_io::{Desk, DeskFault};
use std::alloc::Global;

/// Why a file gives no program.
#[derive(Debug, Clone, Copy, PartialEq, Eq)]
pub enum LoadFail {
    /// It could not be read.
    File,
    /// It has more bytes than the limit.
    TooBig,
    /// It is refused, for the first condition that is false.
    Refused(ElfFault),
    /// Memory was refused.
    Memory,
}

/// The program of a file.
pub fn load<D: Desk>(alloc: Global, name: &str, desk: &mut D) -> Result<Image, LoadFail>
    ensures told { (file : List ℕ) → D.held desk.old name.now ≡ Some file → LoadsFile file result }
    ensures cause { LoadCause result (D.faults desk.old name.now) (D.faults desk.new name.now)
        (D.large desk.old) (D.large desk.new) }
    ensures counts { LoadCounts result (desk_seen (D.held desk.old) (D.faults desk.old) (D.large desk.old))
        (desk_seen (D.held desk.new) (D.faults desk.new) (D.large desk.new)) }
{
    match desk.whole(alloc, name, FILE_LIMIT) {
        Ok(bytes) => image_of(alloc, bytes.as_slice()),
        Err(DeskFault::Failed) => Err(LoadFail::File),
        Err(DeskFault::TooBig { limit: _ }) => Err(LoadFail::TooBig),
        Err(DeskFault::Memory) => Err(LoadFail::Memory),
    }
}

/// The program of a file's bytes, which are not too many.
fn image_of(alloc: Global, bytes: &[u8]) -> Result<Image, LoadFail>
    requires { length bytes.now ≤ FILE_LIMIT }
    ensures told { LoadsFile bytes.now result }
    ensures cause { (f f' l l' : ℕ) → LoadCause result f f' l l' }
    ensures counts { (desk desk' : DeskSeen) → DeskSame desk desk' → LoadCounts result desk desk' }
{
    match read_elf(alloc, bytes) {
        Ok(image) => Ok(image),
        Err(ElfFail::Fault(fault)) => Err(LoadFail::Refused(fault)),
        Err(ElfFail::Memory) => Err(LoadFail::Memory),
    }
}
