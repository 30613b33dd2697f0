//! The words of the command line.

ghost use Rattle.std.specs.Prelude.{◌≡◌, ◌↔◌, [], true, drop, is_err, IfOk};

use s2_base::Memory;
use std::alloc::Global;
use std::env;
use std::io::ErrorKind;
use std::rt::Env;

/// The words after the program's name, or none at all where one of them is not UTF-8.
///
/// `Memory` comes for want of memory alone.
pub(crate) fn read(rt: &(impl Env + AllocGlobal)) -> Result<Vec<String>, Memory> {
    let alloc = rt.alloc();
    match env::args(rt) {
        Ok(arguments) => match arguments.collect(alloc) {
            Ok(arguments) => Ok(after_name(arguments)),
            Err(_) => Err(Memory),
        },
        Err(error) => without(alloc, error.kind()),
    }
}

/// The arguments without the first, which is the program's name.
fn after_name(mut arguments: Vec<String>) -> Vec<String>
    ensures { result.items ≡ drop 1 arguments.items }
{
    if !arguments.is_empty() {
        arguments.remove(0);
    }
    arguments
}

/// The words where the arguments cannot be told: want of memory stays want of memory, and an argument
/// that is not UTF-8 leaves no words.
fn without(alloc: Global, kind: ErrorKind) -> Result<Vec<String>, Memory>
    ensures memory { (is_err result ≡ true) ↔ (kind ≡ ErrorKind.OutOfMemory) }
    ensures none { IfOk result (λ words. words.items ≡ []) }
{
    if kind == ErrorKind::OutOfMemory {
        Err(Memory)
    } else {
        Ok(Vec::new(alloc))
    }
}
