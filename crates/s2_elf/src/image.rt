//! A program in memory.

use std::marker::Model;

/// A program in memory: an entry and the words of both lists.
///
/// The local list has 278,528 words, those of local memory and after them those of the boot store.
/// The global list has 262,144 words. A word has the byte at its lowest address as its most
/// significant one.
#[derive(Drop)]
pub struct Image {
    /// The virtual address of the first instruction.
    pub entry: u32,
    /// The words of local memory and of the boot store.
    pub local: Vec<u32>,
    /// The words of global memory.
    pub global: Vec<u32>,
}

impl Model for Image {
    ghost use Rattle.std.specs.Prelude.{◌≡◌, length};
    ghost use Rattle.s2_base.specs.declared.map.TheConstants.{LOCAL_WORDS, GLOBAL_WORDS};
    ghost use Rattle.s2_elf.specs.MemoryImage.{MemoryImage};

    ghost Value = { MemoryImage };

    ghost view = { λ i. record { entry = i.entry; local = i.local.items; global = i.global.items } };

    ghost invariant = { λ i. (length i.local.items ≡ LOCAL_WORDS) × (length i.global.items ≡ GLOBAL_WORDS) };
}
