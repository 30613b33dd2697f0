//! A plain list of words.

ghost use Rattle.std.specs.Prelude.{◌≡◌, ◌<◌, ◌^◌, [], length, IfOk};

use crate::store::Store;
use s2_base::Memory;
use std::alloc::Global;
use std::marker::Model;

/// A store that is its list of words, without marks.
#[derive(Drop)]
pub struct FlatStore {
    list: Vec<u32>,
}

impl Model for FlatStore {
    ghost use Rattle.std.specs.Prelude.{ℕ, ◌^◌, ◌<◌, List, length};

    ghost Value = { List ℕ };

    ghost view = { λ s. s.list.items };

    ghost invariant = { λ s. length s.list.items < 2 ^ 32 };
}

impl FlatStore {
    /// The store of the given words, of fewer than 2^32, which are copied once.
    ///
    /// `Memory` where their copy was refused its memory.
    pub fn new(alloc: Global, words: &[u32]) -> Result<FlatStore, Memory>
        requires { length words.now < 2 ^ 32 }
        ensures { IfOk result (λ s. s ≡ words.now) }
    {
        match words.to_vec(alloc) {
            Ok(list) => Ok(FlatStore { list }),
            Err(_) => Err(Memory),
        }
    }

    /// The words become those of a store of as many words. It takes no memory.
    pub fn copy_from(&mut self, other: &FlatStore)
        requires { length self.old ≡ length other.now }
        ensures { self.new ≡ other.now }
    {
        self.list
            .as_mut_slice()
            .copy_from_slice(other.list.as_slice());
    }
}

impl Store for FlatStore {
    ghost words = { λ s. s };

    ghost marks = { λ _. [] };

    ghost rest = { λ _. [] };

    fn len(&self) -> u32 {
        self.list.len() as u32
    }

    fn word(&self, i: u32) -> u32 {
        self.list[i as usize]
    }

    fn set(&mut self, i: u32, v: u32) {
        self.list[i as usize] = v;
    }
}
