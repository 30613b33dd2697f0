//! Generic code over the trait, at a plain store and at one in all three meanings.

ghost use Rattle.std.specs.Prelude.{◌≡◌, ◌<◌, length, slice_index, slice_set};

use crate::{FlatStore, Store, mark};
use std::marker::Model;
use std::test::Fail;

/// One of two lists of words that stand together, with marks for its pages.
#[derive(Drop)]
struct Chosen {
    list: Vec<u32>,
    marks: Vec<bool>,
    other: Vec<u32>,
}

impl Model for Chosen {
    ghost use Rattle.std.specs.Prelude.{ℕ, ◌^◌, ◌<◌, Bool, List, length};
    ghost use Rattle.s2_store.specs.Marks.{AreMarks};

    ghost Value = { List ℕ × List Bool × List ℕ };

    ghost view = { λ s. (s.list.items, s.marks.items, s.other.items) };

    ghost invariant = { λ s. (length s.list.items < 2 ^ 32) × AreMarks s.marks.items (length s.list.items) };
}

impl Store for Chosen {
    ghost use Rattle.std.specs.Prelude.{[], ◌∷◌};

    ghost words = { λ s. s.0 };

    ghost marks = { λ s. s.1 };

    ghost rest = { λ s. s.2 ∷ [] };

    fn len(&self) -> u32 {
        self.list.len() as u32
    }

    fn word(&self, i: u32) -> u32 {
        self.list[i as usize]
    }

    fn set(&mut self, i: u32, v: u32) {
        self.list[i as usize] = v;
        mark(self.marks.as_mut_slice(), i);
    }
}

/// Copies a word, and says how many there are.
fn copy<S: Store>(store: &mut S, from: u32, to: u32) -> u32
    requires from { from < length (S.words store.old) }
    requires to { to < length (S.words store.old) }
    ensures words { S.words store.new
        ≡ slice_set (S.words store.old) to (slice_index (S.words store.old) from) }
    ensures rest { S.rest store.new ≡ S.rest store.old }
    ensures len { result ≡ length (S.words store.new) }
{
    let word = store.word(from);
    store.set(to, word);
    store.len()
}

#[test]
fn a_word_is_copied_in_a_flat_store(rt: HostRuntime) -> Result<(), Fail> {
    let mut store = FlatStore::new(rt.alloc(), &[5, 6, 7]).map_err(|_| "memory")?;
    assert_eq!(rt; copy(&mut store, 0, 2), 3);
    assert_eq!(rt; store.word(0), 5);
    assert_eq!(rt; store.word(1), 6);
    assert_eq!(rt; store.word(2), 5);
    Ok(())
}

#[test]
fn a_word_is_copied_in_a_store_with_marks(rt: HostRuntime) -> Result<(), Fail> {
    let alloc = rt.alloc();
    let mut store = Chosen {
        list: vec![in alloc; 5u32; 2048]?,
        marks: vec![in alloc; false; 2]?,
        other: vec![in alloc; 9u32; 2048]?,
    };
    store.set(0, 8);
    store.marks[0] = false;
    assert_eq!(rt; copy(&mut store, 0, 1024), 2048);
    assert_eq!(rt; store.word(1023), 5);
    assert_eq!(rt; store.word(1024), 8);
    assert_eq!(rt; store.marks.as_slice(), [false, true].as_slice());
    assert_eq!(rt; store.other[1024], 9);
    Ok(())
}
