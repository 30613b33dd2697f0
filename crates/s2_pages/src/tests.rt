//! A list with ample memory, as code over any store and as its owner sees it.

ghost use Rattle.s2_store.specs.Marks.{page_marked};
ghost use Rattle.std.specs.Prelude.{◌≡◌, ◌<◌, length, slice_set};

use crate::PageStore;
use s2_base::LOCAL_WORDS;
use s2_store::Store;
use std::test::Fail;

/// Stores a word, and reads it back.
fn stored<S: Store>(store: &mut S, i: u32, v: u32) -> u32
    requires { i < length (S.words store.old) }
    ensures words { S.words store.new ≡ slice_set (S.words store.old) i v }
    ensures marks { S.marks store.new ≡ page_marked (S.marks store.old) i }
{
    store.set(i, v);
    store.word(i)
}

#[test]
fn a_store_marks_its_page_until_the_marks_are_cleared(rt: HostRuntime) -> Result<(), Fail> {
    let alloc = rt.alloc();
    let words = vec![in alloc; 5u32; LOCAL_WORDS as usize]?;
    let mut store = PageStore::new(alloc, words.as_slice()).map_err(|_| "memory")?;
    assert_eq!(rt; store.len(), 278_528);
    assert_eq!(rt; stored(&mut store, 278_527, 7), 7);
    store.put(3071, 8);
    assert_eq!(rt; store.word(3071), 8);
    assert_eq!(rt; store.word(3072), 5);
    assert_eq!(rt; store.dirty(271), true);
    assert_eq!(rt; store.dirty(270), false);
    assert_eq!(rt; store.dirty(2), false);
    store.clear();
    assert_eq!(rt; store.dirty(271), false);
    assert_eq!(rt; store.word(278_527), 7);
    Ok(())
}
