//! The store of words with a mark for each page.

ghost use Rattle.s2_base.specs.declared.map.TheConstants.{LOCAL_WORDS};
ghost use Rattle.s2_pages.specs.PageMarks.{words_after_put, unmarked_words, IsLocalSize};
ghost use Rattle.s2_store.specs.Marks.{page_marked, AreMarks};
ghost use Rattle.std.specs.Prelude.{◌≡◌, ◌<◌, false, length, slice_index, slice_index_or, slice_set, IfOk};

use s2_base::{LOCAL_WORDS, Memory};
use s2_store::{PAGE_WORDS, Store};
use std::alloc::Global;
use std::marker::Model;

/// How many pages a local list has.
pub const LOCAL_PAGES: usize = 272;

const _: () = prove!(LOCAL_PAGES * PAGE_WORDS == LOCAL_WORDS as usize);

/// A local list of `LOCAL_WORDS` words, and for each of its `LOCAL_PAGES` pages whether a word of it was
/// set since the marks were last cleared.
///
/// The words are one list in one allocation.
#[derive(Drop)]
pub struct PageStore {
    list: Vec<u32>,
    dirty: [bool; LOCAL_PAGES],
}

impl Model for PageStore {
    ghost use Rattle.s2_pages.specs.PageMarks.{IsLocalSize, PagedWords};

    ghost Value = { PagedWords };

    ghost view = { λ s. record { words = s.list.items; marks = s.dirty } };

    ghost invariant = { λ s. IsLocalSize (record { words = s.list.items; marks = s.dirty }) };
}

impl PageStore {
    /// The store of the given `LOCAL_WORDS` words, which are copied once, with no page marked.
    ///
    /// `Memory` where their copy was refused its memory.
    pub fn new(alloc: Global, words: &[u32]) -> Result<PageStore, Memory>
        requires { length words.now ≡ LOCAL_WORDS }
        ensures store { IfOk result (λ s. s ≡ unmarked_words words.now) }
        ensures size { IfOk result IsLocalSize }
    {
        match words.to_vec(alloc) {
            Ok(list) => Ok(PageStore {
                list,
                dirty: [false; LOCAL_PAGES],
            }),
            Err(_) => Err(Memory),
        }
    }

    /// Whether a word of page number `page`, below `LOCAL_PAGES`, was set since the marks were cleared.
    pub fn dirty(&self, page: u16) -> bool
        requires { page < LOCAL_PAGES }
        ensures { result ≡ slice_index_or self.now.marks page false }
    {
        self.dirty[page as usize]
    }

    /// Clears the mark of each page. The words stay.
    pub fn clear(&mut self)
        ensures { self.new ≡ unmarked_words self.old.words }
    {
        self.dirty = [false; LOCAL_PAGES];
    }

    /// Word `i`, below `LOCAL_WORDS`, becomes `v`, as with `set`, but no mark changes: so a word is written
    /// that comes from another processor, or from a fault, and not from a store of the program.
    pub fn put(&mut self, i: u32, v: u32)
        requires { i < LOCAL_WORDS }
        ensures { self.new ≡ words_after_put i v self.old }
    {
        self.list[i as usize] = v;
    }
}

impl Store for PageStore {
    ghost use Rattle.std.specs.Prelude.{[]};

    ghost words = { λ s. s.words };

    ghost marks = { λ s. s.marks };

    ghost rest = { λ _. [] };

    fn len(&self) -> u32
        ensures len { result ≡ length self.now.words }
        ensures marks { AreMarks self.now.marks (length self.now.words) }
        ensures size { IsLocalSize self.now }
    {
        self.list.len() as u32
    }

    fn word(&self, i: u32) -> u32 {
        self.list[i as usize]
    }

    fn set(&mut self, i: u32, v: u32) {
        let place = i as usize;
        self.list[place] = v;
        self.dirty[place / PAGE_WORDS] = true;
    }
}
