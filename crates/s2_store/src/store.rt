//! The trait of stores. Its pages and their marks are this project's own (`docs/MACHINE.md`).

ghost use Rattle.std.specs.Prelude.{◌≡◌, ◌<◌, ℕ, Bool, List, length, slice_index, slice_set};
ghost use Rattle.s2_store.specs.Marks.{page_marked, AreMarks};

/// How many words a page has.
pub const PAGE_WORDS: usize = 1024;

/// A list of words that can be read and written one at a time, in three meanings.
///
/// A page is `PAGE_WORDS` words. A store may keep a mark for each page, which says that a word of it was set;
/// and it may hold more than its list, as one of several that share their pages does.
pub trait Store {
    /// The list of words.
    ghost words: { Self → List ℕ };

    /// The marks: none at all, or one for each page.
    ghost marks: { Self → List Bool };

    /// All else that it holds, which no call changes.
    ghost rest: { Self → List (List ℕ) };

    /// How many words there are.
    fn len(&self) -> u32
        ensures len { result ≡ length (words self.now) }
        ensures marks { AreMarks (marks self.now) (length (words self.now)) };

    /// Word `i`, which is below the length.
    fn word(&self, i: u32) -> u32
        requires { i < length (words self.now) }
        ensures { result ≡ slice_index (words self.now) i };

    /// Word `i`, which is below the length, becomes `v`, and its page is marked where marks are kept. No
    /// other word and no other mark changes.
    fn set(&mut self, i: u32, v: u32)
        requires { i < length (words self.old) }
        ensures words { words self.new ≡ slice_set (words self.old) i v }
        ensures marks { marks self.new ≡ page_marked (marks self.old) i }
        ensures rest { rest self.new ≡ rest self.old };
}

/// Marks the page of word `i`, for the `set` of a store with marks. Where no marks are kept it does nothing.
pub fn mark(marks: &mut [bool], i: u32)
    ensures { marks.new ≡ page_marked marks.old i }
{
    let page = i as usize / PAGE_WORDS;
    if page < marks.len() {
        marks[page] = true;
    }
}
