//! A reintegration, as the order of the words that it copies.

ghost use Rattle.arrayvec.specs.ArrayVec.{array_vec_len};
ghost use Rattle.s2_join.specs.CopyOrder.{copy_after_closing, copy_after_item, copy_after_single_page, copy_after_store, copy_after_sync, copy_start, is_unclean, none_left, unclean_count, unclean_pages, IsItem};
ghost use Rattle.s2_join.specs.HoldItems.{hold_item, hold_length, hold_items};
ghost use Rattle.std.specs.List.{filter, range_with_len};
ghost use Rattle.std.specs.Prelude.{◌≡◌, ◌+◌, ◌-◌, ◌<◌, ◌≤◌, ◌++◌, ◌∷◌, [], false, true, ℕ, length, slice_index, drop, ◌&&◌, ◌==◌};

use crate::item::Item;
use arrayvec::ArrayVec;
use s2_pages::LOCAL_PAGES;
use s2_store::PAGE_WORDS;
use std::marker::Model;

/// With at most so many unclean pages a Sync closes the reintegration: it copies all of them at once.
pub const CLOSING_PAGES: usize = 8;

/// After so many Syncs that copied one page each, the next one closes the reintegration, however many
/// pages are unclean.
pub const SINGLE_PAGE_SYNCS: u16 = 544;

/// How many words the saved state of a processor has.
pub const SAVED_WORDS: u8 = 176;

/// A reintegration: which words are copied to the processor that joins, and in which order.
///
/// It is seen as the number of the joiner, a flag for each page of its local list that says whether the
/// page is clean, the cursor (the page at which the search for the next unclean one begins), how many
/// Syncs have copied, the words that are still to copy before the members go on, and whether the saved
/// words were copied.
///
/// No list of words is kept: a Sync sets whole pages to be copied, and the closing one the saved words
/// after them, so the pages and the number of words that were copied say which are left.
#[derive(Drop)]
pub struct Join {
    joiner: u8,
    clean: [bool; LOCAL_PAGES],
    cursor: u16,
    syncs: u16,
    pages: ArrayVec<u16, LOCAL_PAGES>,
    closing: bool,
    done: u32,
}

impl Model for Join {
    ghost use Rattle.std.specs.Prelude.{◌==◌, ◌&&◌, drop};
    ghost use Rattle.s2_join.specs.CopyOrder.{CopyState};
    ghost use Rattle.s2_join.specs.HoldItems.{hold_items, hold_length, IsCopyRecord};

    ghost Value = { CopyState };

    ghost view = { λ j. record {
      joiner = j.joiner;
      clean = j.clean;
      cursor = j.cursor;
      syncs = j.syncs;
      left = drop j.done (hold_items j.pages.items j.closing);
      saved = j.closing && (j.done == hold_length j.pages.items j.closing);
    } };

    ghost invariant = { λ j. IsCopyRecord j.cursor j.syncs j.pages.items j.closing j.done };
}

/// How many words a Sync set to be copied.
fn total(pages: &[u16], closing: bool) -> u32
    requires { length pages.now ≤ LOCAL_PAGES }
    ensures { result ≡ hold_length pages.now closing }
{
    let words = (pages.len() * PAGE_WORDS) as u32;
    if closing {
        words + u32::from(SAVED_WORDS)
    } else {
        words
    }
}

/// The word with number `done` of those that a Sync set to be copied.
fn item_at(pages: &[u16], closing: bool, done: u32) -> Item
    requires few { length pages.now ≤ LOCAL_PAGES }
    requires pages { (k : ℕ) → k < length pages.now → slice_index pages.now k < LOCAL_PAGES }
    requires within { done < hold_length pages.now closing }
    ensures item { result ≡ hold_item pages.now done }
    ensures range { IsItem result }
{
    let done = done as usize;
    let place = done / PAGE_WORDS;
    if place < pages.len() {
        Item::Local((pages[place] as usize * PAGE_WORDS + done % PAGE_WORDS) as u32)
    } else {
        Item::Saved((done - PAGE_WORDS * pages.len()) as u8)
    }
}

/// Appends the unclean ones of the pages from `from` on and below `to`.
fn collect(clean: &[bool; LOCAL_PAGES], from: u16, to: u16, pages: &mut ArrayVec<u16, LOCAL_PAGES>)
    requires order { from ≤ to }
    requires within { to ≤ LOCAL_PAGES }
    requires room { array_vec_len pages.old + (to - from) ≤ LOCAL_PAGES }
    ensures items { pages.new.items
        ≡ pages.old.items ++ filter (is_unclean clean.now) (range_with_len from (to - from)) }
    ensures size { array_vec_len pages.new ≤ array_vec_len pages.old + (to - from) }
{
    for page in from..to {
        if !clean[page as usize] {
            pages.push(page);
        }
    }
}

/// The unclean pages from the cursor on, cyclically.
fn unclean_from(clean: &[bool; LOCAL_PAGES], cursor: u16) -> ArrayVec<u16, LOCAL_PAGES>
    requires { cursor < LOCAL_PAGES }
    ensures items { result.items ≡ unclean_pages clean.now cursor }
    ensures count { length result.items ≡ unclean_count clean.now }
    ensures below { (k : ℕ) → k < length result.items → slice_index result.items k < LOCAL_PAGES }
{
    let mut pages = ArrayVec::new();
    collect(clean, cursor, LOCAL_PAGES as u16, &mut pages);
    collect(clean, 0, cursor, &mut pages);
    pages
}

impl Join {
    /// A reintegration of processor `p`, which is below 3, begins: every page is unclean, the cursor is at
    /// page 0, no Sync has copied, and no word is to copy.
    pub fn begin(p: u8) -> Join
        requires { p < 3 }
        ensures { result ≡ copy_start p }
    {
        Join {
            joiner: p,
            clean: [false; LOCAL_PAGES],
            cursor: 0,
            syncs: 0,
            pages: ArrayVec::new(),
            closing: false,
            done: 0,
        }
    }

    /// A member stored to page number `page`, below `LOCAL_PAGES`: the page is unclean. All else stays.
    pub fn stored(&mut self, page: u16)
        requires page { page < LOCAL_PAGES }
        requires resting { none_left self.old.left ≡ true }
        requires open { self.old.saved ≡ false }
        ensures { self.new ≡ copy_after_store page self.old }
    {
        self.clean[page as usize] = false;
    }

    /// Sets the words of one page to be copied. The page is clean, and the cursor moves past it.
    fn set_page(&mut self, page: u16)
        requires page { page < LOCAL_PAGES }
        requires few { self.old.syncs < SINGLE_PAGE_SYNCS }
        requires open { self.old.saved ≡ false }
        ensures { self.new ≡ copy_after_single_page self.old (page ∷ []) }
    {
        self.pages.clear();
        self.pages.push(page);
        self.clean[page as usize] = true;
        self.cursor = (page + 1) % LOCAL_PAGES as u16;
        self.syncs += 1;
        self.closing = false;
        self.done = 0;
    }

    /// Sets the words of these pages to be copied, and then the saved words. All pages are clean.
    fn set_all(&mut self, pages: ArrayVec<u16, LOCAL_PAGES>)
        requires pages { (k : ℕ) → k < length pages.items → slice_index pages.items k < LOCAL_PAGES }
        requires few { length pages.items ≤ LOCAL_PAGES }
        requires resting { none_left self.old.left ≡ true }
        requires open { self.old.saved ≡ false }
        ensures { self.new ≡ copy_after_closing self.old pages.items }
    {
        self.pages = pages;
        self.clean = [true; LOCAL_PAGES];
        self.syncs += 1;
        self.closing = true;
        self.done = 0;
    }

    /// An agreed Sync, after the pages to which a member stored since the last one were named by `stored`:
    /// sets the words to copy.
    ///
    /// Where more than `CLOSING_PAGES` pages are unclean and fewer than `SINGLE_PAGE_SYNCS` Syncs have
    /// copied, these are the words of the first unclean page at or after the cursor, cyclically, and the
    /// cursor moves past that page. Otherwise they are the words of all unclean pages, from the cursor on,
    /// cyclically, and then the saved words, and the cursor stays. The pages that are to be copied are
    /// clean from then on. It goes once over the flags, and takes no memory.
    pub fn at_sync(&mut self)
        requires resting { none_left self.old.left ≡ true }
        requires open { self.old.saved ≡ false }
        ensures { self.new ≡ copy_after_sync self.old }
    {
        let pages = unclean_from(&self.clean, self.cursor);
        if pages.len() > CLOSING_PAGES && self.syncs < SINGLE_PAGE_SYNCS {
            let page = pages[0];
            self.set_page(page);
        } else {
            self.set_all(pages);
        }
    }

    /// The next word to copy, which is then no longer to copy.
    pub fn next(&mut self) -> Item
        requires { none_left self.old.left ≡ false }
        ensures item { self.old.left ≡ result ∷ self.new.left }
        ensures step { self.new ≡ copy_after_item self.old }
        ensures range { IsItem result }
    {
        let item = item_at(&self.pages, self.closing, self.done);
        self.done += 1;
        item
    }

    /// The processor that joins, below 3.
    pub fn joiner(&self) -> u8
        ensures { result ≡ self.now.joiner }
    {
        self.joiner
    }

    /// Whether no word is to copy.
    pub fn resting(&self) -> bool
        ensures { result ≡ none_left self.now.left }
    {
        self.done == total(&self.pages, self.closing)
    }

    /// Whether the saved words were copied, all of them: the reintegration is at its end.
    pub fn ended(&self) -> bool
        ensures { result ≡ self.now.saved }
    {
        self.closing && self.done == total(&self.pages, self.closing)
    }

    /// How many pages are unclean.
    pub fn unclean(&self) -> u16
        ensures { result ≡ unclean_count self.now.clean }
    {
        self.clean.iter().filter(|clean| !**clean).count() as u16
    }

    /// How many words are still to copy before the members go on.
    pub fn left(&self) -> u32
        ensures { result ≡ length self.now.left }
    {
        total(&self.pages, self.closing) - self.done
    }
}
