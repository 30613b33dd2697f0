//! Laws of the repair of a processor: copied pages stay equal, and the repair ends in time.

ghost use Rattle.s2_plant_laws.specs.CopySteps.{CopiedPagesAfterAct, CopiedPagesAfterRun, CopiedPagesAfterSync, CopiedPagesAfterWord, CopiedPagesAtStart, ListsEqualAtLastWord};
ghost use Rattle.s2_plant_laws.specs.DirtyPages.{StoresMarkPages};
ghost use Rattle.s2_plant_laws.specs.RepairBound.{NextSyncMoves, RepairCounts, StatedReintegration};
ghost use Rattle.s2_plant_laws.specs.RepairProgress.{RepairProgresses, WordsOfSync};

/// A store marks its page: pages without a mark are as they were.
pub fn stores_mark_pages()
    ensures { StoresMarkPages }
{}

/// At the start of a repair no page counts as copied.
pub fn copied_pages_at_start()
    ensures { CopiedPagesAtStart }
{}

/// Copied pages stay equal while the members run on, each at its own speed.
pub fn copied_pages_after_run()
    ensures { CopiedPagesAfterRun }
{}

/// Copied pages stay equal at a Sync, which takes the marks over and sets the words to copy.
pub fn copied_pages_after_sync()
    ensures { CopiedPagesAfterSync }
{}

/// Copied pages stay equal when a word is copied.
pub fn copied_pages_after_word()
    ensures { CopiedPagesAfterWord }
{}

/// An act on the processor that joins leaves no claim of its words; any other leaves all as it was.
pub fn copied_pages_after_act()
    ensures { CopiedPagesAfterAct }
{}

/// At the last saved word the three local lists are equal, unless an act disturbed the processor that joins.
pub fn lists_equal_at_last_word()
    ensures { ListsEqualAtLastWord }
{}

/// How many Syncs copy in a repair, and how many words.
pub fn repair_progresses()
    ensures { RepairProgresses }
{}

/// How many words a Sync sets to be copied.
pub fn words_of_sync()
    ensures { WordsOfSync }
{}

/// How many ticks a repair has taken by its last resume.
pub fn repair_counts()
    ensures { RepairCounts }
{}

/// How the run count of the next Sync moves.
pub fn next_sync_moves()
    ensures { NextSyncMoves }
{}

/// A repair takes fewer than 5,000,000 ticks with frames of up to 1,024 run cycles, and fewer than 17,000,000 with
/// longer ones.
pub fn stated_reintegration()
    ensures { StatedReintegration }
{}
