//! What saving and loading give together, for the crates above.

ghost use Rattle.s2_saved.specs.SavedLaws.{AllWordsRestore, LoadKeepsState, LoadChangesOneWord};

/// Loading all saved words of one processor into another gives the first.
pub fn all_words_restore()
    ensures { AllWordsRestore }
{}

/// Loading one word sets that saved word to what its part keeps of it, and leaves all others.
pub fn load_changes_one_word()
    ensures { LoadChangesOneWord }
{}

/// Loading one word leaves a state of a processor.
pub fn load_keeps_state()
    ensures { LoadKeepsState }
{}
