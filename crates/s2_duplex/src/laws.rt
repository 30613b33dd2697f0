//! What the calls do to the contents of the boards, over plain data.

ghost use Rattle.s2_duplex.specs.ContentsLaws.{ContentsAreUnique, FaultKeepsContents, NewBoardsStand, ReadKeepsContents, WriteSetsOneWord};

/// Boards stand for no other list than their contents.
pub fn contents_are_unique()
    ensures { ContentsAreUnique }
{}

/// New boards stand for the words that they were given.
pub fn new_boards_stand()
    ensures { NewBoardsStand }
{}

/// After a read the boards stand for the same list.
pub fn read_keeps_contents()
    ensures { ReadKeepsContents }
{}

/// After a write they stand for the list with one word set.
pub fn write_sets_one_word()
    ensures { WriteSetsOneWord }
{}

/// After a fault, tolerated or refused, they stand for the same list.
pub fn fault_keeps_contents()
    ensures { FaultKeepsContents }
{}
