//! The mending of a board: what it leaves as it is, and how long it lasts.

ghost use Rattle.s2_triplex_laws.specs.MendingGoesOn.{MendNotesBeginMendings, MendedBoardsMayFail, MendedNotesEndMendings, MendsGoOnAsFar};
ghost use Rattle.s2_triplex_laws.specs.BoardMending.{DeadBoardsEndMendings, MendingCountsIdleTurns, MendingEnds, MendsLeaveRuns, StepsIgnoreBoards, StepsIgnoreMending};

/// Machines that are equal in all but the boards, which stand for one list, stay so in every step that neither
/// refuses, and their turns tell the same deliveries and bytes.
pub fn steps_ignore_boards()
    ensures { StepsIgnoreBoards }
{}

/// So every step leaves the list of the boards as it does where nothing mends.
pub fn steps_ignore_mending()
    ensures { StepsIgnoreMending }
{}

/// The end of the board that mends is lawful for the mending alone: it ends the mending, and all else of the
/// machine stays, with the list of the boards.
pub fn dead_boards_end_mendings()
    ensures { DeadBoardsEndMendings }
{}

/// The bytes and the deliveries of a run are those of the same run without its begins of mendings, as far as both
/// go on.
pub fn mends_leave_runs()
    ensures { MendsLeaveRuns }
{}

/// A run goes on with its begins of mendings where it goes on without them.
pub fn mends_go_on_as_far()
    ensures { MendsGoOnAsFar }
{}

/// A note that a mending begins comes with the act of a board that is out, while none mends; nothing of it is
/// copied yet.
pub fn mend_notes_begin_mendings()
    ensures { MendNotesBeginMendings }
{}

/// While a board mends, as many of its words are mended as the voter's turns were idle: they are those of the
/// list, with right parity.
pub fn mending_counts_idle_turns()
    ensures { MendingCountsIdleTurns }
{}

/// A mending that no fault ends has its end, with its note, at the idle turn of the number of words.
pub fn mending_ends()
    ensures { MendingEnds }
{}

/// After it any fault of either board is lawful: no word of either is bad.
pub fn mended_boards_may_fail()
    ensures { MendedBoardsMayFail }
{}

/// A note that a board is mended comes at the end of its mending alone.
pub fn mended_notes_end_mendings()
    ensures { MendedNotesEndMendings }
{}
