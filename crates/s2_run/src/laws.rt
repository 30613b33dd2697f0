//! Laws of the runs of scripts on the triple machine. Each is its clause; none has a body.

ghost use Rattle.s2_run.specs.ScriptLaws.{EveryScriptIsMasked, InputsHaveOneRun, UnversionedScripts};
ghost use Rattle.s2_run.specs.MendedScripts.{MendLinesLeaveScripts, MendsLeaveScripts};
ghost use Rattle.s2_run.specs.ReplayLaws.{ReplaysGiveTheSame};

/// Every run of a script is masked, whatever faults its lines have: the console bytes are those of one
/// processor alone, good processors stay in, each decision is right, and no access waits too long.
pub fn scripts_are_masked()
    ensures { EveryScriptIsMasked }
{}

/// An input has one run.
pub fn inputs_have_one_run()
    ensures { InputsHaveOneRun }
{}

/// A script without a version line is read, and has its frame, as one was before there were version lines, but
/// for the column at which a line 1 that begins with `v` is bad.
pub fn unversioned_scripts_stay()
    ensures { UnversionedScripts }
{}

/// The report that a run writes is replayed by one processor to the same console bytes, run count and
/// halt value.
pub fn replays_give_the_same()
    ensures { ReplaysGiveTheSame }
{}

/// The run of a script writes the console bytes of the run of its steps without the begins of mendings, over
/// the same deliveries, as far as both go on.
pub fn mends_leave_scripts()
    ensures { MendsLeaveScripts }
{}

/// So it does where some of its lines `mend` are left out.
pub fn mend_lines_leave_scripts()
    ensures { MendLinesLeaveScripts }
{}
