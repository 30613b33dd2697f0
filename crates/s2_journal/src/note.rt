//! What the lines of a report state. The rules are this project's own (`docs/FORMATS.md`).
//!
//! A processor is 0, 1 or 2, and a board 0 or 1. A tick is the number of ticks that were run, the present one
//! included; a run is a run count of the processors.

ghost use Rattle.std.specs.Prelude.{◌≡◌};
ghost use Rattle.s2_ports.specs.declared.events.Event.{Event};
ghost use Rattle.s2_journal.specs.declared.note.Note.{Note};

use s2_ports::Event;

/// Why a processor is out.
#[derive(Debug, Clone, Copy, PartialEq, Eq)]
pub enum Why {
    /// Its request was another than that of the two others.
    Differ,
    /// Its request came too late.
    Late,
    /// It was removed.
    Removed,
}

/// What a tick or an act made known.
#[derive(Debug, Clone, Copy, PartialEq, Eq)]
pub enum Note {
    /// The event was delivered at this run count.
    Delivered { run: u64, event: Event },
    /// Processor `p` is out.
    Out { tick: u64, p: u8, why: Why },
    /// The event found the inbox full.
    Lost { tick: u64, event: Event },
    /// The word of the board at the index, below 262,144, was mended.
    Repaired { tick: u64, board: u8, index: u32 },
    /// The board is out.
    BoardDead { tick: u64, board: u8 },
    /// The mending of the board begins.
    Mend { tick: u64, board: u8 },
    /// The board is mended, and in again.
    Mended { tick: u64, board: u8 },
    /// Processor `p` is being brought back.
    Join { tick: u64, p: u8 },
    /// Processor `p` is in again; not good means that it is the tainted one.
    Joined { tick: u64, p: u8, good: bool },
}

impl Default for Note {
    /// A note for the unused places of a list of notes. It states nothing of the machine.
    fn default() -> Note
        ensures { result ≡ Note.Lost 0 Event.Tick }
    {
        Note::Lost {
            tick: 0,
            event: Event::Tick,
        }
    }
}

/// Why a step is not lawful.
#[derive(Debug, Clone, Copy, PartialEq, Eq)]
pub enum Reason {
    /// The named processor was to be disturbed while the tainted one is another.
    Second { tainted: u8, named: u8 },
    /// The clock of processor `p` would have missed so many of the last 64 ticks.
    Slow { p: u8, misses: u8 },
    /// The named board was to fail where the other board is needed.
    BothBoards { board: u8 },
}

/// How a run ended. A line is one of the input, from 1.
#[derive(Debug, Clone, Copy, PartialEq, Eq)]
pub enum End {
    /// The script was read to its end.
    Script,
    /// The program halted with this word.
    Halt(u32),
    /// A line is outside the grammar, and goes wrong at this column.
    Bad { line: u64, column: u32 },
    /// A line's step is not lawful.
    Outside { line: u64, reason: Reason },
    /// Too many ticks, or too many bytes of input.
    TooLong { line: u64 },
    /// The report was read to its end.
    Report,
}

/// What is counted over a run.
#[derive(Debug, Clone, Copy, PartialEq, Eq)]
pub enum Count {
    /// The cycles that were run.
    Runs,
    /// The ticks.
    Ticks,
    /// The bytes of the console.
    Bytes,
}

/// What a reader of reports keeps of a line.
#[derive(Debug, Clone, Copy, PartialEq, Eq)]
pub enum ReportLine {
    /// The event was delivered at this run count.
    Delivery { run: u64, event: Event },
    /// Another note.
    Other,
    /// So many cycles were run.
    Runs(u64),
    /// The number of ticks.
    Ticks,
    /// The number of bytes.
    Bytes,
    /// An end line.
    End,
}
