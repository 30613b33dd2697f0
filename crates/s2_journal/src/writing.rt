//! The writers of a report's lines. Each writes one line, without its line feed.

ghost use Rattle.std.specs.Prelude.{◌≡◌, ◌<◌, ◌≤◌, ◌++◌, ◌∷◌, [], codes, length};
ghost use Rattle.std.specs.Fmt.{decimal};
ghost use Rattle.s2_text.specs.HexText.{hex_text};
ghost use Rattle.s2_text.specs.declared.lines.TheConstants.{LINE_BYTES};
ghost use Rattle.s2_text.specs.LineTables.{SaysIn};
ghost use Rattle.s2_ports.specs.declared.events.Event.{Event};
ghost use Rattle.s2_journal.specs.declared.note.Note.{Note};
ghost use Rattle.s2_journal.specs.declared.note.Reason.{Reason};
ghost use Rattle.s2_journal.specs.declared.note.End.{End};
ghost use Rattle.s2_journal.specs.declared.note.ReportLine.{ReportLine};
ghost use Rattle.s2_journal.specs.ReportLines.{report_rows, why_word, joined_word, note_text, IsReadableNote, note_answer, count_text, IsReadableCount, count_answer, end_text, IsReadableEnd};

use crate::note::{Count, End, Note, Reason, Why};
use s2_ports::Event;
use s2_text::{Text, WORD_DIGITS, and_dec, and_hex, and_word, start};

/// Writes the line of a note.
///
/// `read_report` reads it as what it keeps of the note, where the numbers are in its ranges.
pub fn put_note(n: &Note) -> Text
    ensures text { result.items ≡ note_text n.now }
    ensures said { IsReadableNote n.now → SaysIn report_rows (note_answer n.now) result.items }
    ensures short { length result.items < LINE_BYTES }
{
    note_line(*n)
}

/// Writes the line of a note.
fn note_line(n: Note) -> Text
    ensures text { result.items ≡ note_text n }
    ensures short { length result.items < LINE_BYTES }
{
    match n {
        Note::Delivered { run, event } => put_delivered(run, event),
        Note::Out { tick, p, why } => put_out(tick, p, why),
        Note::Lost { tick, event } => put_lost(tick, event),
        Note::Repaired { tick, board, index } => put_repair(tick, board, index),
        Note::BoardDead { tick, board } => put_board(tick, board),
        Note::Mend { tick, board } => put_mend(tick, board),
        Note::Mended { tick, board } => put_mended(tick, board),
        Note::Join { tick, p } => put_join(tick, p),
        Note::Joined { tick, p, good } => put_joined(tick, p, good),
    }
}

/// Writes `d RUN` and the event.
#[tactic(auto, using(crate::proofs::Joined::texts))]
fn put_delivered(run: u64, event: Event) -> Text
    ensures text { result.items ≡ note_text (Note.Delivered run event) }
    ensures short { length result.items < LINE_BYTES }
{
    match event {
        Event::Tick => and_word(and_dec(start(b"d"), run), b"tick"),
        Event::Key(byte) => {
            let line = and_word(and_dec(start(b"d"), run), b"key");
            and_hex(line, byte as u32, 2)
        }
        Event::Private { a, b, c } => put_private(run, a, b, c),
    }
}

/// Writes `d RUN private A B C`.
#[tactic(auto, using(crate::proofs::Joined::texts))]
fn put_private(run: u64, a: u16, b: u16, c: u16) -> Text
    ensures text { result.items ≡ note_text (Note.Delivered run (Event.Private a b c)) }
    ensures short { length result.items < LINE_BYTES }
{
    let line = and_word(and_dec(start(b"d"), run), b"private");
    and_dec(and_dec(and_dec(line, a as u64), b as u64), c as u64)
}

/// Writes `lost TICK` and the event.
#[tactic(auto, using(crate::proofs::Joined::texts))]
fn put_lost(tick: u64, event: Event) -> Text
    ensures text { result.items ≡ note_text (Note.Lost tick event) }
    ensures short { length result.items < LINE_BYTES }
{
    let line = and_dec(start(b"lost"), tick);
    match event {
        Event::Tick => and_word(line, b"tick"),
        // no such note is made: private values are never lost
        Event::Private { a: _, b: _, c: _ } => and_word(line, b"tick"),
        Event::Key(byte) => and_hex(and_word(line, b"key"), byte as u32, 2),
    }
}

/// Why a processor is out, as a word.
fn word_of(why: Why) -> &'static [u8]
    ensures word { result.now ≡ why_word why }
    ensures short { length result.now ≤ 7 }
{
    match why {
        Why::Differ => b"differ",
        Why::Late => b"late",
        Why::Removed => b"removed",
    }
}

/// Writes `out TICK P` and why.
#[tactic(auto, using(crate::proofs::Joined::texts))]
fn put_out(tick: u64, p: u8, why: Why) -> Text
    ensures text { result.items ≡ note_text (Note.Out tick p why) }
    ensures short { length result.items < LINE_BYTES }
{
    and_word(
        and_dec(and_dec(start(b"out"), tick), p as u64),
        word_of(why),
    )
}

/// Writes `repair TICK B INDEX`.
#[tactic(auto, using(crate::proofs::Joined::texts))]
fn put_repair(tick: u64, board: u8, index: u32) -> Text
    ensures text { result.items ≡ note_text (Note.Repaired tick board index) }
    ensures short { length result.items < LINE_BYTES }
{
    let line = and_dec(and_dec(start(b"repair"), tick), board as u64);
    and_dec(line, index as u64)
}

/// Writes `board TICK B`.
#[tactic(auto, using(crate::proofs::Joined::texts))]
fn put_board(tick: u64, board: u8) -> Text
    ensures text { result.items ≡ note_text (Note.BoardDead tick board) }
    ensures short { length result.items < LINE_BYTES }
{
    and_dec(and_dec(start(b"board"), tick), board as u64)
}

/// Writes `mend TICK B`.
#[tactic(auto, using(crate::proofs::Joined::texts))]
fn put_mend(tick: u64, board: u8) -> Text
    ensures text { result.items ≡ note_text (Note.Mend tick board) }
    ensures short { length result.items < LINE_BYTES }
{
    and_dec(and_dec(start(b"mend"), tick), board as u64)
}

/// Writes `mended TICK B`.
#[tactic(auto, using(crate::proofs::Joined::texts))]
fn put_mended(tick: u64, board: u8) -> Text
    ensures text { result.items ≡ note_text (Note.Mended tick board) }
    ensures short { length result.items < LINE_BYTES }
{
    and_dec(and_dec(start(b"mended"), tick), board as u64)
}

/// Writes `join TICK P`.
#[tactic(auto, using(crate::proofs::Joined::texts))]
fn put_join(tick: u64, p: u8) -> Text
    ensures text { result.items ≡ note_text (Note.Join tick p) }
    ensures short { length result.items < LINE_BYTES }
{
    and_dec(and_dec(start(b"join"), tick), p as u64)
}

/// How a processor is in again, as a word.
fn word_of_good(good: bool) -> &'static [u8]
    ensures word { result.now ≡ joined_word good }
    ensures short { length result.now ≤ 7 }
{
    if good { b"good" } else { b"tainted" }
}

/// Writes `joined TICK P` and how.
#[tactic(auto, using(crate::proofs::Joined::texts))]
fn put_joined(tick: u64, p: u8, good: bool) -> Text
    ensures text { result.items ≡ note_text (Note.Joined tick p good) }
    ensures short { length result.items < LINE_BYTES }
{
    and_word(
        and_dec(and_dec(start(b"joined"), tick), p as u64),
        word_of_good(good),
    )
}

/// Writes the line of a count.
///
/// `read_report` reads it as what it keeps of the count, where the number is in its range.
pub fn put_count(name: Count, n: u64) -> Text
    ensures text { result.items ≡ count_text name n }
    ensures said { IsReadableCount name n → SaysIn report_rows (count_answer name n) result.items }
    ensures short { length result.items < LINE_BYTES }
{
    count_line(name, n)
}

/// Writes the line of a count.
#[tactic(auto, using(crate::proofs::Joined::texts))]
fn count_line(name: Count, n: u64) -> Text
    ensures text { result.items ≡ count_text name n }
    ensures short { length result.items < LINE_BYTES }
{
    match name {
        Count::Runs => and_dec(start(b"runs"), n),
        Count::Ticks => and_dec(start(b"ticks"), n),
        Count::Bytes => and_dec(start(b"bytes"), n),
    }
}

/// Writes an end line.
///
/// `read_report` reads it as an end, where the numbers are in its ranges.
pub fn put_end(e: &End) -> Text
    ensures text { result.items ≡ end_text e.now }
    ensures said { IsReadableEnd e.now → SaysIn report_rows ReportLine.End result.items }
    ensures short { length result.items < LINE_BYTES }
{
    end_line(*e)
}

/// Writes an end line.
#[tactic(auto, using(crate::proofs::Joined::texts))]
fn end_line(e: End) -> Text
    ensures text { result.items ≡ end_text e }
    ensures short { length result.items < LINE_BYTES }
{
    match e {
        End::Script => start(b"end script"),
        End::Halt(v) => and_hex(start(b"end halt"), v, WORD_DIGITS),
        End::Bad { line, column } => put_bad(line, column),
        End::Outside { line, reason } => put_outside(line, reason),
        End::TooLong { line } => and_dec(start(b"end toolong"), line),
        End::Report => start(b"end report"),
    }
}

/// Writes `end bad LINE COLUMN`.
#[tactic(auto, using(crate::proofs::Joined::texts))]
fn put_bad(line: u64, column: u32) -> Text
    ensures text { result.items ≡ end_text (End.Bad line column) }
    ensures short { length result.items < LINE_BYTES }
{
    and_dec(and_dec(start(b"end bad"), line), column as u64)
}

/// Writes `end outside LINE` and the reason.
fn put_outside(line: u64, reason: Reason) -> Text
    ensures text { result.items ≡ end_text (End.Outside line reason) }
    ensures short { length result.items < LINE_BYTES }
{
    match reason {
        Reason::Second { tainted, named } => put_second(line, tainted, named),
        Reason::Slow { p, misses } => put_slow(line, p, misses),
        Reason::BothBoards { board } => put_both_boards(line, board),
    }
}

/// Writes `end outside LINE second T P`.
#[tactic(auto, using(crate::proofs::Joined::texts))]
fn put_second(line: u64, tainted: u8, named: u8) -> Text
    ensures text { result.items ≡ end_text (End.Outside line (Reason.Second tainted named)) }
    ensures short { length result.items < LINE_BYTES }
{
    let text = and_word(and_dec(start(b"end outside"), line), b"second");
    and_dec(and_dec(text, tainted as u64), named as u64)
}

/// Writes `end outside LINE slow P MISSES`.
#[tactic(auto, using(crate::proofs::Joined::texts))]
fn put_slow(line: u64, p: u8, misses: u8) -> Text
    ensures text { result.items ≡ end_text (End.Outside line (Reason.Slow p misses)) }
    ensures short { length result.items < LINE_BYTES }
{
    let text = and_word(and_dec(start(b"end outside"), line), b"slow");
    and_dec(and_dec(text, p as u64), misses as u64)
}

/// Writes `end outside LINE board B`.
#[tactic(auto, using(crate::proofs::Joined::texts))]
fn put_both_boards(line: u64, board: u8) -> Text
    ensures text { result.items ≡ end_text (End.Outside line (Reason.BothBoards board)) }
    ensures short { length result.items < LINE_BYTES }
{
    let text = and_word(and_dec(start(b"end outside"), line), b"board");
    and_dec(text, board as u64)
}
