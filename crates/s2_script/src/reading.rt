//! The reader of a script's lines: a function for each row of the table.

ghost use Rattle.std.specs.Prelude.{ℕ, ◌≡◌, Ok, Some, None};
ghost use Rattle.s2_text.specs.LineReading.{IsReading, letter_reading, ReadsForm, ReadsRows};
ghost use Rattle.s2_text.specs.LineTables.{ReadsLine, SaysIn, IsRemark};
ghost use Rattle.s2_script.specs.declared.entry.Entry.{Entry};
ghost use Rattle.s2_script.specs.declared.entry.First.{First};
ghost use Rattle.s2_script.specs.FirstLines.{first_answer, first_found, first_rows, ReadsFirst, SaysFrame, version_row};
ghost use Rattle.s2_script.specs.ScriptLines.{letter_of, kind_letters, ticks_row, tick_row, key_row, poke_row, local_row, drive_row, mute_row, remove_row, revive_row, dead_row, flip_row, script_rows, mend_row};

use crate::entry::{Act, Entry, First};
use crate::ranges::{BOARDS, BYTE_MASKS, PROCESSORS, SAVED_WORDS, TICK_MASKS, WORD_BITS};
use s2_base::{GLOBAL_WORDS, LOCAL_WORDS};
use s2_clock::{LONGEST_FRAME, SHORTEST_FRAME};
use s2_ports::{BoardFault, Event, Kind, Posted, Request};
use s2_text::{
    BadLine, HELD_BYTES, Stop, below, either, end, front, hex, number, space, with_remarks, word,
};

/// Reads the letter of a kind of request.
fn kind_letter(bytes: &[u8]) -> Result<(Kind, &[u8]), Stop>
    ensures { IsReading (λ x. (letter_of x.0, x.1.now)) result (letter_reading kind_letters bytes.now) }
{
    let Some((first, rest)) = bytes.split_first() else {
        return Err(Stop { left: 0 });
    };
    match *first {
        b'l' => Ok((Kind::Load, rest)),
        b's' => Ok((Kind::Store, rest)),
        b'y' => Ok((Kind::Sync, rest)),
        _ => Err(Stop { left: bytes.len() }),
    }
}

/// Reads `t M N`.
fn ticks(line: &[u8]) -> Result<Entry, Stop>
    ensures { ReadsForm ticks_row line.now result }
{
    let rest = word(line, b"t ")?;
    let (mask, rest) = below(rest, TICK_MASKS)?;
    let rest = space(rest)?;
    let (n, rest) = number(rest, 1, u64::MAX)?;
    end(rest)?;
    Ok(Entry::Ticks { mask, n })
}

/// Reads `tick`.
fn tick(line: &[u8]) -> Result<Entry, Stop>
    ensures { ReadsForm tick_row line.now result }
{
    let rest = word(line, b"tick")?;
    end(rest)?;
    Ok(Entry::One(Act::Event(Event::Tick)))
}

/// Reads `key HH`.
fn key(line: &[u8]) -> Result<Entry, Stop>
    ensures { ReadsForm key_row line.now result }
{
    let rest = word(line, b"key ")?;
    let (byte, rest) = hex(rest, 2)?;
    end(rest)?;
    Ok(Entry::One(Act::Event(Event::Key(byte as u8))))
}

/// Reads `poke P K V`.
fn poke(line: &[u8]) -> Result<Entry, Stop>
    ensures { ReadsForm poke_row line.now result }
{
    let rest = word(line, b"poke ")?;
    let (p, rest) = below(rest, PROCESSORS)?;
    let rest = space(rest)?;
    let (k, rest) = below(rest, SAVED_WORDS)?;
    let rest = space(rest)?;
    let (v, rest) = hex(rest, 8)?;
    end(rest)?;
    Ok(Entry::One(Act::Poke { p, k, v }))
}

/// Reads `local P I V`.
fn local(line: &[u8]) -> Result<Entry, Stop>
    ensures { ReadsForm local_row line.now result }
{
    let rest = word(line, b"local ")?;
    let (p, rest) = below(rest, PROCESSORS)?;
    let rest = space(rest)?;
    let (i, rest) = number(rest, 0, LOCAL_WORDS as u64 - 1)?;
    let rest = space(rest)?;
    let (v, rest) = hex(rest, 8)?;
    end(rest)?;
    Ok(Entry::One(Act::PokeLocal { p, i: i as u32, v }))
}

/// Reads `drive P T A D M RUN SEEN`.
fn drive(line: &[u8]) -> Result<Entry, Stop>
    ensures { ReadsForm drive_row line.now result }
{
    let rest = word(line, b"drive ")?;
    let (p, rest) = below(rest, PROCESSORS)?;
    let rest = space(rest)?;
    let (kind, rest) = kind_letter(rest)?;
    let rest = space(rest)?;
    let (address, rest) = hex(rest, 8)?;
    let rest = space(rest)?;
    let (stored, rest) = hex(rest, 8)?;
    let rest = space(rest)?;
    let (mask, rest) = below(rest, BYTE_MASKS)?;
    let rest = space(rest)?;
    let (run, rest) = number(rest, 0, u64::MAX)?;
    let rest = space(rest)?;
    let (seen, rest) = number(rest, 0, u64::MAX)?;
    end(rest)?;
    let request = Request {
        kind,
        address,
        word: stored,
        mask,
        run,
    };
    Ok(Entry::One(Act::Drive {
        p,
        posted: Posted { request, seen },
    }))
}

/// Reads `mute P`.
fn mute(line: &[u8]) -> Result<Entry, Stop>
    ensures { ReadsForm mute_row line.now result }
{
    let rest = word(line, b"mute ")?;
    let (p, rest) = below(rest, PROCESSORS)?;
    end(rest)?;
    Ok(Entry::One(Act::Mute { p }))
}

/// Reads `remove P`.
fn remove(line: &[u8]) -> Result<Entry, Stop>
    ensures { ReadsForm remove_row line.now result }
{
    let rest = word(line, b"remove ")?;
    let (p, rest) = below(rest, PROCESSORS)?;
    end(rest)?;
    Ok(Entry::One(Act::Remove { p }))
}

/// Reads `revive P`.
fn revive(line: &[u8]) -> Result<Entry, Stop>
    ensures { ReadsForm revive_row line.now result }
{
    let rest = word(line, b"revive ")?;
    let (p, rest) = below(rest, PROCESSORS)?;
    end(rest)?;
    Ok(Entry::One(Act::Revive { p }))
}

/// Reads `dead B`.
fn dead(line: &[u8]) -> Result<Entry, Stop>
    ensures { ReadsForm dead_row line.now result }
{
    let rest = word(line, b"dead ")?;
    let (board, rest) = below(rest, BOARDS)?;
    end(rest)?;
    Ok(Entry::One(Act::Board(BoardFault::Dead { board })))
}

/// Reads `flip B I BIT`.
fn flip(line: &[u8]) -> Result<Entry, Stop>
    ensures { ReadsForm flip_row line.now result }
{
    let rest = word(line, b"flip ")?;
    let (board, rest) = below(rest, BOARDS)?;
    let rest = space(rest)?;
    let (index, rest) = number(rest, 0, GLOBAL_WORDS as u64 - 1)?;
    let rest = space(rest)?;
    let (bit, rest) = below(rest, WORD_BITS)?;
    end(rest)?;
    let index = index as u32;
    Ok(Entry::One(Act::Board(BoardFault::Flip { board, index, bit })))
}

/// Reads `mend B`.
fn mend(line: &[u8]) -> Result<Entry, Stop>
    ensures { ReadsForm mend_row line.now result }
{
    let rest = word(line, b"mend ")?;
    let (board, rest) = below(rest, BOARDS)?;
    end(rest)?;
    Ok(Entry::One(Act::Mend { board }))
}

/// Reads a line by each row of the table.
fn table_line(line: &[u8]) -> Result<Entry, Stop>
    ensures { ReadsRows script_rows line.now result }
{
    let found = mend(line);
    let found = either(flip(line), found);
    let found = either(dead(line), found);
    let found = either(revive(line), found);
    let found = either(remove(line), found);
    let found = either(mute(line), found);
    let found = either(drive(line), found);
    let found = either(local(line), found);
    let found = either(poke(line), found);
    let found = either(key(line), found);
    let found = either(tick(line), found);
    either(ticks(line), found)
}

/// Reads a line of a script, without its line feed. `None` is an empty line or a comment.
///
/// `BadLine` exactly where the line is outside the table of `docs/FORMATS.md`, with the column after its
/// longest prefix that is a prefix of a line of the table. A line may have any length; of one that is
/// longer than 128 bytes, the first 129 decide.
pub fn read_entry(line: &[u8]) -> Result<Option<Entry>, BadLine>
    ensures read { ReadsLine script_rows line.now result }
    ensures entry { (e : Entry) → SaysIn script_rows e line.now → result ≡ Ok (Some e) }
    ensures remark { IsRemark line.now → result ≡ Ok None }
{
    let seen = front(line, HELD_BYTES);
    with_remarks(seen, table_line(seen))
}

/// Reads `version 2 FRAME`.
fn version(line: &[u8]) -> Result<First, Stop>
    ensures { ReadsForm version_row line.now result }
{
    let rest = word(line, b"version 2 ")?;
    let (frame, rest) = number(rest, SHORTEST_FRAME, LONGEST_FRAME)?;
    end(rest)?;
    Ok(First::Frame(frame as u16))
}

/// What was read of the table, on the first line.
fn on_first(found: Result<Entry, Stop>) -> Result<First, Stop>
    ensures { result ≡ first_found found }
{
    match found {
        Ok(entry) => Ok(First::Entry(Some(entry))),
        Err(stop) => Err(stop),
    }
}

/// What was read of the rows of the first line and of remarks, as an answer.
fn answer(read: Result<Option<First>, BadLine>) -> Result<First, BadLine>
    ensures { result ≡ first_answer read }
{
    match read {
        Ok(Some(first)) => Ok(first),
        Ok(None) => Ok(First::Entry(None)),
        Err(bad) => Err(bad),
    }
}

/// Reads a line by each row of the table, or as a version line.
fn first_line(line: &[u8]) -> Result<First, Stop>
    ensures { ReadsRows first_rows line.now result }
{
    either(version(line), on_first(table_line(line)))
}

/// Reads the first line of a script, without its line feed: a version line, or a line as [`read_entry`] reads it.
///
/// `BadLine` exactly where the line is neither, with the column after its longest prefix that is a prefix of one
/// or the other.
pub fn read_first(line: &[u8]) -> Result<First, BadLine>
    ensures read { ReadsFirst line.now result }
    ensures frame { (frame : ℕ) → SaysFrame frame line.now → result ≡ Ok (First.Frame frame) }
    ensures entry { (e : Entry) → SaysIn script_rows e line.now → result ≡ Ok (First.Entry (Some e)) }
    ensures remark { IsRemark line.now → result ≡ Ok (First.Entry None) }
{
    let held = front(line, HELD_BYTES);
    answer(with_remarks(held, first_line(held)))
}
