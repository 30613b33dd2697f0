//! A reader for each kind of line of a report.

ghost use Rattle.std.specs.Prelude.{◌≡◌, [], ◌∷◌};
ghost use Rattle.s2_text.specs.LineReading.{IsReading, number_reading, ReadsForm};
ghost use Rattle.s2_ports.specs.declared.events.TheConstants.{NO_VALUE};
ghost use Rattle.s2_journal.specs.declared.ranges.TheConstants.{GREATEST_COUNT};
ghost use Rattle.s2_journal.specs.ReportLines.{delivered_tick_row, delivered_key_row, out_row, lost_tick_row, lost_key_row, repair_row, board_row, mend_row, mended_row, join_row, joined_row, runs_row, tick_count_row, bytes_row, end_script_row, end_halt_row, end_bad_row, end_second_row, end_slow_row, end_board_row, end_too_long_row, end_report_row, delivered_private_row};

use crate::note::ReportLine;
use crate::ranges::{GREATEST_COUNT, GREATEST_MISSES};
use s2_base::GLOBAL_WORDS;
use s2_ports::{Event, NO_VALUE};
use s2_script::{BOARDS, PROCESSORS};
use s2_text::{Stop, below, end, hex, number, space, word};

/// Reads a run count, a tick or a number of cycles.
fn count(bytes: &[u8]) -> Result<(u64, &[u8]), Stop>
    ensures { IsReading (λ x. (x.0, x.1.now)) result (number_reading 0 GREATEST_COUNT bytes.now) }
{
    number(bytes, 0, GREATEST_COUNT)
}

/// Reads `d RUN tick`.
pub fn delivered_tick(line: &[u8]) -> Result<ReportLine, Stop>
    ensures { ReadsForm delivered_tick_row line.now result }
{
    let rest = word(line, b"d ")?;
    let (run, rest) = count(rest)?;
    let rest = word(rest, b" tick")?;
    end(rest)?;
    Ok(ReportLine::Delivery {
        run,
        event: Event::Tick,
    })
}

/// Reads `d RUN key HH`.
pub fn delivered_key(line: &[u8]) -> Result<ReportLine, Stop>
    ensures { ReadsForm delivered_key_row line.now result }
{
    let rest = word(line, b"d ")?;
    let (run, rest) = count(rest)?;
    let rest = word(rest, b" key ")?;
    let (byte, rest) = hex(rest, 2)?;
    end(rest)?;
    Ok(ReportLine::Delivery {
        run,
        event: Event::Key(byte as u8),
    })
}

/// Reads a private value.
fn slot_value(bytes: &[u8]) -> Result<(u16, &[u8]), Stop>
    ensures { IsReading (λ x. (x.0, x.1.now)) result (number_reading 0 NO_VALUE bytes.now) }
{
    let (value, rest) = number(bytes, 0, u64::from(NO_VALUE))?;
    Ok((value as u16, rest))
}

/// Reads `d RUN private A B C`.
pub fn delivered_private(line: &[u8]) -> Result<ReportLine, Stop>
    ensures { ReadsForm delivered_private_row line.now result }
{
    let rest = word(line, b"d ")?;
    let (run, rest) = count(rest)?;
    let rest = word(rest, b" private ")?;
    let (a, rest) = slot_value(rest)?;
    let rest = space(rest)?;
    let (b, rest) = slot_value(rest)?;
    let rest = space(rest)?;
    let (c, rest) = slot_value(rest)?;
    end(rest)?;
    Ok(ReportLine::Delivery {
        run,
        event: Event::Private { a, b, c },
    })
}

/// Reads `out TICK P` and why.
pub fn out(line: &[u8], why: &[u8]) -> Result<ReportLine, Stop>
    ensures { ReadsForm (out_row why.now) line.now result }
{
    let rest = word(line, b"out ")?;
    let (_, rest) = count(rest)?;
    let rest = space(rest)?;
    let (_, rest) = below(rest, PROCESSORS)?;
    let rest = space(rest)?;
    let rest = word(rest, why)?;
    end(rest)?;
    Ok(ReportLine::Other)
}

/// Reads `lost TICK tick`.
pub fn lost_tick(line: &[u8]) -> Result<ReportLine, Stop>
    ensures { ReadsForm lost_tick_row line.now result }
{
    let rest = word(line, b"lost ")?;
    let (_, rest) = count(rest)?;
    let rest = word(rest, b" tick")?;
    end(rest)?;
    Ok(ReportLine::Other)
}

/// Reads `lost TICK key HH`.
pub fn lost_key(line: &[u8]) -> Result<ReportLine, Stop>
    ensures { ReadsForm lost_key_row line.now result }
{
    let rest = word(line, b"lost ")?;
    let (_, rest) = count(rest)?;
    let rest = word(rest, b" key ")?;
    let (_, rest) = hex(rest, 2)?;
    end(rest)?;
    Ok(ReportLine::Other)
}

/// Reads `repair TICK B INDEX`.
pub fn repair(line: &[u8]) -> Result<ReportLine, Stop>
    ensures { ReadsForm repair_row line.now result }
{
    let rest = word(line, b"repair ")?;
    let (_, rest) = count(rest)?;
    let rest = space(rest)?;
    let (_, rest) = below(rest, BOARDS)?;
    let rest = space(rest)?;
    let (_, rest) = number(rest, 0, GLOBAL_WORDS as u64 - 1)?;
    end(rest)?;
    Ok(ReportLine::Other)
}

/// Reads `board TICK B`.
pub fn board(line: &[u8]) -> Result<ReportLine, Stop>
    ensures { ReadsForm board_row line.now result }
{
    let rest = word(line, b"board ")?;
    let (_, rest) = count(rest)?;
    let rest = space(rest)?;
    let (_, rest) = below(rest, BOARDS)?;
    end(rest)?;
    Ok(ReportLine::Other)
}

/// Reads `mend TICK B`.
pub fn mend(line: &[u8]) -> Result<ReportLine, Stop>
    ensures { ReadsForm mend_row line.now result }
{
    let rest = word(line, b"mend ")?;
    let (_, rest) = count(rest)?;
    let rest = space(rest)?;
    let (_, rest) = below(rest, BOARDS)?;
    end(rest)?;
    Ok(ReportLine::Other)
}

/// Reads `mended TICK B`.
pub fn mended(line: &[u8]) -> Result<ReportLine, Stop>
    ensures { ReadsForm mended_row line.now result }
{
    let rest = word(line, b"mended ")?;
    let (_, rest) = count(rest)?;
    let rest = space(rest)?;
    let (_, rest) = below(rest, BOARDS)?;
    end(rest)?;
    Ok(ReportLine::Other)
}

/// Reads `join TICK P`.
pub fn join(line: &[u8]) -> Result<ReportLine, Stop>
    ensures { ReadsForm join_row line.now result }
{
    let rest = word(line, b"join ")?;
    let (_, rest) = count(rest)?;
    let rest = space(rest)?;
    let (_, rest) = below(rest, PROCESSORS)?;
    end(rest)?;
    Ok(ReportLine::Other)
}

/// Reads `joined TICK P` and how.
pub fn joined(line: &[u8], how: &[u8]) -> Result<ReportLine, Stop>
    ensures { ReadsForm (joined_row how.now) line.now result }
{
    let rest = word(line, b"joined ")?;
    let (_, rest) = count(rest)?;
    let rest = space(rest)?;
    let (_, rest) = below(rest, PROCESSORS)?;
    let rest = space(rest)?;
    let rest = word(rest, how)?;
    end(rest)?;
    Ok(ReportLine::Other)
}

/// Reads `runs N`.
pub fn runs(line: &[u8]) -> Result<ReportLine, Stop>
    ensures { ReadsForm runs_row line.now result }
{
    let rest = word(line, b"runs ")?;
    let (n, rest) = count(rest)?;
    end(rest)?;
    Ok(ReportLine::Runs(n))
}

/// Reads `ticks N`.
pub fn ticks(line: &[u8]) -> Result<ReportLine, Stop>
    ensures { ReadsForm tick_count_row line.now result }
{
    let rest = word(line, b"ticks ")?;
    let (_, rest) = count(rest)?;
    end(rest)?;
    Ok(ReportLine::Ticks)
}

/// Reads `bytes N`.
pub fn bytes(line: &[u8]) -> Result<ReportLine, Stop>
    ensures { ReadsForm bytes_row line.now result }
{
    let (_, rest) = number(word(line, b"bytes ")?, 0, u64::MAX)?;
    end(rest)?;
    Ok(ReportLine::Bytes)
}

/// Reads `end script`.
pub fn end_script(line: &[u8]) -> Result<ReportLine, Stop>
    ensures { ReadsForm end_script_row line.now result }
{
    let rest = word(line, b"end script")?;
    end(rest)?;
    Ok(ReportLine::End)
}

/// Reads `end halt V`.
pub fn end_halt(line: &[u8]) -> Result<ReportLine, Stop>
    ensures { ReadsForm end_halt_row line.now result }
{
    let rest = word(line, b"end halt ")?;
    let (_, rest) = hex(rest, 8)?;
    end(rest)?;
    Ok(ReportLine::End)
}

/// Reads `end bad LINE COLUMN`.
pub fn end_bad(line: &[u8]) -> Result<ReportLine, Stop>
    ensures { ReadsForm end_bad_row line.now result }
{
    let rest = word(line, b"end bad ")?;
    let (_, rest) = number(rest, 0, u64::MAX)?;
    let rest = space(rest)?;
    let (_, rest) = number(rest, 0, u64::MAX)?;
    end(rest)?;
    Ok(ReportLine::End)
}

/// Reads `end outside LINE second T P`.
pub fn end_second(line: &[u8]) -> Result<ReportLine, Stop>
    ensures { ReadsForm end_second_row line.now result }
{
    let rest = word(line, b"end outside ")?;
    let (_, rest) = number(rest, 0, u64::MAX)?;
    let rest = word(rest, b" second ")?;
    let (_, rest) = below(rest, PROCESSORS)?;
    let rest = space(rest)?;
    let (_, rest) = below(rest, PROCESSORS)?;
    end(rest)?;
    Ok(ReportLine::End)
}

/// Reads `end outside LINE slow P MISSES`.
pub fn end_slow(line: &[u8]) -> Result<ReportLine, Stop>
    ensures { ReadsForm end_slow_row line.now result }
{
    let rest = word(line, b"end outside ")?;
    let (_, rest) = number(rest, 0, u64::MAX)?;
    let rest = word(rest, b" slow ")?;
    let (_, rest) = below(rest, PROCESSORS)?;
    let rest = space(rest)?;
    let (_, rest) = number(rest, 0, GREATEST_MISSES)?;
    end(rest)?;
    Ok(ReportLine::End)
}

/// Reads `end outside LINE board B`.
pub fn end_board(line: &[u8]) -> Result<ReportLine, Stop>
    ensures { ReadsForm end_board_row line.now result }
{
    let rest = word(line, b"end outside ")?;
    let (_, rest) = number(rest, 0, u64::MAX)?;
    let rest = word(rest, b" board ")?;
    let (_, rest) = below(rest, BOARDS)?;
    end(rest)?;
    Ok(ReportLine::End)
}

/// Reads `end toolong LINE`.
pub fn end_too_long(line: &[u8]) -> Result<ReportLine, Stop>
    ensures { ReadsForm end_too_long_row line.now result }
{
    let rest = word(line, b"end toolong ")?;
    let (_, rest) = number(rest, 0, u64::MAX)?;
    end(rest)?;
    Ok(ReportLine::End)
}

/// Reads `end report`.
pub fn end_report(line: &[u8]) -> Result<ReportLine, Stop>
    ensures { ReadsForm end_report_row line.now result }
{
    let rest = word(line, b"end report")?;
    end(rest)?;
    Ok(ReportLine::End)
}
