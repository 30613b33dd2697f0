//! One byte in, and a whole piece out.

ghost use Rattle.std.specs.Prelude.{◌≡◌, ◌<◌, ◌≤◌, ◌+◌, ◌^◌, ◌++◌, ℕ, List, Some, IfOk, IfErr, OnOk, OnErr, length};
ghost use Rattle.s2_io.specs.Counts.{Rose};
ghost use Rattle.s2_io.specs.Sources.{dropped};
ghost use Rattle.s2_io.specs.Sinks.{appended};
ghost use Rattle.s2_text.specs.declared.lines.TheConstants.{LINE_BYTES};
ghost use Rattle.s2_run.specs.ReportText.{line_with};
ghost use Rattle.s2_run.specs.RunTranscript.{note_lines};
ghost use Rattle.s2_run.specs.SentPieces.{sent, SinkCause, next_of, byte_count};

use s2_io::{Failed, Sink, Source};
use s2_journal::{Note, put_note};
use s2_text::{put_word, start};

/// A piece was cut: so many of its bytes went.
#[derive(Debug, Clone, Copy, PartialEq, Eq)]
pub struct Cut {
    /// How many bytes went, fewer than the piece has.
    pub taken: usize,
}

/// A stream failed.
#[derive(Debug, Clone, Copy, PartialEq, Eq)]
pub enum StreamFault {
    /// The input could not be read.
    Read,
    /// The console or the report could not be written.
    Write,
}

/// The next byte, or none at the end of the input.
pub fn next_byte<S: Source>(source: &mut S) -> Result<Option<u8>, Failed>
    ensures byte { (s : List ℕ) → S.left source.old ≡ Some s → IfOk result (λ b. b ≡ next_of s) }
    ensures rest { S.left source.new ≡ dropped (S.left source.old) (byte_count result) }
    ensures faults_stay { S.faults source.old ≤ S.faults source.new }
    ensures failed { OnErr result (Rose (S.faults source.old) (S.faults source.new)) }
    ensures passed { OnOk result (S.faults source.new ≡ S.faults source.old) }
{
    let mut buffer = [0u8; 1];
    match source.read(&mut buffer) {
        Ok(0) => Ok(None),
        Ok(_) => Ok(Some(buffer[0])),
        Err(Failed) => Err(Failed),
    }
}

/// Writes a whole piece.
#[tactic(auto, using(crate::proofs::Pieces::pieces))]
pub fn put<K: Sink>(sink: &mut K, piece: &[u8]) -> Result<(), Cut>
    ensures bytes { K.taken sink.new ≡ appended (K.taken sink.old) (sent result piece.now) }
    ensures cut { IfErr result (λ e. e.taken < length piece.now) }
    ensures cause { SinkCause result (K.faults sink.old) (K.faults sink.new)
        (K.empty_takes sink.old) (K.empty_takes sink.new) }
{
    let mut done = 0usize;
    while done < piece.len() {
        match sink.write(&piece[done..]) {
            Ok(0) | Err(_) => return Err(Cut { taken: done }),
            Ok(n) => done += n,
        }
    }
    Ok(())
}

/// Writes a text and its line feed, as one piece.
pub fn put_line<K: Sink>(sink: &mut K, text: &[u8]) -> Result<(), Cut>
    requires { length text.now < LINE_BYTES }
    ensures bytes { K.taken sink.new ≡ appended (K.taken sink.old) (sent result (line_with text.now)) }
    ensures cut { IfErr result (λ e. e.taken < length (line_with text.now)) }
    ensures cause { SinkCause result (K.faults sink.old) (K.faults sink.new)
        (K.empty_takes sink.old) (K.empty_takes sink.new) }
{
    let mut line = start(text);
    put_word(&mut line, b"\n");
    put(sink, line.as_slice())
}

/// Writes two texts, each with its line feed.
#[tactic(auto, using(crate::proofs::Pieces::pieces))]
fn put_two_lines<K: Sink>(sink: &mut K, first: &[u8], second: &[u8]) -> Result<(), Cut>
    requires first { length first.now < LINE_BYTES }
    requires second { length second.now < LINE_BYTES }
    ensures bytes { K.taken sink.new
        ≡ appended (K.taken sink.old) (sent result (line_with first.now ++ line_with second.now)) }
    ensures cut { IfErr result (λ e. e.taken < length (line_with first.now ++ line_with second.now)) }
    ensures cause { SinkCause result (K.faults sink.old) (K.faults sink.new)
        (K.empty_takes sink.old) (K.empty_takes sink.new) }
{
    match put_line(sink, first) {
        Ok(()) => {}
        Err(cut) => return Err(cut),
    }
    match put_line(sink, second) {
        Ok(()) => Ok(()),
        Err(cut) => Err(Cut {
            taken: first.len() + 1 + cut.taken,
        }),
    }
}

/// Writes three texts, each with its line feed.
#[tactic(auto, using(crate::proofs::Pieces::pieces))]
pub fn put_three_lines<K: Sink>(
    sink: &mut K,
    first: &[u8],
    second: &[u8],
    third: &[u8],
) -> Result<(), Cut>
    requires first { length first.now < LINE_BYTES }
    requires second { length second.now < LINE_BYTES }
    requires third { length third.now < LINE_BYTES }
    ensures bytes { K.taken sink.new
        ≡ appended (K.taken sink.old) (sent result (line_with first.now ++ (line_with second.now ++ line_with third.now))) }
    ensures cut { IfErr result (λ e. e.taken < length (line_with first.now ++ (line_with second.now ++ line_with third.now))) }
    ensures cause { SinkCause result (K.faults sink.old) (K.faults sink.new)
        (K.empty_takes sink.old) (K.empty_takes sink.new) }
{
    match put_line(sink, first) {
        Ok(()) => {}
        Err(cut) => return Err(cut),
    }
    match put_two_lines(sink, second, third) {
        Ok(()) => Ok(()),
        Err(cut) => Err(Cut {
            taken: first.len() + 1 + cut.taken,
        }),
    }
}

/// Writes four texts, each with its line feed.
#[tactic(auto, using(crate::proofs::Pieces::pieces))]
pub fn put_four_lines<K: Sink>(
    sink: &mut K,
    first: &[u8],
    second: &[u8],
    third: &[u8],
    fourth: &[u8],
) -> Result<(), Cut>
    requires first { length first.now < LINE_BYTES }
    requires second { length second.now < LINE_BYTES }
    requires third { length third.now < LINE_BYTES }
    requires fourth { length fourth.now < LINE_BYTES }
    ensures bytes { K.taken sink.new
        ≡ appended (K.taken sink.old) (sent result ((line_with first.now ++ line_with second.now) ++ (line_with third.now ++ line_with fourth.now))) }
    ensures cut { IfErr result (λ e. e.taken
        < length ((line_with first.now ++ line_with second.now) ++ (line_with third.now ++ line_with fourth.now))) }
    ensures cause { SinkCause result (K.faults sink.old) (K.faults sink.new)
        (K.empty_takes sink.old) (K.empty_takes sink.new) }
{
    match put_two_lines(sink, first, second) {
        Ok(()) => {}
        Err(cut) => return Err(cut),
    }
    match put_two_lines(sink, third, fourth) {
        Ok(()) => Ok(()),
        Err(cut) => Err(Cut {
            taken: first.len() + second.len() + 2 + cut.taken,
        }),
    }
}

/// Writes the lines of notes, each as one piece.
#[tactic(auto, using(crate::proofs::NoteLines::notes))]
pub fn put_notes<K: Sink>(sink: &mut K, notes: &[Note]) -> Result<(), Cut>
    requires { length notes.now ≤ 12 }
    ensures bytes { K.taken sink.new ≡ appended (K.taken sink.old) (sent result (note_lines notes.now)) }
    ensures cut { IfErr result (λ e. e.taken < length (note_lines notes.now)) }
    ensures small { IfErr result (λ e. e.taken < 2048) }
    ensures cause { SinkCause result (K.faults sink.old) (K.faults sink.new)
        (K.empty_takes sink.old) (K.empty_takes sink.new) }
{
    let mut done = 0usize;
    for note in notes {
        let line = put_note(note);
        match put_line(sink, line.as_slice()) {
            Ok(()) => done += line.len() + 1,
            Err(cut) => {
                return Err(Cut {
                    taken: done + cut.taken,
                });
            }
        }
    }
    Ok(())
}
