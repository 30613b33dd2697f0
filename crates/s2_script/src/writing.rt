//! The writer of a script's lines.

ghost use Rattle.std.specs.Prelude.{◌≡◌, ◌≤◌, [], ◌∷◌, ◌++◌, codes, length};
ghost use Rattle.std.specs.Fmt.{decimal};
ghost use Rattle.s2_text.specs.HexText.{hex_text};
ghost use Rattle.s2_text.specs.LineTables.{SaysIn};
ghost use Rattle.s2_script.specs.declared.entry.Act.{Act};
ghost use Rattle.s2_script.specs.declared.entry.Entry.{Entry};
ghost use Rattle.s2_script.specs.ScriptLines.{script_rows, letter_of, IsProperEntry, entry_text};

use crate::entry::{Act, Entry};
use s2_ports::{BoardFault, Event, Kind, Posted};
use s2_text::{Text, WORD_DIGITS, and_dec, and_hex, and_word, start};

/// Writes the line of an entry, without its line feed. Every number is in its range, as `proper` tests.
///
/// `read_entry` reads the line as the entry.
pub fn put_entry(e: &Entry) -> Text
    requires { IsProperEntry e.now }
    ensures text { result.items ≡ entry_text e.now }
    ensures said { SaysIn script_rows e.now result.items }
{
    match *e {
        Entry::Ticks { mask, n } => put_ticks(mask, n),
        Entry::One(act) => put_act(act),
    }
}

/// Writes `t M N`.
#[tactic(auto, using(crate::proofs::Joined::texts))]
fn put_ticks(mask: u8, n: u64) -> Text
    ensures { result.items ≡ entry_text (Entry.Ticks mask n) }
{
    and_dec(and_dec(start(b"t"), mask as u64), n)
}

/// Writes the line of an act.
fn put_act(act: Act) -> Text
    ensures { result.items ≡ entry_text (Entry.One act) }
{
    match act {
        Act::Event(event) => put_event(event),
        Act::Poke { p, k, v } => put_poke(p, k, v),
        Act::PokeLocal { p, i, v } => put_local(p, i, v),
        Act::Drive { p, posted } => put_drive(p, posted),
        Act::Mute { p } => and_dec(start(b"mute"), p as u64),
        Act::Remove { p } => and_dec(start(b"remove"), p as u64),
        Act::Revive { p } => and_dec(start(b"revive"), p as u64),
        Act::Board(fault) => put_fault(fault),
        Act::Mend { board } => and_dec(start(b"mend"), board as u64),
    }
}

/// Writes the line of an event.
fn put_event(event: Event) -> Text
    ensures { result.items ≡ entry_text (Entry.One (Act.Event event)) }
{
    match event {
        Event::Tick => start(b"tick"),
        // no line has private values: `proper` is false for them
        Event::Private { a: _, b: _, c: _ } => start(b"tick"),
        Event::Key(byte) => and_hex(start(b"key"), byte as u32, 2),
    }
}

/// Writes `poke P K V`.
#[tactic(auto, using(crate::proofs::Joined::texts))]
fn put_poke(p: u8, k: u8, v: u32) -> Text
    ensures { result.items ≡ entry_text (Entry.One (Act.Poke p k v)) }
{
    let line = and_dec(and_dec(start(b"poke"), p as u64), k as u64);
    and_hex(line, v, WORD_DIGITS)
}

/// Writes `local P I V`.
#[tactic(auto, using(crate::proofs::Joined::texts))]
fn put_local(p: u8, i: u32, v: u32) -> Text
    ensures { result.items ≡ entry_text (Entry.One (Act.PokeLocal p i v)) }
{
    let line = and_dec(and_dec(start(b"local"), p as u64), i as u64);
    and_hex(line, v, WORD_DIGITS)
}

/// Writes the line of a fault.
fn put_fault(fault: BoardFault) -> Text
    ensures { result.items ≡ entry_text (Entry.One (Act.Board fault)) }
{
    match fault {
        BoardFault::Dead { board } => and_dec(start(b"dead"), board as u64),
        BoardFault::Flip { board, index, bit } => put_flip(board, index, bit),
    }
}

/// Writes `flip B I BIT`.
#[tactic(auto, using(crate::proofs::Joined::texts))]
fn put_flip(board: u8, index: u32, bit: u8) -> Text
    ensures { result.items ≡ entry_text (Entry.One (Act.Board (BoardFault.Flip board index bit))) }
{
    let line = and_dec(and_dec(start(b"flip"), board as u64), index as u64);
    and_dec(line, bit as u64)
}

/// The letter of a kind of request.
fn kind_word(kind: Kind) -> &'static [u8]
    ensures word { result.now ≡ letter_of kind ∷ [] }
{
    match kind {
        Kind::Load => b"l",
        Kind::Store => b"s",
        Kind::Sync => b"y",
    }
}

/// Writes `drive P T A D`.
#[tactic(auto, using(crate::proofs::Joined::texts))]
fn put_request(p: u8, kind: Kind, address: u32, word: u32) -> Text
    ensures text { result.items ≡ codes "drive " ++ decimal p ++ 32 ∷ letter_of kind ∷ 32 ∷ (hex_text 8 address ++ 32 ∷ hex_text 8 word) }
    ensures size { length result.items ≤ 46 }
{
    let line = and_word(and_dec(start(b"drive"), p as u64), kind_word(kind));
    and_hex(and_hex(line, address, WORD_DIGITS), word, WORD_DIGITS)
}

/// Writes `drive P T A D M RUN SEEN`.
#[tactic(auto, using(crate::proofs::Joined::texts))]
fn put_drive(p: u8, posted: Posted) -> Text
    ensures { result.items ≡ entry_text (Entry.One (Act.Drive p posted)) }
{
    let request = posted.request;
    let line = put_request(p, request.kind, request.address, request.word);
    let line = and_dec(line, request.mask as u64);
    and_dec(and_dec(line, request.run), posted.seen)
}
