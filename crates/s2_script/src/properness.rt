//! Which entries a line can say.

ghost use Rattle.std.specs.Prelude.{◌↔◌, IsTrue};
ghost use Rattle.s2_script.specs.declared.entry.Entry.{Entry};
ghost use Rattle.s2_script.specs.declared.entry.Act.{Act};
ghost use Rattle.s2_script.specs.ScriptLines.{IsProperEntry};

use crate::entry::{Act, Entry};
use crate::ranges::{BOARDS, BYTE_MASKS, PROCESSORS, SAVED_WORDS, TICK_MASKS, WORD_BITS};
use s2_base::{GLOBAL_WORDS, LOCAL_WORDS};
use s2_ports::{BoardFault, Event};

/// Whether every number of an entry is in the range that its line has.
pub fn proper(e: &Entry) -> bool
    ensures { IsTrue result ↔ IsProperEntry e.now }
{
    match *e {
        Entry::Ticks { mask, n } => mask < TICK_MASKS && n >= 1,
        Entry::One(act) => proper_act(act),
    }
}

/// Whether every number of an act is in its range.
fn proper_act(act: Act) -> bool
    ensures { IsTrue result ↔ IsProperEntry (Entry.One act) }
{
    match act {
        Act::Event(event) => proper_event(event),
        Act::Poke { p, k, v: _ } => p < PROCESSORS && k < SAVED_WORDS,
        Act::PokeLocal { p, i, v: _ } => p < PROCESSORS && i < LOCAL_WORDS,
        Act::Drive { p, posted } => p < PROCESSORS && posted.request.mask < BYTE_MASKS,
        Act::Mute { p } => p < PROCESSORS,
        Act::Remove { p } => p < PROCESSORS,
        Act::Revive { p } => p < PROCESSORS,
        Act::Board(fault) => proper_fault(fault),
        Act::Mend { board } => board < BOARDS,
    }
}

/// Whether a line can say an event: it comes from outside.
fn proper_event(event: Event) -> bool
    ensures { IsTrue result ↔ IsProperEntry (Entry.One (Act.Event event)) }
{
    match event {
        Event::Tick => true,
        Event::Key(_) => true,
        Event::Private { a: _, b: _, c: _ } => false,
    }
}

/// Whether every number of a fault is in its range.
fn proper_fault(fault: BoardFault) -> bool
    ensures { IsTrue result ↔ IsProperEntry (Entry.One (Act.Board fault)) }
{
    match fault {
        BoardFault::Dead { board } => board < BOARDS,
        BoardFault::Flip { board, index, bit } => board < BOARDS
            && index < GLOBAL_WORDS
            && bit < WORD_BITS,
    }
}
