//! The devices over a story: keys come and are read, one too many is lost, the timer ticks, and the run
//! ends. What is expected is written from the tables of `docs/MACHINE.md`.

use crate::{Board, Effect};
use s2_base::{CONIN, CONOUT, CONSTAT, HALT, TICKS, TIMACK};
use s2_ports::Event;
use std::test::Fail;

/// A load that gave this word.
fn loaded(word: u32) -> Effect {
    Effect {
        word,
        out: None,
        halt: None,
    }
}

#[test]
fn the_seventeenth_key_is_lost_and_a_store_to_constat_clears_that(
    rt: HostRuntime,
) -> Result<(), Fail> {
    let mut board = Board::new(rt.alloc())?;
    for byte in b'a'..=b'q' {
        board.deliver(Event::Key(byte));
    }
    assert_eq!(rt; board.waiting(), 16);
    assert_eq!(rt; board.overrun(), true);
    assert_eq!(rt; board.lines(), 1);
    assert_eq!(rt; board.access(CONSTAT, false, 0), loaded(0x8000_0010));
    assert_eq!(rt; board.access(CONSTAT, false, 0), loaded(0x8000_0010));
    assert_eq!(rt; board.access(CONSTAT, true, 9), loaded(0));
    assert_eq!(rt; board.access(CONSTAT, false, 0), loaded(0x10));
    for byte in b'a'..=b'p' {
        assert_eq!(rt; board.access(CONIN, false, 0), loaded(u32::from(byte)));
    }
    assert_eq!(rt; board.access(CONIN, false, 0), loaded(0x100));
    assert_eq!(rt; board.waiting(), 0);
    assert_eq!(rt; board.overrun(), false);
    assert_eq!(rt; board.lines(), 0);
    Ok(())
}

#[test]
fn each_register_is_loaded_and_stored_once(rt: HostRuntime) -> Result<(), Fail> {
    let mut board = Board::new(rt.alloc())?;
    for event in [Event::Key(b'a'), Event::Key(b'b'), Event::Tick, Event::Tick] {
        board.deliver(event);
    }
    // the register, the word that a load gives, and the interrupt lines after it
    let loads = [
        (CONOUT, 0, 3),
        (CONSTAT, 2, 3),
        (CONIN, 0x61, 3),
        (TICKS, 2, 3),
        (TIMACK, 0, 3),
        (HALT, 0, 3),
    ];
    for (k, word, lines) in loads {
        assert_eq!(rt; board.access(k, false, 0), loaded(word));
        assert_eq!(rt; board.lines(), lines);
    }
    // the register, the byte and the halt value that a store of 0x12345678 gives, and the lines after it
    let stores = [
        (CONOUT, Some(0x78), None, 3),
        (CONIN, None, None, 3),
        (CONSTAT, None, None, 3),
        (TICKS, None, None, 3),
        (TIMACK, None, None, 1),
        (HALT, None, Some(0x1234_5678), 1),
    ];
    for (k, out, halt, lines) in stores {
        let effect = board.access(k, true, 0x1234_5678);
        assert_eq!(rt; effect, Effect { word: 0, out, halt });
        assert_eq!(rt; board.lines(), lines);
    }
    assert_eq!(rt; board.access(CONIN, false, 0), loaded(0x62));
    assert_eq!(rt; board.access(TICKS, false, 0), loaded(2));
    assert_eq!(rt; board.lines(), 0);
    Ok(())
}
