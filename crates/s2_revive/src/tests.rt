//! A board that is dead and is mended word by word.

use crate::Revive;
use s2_base::GLOBAL_WORDS;
use s2_duplex::{BothBoards, Got};
use s2_ports::BoardFault;
use std::test::Fail;

/// A word that is read where nothing has to be rewritten.
fn good(word: u32) -> Got {
    Got {
        word,
        repaired: None,
    }
}

#[test]
fn a_mended_board_has_what_was_written_meanwhile(rt: HostRuntime) -> Result<(), Fail> {
    let alloc = rt.alloc();
    let words = vec![in alloc; 7u32; GLOBAL_WORDS as usize]?;
    let mut memory = Revive::new(alloc, words.as_slice()).map_err(|_| "memory")?;
    assert!(rt; !memory.mend(0));
    assert!(rt; memory.fault(&BoardFault::Dead { board: 0 }).is_ok());
    assert!(rt; !memory.mend(1));
    assert!(rt; memory.mend(0));
    assert!(rt; !memory.mend(0));
    assert_eq!(rt; memory.mending(), Some(0));
    assert_eq!(rt; memory.idle(), None);
    memory.write(0, 0x1122_3344, 0b1111);
    memory.write(9, 0x1122_3344, 0b0100);
    let dead = BoardFault::Dead { board: 1 };
    assert_eq!(rt; memory.fault(&dead).err(), Some(BothBoards { board: 1 }));
    for _ in 0..GLOBAL_WORDS - 2 {
        assert_eq!(rt; memory.idle(), None);
    }
    assert_eq!(rt; memory.idle(), Some(0));
    assert_eq!(rt; memory.mending(), None);
    assert!(rt; memory.fault(&dead).is_ok());
    assert_eq!(rt; memory.read(0), good(0x1122_3344));
    assert_eq!(rt; memory.read(9), good(0x0022_0007));
    assert_eq!(rt; memory.read(GLOBAL_WORDS - 1), good(7));
    Ok(())
}
