//! Boards whose words are flipped bit by bit, and a board that is dead.

use crate::{BothBoards, Duplex, Got};
use s2_base::GLOBAL_WORDS;
use s2_ports::BoardFault;
use std::test::Fail;

#[test]
fn each_flipped_bit_of_either_board_is_read_right_and_repaired(
    rt: HostRuntime,
) -> Result<(), Fail> {
    let alloc = rt.alloc();
    let words = vec![in alloc; 0x8000_0005u32; GLOBAL_WORDS as usize]?;
    let mut memory = Duplex::new(alloc, words.as_slice()).map_err(|_| "memory")?;
    for board in 0..2u8 {
        for bit in 0..32u8 {
            let flip = BoardFault::Flip {
                board,
                index: 9,
                bit,
            };
            assert!(rt; memory.fault(&flip).is_ok());
            let repaired = Got {
                word: 0x8000_0005,
                repaired: Some(board),
            };
            assert_eq!(rt; memory.read(9), repaired);
            let good = Got {
                word: 0x8000_0005,
                repaired: None,
            };
            assert_eq!(rt; memory.read(9), good);
        }
    }
    Ok(())
}

#[test]
fn the_last_board_is_not_lost(rt: HostRuntime) -> Result<(), Fail> {
    let alloc = rt.alloc();
    let words = vec![in alloc; 7u32; GLOBAL_WORDS as usize]?;
    let mut memory = Duplex::new(alloc, words.as_slice()).map_err(|_| "memory")?;
    assert!(rt; memory.fault(&BoardFault::Dead { board: 0 }).is_ok());
    memory.write(3, 0x1122_3344, 0b0100);
    let read = Got {
        word: 0x0022_0007,
        repaired: None,
    };
    assert_eq!(rt; memory.read(3), read);
    let flip = BoardFault::Flip {
        board: 1,
        index: 0,
        bit: 3,
    };
    assert_eq!(rt; memory.fault(&flip).err(), Some(BothBoards { board: 1 }));
    Ok(())
}
