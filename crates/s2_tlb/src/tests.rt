//! Look-ups by the manual's fields, with words written out.

use crate::{Look, Tlb};

#[test]
fn a_new_buffer_maps_page_0_to_an_entry_that_is_not_valid(rt: HostRuntime) {
    let tlb = Tlb::new();
    assert_eq!(rt; tlb.look(0x0000_0234, 0, false), Look::Invalid);
    assert_eq!(rt; tlb.look(0x0000_1234, 0, false), Look::Miss);
    assert_eq!(rt; tlb.probe(0x0000_0000), Some(0));
}

#[test]
fn a_page_of_one_address_space_is_read_and_not_written(rt: HostRuntime) {
    let mut tlb = Tlb::new();
    // VPN 0x00005 in address space 3 to PFN 0x04012, valid and not dirty; the unused low bits are set too.
    tlb.write(9, 0x0000_50FF, 0x0401_22FF);
    assert_eq!(rt; tlb.read(9), (0x0000_50C0, 0x0401_2200));
    assert_eq!(rt; tlb.look(0x0000_5ABC, 3, false), Look::Hit(0x0401_2ABC));
    assert_eq!(rt; tlb.look(0x0000_5ABC, 3, true), Look::ReadOnly);
    assert_eq!(rt; tlb.look(0x0000_5ABC, 4, false), Look::Miss);
    // The same page for every address space, dirty and valid, at a higher entry and then at a lower one.
    tlb.write(10, 0x0000_5000, 0x0402_0700);
    assert_eq!(rt; tlb.look(0x0000_5ABC, 3, true), Look::ReadOnly);
    assert_eq!(rt; tlb.look(0x0000_5ABC, 4, true), Look::Hit(0x0402_0ABC));
    tlb.write(8, 0x0000_5000, 0x0402_0700);
    assert_eq!(rt; tlb.look(0x0000_5ABC, 3, true), Look::Hit(0x0402_0ABC));
    assert_eq!(rt; tlb.probe(0x0000_50C0), Some(8));
    assert_eq!(rt; tlb.probe(0xC000_0000), None);
}
