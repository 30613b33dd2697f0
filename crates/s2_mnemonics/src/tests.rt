//! Lines outside the table, with the column at which each leaves it.

use crate::read_line;

/// Lines, and the column at which each leaves the table; 0 where it does not.
#[rattlefmt::skip]
static COLUMNS: [(&[u8], u32); 46] = [
    (b"", 0),
    (b"# any", 0),
    (b"#", 0),
    (b"top:", 0),
    (b"syscall:", 0),
    (b"abcdefghijklmno9:", 0),
    (b"abcdefghijklmnopq:", 17),
    (b"9top:", 1),
    (b"Top:", 1),
    (b"top", 4),
    (b"top :", 4),
    (b"top: break", 5),
    (b" break", 1),
    (b"break ", 6),
    (b"break 1", 6),
    (b"nop", 4),
    (b"addx r1, r2, r3", 5),
    (b"ADDU r1, r2, r3", 1),
    (b"addu r1, r2, r31", 0),
    (b"addu r1, r2, r32", 16),
    (b"addu r01, r2, r3", 8),
    (b"addu r1 r2, r3", 8),
    (b"addu r1,r2,r3", 9),
    (b"addu r1, r2", 12),
    (b"addu r1, r2, r3 ", 16),
    (b"addu r1, r2, r3 # sum", 16),
    (b"sll r1, r2, 32", 14),
    (b"addiu r1, r2, -32768", 0),
    (b"addiu r1, r2, -32769", 20),
    (b"addiu r1, r2, 32768", 19),
    (b"addiu r1, r2, -0", 16),
    (b"addiu r1, r2, +1", 15),
    (b"andi r1, r2, -1", 14),
    (b"lui r8, 65536", 13),
    (b"lw r1, 4(r2", 12),
    (b"lw r1, 4[r2]", 9),
    (b"lw r1, (r2)", 8),
    (b"mfc0 r1, 32", 11),
    (b"jalr r31", 9),
    (b"j top:", 6),
    (b"beq r0, r0, 0x8001000", 22),
    (b"bltz r1, r2, top", 12),
    (b".org 0x8001000G", 15),
    (b".org 0X80010000", 7),
    (b".org 0x800100000", 16),
    (b".worf", 5),
];

/// The column at which a line leaves the table; 0 where it does not.
fn column(line: &[u8]) -> u32 {
    match read_line(line) {
        Ok(_) => 0,
        Err(bad) => bad.column,
    }
}

#[test]
fn a_line_outside_the_table_has_its_column(rt: HostRuntime) {
    for (line, wanted) in &COLUMNS {
        assert_eq!(rt; column(line), *wanted);
    }
    let mut remark = [b'a'; 129];
    remark[0] = b'#';
    assert_eq!(rt; column(&remark[..128]), 0);
    assert_eq!(rt; column(&remark), 129);
}
