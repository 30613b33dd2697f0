//! A workload under its script. Its bytes and its halt value come from the generator's recurrence.

use crate::{Status, serve};
use s2_io::{QuietDesk, QuietSink, QuietSource};
use std::alloc::AllocGlobal;
use std::test::Fail;

/// The bytes that workload 1 writes, and its last number.
fn expected(rt: &impl AllocGlobal) -> Result<(Vec<u8>, u32), Fail> {
    let mut bytes = Vec::new(rt.alloc());
    let mut number = 1u32;
    for left in (0..65_792u32).rev() {
        number = number.wrapping_mul(1_664_525).wrapping_add(1_013_904_223);
        if left % 256 == 0 {
            bytes.push((number / 0x0100_0000) as u8)?;
        }
    }
    Ok((bytes, number))
}

/// The report of workload 1: the fault is found, the repair ends, and the last number is the halt value.
#[rattlefmt::skip]
const REPORT: &[u8] = b"out 5008 1 differ\njoin 10000 1\njoined 561764 1 good\nruns 658445\nticks 942980\nbytes 257\nend halt dd536901\n";

#[test]
fn a_workload_masks_a_fault_and_halts_with_its_last_number(rt: HostRuntime) -> Result<(), Fail> {
    let alloc = rt.alloc();
    let (bytes, last) = expected(&rt)?;
    assert_eq!(rt; last, 0xDD53_6901);
    let mut words = Vec::new(alloc);
    for word in ["load", "1"] {
        words.push(String::from_str(alloc, word)?)?;
    }
    for _ in 0..2 {
        let mut desk = QuietDesk::new(alloc, "hello", b"")?;
        let mut input = QuietSource::new(alloc, b"t 7 1\n", 5)?;
        let mut console = QuietSink::new(alloc, 512, 64)?;
        let mut report = QuietSink::new(alloc, 512, 64)?;
        let status = serve(
            alloc,
            words.as_slice(),
            &mut desk,
            &mut input,
            &mut console,
            &mut report,
            &mut None,
        );
        assert_eq!(rt; status, Status::Done);
        assert_eq!(rt; console.taken(), bytes.as_slice());
        assert_eq!(rt; report.taken(), REPORT);
    }
    Ok(())
}
