//! Workloads, run to their halt on one processor. What is expected comes from the generator's recurrence, and
//! the numbers of cycles from the program's rounds, counted by hand.

ghost use Rattle.std.specs.Prelude.{◌≤◌};
ghost use Rattle.s2_gen.specs.declared.workloads.TheConstants.{WORKLOADS};

use crate::{WORKLOADS, workload};
use s2_single::Single;
use std::alloc::AllocGlobal;
use std::test::Fail;

/// How many numbers workload `n` computes.
fn rounds(n: u32) -> u32
    requires { n ≤ WORKLOADS }
{
    65_536 + 256 * n
}

/// The bytes that workload `n` writes, and its last number.
fn expected(rt: &impl AllocGlobal, n: u32) -> Result<(Vec<u8>, u32), Fail>
    requires { n ≤ WORKLOADS }
{
    let mut bytes = Vec::new(rt.alloc());
    let mut number = n;
    for left in (0..rounds(n)).rev() {
        number = number.wrapping_mul(1_664_525).wrapping_add(1_013_904_223);
        if left % 256 == 0 {
            bytes.push((number / 0x0100_0000) as u8)?;
        }
    }
    Ok((bytes, number))
}

/// The machine of workload `n` at its start.
fn machine(rt: &impl AllocGlobal, n: u32) -> Result<Single, Fail>
    requires from_one { 1 ≤ n }
    requires known { n ≤ WORKLOADS }
{
    let Ok(made) = workload(rt.alloc(), n) else {
        return Err(Fail::from("memory"));
    };
    match Single::new(rt.alloc(), &made.image) {
        Ok(machine) => Ok(machine),
        Err(_) => Err(Fail::from("memory")),
    }
}

/// Runs so many cycles, or to a halt, and gives what was written to the console.
fn run(rt: &impl AllocGlobal, machine: &mut Single, cycles: u64) -> Result<Vec<u8>, Fail> {
    let mut bytes = Vec::new(rt.alloc());
    for _ in 0..cycles {
        if machine.halted().is_none() {
            if let Some(byte) = machine.cycle().out {
                bytes.push(byte)?;
            }
        }
    }
    Ok(bytes)
}

#[test]
fn the_first_workload_halts_with_its_last_number(rt: HostRuntime) -> Result<(), Fail> {
    let (bytes, last) = expected(&rt, 1)?;
    assert_eq!(rt; last, 0xDD53_6901);
    let mut machine = machine(&rt, 1)?;
    let written = run(&rt, &mut machine, 658_444)?;
    assert_eq!(rt; machine.halted(), None);
    assert_eq!(rt; written.len(), 257);
    assert_eq!(rt; written.as_slice(), bytes.as_slice());
    assert_eq!(rt; run(&rt, &mut machine, 2)?.len(), 0);
    assert_eq!(rt; machine.run(), 658_445);
    assert_eq!(rt; machine.halted(), Some(last));
    Ok(())
}

#[test]
fn the_last_workload_takes_the_most_cycles(rt: HostRuntime) -> Result<(), Fail> {
    let (bytes, last) = expected(&rt, WORKLOADS)?;
    let mut machine = machine(&rt, WORKLOADS)?;
    let written = run(&rt, &mut machine, 4_000_000)?;
    assert_eq!(rt; written.as_slice(), bytes.as_slice());
    assert_eq!(rt; machine.run(), 11 + 10 * 321_536 + 2 * 1256);
    assert_eq!(rt; machine.halted(), Some(last));
    Ok(())
}
