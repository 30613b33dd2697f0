//! A place for a machine that is kept.

ghost use Rattle.std.specs.Prelude.{◌≡◌, Some, None, IfOk, IsSome, replicate};
ghost use Rattle.s2_trace.specs.declared.numbers.TheConstants.{CHECKPOINTS};
ghost use Rattle.s2_trace.specs.Travel.{kept_run, IsLatestSlot};

use crate::numbers::CHECKPOINTS;
use s2_base::Memory;
use s2_elf::Image;
use s2_single::Single;
use std::alloc::Global;
use std::marker::Model;

/// Room for a machine, seen as the machine that it keeps, or none. Only `new` takes memory.
#[derive(Drop)]
pub struct Checkpoint {
    machine: Single,
    full: bool,
}

impl Model for Checkpoint {
    ghost use Rattle.std.specs.Prelude.{Some, None, if◌then◌else◌};
    ghost use Rattle.std.specs.declared.option.Option.{Option};
    ghost use Rattle.s2_machine.specs.Machine.{Machine};

    ghost Value = { Option Machine };

    ghost view = { λ c. if c.full then Some c.machine else None };
}

impl Checkpoint {
    /// Room that keeps no machine.
    ///
    /// `Memory` where it was refused.
    pub fn new(alloc: Global, image: &Image) -> Result<Checkpoint, Memory>
        ensures { IfOk result (λ c. c ≡ None) }
    {
        let machine = Single::new(alloc, image)?;
        Ok(Checkpoint {
            machine,
            full: false,
        })
    }

    /// Keeps a machine, in place of what was kept.
    pub fn keep(&mut self, machine: &Single)
        ensures { self.new ≡ Some machine.now }
    {
        self.machine.copy_from(machine);
        self.full = true;
    }

    /// A machine becomes the one that is kept.
    pub fn restore(&self, machine: &mut Single)
        requires { IsSome self.now }
        ensures { self.now ≡ Some machine.new }
    {
        machine.copy_from(&self.machine);
    }

    /// The run count of the machine that is kept.
    pub fn run(&self) -> Option<u64>
        ensures { result ≡ kept_run self.now }
    {
        if self.full {
            Some(self.machine.run())
        } else {
            None
        }
    }
}

/// Room for `CHECKPOINTS` machines, none of which is kept.
///
/// `Memory` where it was refused.
pub fn empty_checkpoints(alloc: Global, image: &Image) -> Result<Vec<Checkpoint>, Memory>
    ensures { IfOk result (λ slots. slots.items ≡ replicate CHECKPOINTS None) }
{
    let mut slots = match Vec::with_capacity(alloc, CHECKPOINTS) {
        Ok(slots) => slots,
        Err(_) => return Err(Memory),
    };
    for _ in 0..CHECKPOINTS {
        let checkpoint = Checkpoint::new(alloc, image)?;
        if slots.push(checkpoint).is_err() {
            return Err(Memory);
        }
    }
    Ok(slots)
}

/// The place of the newest machine that is kept up to run count `n`, if there is one.
pub fn latest(slots: &[Checkpoint], n: u64) -> Option<usize>
    ensures { IsLatestSlot n slots.now result }
{
    let mut best = None;
    let mut best_run = 0;
    for i in 0..slots.len() {
        if let Some(run) = slots[i].run() {
            if run <= n && best_run <= run {
                best = Some(i);
                best_run = run;
            }
        }
    }
    best
}
