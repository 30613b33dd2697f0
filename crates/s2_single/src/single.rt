//! The machine of one processor.

ghost use Rattle.std.specs.Prelude.{◌≡◌, ◌≢◌, ◌<◌, ◌-◌, ◌++◌, ℕ, List, None, IfOk, length, slice_index};
ghost use Rattle.s2_base.specs.declared.map.TheConstants.{LOCAL_WORDS, GLOBAL_WORDS};
ghost use Rattle.s2_machine.specs.Machine.{started};
ghost use Rattle.s2_machine.specs.InstructionRows.{step_of};
ghost use Rattle.s2_machine.specs.LocalWork.{after_finish, ask_of};
ghost use Rattle.s2_machine.specs.StepRanges.{HasMask, IsSound};
ghost use Rattle.s2_machine.specs.WriteBack.{with_lines};
ghost use Rattle.s2_machine.specs.Cores.{core_cycle_by};
ghost use Rattle.s2_machine.specs.R2000.{r2000};
ghost use Rattle.s2_machine.specs.Cycle.{cycle};
ghost use Rattle.s2_machine.specs.MachineRun.{core_cycles, after_cycle, after_delivery, bytes_of};
ghost use Rattle.s2_ports.specs.Events.{IsEventInRange};
ghost use Rattle.s2_single.specs.SingleMachine.{after_event, burst_cycles, cycle_effect, in_run, machine_of};

use crate::outside_access::access;
use s2_base::Memory;
use s2_core::{Ask, ask_of as core_ask_of, asking_step, finish_step, try_turn};
use s2_cpu::Cpu;
use s2_device::{Board, Effect};
use s2_elf::Image;
use s2_machine::Step;
use s2_ports::{Event, Reply, Request};
use s2_store::{FlatStore, Store};
use std::alloc::Global;
use std::marker::Model;

/// One processor, its local memory and boot store, global memory, the devices, and the halt value, seen as
/// the record of these. Only `new` takes memory.
#[derive(Drop)]
pub struct Single {
    cpu: Cpu,
    local: FlatStore,
    global: FlatStore,
    board: Board,
    halt: Option<u32>,
}

/// What a burst of cycles came to.
#[derive(Debug, Clone, Copy, PartialEq, Eq)]
pub struct Burst {
    /// How many cycles of the limit are left.
    pub left: u64,
    /// The console byte of the last one, if it wrote one; those before it write none.
    pub out: Option<u8>,
}

impl Model for Single {
    ghost use Rattle.std.specs.Prelude.{◌≡◌, length};
    ghost use Rattle.s2_base.specs.declared.map.TheConstants.{LOCAL_WORDS, GLOBAL_WORDS};
    ghost use Rattle.s2_machine.specs.Machine.{Machine};

    ghost Value = { Machine };

    ghost view = { λ s. record {
      cpu = s.cpu;
      local = s.local;
      global = s.global;
      device = s.board;
      halt = s.halt;
    } };

    ghost invariant = { λ s. (length s.local ≡ LOCAL_WORDS) × (length s.global ≡ GLOBAL_WORDS) };
}

/// The processor sees these interrupt lines.
fn set_lines(cpu: &mut Cpu, lines: u8)
    requires { lines < 4 }
    ensures { cpu.new ≡ with_lines cpu.old lines }
{
    cpu.lines = lines;
}

/// What the next cycle asks, whose step is known.
fn request_of(cpu: &Cpu, local: &FlatStore, step: Step) -> Ask
    requires known { step ≡ step_of cpu.now local.now }
    requires sound { IsSound step }
    ensures ask { result ≡ ask_of cpu.now local.now }
    ensures mask { HasMask result }
{
    core_ask_of(cpu, step)
}

/// The end of the next cycle, whose step is known and asks for an access.
fn finish_by(cpu: &mut Cpu, local: &FlatStore, step: Step, reply: Reply)
    requires known { step ≡ step_of cpu.old local.now }
    requires sound { IsSound step }
    requires lines { reply.lines < 4 }
    ensures { cpu.new ≡ after_finish cpu.old local.now reply.word reply.lines }
{
    finish_step(cpu, step, reply);
}

/// The end of a cycle that asked for an access: the access, and then the processor takes the word that it
/// read and the lines of the devices. It gives the console byte of the cycle.
fn finish_outside(
    cpu: &mut Cpu,
    local: &mut FlatStore,
    global: &mut FlatStore,
    board: &mut Board,
    halt: &mut Option<u32>,
    step: Step,
    request: Request,
) -> Option<u8>
    requires known { step ≡ step_of cpu.old local.old }
    requires sound { IsSound step }
    requires local { length local.old ≡ LOCAL_WORDS }
    requires global { length global.old ≡ GLOBAL_WORDS }
    requires asked { ask_of cpu.old local.old ≡ Ask.Outside request }
    requires mask { request.mask < 16 }
    ensures cycle { core_cycle_by r2000 (machine_of cpu.old local.old global.old board.old None) (Ask.Outside request)
        ≡ record { next = machine_of cpu.new local.new global.new board.new halt.new; out = result } }
    ensures local { length local.new ≡ LOCAL_WORDS }
    ensures global { length global.new ≡ GLOBAL_WORDS }
{
    let effect = access(global, board, &request);
    let reply = Reply {
        word: effect.word,
        lines: board.lines(),
    };
    finish_by(cpu, local, step, reply);
    *halt = effect.halt;
    effect.out
}

/// A cycle that asks for an access, of the parts of a machine that has not halted.
#[cold]
#[inline(never)]
fn cycle_outside(
    cpu: &mut Cpu,
    local: &mut FlatStore,
    global: &mut FlatStore,
    board: &mut Board,
    halt: &mut Option<u32>,
) -> Option<u8>
    requires local { length local.old ≡ LOCAL_WORDS }
    requires global { length global.old ≡ GLOBAL_WORDS }
    requires asked { ask_of cpu.old local.old ≢ Ask.Local }
    ensures cycle { cycle (machine_of cpu.old local.old global.old board.old None)
        ≡ record { next = machine_of cpu.new local.new global.new board.new halt.new; out = result } }
    ensures local { length local.new ≡ LOCAL_WORDS }
    ensures global { length global.new ≡ GLOBAL_WORDS }
{
    let step = asking_step(cpu, local);
    match request_of(cpu, local, step) {
        Ask::Local => unreachable!(),
        Ask::Outside(request) => finish_outside(cpu, local, global, board, halt, step, request),
    }
}

/// A cycle of the parts of a machine that has not halted, and the console byte of it.
#[inline(always)]
fn cycle_of(
    cpu: &mut Cpu,
    local: &mut FlatStore,
    global: &mut FlatStore,
    board: &mut Board,
    halt: &mut Option<u32>,
) -> Option<u8>
    requires local { length local.old ≡ LOCAL_WORDS }
    requires global { length global.old ≡ GLOBAL_WORDS }
    requires halt { halt.old ≡ None }
    ensures cycle { cycle (machine_of cpu.old local.old global.old board.old None)
        ≡ record { next = machine_of cpu.new local.new global.new board.new halt.new; out = result } }
    ensures local { length local.new ≡ LOCAL_WORDS }
    ensures global { length global.new ≡ GLOBAL_WORDS }
{
    if try_turn(cpu, local) {
        None
    } else {
        cycle_outside(cpu, local, global, board, halt)
    }
}

/// A burst of cycles of the parts of a machine that has not halted.
#[inline(always)]
fn burst_of(
    cpu: &mut Cpu,
    local: &mut FlatStore,
    global: &mut FlatStore,
    board: &mut Board,
    halt: &mut Option<u32>,
    limit: u64,
) -> Burst
    requires local { length local.old ≡ LOCAL_WORDS }
    requires global { length global.old ≡ GLOBAL_WORDS }
    requires halt { halt.old ≡ None }
    requires limit { 0 < limit }
    ensures run { (bytes : List ℕ)
        → core_cycles r2000 (limit - result.left) (in_run (machine_of cpu.old local.old global.old board.old None) bytes)
        ≡ in_run (machine_of cpu.new local.new global.new board.new halt.new) (bytes ++ bytes_of result.out) }
    ensures cycles { limit - result.left ≡ burst_cycles limit (machine_of cpu.old local.old global.old board.old None) }
    ensures some { result.left < limit }
    ensures local { length local.new ≡ LOCAL_WORDS }
    ensures global { length global.new ≡ GLOBAL_WORDS }
{
    let start = cpu.run;
    let mut left = limit;
    loop {
        if !try_turn(cpu, local) {
            let ran = cpu.run.wrapping_sub(start);
            let out = cycle_outside(cpu, local, global, board, halt);
            return Burst {
                left: limit - ran - 1,
                out,
            };
        }
        left -= 1;
        if left == 0 {
            return Burst { left: 0, out: None };
        }
    }
}

impl Single {
    /// The machine at the start of a program, whose words are copied once.
    ///
    /// `Memory` where the room for them, or for the keys that may wait, was refused.
    pub fn new(alloc: Global, image: &Image) -> Result<Single, Memory>
        ensures { IfOk result (λ s. s ≡ started image.now.entry image.now.local image.now.global) }
    {
        let local = FlatStore::new(alloc, image.local.as_slice())?;
        let global = FlatStore::new(alloc, image.global.as_slice())?;
        let board = Board::new(alloc)?;
        Ok(Single {
            cpu: Cpu::start(image.entry),
            local,
            global,
            board,
            halt: None,
        })
    }

    /// An event acts on the devices at the run count as it is, before the next cycle, and the processor sees
    /// their interrupt lines. It acts after a halt too; a run delivers nothing then.
    /// Private values are at most `NO_VALUE` each.
    pub fn deliver(&mut self, event: Event)
        requires { IsEventInRange event }
        ensures machine { self.new ≡ after_event self.old event }
        ensures run { (bytes : List ℕ) → self.old.halt ≡ None
            → after_delivery (in_run self.old bytes) event ≡ in_run self.new bytes }
    {
        self.board.deliver(event);
        set_lines(&mut self.cpu, self.board.lines());
    }

    /// One cycle of a machine that has not halted: the byte that it writes to the console, and the halt value
    /// where it is the store to HALT. The effect's word is 0. Source: MIPS R2000 for the processor; the
    /// devices, their lines and the halt are this project's own (`docs/MACHINE.md`).
    pub fn cycle(&mut self) -> Effect
        requires { self.old.halt ≡ None }
        ensures machine { self.new ≡ (cycle self.old).next }
        ensures effect { result ≡ cycle_effect self.old }
        ensures run { (bytes : List ℕ)
            → after_cycle (in_run self.old bytes) ≡ in_run self.new (bytes ++ bytes_of result.out) }
    {
        let out = cycle_of(
            &mut self.cpu,
            &mut self.local,
            &mut self.global,
            &mut self.board,
            &mut self.halt,
        );
        Effect {
            word: 0,
            out,
            halt: self.halt,
        }
    }

    /// A burst of cycles of a machine that has not halted: at most `limit`, which is not 0, up to the first that
    /// accesses global memory or a device, that one included. So no cycle before the last writes a byte or halts.
    pub fn burst(&mut self, limit: u64) -> Burst
        requires running { self.old.halt ≡ None }
        requires limit { 0 < limit }
        ensures run { (bytes : List ℕ) → core_cycles r2000 (limit - result.left) (in_run self.old bytes)
            ≡ in_run self.new (bytes ++ bytes_of result.out) }
        ensures cycles { limit - result.left ≡ burst_cycles limit self.old }
        ensures some { result.left < limit }
    {
        burst_of(
            &mut self.cpu,
            &mut self.local,
            &mut self.global,
            &mut self.board,
            &mut self.halt,
            limit,
        )
    }

    /// The machine becomes that of another. It takes no memory.
    pub fn copy_from(&mut self, other: &Single)
        ensures { self.new ≡ other.now }
    {
        self.cpu.copy_from(&other.cpu);
        self.local.copy_from(&other.local);
        self.global.copy_from(&other.global);
        self.board.copy_from(&other.board);
        self.halt = other.halt;
    }

    /// The processor.
    pub fn cpu(&self) -> &Cpu
        ensures { result.now ≡ self.now.cpu }
    {
        &self.cpu
    }

    /// Word `i`, below `LOCAL_WORDS`, of the local list: local memory, and then the boot store.
    pub fn local_word(&self, i: u32) -> u32
        requires { i < LOCAL_WORDS }
        ensures { result ≡ slice_index self.now.local i }
    {
        self.local.word(i)
    }

    /// How many cycles were run, modulo 2^64.
    pub fn run(&self) -> u64
        ensures { result ≡ self.now.cpu.run }
    {
        self.cpu.run
    }

    /// The halt value: none exactly before the store to HALT.
    pub fn halted(&self) -> Option<u32>
        ensures { result ≡ self.now.halt }
    {
        self.halt
    }
}
