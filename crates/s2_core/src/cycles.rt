//! The cycle, in its parts.

ghost use Rattle.std.specs.Prelude.{◌≡◌, ◌≢◌, ◌<◌, length, if◌then◌else◌};
ghost use Rattle.s2_machine.specs.LocalWork.{ask_of, after_turn, local_after_turn, marks_after_turn, after_finish};
ghost use Rattle.s2_machine.specs.StepRanges.{HasMask, IsSound};
ghost use Rattle.s2_machine.specs.WriteBack.{after_step, with_lines};
ghost use Rattle.s2_core.specs.Working.{unless_asked, is_local};

use crate::execution::carry_out_cycle;
use crate::instruction_rows::step;
use crate::local_work::ask_of;
use crate::write_back::write_back;
use s2_base::LOCAL_WORDS;
use s2_cpu::Cpu;
use s2_machine::{Ask, Step};
use s2_ports::Reply;
use s2_store::Store;

/// What the next cycle asks of the outside: nothing, or an access of global memory or a device.
///
/// The store has `LOCAL_WORDS` words: local memory, and then the boot store. The request has the physical
/// address of a word, a multiple of 4, and the run count before the cycle; a load asks for the whole word,
/// and a store has its bytes in their places under the mask. Source: this project's own.
#[inline(never)]
pub fn ask<S: Store>(cpu: &Cpu, store: &S) -> Ask
    requires { length (S.words store.now) ≡ LOCAL_WORDS }
    ensures ask { result ≡ ask_of cpu.now (S.words store.now) }
    ensures mask { HasMask result }
{
    ask_of(cpu, step(cpu, store))
}

/// Runs the next cycle where it asks nothing of the outside, and says whether it did; where it asks, nothing
/// changes.
///
/// The store has `LOCAL_WORDS` words; a word of local memory that is stored marks its page.
#[inline(always)]
pub fn try_turn<S: Store>(cpu: &mut Cpu, store: &mut S) -> bool
    requires { length (S.words store.old) ≡ LOCAL_WORDS }
    ensures local { result ≡ is_local (ask_of cpu.old (S.words store.old)) }
    ensures cpu { cpu.new ≡ (if result then after_turn cpu.old (S.words store.old) else cpu.old) }
    ensures words { S.words store.new
        ≡ (if result then local_after_turn cpu.old (S.words store.old) else S.words store.old) }
    ensures size { length (S.words store.new) ≡ length (S.words store.old) }
    ensures marks { S.marks store.new
        ≡ (if result then marks_after_turn cpu.old (S.words store.old) (S.marks store.old) else S.marks store.old) }
    ensures rest { S.rest store.new ≡ S.rest store.old }
{
    carry_out_cycle(cpu, store)
}

/// Runs the next cycle, where it asks nothing of the outside.
///
/// The store has `LOCAL_WORDS` words; a word of local memory that is stored marks its page.
pub fn turn<S: Store>(cpu: &mut Cpu, store: &mut S)
    requires words { length (S.words store.old) ≡ LOCAL_WORDS }
    requires local { ask_of cpu.old (S.words store.old) ≡ Ask.Local }
    ensures cpu { cpu.new ≡ after_turn cpu.old (S.words store.old) }
    ensures words { S.words store.new ≡ local_after_turn cpu.old (S.words store.old) }
    ensures size { length (S.words store.new) ≡ length (S.words store.old) }
    ensures marks { S.marks store.new ≡ marks_after_turn cpu.old (S.words store.old) (S.marks store.old) }
    ensures rest { S.rest store.new ≡ S.rest store.old }
{
    let _ran = try_turn(cpu, store);
}

/// Ends the next cycle, which asked for an access, with the access's answer: the word that a load reads, and
/// the interrupt lines of the devices, below 4. The store has `LOCAL_WORDS` words and stays as it is.
pub fn finish<S: Store>(cpu: &mut Cpu, store: &mut S, reply: Reply)
    requires words { length (S.words store.old) ≡ LOCAL_WORDS }
    requires outside { ask_of cpu.old (S.words store.old) ≢ Ask.Local }
    requires lines { reply.lines < 4 }
    ensures cpu { cpu.new ≡ after_finish cpu.old (S.words store.old) reply.word reply.lines }
    ensures words { S.words store.new ≡ S.words store.old }
    ensures marks { S.marks store.new ≡ S.marks store.old }
    ensures rest { S.rest store.new ≡ S.rest store.old }
{
    let step = step(cpu, store);
    finish_step(cpu, step, reply);
}

/// Ends a cycle that does this step, with the access's answer as for [`finish`].
pub fn finish_step(cpu: &mut Cpu, step: Step, reply: Reply)
    requires sound { IsSound step }
    requires lines { reply.lines < 4 }
    ensures { cpu.new ≡ with_lines (after_step cpu.old step reply.word) reply.lines }
{
    write_back(cpu, step, reply.word);
    cpu.lines = reply.lines;
}

/// Runs the next cycle where it asks nothing of the outside; where it asks, it gives the request and changes
/// nothing.
///
/// The store has `LOCAL_WORDS` words.
#[inline(always)]
pub fn work<S: Store>(cpu: &mut Cpu, store: &mut S) -> Ask
    requires { length (S.words store.old) ≡ LOCAL_WORDS }
    ensures ask { result ≡ ask_of cpu.old (S.words store.old) }
    ensures mask { HasMask result }
    ensures cpu { cpu.new ≡ unless_asked result (after_turn cpu.old (S.words store.old)) cpu.old }
    ensures words { S.words store.new
        ≡ unless_asked result (local_after_turn cpu.old (S.words store.old)) (S.words store.old) }
    ensures size { length (S.words store.new) ≡ length (S.words store.old) }
    ensures marks { S.marks store.new
        ≡ unless_asked result (marks_after_turn cpu.old (S.words store.old) (S.marks store.old)) (S.marks store.old) }
    ensures rest { S.rest store.new ≡ S.rest store.old }
{
    if try_turn(cpu, store) {
        Ask::Local
    } else {
        ask(cpu, store)
    }
}
