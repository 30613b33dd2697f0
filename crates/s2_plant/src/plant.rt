//! The triple machine, with the rule that it always keeps.

ghost use Rattle.s2_base.specs.declared.map.TheConstants.{LOCAL_WORDS};
ghost use Rattle.s2_clock.specs.Frames.{IsFrame};
ghost use Rattle.s2_clock.specs.declared.numbers.TheConstants.{FRAME};
ghost use Rattle.s2_join.specs.declared.join.TheConstants.{SAVED_WORDS};
ghost use Rattle.s2_plant.specs.StepParts.{blank_turn};
ghost use Rattle.s2_plant.specs.TickRuns.{IsSkip, IsTickRun, after_ticks, answer_after, answer_of};
ghost use Rattle.s2_plant.specs.StepPromises.{ActPromises, IsFirstPlant, IsPlant, PlantFacts, TickPromises};
ghost use Rattle.s2_saved.specs.SavedWords.{saved_words};
ghost use Rattle.s2_script.specs.ScriptLines.{IsProperEntry};
ghost use Rattle.s2_script.specs.declared.entry.Entry.{Entry};
ghost use Rattle.s2_triplex.specs.R2000Triplex.{r2000_triplex};
ghost use Rattle.s2_triplex.specs.ReferenceMachine.{reference, run_at};
ghost use Rattle.s2_triplex.specs.StepTurns.{act_answer, next_after_act, next_after_tick, tick_answer};
ghost use Rattle.s2_triplex.specs.TriplexState.{module_at, started_triplex, with_frame};
ghost use Rattle.s2_triplex_laws.specs.LatchAgreement.{IsGood};
ghost use Rattle.std.specs.Prelude.{◌≡◌, ◌≢◌, ◌<◌, ◌≤◌, ◌+◌, ◌^◌, ℕ, suc, IfOk, None, slice_index, slice_index_or};

use crate::parts::Parts;
use crate::turn::{self, TickEnd, TickRun, Turn, answer, is_silent};
use s2_base::Memory;
use s2_elf::Image;
use s2_journal::Reason;
use s2_script::Act;
use std::alloc::Global;
use std::marker::Model;

/// The triple machine: three modules with their memberships, the voter, global memory on two boards, the
/// devices, the events that wait, the clocks' last ticks, and what is open of a reintegration; seen as the record
/// of these. Only `new` takes memory, some 8 MB.
#[derive(Drop)]
pub struct Plant {
    parts: Parts,
}

impl Model for Plant {
    ghost use Rattle.s2_triplex.specs.TriplexState.{TriplexState};
    ghost use Rattle.s2_plant.specs.StepPromises.{IsPlant};

    ghost Value = { TriplexState };

    ghost view = { λ p. p.parts };

    ghost invariant = { λ p. IsPlant p.parts };
}

impl Plant {
    /// The machine at the start of a program, whose words are copied.
    ///
    /// `Memory` where a part of it was refused its memory.
    pub fn new(alloc: Global, image: &Image) -> Result<Plant, Memory>
        ensures machine { IfOk result
            (λ plant. plant ≡ started_triplex FRAME image.now.entry image.now.local image.now.global) }
        ensures first { IfOk result IsFirstPlant }
        ensures kept { IfOk result IsPlant }
        ensures facts { IfOk result PlantFacts }
    {
        let parts = Parts::new(alloc, image)?;
        Ok(Plant { parts })
    }

    /// A frame has so many run cycles, from 64 to 4,096, in a machine at the start of a program. It is that of each
    /// module, and the timer of the voter is that of it.
    pub fn set_frame(&mut self, frame: u16)
        requires frame { IsFrame frame }
        requires first { IsFirstPlant self.old }
        ensures framed { self.new ≡ with_frame frame self.old }
        ensures first { IsFirstPlant self.new }
        ensures kept { IsPlant self.new }
        ensures facts { PlantFacts self.new }
    {
        self.parts.set_frame(frame);
    }

    /// One tick: bit `p` of the mask, which is below 8, says that the clock of processor `p` fires. What it
    /// makes known.
    ///
    /// `Slow` exactly where a good processor would have missed more than 4 of its last 64 ticks, this one
    /// included; then nothing changes.
    pub fn step_tick(&mut self, mask: u8) -> Result<Turn, Reason>
        requires mask { mask < 8 }
        requires ticks { self.old.ticks < 2 ^ 40 }
        requires running { self.old.halt ≡ None }
        ensures machine { self.new ≡ next_after_tick r2000_triplex self.old mask }
        ensures turn { result ≡ tick_answer r2000_triplex self.old mask }
        ensures kept { IsPlant self.new }
        ensures facts { PlantFacts self.new }
        ensures tells { TickPromises self.old mask self.new result }
    {
        self.parts.tick(mask)
    }

    /// Some ticks with a mask, at most so many, of which all but the last make nothing known.
    fn tick_on(&mut self, mask: u8, limit: u64, turn: &mut Turn) -> TickEnd
        requires blank { turn.old ≡ blank_turn }
        requires mask { mask < 8 }
        requires some { 0 < limit }
        requires ticks { self.old.ticks + limit ≤ 2 ^ 40 }
        requires running { self.old.halt ≡ None }
        ensures run { IsTickRun self.old mask limit result.before self.new (answer_of result.refused turn.new) }
        ensures kept { IsPlant self.new }
        ensures was { IsPlant self.old }
    {
        self.parts.tick_on(mask, limit, turn)
    }

    /// Ticks with a mask, one after another: at most `n`, which is not 0, up to the first that makes something
    /// known or is refused, that one included. A tick makes nothing known where its turn has no note, no byte and no
    /// halt value.
    pub fn run_ticks(&mut self, mask: u8, n: u64) -> TickRun
        requires mask { mask < 8 }
        requires some { 0 < n }
        requires ticks { self.old.ticks + n ≤ 2 ^ 40 }
        requires running { self.old.halt ≡ None }
        ensures run { IsTickRun self.old mask n result.before self.new result.last }
        ensures stops { result.before + 1 < n → result.last ≢ Ok blank_turn }
        ensures kept { IsPlant self.new }
        ensures facts { PlantFacts self.new }
        ensures tells { (j : ℕ) → j ≤ result.before
            → TickPromises (after_ticks r2000_triplex mask j self.old) mask (after_ticks r2000_triplex mask (suc j) self.old) (answer_after r2000_triplex mask j self.old) }
    {
        let _ticks = self.ticks();
        let mut before = 0u64;
        let mut turn = turn::blank();
        loop {
            before += self.skip(mask, n - before - 1);
            let run = self.tick_on(mask, n - before, &mut turn);
            before += run.before;
            if !is_silent(&run.refused, &turn) {
                return TickRun {
                    before,
                    last: answer(run.refused, turn),
                };
            }
            if before + 1 == n {
                return TickRun {
                    before,
                    last: answer(run.refused, turn),
                };
            }
            before += 1;
        }
    }

    /// Quiet ticks with a mask, at most `n`, all at once: those outside of a hold at which no firing runs a cycle or
    /// posts, nothing is latched and nothing decided. How many these are.
    pub fn skip(&mut self, mask: u8, n: u64) -> u64
        requires mask { mask < 8 }
        requires ticks { self.old.ticks + n ≤ 2 ^ 40 }
        requires running { self.old.halt ≡ None }
        ensures skip { IsSkip self.old mask n result self.new }
        ensures kept { IsPlant self.new }
        ensures facts { PlantFacts self.new }
    {
        self.parts.skip(mask, n)
    }

    /// One act of a script. What it makes known.
    ///
    /// `Second` exactly where it would disturb another processor than the tainted one, and `BothBoards` exactly
    /// where it would put a word of global memory at risk on both boards; then nothing changes.
    pub fn step(&mut self, act: &Act) -> Result<Turn, Reason>
        requires proper { IsProperEntry (Entry.One act.now) }
        requires events { self.old.accepted < 2 ^ 60 }
        requires running { self.old.halt ≡ None }
        ensures machine { self.new ≡ next_after_act self.old act.now }
        ensures turn { result ≡ act_answer self.old act.now }
        ensures kept { IsPlant self.new }
        ensures facts { PlantFacts self.new }
        ensures tells { ActPromises self.old act.now self.new result }
    {
        self.parts.act(act)
    }

    /// The ticks so far, the refused ones not counted.
    pub fn ticks(&self) -> u64
        ensures ticks { result ≡ self.now.ticks }
        ensures kept { IsPlant self.now }
    {
        self.parts.ticks()
    }

    /// How many events were accepted so far, the lost ones not counted.
    pub fn accepted(&self) -> u64
        ensures { result ≡ self.now.accepted }
    {
        self.parts.accepted()
    }

    /// The runs: the run count of the reference machine, the least of a good processor.
    pub fn runs(&self) -> u64
        ensures reference { result ≡ (reference self.now).cpu.run }
        ensures least { (p : ℕ) → p < 3 → IsGood self.now p → result ≤ run_at self.now.modules p }
    {
        self.parts.runs()
    }

    /// The halt value: none exactly before the halting store.
    pub fn halted(&self) -> Option<u32>
        ensures { result ≡ self.now.halt }
    {
        self.parts.halted()
    }

    /// Saved word `k`, below `SAVED_WORDS`, of processor `p`, below 3, whatever its state.
    pub fn saved(&self, p: u8, k: u8) -> u32
        requires p { p < 3 }
        requires k { k < SAVED_WORDS }
        ensures { result ≡ slice_index (saved_words (module_at self.now.modules p).cpu) k }
    {
        self.parts.saved(p, k)
    }

    /// Word `i`, below `LOCAL_WORDS`, of the local list of processor `p`, below 3, whatever its state.
    pub fn local_word(&self, p: u8, i: u32) -> u32
        requires p { p < 3 }
        requires i { i < LOCAL_WORDS }
        ensures { result ≡ slice_index_or (module_at self.now.modules p).local i 0 }
    {
        self.parts.local_word(p, i)
    }
}
