//! The processor module.

ghost use Rattle.s2_base.specs.declared.map.TheConstants.{LOCAL_WORDS};
ghost use Rattle.s2_clock.specs.Frames.{IsFrame};
ghost use Rattle.s2_clock.specs.declared.numbers.TheConstants.{FRAME};
ghost use Rattle.s2_join.specs.declared.join.TheConstants.{SAVED_WORDS};
ghost use Rattle.s2_core.specs.Working.{is_local};
ghost use Rattle.s2_machine.specs.Cores.{is_sync};
ghost use Rattle.s2_machine.specs.LocalWork.{after_finish, after_turn, ask_of, local_after_turn, marks_after_turn};
ghost use Rattle.s2_machine.specs.InstructionRows.{step_of};
ghost use Rattle.s2_machine.specs.StepRanges.{HasMask, IsSound};
ghost use Rattle.s2_machine.specs.WriteBack.{with_lines};
ghost use Rattle.s2_module.specs.ModuleSize.{HasPortMask, IsModuleSize};
ghost use Rattle.s2_module.specs.ModuleFinish.{IsFinishing, answered_unless};
ghost use Rattle.s2_module.specs.ModuleLeads.{AreTurns, IsAsking, IsRunning, module_ticks, posts_at, turns};
ghost use Rattle.s2_module.specs.ModuleRests.{idle_firings, module_idled_by};
ghost use Rattle.s2_pages.specs.declared.page_store.TheConstants.{LOCAL_PAGES};
ghost use Rattle.s2_saved.specs.SavedWords.{saved_words};
ghost use Rattle.s2_triplex.specs.ModuleAnswer.{after_answered_cycle, answered, finished_replica, is_asking};
ghost use Rattle.s2_triplex.specs.ModuleFaults.{module_driven, module_local_poked, module_muted, module_poked, module_reset, module_restored, module_revived, module_unmarked};
ghost use Rattle.s2_triplex.specs.ModuleFiring.{after_work, after_work_unless_waiting, is_outside, is_posting, is_working, module_fired, module_idled};
ghost use Rattle.s2_triplex.specs.ModuleState.{module_framed, replica_ask, replica_of, started_module, with_replica, is_frame_end};
ghost use Rattle.s2_triplex.specs.R2000Triplex.{r2000_triplex};
ghost use Rattle.std.specs.Prelude.{ℕ, ◌≡◌, ◌≢◌, ◌<◌, ◌&&◌, false, is_some, not, slice_index, slice_index_or, IfOk, true, suc, ◌≤◌, ◌+◌, nat_lt, if◌then◌else◌};

use crate::requests::{asks_for, ends_frame, sync};
use s2_base::Memory;
use s2_clock::{FRAME, REFRESH_FIRINGS, REFRESH_PERIOD};
use s2_core::{Ask, ask, ask_of as request_of, asking_step, finish, finish_step, try_turn};
use s2_cpu::Cpu;
use s2_elf::Image;
use s2_machine::Step;
use s2_pages::PageStore;
use s2_ports::{Kind, Posted, Reply, Request};
use s2_saved::{copy_state, load_word, save_word};
use s2_store::Store;
use std::alloc::Global;
use std::marker::Model;

const _: () = prove!(REFRESH_PERIOD == u8::MAX as u16 + 1);

/// The number of the first firing of a period that goes to refresh.
const FIRST_REFRESH: u8 = (REFRESH_PERIOD - REFRESH_FIRINGS) as u8;

/// A processor, its local memory and boot store with a mark for each page, its port, and the run cycles of a
/// frame, seen as the record of these; and the step of the cycle that asked last, where it was found and nothing changed since. Only `new`
/// takes memory.
#[derive(Drop)]
pub struct Module {
    cpu: Cpu,
    pages: PageStore,
    fires: u8,
    due: bool,
    muted: bool,
    port: Option<Posted>,
    frame: u16,
    private: u8,
    found: Option<Step>,
}

impl Model for Module {
    ghost use Rattle.s2_module.specs.FoundStep.{IsFound};
    ghost use Rattle.s2_triplex.specs.ModuleState.{ModuleState};

    ghost Value = { ModuleState };

    ghost view = { λ m. record {
      cpu = m.cpu;
      local = m.pages.words;
      marks = m.pages.marks;
      fires = m.fires;
      due = m.due;
      muted = m.muted;
      port = m.port;
      frame = m.frame;
      private = m.private;
    } };

    ghost invariant = { λ m. IsFound m.found m.cpu m.pages.words };
}

/// The processor sees these interrupt lines.
fn set_lines(cpu: &mut Cpu, lines: u8)
    requires { lines < 4 }
    ensures { cpu.new ≡ with_lines cpu.old lines }
{
    cpu.lines = lines;
}

/// What a replica asks, by its parts.
fn replica_ask(cpu: &Cpu, pages: &PageStore, due: bool) -> Ask
    ensures ask { (frame : ℕ) →
        result ≡ replica_ask r2000_triplex (record { cpu = cpu.now; local = pages.now.words; due = due; frame = frame }) }
    ensures mask { HasMask result }
{
    let _words = pages.len();
    if due {
        Ask::Outside(sync(cpu.run))
    } else {
        ask(cpu, pages)
    }
}

/// The next cycle where it asks nothing, on the pages of a module; and whether it was run.
#[inline(always)]
fn turn_on(cpu: &mut Cpu, pages: &mut PageStore) -> bool
    ensures local { result ≡ is_local (ask_of cpu.old pages.old.words) }
    ensures cpu { cpu.new ≡ (if result then after_turn cpu.old pages.old.words else cpu.old) }
    ensures words { pages.new.words ≡ (if result then local_after_turn cpu.old pages.old.words else pages.old.words) }
    ensures marks { pages.new.marks
        ≡ (if result then marks_after_turn cpu.old pages.old.words pages.old.marks else pages.old.marks) }
{
    let _words = pages.len();
    try_turn(cpu, pages)
}

/// Cycles that ask nothing, at most so many, up to the first that ends a frame of so many run cycles, on the pages of a
/// module; and how many were run.
#[inline(never)]
fn turns_on(cpu: &mut Cpu, pages: &mut PageStore, frame: u16, most: u64) -> u64
    ensures most { result ≤ most }
    ensures cpu { cpu.new
        ≡ (turns result (record { cpu = cpu.old; local = pages.old.words; marks = pages.old.marks })).cpu }
    ensures words { pages.new.words
        ≡ (turns result (record { cpu = cpu.old; local = pages.old.words; marks = pages.old.marks })).local }
    ensures marks { pages.new.marks
        ≡ (turns result (record { cpu = cpu.old; local = pages.old.words; marks = pages.old.marks })).marks }
    ensures turns { AreTurns frame result (record { cpu = cpu.old; local = pages.old.words; marks = pages.old.marks }) }
    ensures asks { result ≡ 0 → 0 < most → is_local (ask_of cpu.old pages.old.words) ≡ false }
    ensures next { result < most → (nat_lt 0 result && is_frame_end frame cpu.new.run) ≡ false
        → is_local (ask_of cpu.new pages.new.words) ≡ false }
{
    for ran in 0..most {
        if !turn_on(cpu, pages) {
            return ran;
        }
        if ends_frame(frame, cpu.run) {
            return ran + 1;
        }
    }
    most
}

/// The next cycle where it asks nothing, on the pages of a module; and whether it was run. The loop is the only
/// caller of the cycle, so that the cycle is built into it.
fn turn_once(cpu: &mut Cpu, pages: &mut PageStore) -> bool
    ensures local { result ≡ is_local (ask_of cpu.old pages.old.words) }
    ensures cpu { cpu.new ≡ (if result then after_turn cpu.old pages.old.words else cpu.old) }
    ensures words { pages.new.words ≡ (if result then local_after_turn cpu.old pages.old.words else pages.old.words) }
    ensures marks { pages.new.marks
        ≡ (if result then marks_after_turn cpu.old pages.old.words pages.old.marks else pages.old.marks) }
{
    let ran = turns_on(cpu, pages, FRAME as u16, 1);
    ran == 1
}

/// How many firings are left before those that go to refresh, and at most so many.
fn firings_left(fires: u8, limit: u64) -> u64
    ensures most { result ≤ limit }
    ensures left { 0 < result → fires + result ≤ 254 }
{
    if fires >= FIRST_REFRESH {
        return 0;
    }
    let left = u64::from(FIRST_REFRESH - fires);
    if left < limit { left } else { limit }
}

/// The number of a firing, so many later.
fn fires_after(fires: u8, n: u64) -> u8
    requires { 0 < n → fires + n ≤ 254 }
    ensures { result ≡ fires + n }
{
    if n == 0 { fires } else { fires + n as u8 }
}

/// Whether the last of so many cycles ended a frame.
fn ended(n: u64, frame: u16, run: u64) -> bool
    ensures { result ≡ (nat_lt 0 n && is_frame_end frame run) }
{
    n > 0 && ends_frame(frame, run)
}

/// Whether fewer cycles were run than could be, although no frame's end is due: the next one asks.
fn stopped(ran: u64, most: u64, due: bool) -> bool
    ensures { result ≡ (nat_lt ran most && not due) }
{
    ran < most && !due
}

/// Firings that ran cycles.
#[derive(Debug, Clone, Copy, PartialEq, Eq)]
struct CycleRun {
    /// How many these are.
    ran: u64,
    /// Whether the next firing surely posts what its cycle asks.
    asks: bool,
}

/// What the next cycle does, on the pages of a module.
fn step_on(cpu: &Cpu, pages: &PageStore) -> Step
    ensures step { result ≡ step_of cpu.now pages.now.words }
    ensures sound { IsSound result }
{
    let _words = pages.len();
    asking_step(cpu, pages)
}

/// What the next cycle asks, whose step is known.
fn request_on(cpu: &Cpu, pages: &PageStore, step: Step) -> Ask
    requires known { step ≡ step_of cpu.now pages.now.words }
    requires sound { IsSound step }
    ensures ask { result ≡ ask_of cpu.now pages.now.words }
    ensures mask { HasMask result }
{
    let _words = pages.len();
    request_of(cpu, step)
}

/// The end of the next cycle, whose step is known, where it asks for what was agreed; and whether it does.
fn answer_on(cpu: &mut Cpu, pages: &PageStore, step: Step, agreed: &Request, reply: Reply) -> bool
    requires known { step ≡ step_of cpu.old pages.now.words }
    requires sound { IsSound step }
    requires lines { reply.lines < 4 }
    ensures asks { result ≡ is_asking (ask_of cpu.old pages.now.words) agreed.now }
    ensures cpu { cpu.new ≡ (if result then after_finish cpu.old pages.now.words reply.word reply.lines else cpu.old) }
{
    let _words = pages.len();
    let asks = asks_for(&request_of(cpu, step), agreed);
    if asks {
        finish_step(cpu, step, reply);
    }
    asks
}

/// Whether a frame's end is due after the end of a cycle that asked, or did not ask, for what was agreed.
fn is_due(asks: bool, frame: u16, run: u64) -> bool
    ensures { result ≡ (asks && is_frame_end frame run) }
{
    asks && ends_frame(frame, run)
}

/// Whether a request is a synchronisation.
fn is_sync(kind: Kind) -> bool
    ensures { result ≡ is_sync kind }
{
    match kind {
        Kind::Sync => true,
        Kind::Load => false,
        Kind::Store => false,
    }
}

/// The end of a cycle that asked for an access, on the pages of a module.
fn finish_on(cpu: &mut Cpu, pages: &mut PageStore, reply: Reply)
    requires lines { reply.lines < 4 }
    requires asked { ask_of cpu.old pages.old.words ≢ Ask.Local }
    ensures cpu { cpu.new ≡ after_finish cpu.old pages.old.words reply.word reply.lines }
    ensures pages { pages.new ≡ pages.old }
{
    let _words = pages.len();
    finish(cpu, pages, reply);
}

impl Module {
    /// The module at the start of a program: its local words are copied once, no page is marked, no firing
    /// was counted, nothing is due, the port is empty, and a frame has [`FRAME`](s2_clock::FRAME) run cycles.
    ///
    /// `Memory` where the copy was refused its memory.
    pub fn new(alloc: Global, image: &Image) -> Result<Module, Memory>
        ensures module { IfOk result (λ m. m ≡ started_module FRAME image.now.entry image.now.local) }
        ensures size { IfOk result IsModuleSize }
    {
        let pages = PageStore::new(alloc, image.local.as_slice())?;
        Ok(Module {
            cpu: Cpu::start(image.entry),
            pages,
            fires: 0,
            due: false,
            muted: false,
            port: None,
            frame: FRAME as u16,
            private: 0,
            found: None,
        })
    }

    /// A frame has so many run cycles, from 64 to 4,096, in a module that has run none.
    pub fn set_frame(&mut self, frame: u16)
        requires frame { IsFrame frame }
        requires first { self.old.cpu.run ≡ 0 }
        ensures { self.new ≡ module_framed frame self.old }
    {
        self.frame = frame;
    }

    /// What every module keeps: as many words and marks as a local list has words and pages, and the number
    /// of a firing of the period. It does nothing, and tells a caller so.
    pub fn well_formed(&self)
        ensures { IsModuleSize self.now }
    {
        let _words = self.pages.len();
        let _fires = self.fires;
    }

    /// What the module asks for: the synchronisation where a frame's end is due, else the access of its
    /// next cycle, if that has one.
    pub fn wish(&self) -> Ask
        ensures ask { result ≡ replica_ask r2000_triplex (replica_of self.now) }
        ensures mask { HasMask result }
    {
        replica_ask(&self.cpu, &self.pages, self.due)
    }

    /// The request is in the port, with the number of events accepted so far; and the number of the next
    /// firing is the private value.
    fn post(&mut self, request: Request, seen: u64)
        ensures { self.new ≡ after_work r2000_triplex seen self.old (Ask.Outside request) }
    {
        self.port = Some(Posted { request, seen });
        self.private = self.fires;
    }

    /// The next cycle where it asks nothing, or its request in the port; and whether it was posted.
    #[inline(always)]
    fn cycle(&mut self, seen: u64) -> bool
        ensures module { self.new ≡ after_work r2000_triplex seen self.old (ask_of self.old.cpu self.old.local) }
        ensures posts { result ≡ is_outside (ask_of self.old.cpu self.old.local) }
        ensures mask { HasPortMask self.old.port → HasPortMask self.new.port }
    {
        self.found = None;
        if turn_once(&mut self.cpu, &mut self.pages) {
            let run = self.run();
            self.due = ends_frame(self.frame, run);
            false
        } else {
            self.ask_and_post(seen);
            true
        }
    }

    /// What the next cycle asks, in the port.
    #[cold]
    #[inline(never)]
    fn ask_and_post(&mut self, seen: u64)
        requires { ask_of self.old.cpu self.old.local ≢ Ask.Local }
        ensures module { self.new ≡ after_work r2000_triplex seen self.old (ask_of self.old.cpu self.old.local) }
        ensures mask { HasPortMask self.new.port }
    {
        let step = step_on(&self.cpu, &self.pages);
        let asked = request_on(&self.cpu, &self.pages, step);
        self.found = Some(step);
        match asked {
            Ask::Local => unreachable!(),
            Ask::Outside(request) => self.post(request, seen),
        }
    }

    /// A cycle, or what the module asks for in the port; and whether it was posted.
    #[inline(always)]
    fn work(&mut self, seen: u64) -> bool
        ensures module { self.new
            ≡ after_work r2000_triplex seen self.old (replica_ask r2000_triplex (replica_of self.old)) }
        ensures posts { result ≡ is_outside (replica_ask r2000_triplex (replica_of self.old)) }
        ensures mask { HasPortMask self.old.port → HasPortMask self.new.port }
    {
        if self.due {
            self.post(sync(self.cpu.run), seen);
            true
        } else {
            self.cycle(seen)
        }
    }

    /// The same where the port is empty; a module that waits for an answer does nothing.
    #[inline(always)]
    fn work_unless_waiting(&mut self, seen: u64) -> bool
        ensures module { self.new ≡ after_work_unless_waiting r2000_triplex seen self.old self.old.port }
        ensures posts { result
            ≡ (not (is_some self.old.port) && is_outside (replica_ask r2000_triplex (replica_of self.old))) }
        ensures mask { HasPortMask self.old.port → HasPortMask self.new.port }
    {
        if self.port.is_none() {
            self.work(seen)
        } else {
            false
        }
    }

    /// Whether the firings of a member work.
    #[inline(always)]
    fn is_working(&self) -> bool
        ensures { result ≡ is_working self.now true }
    {
        !self.muted && self.fires < FIRST_REFRESH
    }

    /// A firing of a module that may work.
    #[inline(always)]
    fn fire_once(&mut self, seen: u64) -> bool
        ensures module { self.new ≡ module_fired r2000_triplex seen true self.old }
        ensures posts { result ≡ is_posting r2000_triplex self.old true }
        ensures mask { HasPortMask self.old.port → HasPortMask self.new.port }
    {
        let works = self.is_working();
        self.idle();
        if works {
            self.work_unless_waiting(seen)
        } else {
            false
        }
    }

    /// A firing of a module that may work, with the number of events accepted so far: it counts. Where the
    /// module is not muted, the firing does not go to refresh and the port is empty, it runs a cycle, or
    /// posts what the module asks for. The result is whether it posted.
    #[inline(never)]
    pub fn fire(&mut self, seen: u64) -> bool
        ensures module { self.new ≡ module_fired r2000_triplex seen true self.old }
        ensures posts { result ≡ is_posting r2000_triplex self.old true }
        ensures mask { HasPortMask self.old.port → HasPortMask self.new.port }
    {
        self.fire_once(seen)
    }

    /// A firing of a module that may not work: it counts, and nothing else changes.
    #[inline(always)]
    pub fn idle(&mut self)
        ensures { self.new ≡ module_idled self.old }
    {
        self.fires = self.fires.wrapping_add(1);
    }

    /// For how many firings in a row it does nothing but count: without end where it is muted or waits for an
    /// answer, and else as many as go to refresh.
    pub fn idle_for(&self) -> u64
        ensures { result ≡ idle_firings self.now }
    {
        if self.muted || self.port.is_some() {
            u64::MAX
        } else if self.fires < FIRST_REFRESH {
            0
        } else {
            u64::from(REFRESH_PERIOD - u16::from(self.fires))
        }
    }

    /// So many firings that count, and nothing else changes.
    pub fn idle_by(&mut self, n: u64)
        ensures { self.new ≡ module_idled_by n self.old }
    {
        self.fires = self
            .fires
            .wrapping_add((n % u64::from(REFRESH_PERIOD)) as u8);
    }

    /// Whether its firings run cycles until one asks, a frame ends or they go to refresh.
    fn is_running(&self) -> bool
        ensures { result ≡ true → IsRunning self.now }
    {
        !self.muted && self.port.is_none() && !self.due
    }

    /// Firings of a member that run cycles, at most so many: up to the first that would do another thing.
    fn run_on(&mut self, limit: u64) -> CycleRun
        ensures most { result.ran ≤ limit }
        ensures quiet { (seen j : ℕ) → j < result.ran → posts_at r2000_triplex seen true true j self.old ≡ false }
        ensures module { (seen : ℕ) → self.new ≡ module_ticks r2000_triplex seen true true result.ran self.old }
        ensures asks { result.asks ≡ true → IsAsking self.new }
    {
        if !self.is_running() {
            return CycleRun {
                ran: 0,
                asks: false,
            };
        }
        let most = firings_left(self.fires, limit);
        let frame = self.frame;
        self.found = None;
        let ran = turns_on(&mut self.cpu, &mut self.pages, frame, most);
        let run = self.run();
        self.fires = fires_after(self.fires, ran);
        let due = ended(ran, frame, run);
        self.due = due;
        let asks = stopped(ran, most, due);
        CycleRun { ran, asks }
    }

    /// A firing of a member; where its cycle surely asks, that is not tried.
    fn fire_after(&mut self, asks: bool, seen: u64) -> bool
        requires { asks ≡ true → IsAsking self.old }
        ensures module { self.new ≡ module_fired r2000_triplex seen true self.old }
        ensures posts { result ≡ is_posting r2000_triplex self.old true }
    {
        if !asks {
            return self.fire(seen);
        }
        self.idle();
        self.ask_and_post(seen);
        true
    }

    /// Firings of a member, one after another: at most `n`, up to the first that posts, that one included. How many
    /// came before it; all `n` where none posts.
    #[inline(never)]
    pub fn lead(&mut self, n: u64, seen: u64) -> u64
        ensures most { result ≤ n }
        ensures quiet { (j : ℕ) → j < result → posts_at r2000_triplex seen true true j self.old ≡ false }
        ensures posts { result < n → posts_at r2000_triplex seen true true result self.old ≡ true }
        ensures posted { result < n → self.new ≡ module_ticks r2000_triplex seen true true (suc result) self.old }
        ensures silent { result ≡ n → self.new ≡ module_ticks r2000_triplex seen true true n self.old }
    {
        let mut quiet = 0u64;
        while quiet < n {
            let run = self.run_on(n - quiet);
            quiet += run.ran;
            if quiet == n {
                return n;
            }
            if self.fire_after(run.asks, seen) {
                return quiet;
            }
            quiet += 1;
        }
        n
    }

    /// What the module has posted and waits for.
    pub fn port(&self) -> Option<Posted>
        ensures { result ≡ self.now.port }
    {
        self.port
    }

    /// The private value: the number of the next firing when the port last took what the module asks for; 0 at
    /// the start and after `reset`. `drive` leaves it.
    pub fn private(&self) -> u8
        ensures { result ≡ self.now.private }
    {
        self.private
    }

    /// The end of a frame: the processor sees the lines of the devices, and no frame's end is due.
    fn finish_frame(&mut self, lines: u8)
        requires { lines < 4 }
        ensures { self.new ≡ record self.old { cpu = with_lines self.old.cpu lines; due = false } }
    {
        self.found = None;
        set_lines(&mut self.cpu, lines);
        self.due = false;
    }

    /// The end of a cycle that asked for an access.
    fn finish_cycle(&mut self, reply: Reply)
        requires lines { reply.lines < 4 }
        requires asked { ask_of self.old.cpu self.old.local ≢ Ask.Local }
        ensures { self.new
            ≡ with_replica self.old (after_answered_cycle r2000_triplex reply.word reply.lines (replica_of self.old)) }
    {
        self.found = None;
        finish_on(&mut self.cpu, &mut self.pages, reply);
        let run = self.run();
        self.due = ends_frame(self.frame, run);
    }

    /// The end of what was asked, by the kind of its request.
    fn finish(&mut self, kind: Kind, reply: Reply)
        requires lines { reply.lines < 4 }
        requires asked { IsFinishing self.old kind }
        ensures { self.new
            ≡ with_replica self.old (finished_replica r2000_triplex kind reply.word reply.lines (replica_of self.old)) }
    {
        match kind {
            Kind::Sync => self.finish_frame(reply.lines),
            Kind::Load | Kind::Store => self.finish_cycle(reply),
        }
    }

    /// An answer to what was agreed, without the port.
    #[cold]
    #[inline(never)]
    fn answer_any(&mut self, agreed: &Request, reply: Reply)
        requires { reply.lines < 4 }
        ensures { self.new ≡ answered_unless r2000_triplex agreed.now reply.word reply.lines self.old }
    {
        let ask = self.wish();
        if asks_for(&ask, agreed) {
            self.finish(agreed.kind, reply);
        }
    }

    /// What the next cycle does; found again only where it is not known.
    fn known_step(&self) -> Step
        ensures step { result ≡ step_of self.now.cpu self.now.local }
        ensures sound { IsSound result }
    {
        match self.found {
            Some(step) => step,
            None => step_on(&self.cpu, &self.pages),
        }
    }

    /// The same for a load or store, where no frame's end is due, by the step that was found when it was asked.
    fn answer_cycle(&mut self, agreed: &Request, reply: Reply)
        requires lines { reply.lines < 4 }
        requires due { self.old.due ≡ false }
        requires kind { is_sync agreed.now.kind ≡ false }
        ensures { self.new ≡ answered_unless r2000_triplex agreed.now reply.word reply.lines self.old }
    {
        let step = self.known_step();
        self.found = None;
        let asks = answer_on(&mut self.cpu, &self.pages, step, agreed, reply);
        let run = self.run();
        self.due = is_due(asks, self.frame, run);
    }

    /// An answer to what was agreed: a module that asks for it finishes, whatever it had posted, and another
    /// changes by its port alone. The port is empty after it.
    ///
    /// The lines are those of the devices after the access, below 4.
    pub fn answer(&mut self, agreed: &Request, reply: Reply)
        requires { reply.lines < 4 }
        ensures { self.new ≡ answered r2000_triplex agreed.now reply.word reply.lines self.old }
    {
        if self.due || is_sync(agreed.kind) {
            self.answer_any(agreed, reply);
        } else {
            self.answer_cycle(agreed, reply);
        }
        self.port = None;
    }

    /// Loads saved word number `k`, below `SAVED_WORDS`, of the processor: its part becomes `v`, restricted
    /// to the bits that the part keeps.
    pub fn poke(&mut self, k: u8, v: u32)
        requires { k < SAVED_WORDS }
        ensures { self.new ≡ module_poked k v self.old }
    {
        self.found = None;
        load_word(&mut self.cpu, k, v);
    }

    /// Word `i`, below `LOCAL_WORDS`, of the local list becomes `v`, and its page is not marked.
    pub fn poke_local(&mut self, i: u32, v: u32)
        requires { i < LOCAL_WORDS }
        ensures { self.new ≡ module_local_poked i v self.old }
    {
        self.found = None;
        self.pages.put(i, v);
    }

    /// This request stands in the port, in place of what stood there.
    pub fn drive(&mut self, posted: Posted)
        ensures { self.new ≡ module_driven posted self.old }
    {
        self.port = Some(posted);
    }

    /// Its firings do nothing from now on.
    pub fn mute(&mut self)
        ensures { self.new ≡ module_muted self.old }
    {
        self.muted = true;
    }

    /// A reintegration of it begins: the port is empty, and it is not muted.
    pub fn revive(&mut self)
        ensures { self.new ≡ module_revived self.old }
    {
        self.port = None;
        self.muted = false;
    }

    /// A reintegration ends, for a module that keeps its processor: the port is empty, nothing is due, it
    /// is not muted, no page is marked, and the private value is 0.
    pub fn reset(&mut self)
        ensures { self.new ≡ module_reset self.old }
    {
        self.revive();
        self.due = false;
        self.private = 0;
        self.clear_dirty();
    }

    /// The same, and its processor becomes equal to the given one, which is that of the lowest member.
    pub fn restore(&mut self, cpu: &Cpu)
        ensures { self.new ≡ module_restored cpu.now self.old }
    {
        self.reset();
        self.found = None;
        copy_state(cpu, &mut self.cpu);
    }

    /// Its processor.
    pub fn cpu(&self) -> &Cpu
        ensures { result.now ≡ self.now.cpu }
    {
        &self.cpu
    }

    /// How many cycles its processor has run, modulo 2^64.
    pub fn run(&self) -> u64
        ensures { result ≡ self.now.cpu.run }
    {
        self.cpu.run
    }

    /// Saved word number `k`, below `SAVED_WORDS`, of its processor.
    pub fn saved(&self, k: u8) -> u32
        requires { k < SAVED_WORDS }
        ensures { result ≡ slice_index (saved_words self.now.cpu) k }
    {
        save_word(&self.cpu, k)
    }

    /// Word `i`, below `LOCAL_WORDS`, of the local list.
    pub fn local_word(&self, i: u32) -> u32
        requires { i < LOCAL_WORDS }
        ensures { result ≡ slice_index_or self.now.local i 0 }
    {
        let _words = self.pages.len();
        self.pages.word(i)
    }

    /// Whether a cycle has stored to a word of page number `page`, below `LOCAL_PAGES`, since the marks were
    /// last cleared.
    pub fn dirty(&self, page: u16) -> bool
        requires { page < LOCAL_PAGES }
        ensures { result ≡ slice_index_or self.now.marks page false }
    {
        self.pages.dirty(page)
    }

    /// Clears the mark of each page.
    pub fn clear_dirty(&mut self)
        ensures { self.new ≡ module_unmarked self.old }
    {
        self.found = None;
        self.pages.clear();
    }
}
