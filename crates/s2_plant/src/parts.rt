//! The parts of the triple machine, with no rule that they keep: each step is a function of them.

ghost use Rattle.s2_base.specs.declared.map.TheConstants.{GLOBAL_WORDS, LOCAL_WORDS};
ghost use Rattle.s2_clock.specs.ClockWatch.{slow_of};
ghost use Rattle.s2_clock.specs.Frames.{IsFrame};
ghost use Rattle.s2_clock.specs.declared.numbers.TheConstants.{FRAME};
ghost use Rattle.s2_device.specs.DeviceState.{lines_of};
ghost use Rattle.s2_join.specs.declared.join.TheConstants.{SAVED_WORDS};
ghost use Rattle.s2_journal.specs.declared.note.Note.TheVariants.{Joined as JoinedNote};
ghost use Rattle.s2_machine.specs.Cores.{halt_after, is_sync as is_sync_kind};
ghost use Rattle.s2_duplex.specs.ToleratedFaults.{IsFaultBelow};
ghost use Rattle.s2_ports.specs.Events.{comes_from_outside};
ghost use Rattle.s2_plant.specs.ActRanges.{IsActInRange, is_board_act};
ghost use Rattle.s2_plant.specs.StepParts.{access_notes, after_voters_turn, after_voters_verdict, blank_turn, changed_by, copied_count, copied_note, effects_turn, voters_turn, copied_modules, first_copied, is_saved, with_access};
ghost use Rattle.s2_plant.specs.TickRests.{rest_ahead, still_ahead};
ghost use Rattle.s2_plant.specs.TickRuns.{IsSkip, IsClear, IsTickRun, after_ticks, answer_after, answer_of};
ghost use Rattle.s2_revive.specs.MendingBoards.{mended_by};
ghost use Rattle.s2_saved.specs.SavedWords.{saved_words};
ghost use Rattle.s2_triplex.specs.ActStep.{acted, mend_begun, module_disturbed, removed, revived, revived_if_out, event_received};
ghost use Rattle.s2_triplex.specs.CopyHolds.{after_hold_tick, after_idle_tick, hold_begun, hold_begun_if, is_holding, joined, lowest_member};
ghost use Rattle.s2_triplex.specs.R2000Triplex.{r2000_triplex};
ghost use Rattle.s2_triplex.specs.ReferenceMachine.{runs};
ghost use Rattle.s2_triplex.specs.StepRefusals.{act_refusal};
ghost use Rattle.s2_triplex.specs.StepTurns.{act_answer, act_turn, hold_turn, mended_notes, next_after_act, next_after_tick, tick_answer, tick_turn, working_turn};
ghost use Rattle.s2_triplex.specs.TickFirings.{after_firings};
ghost use Rattle.s2_triplex.specs.TickStep.{after_working_tick, ticked, idled_after};
ghost use Rattle.s2_triplex.specs.TriplexState.{Reintegration, module_at, started_triplex, with_frame};
ghost use Rattle.s2_triplex.specs.VotedAccess.{VotedAccess, sync_access, seen_in, voted_access};
ghost use Rattle.s2_triplex.specs.VoterDecision.{after_decision, is_named};
ghost use Rattle.s2_agree.specs.AgreedCount.{agreed_count};
ghost use Rattle.s2_voter.specs.VoterState.{latch_of, IsVoter};
ghost use Rattle.s2_voter.specs.Verdicts.{is_shared, verdict_of};
ghost use Rattle.s2_voter.specs.declared.verdicts.Verdict.TheVariants.{Done};
ghost use Rattle.std.specs.Prelude.{ℕ, ◌≡◌, ◌<◌, ◌≤◌, ◌^◌, ◌-◌, ◌+◌, ◌++◌, ◌∷◌, [], IfOk, IfSome, None, Some, false, true, is_none, not, length, slice_index, slice_index_or};

use crate::inbox::Inbox;
use crate::reintegration::{self, OpenReintegration};
use crate::turn::{self, TickEnd, Turn};
use crate::{access, acts, decision, deliveries, firing, frame};
use arrayvec::ArrayVec;
use s2_agree::agreed;
use s2_base::Memory;
use s2_clock::{FRAME, Watch, covers};
use s2_device::Board;
use s2_elf::Image;
use s2_join::{Item, SAVED_WORDS};
use s2_journal::{Note, Reason, Why};
use s2_module::Module;
use s2_ports::{BoardFault, Event, Kind, Reply, Request};
use s2_revive::Revive;
use s2_script::Act;
use s2_triplex::Membership;
use s2_voter::{Verdict, Voter, timer_of};
use std::alloc::Global;
use std::marker::Model;

/// The parts of the triple machine.
#[derive(Drop)]
pub struct Parts {
    modules: [Module; 3],
    memberships: [Membership; 3],
    voter: Voter,
    boards: Revive,
    devices: Board,
    inbox: Inbox,
    accepted: u64,
    delivered: u64,
    tainted: Option<u8>,
    ticks: u64,
    halt: Option<u32>,
    resumed: u64,
    resumed_run: u64,
    posted: [u64; 3],
    watch: Watch,
    reintegration: Option<OpenReintegration>,
    frame: u16,
}

impl Model for Parts {
    ghost use Rattle.s2_triplex.specs.TriplexState.{TriplexState};

    ghost Value = { TriplexState };

    ghost view = { λ p. record {
      frame = p.frame;
      modules = p.modules;
      memberships = p.memberships;
      voter = p.voter;
      boards = p.boards;
      device = p.devices;
      inbox = p.inbox;
      accepted = p.accepted;
      delivered = p.delivered;
      tainted = p.tainted;
      ticks = p.ticks;
      halt = p.halt;
      resumed = p.resumed;
      resumed_run = p.resumed_run;
      posted = p.posted;
      windows = p.watch;
      reintegration = p.reintegration;
    } };
}

/// What was agreed gives: the answer to the members, and the byte for the console.
#[derive(Drop)]
struct Given {
    reply: Reply,
    out: Option<u8>,
}

/// A halt value stays.
fn halt_after_access(old: Option<u32>, new: Option<u32>) -> Option<u32>
    ensures { result ≡ halt_after old new }
{
    match old {
        Some(value) => Some(value),
        None => new,
    }
}

/// Whether a request is a synchronisation.
fn is_sync(kind: Kind) -> bool
    ensures { result ≡ is_sync_kind kind }
{
    match kind {
        Kind::Sync => true,
        Kind::Load => false,
        Kind::Store => false,
    }
}

/// Whether no board mends.
#[tactic(auto, using(crate::proofs::QuietTicks::mends_none, crate::proofs::QuietTicks::none_mends))]
fn is_unmended(boards: &Revive) -> bool
    ensures test { result ≡ is_none boards.now.mending }
    ensures rests { result ≡ true → boards.now.mending ≡ None }
{
    boards.mending().is_none()
}

/// So many ticks, and at most as many as pass before the timer can run out, or as words are still to copy to a board
/// that mends.
fn stretch(limit: u64, left: u64) -> u64
    requires limit { 0 < limit }
    requires left { 0 < left }
    ensures some { 0 < result }
    ensures few { result ≤ 128 }
    ensures within { result ≤ limit }
    ensures mends { result ≤ left }
{
    let most = if limit < 128 { limit } else { 128 };
    if left < most { left } else { most }
}

impl Parts {
    /// The machine at the start of a program.
    ///
    /// `Memory` where a part of it was refused its memory.
    pub fn new(alloc: Global, image: &Image) -> Result<Parts, Memory>
        ensures machine { IfOk result
            (λ parts. parts ≡ started_triplex FRAME image.now.entry image.now.local image.now.global) }
        ensures local { IfOk result (λ _. length image.now.local ≡ LOCAL_WORDS) }
        ensures global { IfOk result (λ _. length image.now.global ≡ GLOBAL_WORDS) }
    {
        let first = Module::new(alloc, image)?;
        let second = Module::new(alloc, image)?;
        let third = Module::new(alloc, image)?;
        let boards = Revive::new(alloc, image.global.as_slice())?;
        let devices = Board::new(alloc)?;
        let inbox = Inbox::new(alloc)?;
        Ok(Parts {
            modules: [first, second, third],
            memberships: [Membership::In; 3],
            voter: Voter::new(),
            boards,
            devices,
            inbox,
            accepted: 0,
            delivered: 0,
            tainted: None,
            ticks: 0,
            halt: None,
            resumed: 0,
            resumed_run: 0,
            posted: [0; 3],
            watch: Watch::new(),
            reintegration: None,
            frame: FRAME as u16,
        })
    }

    /// A frame has so many run cycles in each module, and the timer of the voter is that of it.
    pub fn set_frame(&mut self, frame: u16)
        requires frame { IsFrame frame }
        requires first { (p : ℕ) → p < 3 → (module_at self.old.modules p).cpu.run ≡ 0 }
        requires unlatched { (p : ℕ) → p < 3 → latch_of self.old.voter p ≡ None }
        ensures { self.new ≡ with_frame frame self.old }
    {
        frame::set_frames(&mut self.modules, frame);
        self.voter.set_timer(timer_of(frame as u64));
        self.frame = frame;
    }

    /// The firings of a tick, and the latching of what the ports hold: the machine at its verdict.
    fn fire(&mut self, mask: u8)
        requires mask { mask < 8 }
        requires ticks { self.old.ticks < 2 ^ 40 }
        requires lawful { slow_of mask self.old.tainted self.old.windows ≡ None }
        ensures { self.new ≡ after_firings r2000_triplex self.old mask }
    {
        self.watch.record(mask, self.tainted);
        self.ticks += 1;
        let _posts = firing::fire_all(
            &mut self.modules,
            &mut self.posted,
            &self.voter,
            mask,
            self.accepted,
            self.ticks,
        );
        firing::latch_all(&mut self.voter, &self.modules);
    }

    /// The load or store that was agreed. Before a store to PRIV the private values of those that agree on it
    /// are delivered.
    fn access(&mut self, request: &Request, notes: &mut ArrayVec<Note, 12>) -> Given
        requires room { length notes.old.items ≤ 2 }
        requires kind { is_sync_kind request.now.kind ≡ false }
        ensures machine { self.new ≡ with_access self.old (voted_access r2000_triplex self.old request.now) }
        ensures word { result.reply.word ≡ (voted_access r2000_triplex self.old request.now).word }
        ensures lines { result.reply.lines ≡ lines_of (voted_access r2000_triplex self.old request.now).device }
        ensures below { result.reply.lines < 4 }
        ensures out { result.out ≡ (voted_access r2000_triplex self.old request.now).out }
        ensures notes { notes.new.items
            ≡ notes.old.items ++ access_notes self.old.ticks (voted_access r2000_triplex self.old request.now) }
    {
        let private = access::private_event(&self.modules, &self.voter, request);
        access::deliver_private(&mut self.devices, private);
        let accessed = access::access(&mut self.boards, &mut self.devices, request);
        self.halt = halt_after_access(self.halt, accessed.effect.halt);
        access::note_repair(notes, self.ticks, request.address, accessed.repaired);
        access::note_private(notes, request.run, private);
        Given {
            reply: Reply {
                word: accessed.effect.word,
                lines: self.devices.lines(),
            },
            out: accessed.effect.out,
        }
    }

    /// The events up to the agreed count act on the devices.
    fn deliver(&mut self, request: &Request, notes: &mut ArrayVec<Note, 12>) -> Given
        requires room { length notes.old.items ≤ 2 }
        requires shared { is_shared self.old.voter.latches request.now ≡ true }
        requires delivered { self.old.delivered ≤ 2 ^ 64 - 9 }
        ensures machine { self.new
            ≡ with_access self.old (sync_access self.old request.now.run (agreed_count (seen_in self.old.voter request.now) self.old.delivered)) }
        ensures word { result.reply.word ≡ 0 }
        ensures lines { result.reply.lines
            ≡ lines_of (sync_access self.old request.now.run (agreed_count (seen_in self.old.voter request.now) self.old.delivered)).device }
        ensures below { result.reply.lines < 4 }
        ensures out { result.out ≡ None }
        ensures notes { notes.new.items
            ≡ notes.old.items ++ access_notes self.old.ticks (sync_access self.old request.now.run (agreed_count (seen_in self.old.voter request.now) self.old.delivered)) }
    {
        let seen = decision::seen_counts(&self.voter, request);
        let count = agreed(seen.as_slice(), self.delivered);
        deliveries::deliver_all(
            &mut self.devices,
            &mut self.inbox,
            notes,
            request.run,
            count - self.delivered,
        );
        self.delivered = count;
        Given {
            reply: Reply {
                word: 0,
                lines: self.devices.lines(),
            },
            out: None,
        }
    }

    /// What was agreed is performed, once.
    fn perform(&mut self, request: &Request, notes: &mut ArrayVec<Note, 12>) -> Given
        requires room { length notes.old.items ≤ 2 }
        requires shared { is_shared self.old.voter.latches request.now ≡ true }
        requires delivered { self.old.delivered ≤ 2 ^ 64 - 9 }
        ensures machine { self.new ≡ with_access self.old (voted_access r2000_triplex self.old request.now) }
        ensures word { result.reply.word ≡ (voted_access r2000_triplex self.old request.now).word }
        ensures lines { result.reply.lines ≡ lines_of (voted_access r2000_triplex self.old request.now).device }
        ensures below { result.reply.lines < 4 }
        ensures out { result.out ≡ (voted_access r2000_triplex self.old request.now).out }
        ensures notes { notes.new.items
            ≡ notes.old.items ++ access_notes self.old.ticks (voted_access r2000_triplex self.old request.now) }
    {
        if is_sync(request.kind) {
            self.deliver(request, notes)
        } else {
            self.access(request, notes)
        }
    }

    /// A decision: what was agreed is performed, who is named leaves, and the members that are left are
    /// answered. The byte for the console.
    fn settle(
        &mut self,
        request: &Request,
        differ: Option<u8>,
        late: Option<u8>,
        notes: &mut ArrayVec<Note, 12>,
    ) -> Option<u8>
        requires room { length notes.old.items ≤ 2 }
        requires shared { is_shared self.old.voter.latches request.now ≡ true }
        requires delivered { self.old.delivered ≤ 2 ^ 64 - 9 }
        requires differ { IfSome differ (λ p. p < 3) }
        requires late { IfSome late (λ p. p < 3) }
        ensures machine { self.new
            ≡ after_decision r2000_triplex self.old request.now (voted_access r2000_triplex self.old request.now) (is_named differ late) }
        ensures out { result ≡ (voted_access r2000_triplex self.old request.now).out }
        ensures notes { notes.new.items
            ≡ notes.old.items ++ access_notes self.old.ticks (voted_access r2000_triplex self.old request.now) }
    {
        let given = self.perform(request, notes);
        decision::settle_voter(&mut self.voter, differ, late);
        decision::leave(&mut self.memberships, differ, late);
        decision::answer_all(&mut self.modules, &self.voter, request, given.reply);
        self.resumed = self.ticks;
        self.resumed_run = decision::least_run(self.tainted, &self.modules);
        given.out
    }

    /// A Sync with an open reintegration: the marks are taken over, and words are set to be copied.
    fn begin_hold(&mut self)
        requires resting { is_holding self.old.reintegration ≡ false }
        requires open { is_saved self.old.reintegration ≡ false }
        ensures { self.new ≡ hold_begun self.old self.old.reintegration }
    {
        match &mut self.reintegration {
            Some(open) => {
                reintegration::begin_hold(open, &mut self.modules, &self.voter);
            }
            None => {}
        }
    }

    /// The same after an agreed Sync, and nothing after another request.
    fn begin_hold_if(&mut self, sync: bool)
        requires resting { is_holding self.old.reintegration ≡ false }
        requires open { is_saved self.old.reintegration ≡ false }
        ensures { self.new ≡ hold_begun_if sync self.old }
    {
        if sync {
            self.begin_hold();
        }
    }

    /// A decision, and what it makes known.
    fn finish(&mut self, request: &Request, differ: Option<u8>, late: Option<u8>, turn: &mut Turn)
        requires blank { turn.old ≡ blank_turn }
        requires shared { is_shared self.old.voter.latches request.now ≡ true }
        requires delivered { self.old.delivered ≤ 2 ^ 64 - 9 }
        requires differ { IfSome differ (λ p. p < 3) }
        requires late { IfSome late (λ p. p < 3) }
        requires resting { is_holding self.old.reintegration ≡ false }
        requires open { is_saved self.old.reintegration ≡ false }
        ensures machine { self.new
            ≡ (after_voters_verdict r2000_triplex self.old (Done request.now differ late)).next }
        ensures turn { turn.new
            ≡ effects_turn self.old.ticks (after_voters_verdict r2000_triplex self.old (Done request.now differ late)) }
    {
        decision::note_out(&mut turn.notes, self.ticks, Why::Differ, differ);
        decision::note_out(&mut turn.notes, self.ticks, Why::Late, late);
        turn.out = self.settle(request, differ, late, &mut turn.notes);
        self.begin_hold_if(is_sync(request.kind));
        turn.halt = self.halt;
    }

    /// Nothing is known but whether the program has halted.
    fn quiet(&self, turn: &mut Turn)
        requires blank { turn.old ≡ blank_turn }
        ensures { turn.new ≡ record { notes = []; out = None; halt = self.now.halt } }
    {
        turn.halt = self.halt;
    }

    /// An idle turn of the voter: one more word of a board that mends is copied, with a note where the board is
    /// in with it.
    fn idle_turn(&mut self, turn: &mut Turn)
        requires blank { turn.old ≡ blank_turn }
        ensures machine { self.new ≡ idled_after true self.old }
        ensures turn { turn.new
            ≡ record { notes = mended_notes self.old.ticks (mended_by self.old.boards.mending); out = None; halt = self.old.halt } }
    {
        match self.boards.idle() {
            Some(board) => self.noting(
                Note::Mended {
                    tick: self.ticks,
                    board,
                },
                turn,
            ),
            None => self.quiet(turn),
        }
    }

    /// The voter's turn: its verdict, and a decision where one is due; else it is idle.
    fn decide(&mut self, turn: &mut Turn)
        requires blank { turn.old ≡ blank_turn }
        requires delivered { self.old.delivered ≤ 2 ^ 64 - 9 }
        requires resting { is_holding self.old.reintegration ≡ false }
        requires open { is_saved self.old.reintegration ≡ false }
        ensures machine { self.new ≡ (after_voters_turn r2000_triplex self.old (verdict_of self.old.voter)).next }
        ensures turn { turn.new ≡ voters_turn r2000_triplex self.old (verdict_of self.old.voter) }
    {
        match self.voter.verdict() {
            Verdict::Waiting => self.idle_turn(turn),
            Verdict::Split => self.idle_turn(turn),
            Verdict::Done {
                request,
                differ,
                late,
            } => self.finish(&request, differ, late, turn),
        }
    }

    /// A tick outside of holds.
    fn working_tick(&mut self, mask: u8, turn: &mut Turn)
        requires blank { turn.old ≡ blank_turn }
        requires mask { mask < 8 }
        requires ticks { self.old.ticks < 2 ^ 40 }
        requires lawful { slow_of mask self.old.tainted self.old.windows ≡ None }
        requires delivered { self.old.delivered ≤ 2 ^ 64 - 9 }
        requires resting { is_holding self.old.reintegration ≡ false }
        requires open { is_saved self.old.reintegration ≡ false }
        ensures machine { self.new ≡ (after_working_tick r2000_triplex self.old mask).next }
        ensures turn { turn.new ≡ working_turn r2000_triplex self.old mask }
    {
        self.fire(mask);
        self.decide(turn);
    }

    /// The firings of a tick in a hold.
    fn idle(&mut self, mask: u8)
        requires mask { mask < 8 }
        requires ticks { self.old.ticks < 2 ^ 40 }
        requires lawful { slow_of mask self.old.tainted self.old.windows ≡ None }
        ensures { self.new ≡ after_idle_tick self.old mask }
    {
        self.watch.record(mask, self.tainted);
        self.ticks += 1;
        firing::idle_all(&mut self.modules, mask);
        self.resumed = self.ticks;
    }

    /// The last saved word is copied: the processor that joins is in, and all go on with one state.
    fn complete(&mut self, joiner: u8, disturbed: bool, turn: &mut Turn)
        requires blank { turn.old ≡ blank_turn }
        requires joiner { joiner < 3 }
        ensures machine { (j : Reintegration) → j.copying.joiner ≡ joiner → j.disturbed ≡ disturbed → self.new ≡ joined self.old j }
        ensures turn { turn.new
            ≡ record { notes = JoinedNote self.old.ticks joiner (not disturbed) ∷ []; out = None; halt = self.old.halt } }
    {
        let lowest = reintegration::lowest_member(&self.voter);
        reintegration::restore_all(&mut self.modules, lowest);
        reintegration::join(&mut self.memberships, joiner);
        reintegration::add_joiner(&mut self.voter, joiner);
        self.tainted = reintegration::tainted_after(disturbed, self.tainted);
        self.reintegration = None;
        turn.notes.push(Note::Joined {
            tick: self.ticks,
            p: joiner,
            good: !disturbed,
        });
        turn.halt = self.halt;
    }

    /// A word of the local list is copied to the processor that joins.
    fn copy_word(&mut self, joiner: u8, i: u32)
        requires { i < LOCAL_WORDS }
        ensures { self.new
            ≡ record self.old { modules = copied_modules joiner i (slice_index_or (module_at self.old.modules (lowest_member self.old.voter)).local i 0) self.old.modules } }
    {
        let lowest = reintegration::lowest_member(&self.voter);
        reintegration::copy_word(&mut self.modules, lowest, joiner, i);
    }

    /// A word is copied in a hold.
    fn copy(&mut self, turn: &mut Turn)
        requires blank { turn.old ≡ blank_turn }
        requires holding { is_holding self.old.reintegration ≡ true }
        requires few { copied_count self.old.reintegration < 2 ^ 64 - 1 }
        ensures machine { self.new ≡ first_copied self.old self.old.reintegration }
        ensures turn { turn.new
            ≡ record { notes = copied_note self.old.ticks self.old.reintegration; out = None; halt = self.old.halt } }
    {
        let joiner = reintegration::joiner(&self.reintegration);
        let disturbed = reintegration::was_disturbed(&self.reintegration);
        match reintegration::next_item(&mut self.reintegration) {
            Item::Local(i) => {
                self.copy_word(joiner, i);
                self.quiet(turn)
            }
            Item::Saved(k) => {
                if k + 1 == SAVED_WORDS {
                    self.complete(joiner, disturbed, turn)
                } else {
                    self.quiet(turn)
                }
            }
        }
    }

    /// A tick of a hold.
    fn hold(&mut self, mask: u8, turn: &mut Turn)
        requires blank { turn.old ≡ blank_turn }
        requires mask { mask < 8 }
        requires ticks { self.old.ticks < 2 ^ 40 }
        requires lawful { slow_of mask self.old.tainted self.old.windows ≡ None }
        requires holding { is_holding self.old.reintegration ≡ true }
        requires few { copied_count self.old.reintegration < 2 ^ 64 - 1 }
        ensures machine { self.new ≡ after_hold_tick self.old mask }
        ensures turn { turn.new ≡ hold_turn self.old }
    {
        self.idle(mask);
        self.copy(turn);
    }

    /// A tick for which no clock is too slow.
    fn lawful_tick(&mut self, mask: u8, turn: &mut Turn)
        requires blank { turn.old ≡ blank_turn }
        requires mask { mask < 8 }
        requires ticks { self.old.ticks < 2 ^ 40 }
        requires lawful { slow_of mask self.old.tainted self.old.windows ≡ None }
        requires delivered { self.old.delivered ≤ 2 ^ 64 - 9 }
        requires open { is_saved self.old.reintegration ≡ false }
        requires few { copied_count self.old.reintegration < 2 ^ 64 - 1 }
        ensures machine { self.new ≡ (ticked r2000_triplex self.old mask).next }
        ensures turn { turn.new ≡ tick_turn r2000_triplex self.old mask }
    {
        if reintegration::is_holding(&self.reintegration) {
            self.hold(mask, turn);
        } else {
            self.working_tick(mask, turn);
        }
    }

    /// A tick, with the firings of a mask. Refused where a clock would be too slow; then nothing changes.
    pub fn tick(&mut self, mask: u8) -> Result<Turn, Reason>
        requires mask { mask < 8 }
        requires ticks { self.old.ticks < 2 ^ 40 }
        requires delivered { self.old.delivered ≤ 2 ^ 64 - 9 }
        requires open { is_saved self.old.reintegration ≡ false }
        requires few { copied_count self.old.reintegration < 2 ^ 64 - 1 }
        ensures machine { self.new ≡ next_after_tick r2000_triplex self.old mask }
        ensures turn { result ≡ tick_answer r2000_triplex self.old mask }
    {
        let mut turn = turn::blank();
        let refused = self.tick_into(mask, &mut turn);
        turn::answer(refused, turn)
    }

    /// Whether ticks with a mask make nothing known until a processor posts a request.
    fn is_clear(&self, mask: u8) -> bool
        ensures { result ≡ true → IsClear self.now mask }
    {
        covers(mask, self.tainted)
            && !reintegration::is_holding(&self.reintegration)
            && firing::is_unlatched(&self.voter)
            && firing::none_wait(&self.modules, &self.voter)
    }

    /// The firings of ticks with a mask, at most so many, up to the first at which a processor posts, and the
    /// latching after it. How many ticks came before that one, all without a request.
    fn fire_on(&mut self, mask: u8, limit: u64) -> u64
        requires mask { mask < 8 }
        requires some { 0 < limit }
        requires ticks { self.old.ticks + limit ≤ 2 ^ 40 }
        requires running { self.old.halt ≡ None }
        requires clear { IsClear self.old mask }
        ensures within { result < limit }
        ensures silent { (j : ℕ) → j < result → answer_after r2000_triplex mask j self.old ≡ Ok blank_turn }
        ensures machine { self.new ≡ after_firings r2000_triplex (after_ticks r2000_triplex mask result self.old) mask }
        ensures lawful { slow_of mask (after_ticks r2000_triplex mask result self.old).tainted (after_ticks r2000_triplex mask result self.old).windows ≡ None }
        ensures free { is_holding (after_ticks r2000_triplex mask result self.old).reintegration ≡ false }
        ensures delivered { self.new.delivered ≡ self.old.delivered }
        ensures reintegration { self.new.reintegration ≡ self.old.reintegration }
    {
        let most = stretch(limit, self.boards.left());
        let quiet = firing::fire_apart(
            &mut self.modules,
            &mut self.posted,
            &mut self.voter,
            mask,
            self.accepted,
            self.ticks,
            most,
        );
        self.watch.record_fired(mask, self.tainted, quiet + 1);
        self.ticks += quiet + 1;
        self.boards.idle_by(quiet);
        quiet
    }

    /// Ticks with a mask of a machine whose ticks make nothing known until a processor posts.
    fn work_on(&mut self, mask: u8, limit: u64, turn: &mut Turn) -> u64
        requires blank { turn.old ≡ blank_turn }
        requires mask { mask < 8 }
        requires some { 0 < limit }
        requires ticks { self.old.ticks + limit ≤ 2 ^ 40 }
        requires running { self.old.halt ≡ None }
        requires delivered { self.old.delivered ≤ 2 ^ 64 - 9 }
        requires open { is_saved self.old.reintegration ≡ false }
        requires clear { IsClear self.old mask }
        ensures { IsTickRun self.old mask limit result self.new (Ok turn.new) }
    {
        let before = self.fire_on(mask, limit);
        self.decide(turn);
        before
    }

    /// One tick. Why it is refused, if it is; then nothing changes.
    fn tick_into(&mut self, mask: u8, turn: &mut Turn) -> Option<Reason>
        requires blank { turn.old ≡ blank_turn }
        requires mask { mask < 8 }
        requires ticks { self.old.ticks < 2 ^ 40 }
        requires delivered { self.old.delivered ≤ 2 ^ 64 - 9 }
        requires open { is_saved self.old.reintegration ≡ false }
        requires few { copied_count self.old.reintegration < 2 ^ 64 - 1 }
        ensures machine { self.new ≡ next_after_tick r2000_triplex self.old mask }
        ensures turn { answer_of result turn.new ≡ tick_answer r2000_triplex self.old mask }
    {
        match self.watch.slow(mask, self.tainted) {
            Some(slow) => Some(Reason::Slow {
                p: slow.p,
                misses: slow.misses,
            }),
            None => {
                self.lawful_tick(mask, turn);
                None
            }
        }
    }

    /// Some ticks with a mask, at most so many, of which all but the last make nothing known.
    pub fn tick_on(&mut self, mask: u8, limit: u64, turn: &mut Turn) -> TickEnd
        requires blank { turn.old ≡ blank_turn }
        requires mask { mask < 8 }
        requires some { 0 < limit }
        requires ticks { self.old.ticks + limit ≤ 2 ^ 40 }
        requires running { self.old.halt ≡ None }
        requires delivered { self.old.delivered ≤ 2 ^ 64 - 9 }
        requires open { is_saved self.old.reintegration ≡ false }
        requires few { copied_count self.old.reintegration < 2 ^ 64 - 1 }
        ensures { IsTickRun self.old mask limit result.before self.new (answer_of result.refused turn.new) }
    {
        if self.is_clear(mask) {
            let before = self.work_on(mask, limit, turn);
            TickEnd {
                before,
                refused: None,
            }
        } else {
            let refused = self.tick_into(mask, turn);
            TickEnd { before: 0, refused }
        }
    }

    /// For how many ticks with a mask nothing works and nothing is decided, where no clock is too slow.
    fn still_ahead(&self, mask: u8) -> u64
        ensures ahead { result ≡ still_ahead self.now mask }
        ensures voter { IsVoter self.now.voter }
    {
        let rest = self.voter.rest();
        if reintegration::is_holding(&self.reintegration)
            || firing::any_would_latch(&self.modules, &self.voter)
        {
            0
        } else {
            firing::rest(&self.modules, &self.voter, mask).min(rest)
        }
    }

    /// How many ticks of rest are ahead with a mask, where no clock is too slow: none where a board mends.
    fn rest_ahead(&self, mask: u8) -> u64
        ensures ahead { result ≡ rest_ahead self.now mask }
        ensures voter { IsVoter self.now.voter }
    {
        let still = self.still_ahead(mask);
        if is_unmended(&self.boards) { still } else { 0 }
    }

    /// The ticks of rest with a mask, at most `n`, all at once; and how many these are.
    pub fn skip(&mut self, mask: u8, n: u64) -> u64
        requires mask { mask < 8 }
        requires ticks { self.old.ticks + n ≤ 2 ^ 40 }
        requires running { self.old.halt ≡ None }
        ensures { IsSkip self.old mask n result self.new }
    {
        firing::sized(&self.modules, &self.posted);
        let ahead = self.rest_ahead(mask).min(n);
        let ran = self.watch.run(mask, self.tainted, ahead);
        firing::idle_all_by(&mut self.modules, mask, ran);
        self.voter.age_by(ran);
        self.ticks += ran;
        ran
    }

    /// One note, and whether the program has halted.
    fn noting(&self, note: Note, turn: &mut Turn)
        requires blank { turn.old ≡ blank_turn }
        ensures { turn.new ≡ record { notes = note ∷ []; out = None; halt = self.now.halt } }
    {
        turn.notes.push(note);
        turn.halt = self.halt;
    }

    /// An event joins the inbox, or is lost.
    fn receive(&mut self, event: Event, turn: &mut Turn)
        requires blank { turn.old ≡ blank_turn }
        requires outside { comes_from_outside event ≡ true }
        requires events { self.old.accepted < 2 ^ 60 }
        ensures machine { self.new ≡ event_received event self.old }
        ensures turn { turn.new ≡ act_turn self.old (Act.Event event) }
    {
        if self.inbox.add(event) {
            self.accepted += 1;
            self.quiet(turn)
        } else {
            self.noting(
                Note::Lost {
                    tick: self.ticks,
                    event,
                },
                turn,
            )
        }
    }

    /// An act disturbs the module of processor `p`.
    fn disturb(&mut self, p: u8, act: &Act, turn: &mut Turn)
        requires blank { turn.old ≡ blank_turn }
        requires p { p < 3 }
        requires act { IsActInRange act.now }
        ensures machine { self.new
            ≡ module_disturbed p (changed_by act.now (module_at self.old.modules p)) self.old }
        ensures turn { turn.new ≡ record { notes = []; out = None; halt = self.old.halt } }
    {
        acts::change_at(&mut self.modules, p, act);
        self.tainted = Some(p);
        reintegration::disturb(&mut self.reintegration);
        self.quiet(turn)
    }

    /// Processor `p` is out, and is the tainted one; its reintegration ends.
    fn drop_processor(&mut self, p: u8)
        requires { p < 3 }
        ensures { self.new ≡ removed p self.old }
    {
        acts::drop_from_voter(&mut self.voter, p);
        acts::remove(&mut self.memberships, p);
        self.tainted = Some(p);
        self.reintegration = None;
    }

    /// Processor `p` is removed, with a note where it was not out.
    fn remove(&mut self, p: u8, turn: &mut Turn)
        requires blank { turn.old ≡ blank_turn }
        requires p { p < 3 }
        ensures machine { self.new ≡ removed p self.old }
        ensures turn { turn.new ≡ act_turn self.old (Act.Remove p) }
    {
        let out = acts::out_at(&self.memberships, p);
        self.drop_processor(p);
        if out {
            self.quiet(turn)
        } else {
            self.noting(
                Note::Out {
                    tick: self.ticks,
                    p,
                    why: Why::Removed,
                },
                turn,
            )
        }
    }

    /// A reintegration of processor `p` begins.
    fn begin_reintegration(&mut self, p: u8)
        requires { p < 3 }
        ensures { self.new ≡ revived p self.old }
    {
        acts::revive_at(&mut self.modules, p);
        acts::revive(&mut self.memberships, p);
        self.reintegration = Some(OpenReintegration::begin(p, self.ticks, self.resumed_run));
    }

    /// Processor `p` begins to join, with a note, where it is out.
    fn revive(&mut self, p: u8, turn: &mut Turn)
        requires blank { turn.old ≡ blank_turn }
        requires p { p < 3 }
        ensures machine { self.new ≡ revived_if_out p self.old }
        ensures turn { turn.new ≡ act_turn self.old (Act.Revive p) }
    {
        if p < 3 && acts::out_at(&self.memberships, p) {
            self.begin_reintegration(p);
            self.noting(
                Note::Join {
                    tick: self.ticks,
                    p,
                },
                turn,
            )
        } else {
            self.quiet(turn)
        }
    }

    /// The note of a fault of a board: a board that is dead is out.
    fn note_board(&self, fault: &BoardFault, turn: &mut Turn)
        requires blank { turn.old ≡ blank_turn }
        ensures { turn.new ≡ act_turn self.now (Act.Board fault.now) }
    {
        match *fault {
            BoardFault::Dead { board } => self.noting(
                Note::BoardDead {
                    tick: self.ticks,
                    board,
                },
                turn,
            ),
            BoardFault::Flip {
                board: _,
                index: _,
                bit: _,
            } => self.quiet(turn),
        }
    }

    /// A fault of a board. Refused where a word could be lost on both; then nothing changes.
    fn strike(&mut self, fault: &BoardFault) -> Result<Turn, Reason>
        requires { IsFaultBelow GLOBAL_WORDS fault.now }
        ensures machine { self.new ≡ next_after_act self.old (Act.Board fault.now) }
        ensures turn { result ≡ act_answer self.old (Act.Board fault.now) }
    {
        match self.boards.fault(fault) {
            Ok(()) => {
                let mut turn = turn::blank();
                self.note_board(fault, &mut turn);
                Ok(turn)
            }
            Err(refusal) => Err(Reason::BothBoards {
                board: refusal.board,
            }),
        }
    }

    /// The mending of a board begins, with a note, where it is out and none mends.
    fn mend(&mut self, board: u8, turn: &mut Turn)
        requires blank { turn.old ≡ blank_turn }
        requires board { board < 2 }
        ensures machine { self.new ≡ mend_begun board self.old }
        ensures turn { turn.new ≡ act_turn self.old (Act.Mend board) }
    {
        if self.boards.mend(board) {
            self.noting(
                Note::Mend {
                    tick: self.ticks,
                    board,
                },
                turn,
            )
        } else {
            self.quiet(turn)
        }
    }

    /// An act that is lawful and no fault of a board.
    fn lawful_act(&mut self, act: &Act, turn: &mut Turn)
        requires blank { turn.old ≡ blank_turn }
        requires act { IsActInRange act.now }
        requires processor { is_board_act act.now ≡ false }
        requires events { self.old.accepted < 2 ^ 60 }
        ensures machine { self.new ≡ acted act.now self.old }
        ensures turn { turn.new ≡ act_turn self.old act.now }
    {
        match *act {
            Act::Event(event) => self.receive(event, turn),
            Act::Poke { p, k: _, v: _ } => self.disturb(p, act, turn),
            Act::PokeLocal { p, i: _, v: _ } => self.disturb(p, act, turn),
            Act::Drive { p, posted: _ } => self.disturb(p, act, turn),
            Act::Mute { p } => self.disturb(p, act, turn),
            Act::Remove { p } => self.remove(p, turn),
            Act::Revive { p } => self.revive(p, turn),
            Act::Board(_) => {}
            Act::Mend { board } => self.mend(board, turn),
        }
    }

    /// The refusal of an act that is no fault of a board.
    fn refused(&self, act: &Act) -> Option<Reason>
        requires { is_board_act act.now ≡ false }
        ensures { result ≡ act_refusal self.now act.now }
    {
        match *act {
            Act::Event(_) => None,
            Act::Poke { p, k: _, v: _ } => acts::second(self.tainted, p),
            Act::PokeLocal { p, i: _, v: _ } => acts::second(self.tainted, p),
            Act::Drive { p, posted: _ } => acts::second(self.tainted, p),
            Act::Mute { p } => acts::second(self.tainted, p),
            Act::Remove { p } => acts::second(self.tainted, p),
            Act::Revive { p: _ } => None,
            Act::Board(_) => None,
            Act::Mend { board: _ } => None,
        }
    }

    /// An act that is no fault of a board. Refused where another processor is tainted; then nothing changes.
    fn act_on_processor(&mut self, act: &Act) -> Result<Turn, Reason>
        requires act { IsActInRange act.now }
        requires processor { is_board_act act.now ≡ false }
        requires events { self.old.accepted < 2 ^ 60 }
        ensures machine { self.new ≡ next_after_act self.old act.now }
        ensures turn { result ≡ act_answer self.old act.now }
    {
        match self.refused(act) {
            Some(reason) => Err(reason),
            None => {
                let mut turn = turn::blank();
                self.lawful_act(act, &mut turn);
                Ok(turn)
            }
        }
    }

    /// An act. Refused where it is not lawful; then nothing changes.
    pub fn act(&mut self, act: &Act) -> Result<Turn, Reason>
        requires act { IsActInRange act.now }
        requires events { self.old.accepted < 2 ^ 60 }
        ensures machine { self.new ≡ next_after_act self.old act.now }
        ensures turn { result ≡ act_answer self.old act.now }
    {
        match act {
            Act::Board(fault) => self.strike(fault),
            Act::Event(_)
            | Act::Poke { .. }
            | Act::PokeLocal { .. }
            | Act::Drive { .. }
            | Act::Mute { .. }
            | Act::Remove { .. }
            | Act::Revive { .. }
            | Act::Mend { .. } => self.act_on_processor(act),
        }
    }

    /// The runs: the least run count of a good processor.
    pub fn runs(&self) -> u64
        ensures { result ≡ runs self.now }
    {
        decision::least_run(self.tainted, &self.modules)
    }

    /// The ticks so far.
    pub fn ticks(&self) -> u64
        ensures { result ≡ self.now.ticks }
    {
        self.ticks
    }

    /// How many events were accepted.
    pub fn accepted(&self) -> u64
        ensures { result ≡ self.now.accepted }
    {
        self.accepted
    }

    /// The halt value.
    pub fn halted(&self) -> Option<u32>
        ensures { result ≡ self.now.halt }
    {
        self.halt
    }

    /// Saved word `k` of processor `p`.
    pub fn saved(&self, p: u8, k: u8) -> u32
        requires p { p < 3 }
        requires k { k < SAVED_WORDS }
        ensures { result ≡ slice_index (saved_words (module_at self.now.modules p).cpu) k }
    {
        self.modules[p as usize].saved(k)
    }

    /// Word `i` of the local list of processor `p`.
    pub fn local_word(&self, p: u8, i: u32) -> u32
        requires p { p < 3 }
        requires i { i < LOCAL_WORDS }
        ensures { result ≡ slice_index_or (module_at self.now.modules p).local i 0 }
    {
        self.modules[p as usize].local_word(i)
    }
}
