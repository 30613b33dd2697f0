//! The voter's state and its calls. A processor is 0, 1 or 2.

ghost use Rattle.s2_voter.specs.VoterRests.{aged_by, aged_voter, rest_of, ticks_to_decision};
ghost use Rattle.std.specs.Prelude.{ℕ, ◌≡◌, ◌<◌, true, false, IsSome, ◌↔◌, None, ◌≤◌};
ghost use Rattle.std.specs.Option.{option_map_or};
ghost use Rattle.s2_voter.specs.VoterState.{IsTimer, IsVoter, has_two_latches, is_member, latch_of, IsAge};
ghost use Rattle.s2_voter.specs.VoterCalls.{cleared_voter, latched_voter, new_voter, older, remaining_age, started_age, ticked_voter, timed_voter, with_member, without_member};
ghost use Rattle.s2_voter.specs.Verdicts.{agreed_request, differing_member, done_with, is_differing, is_due, is_timed_out, is_unlatched, late_member, verdict_of};

use crate::timers::DECISION_TIMER;
use crate::verdicts::{Verdict, agreed, holds};
use arrayvec::ArrayVec;
use s2_ports::{Posted, Request};
use std::marker::Model;

/// Who is a member, what the members ask for, how many ticks ago the second of them asked, and the age at which
/// a decision is due although a member is not latched.
///
/// Only members are latched.
#[derive(Drop)]
pub struct Voter {
    members: [bool; 3],
    latches: ArrayVec<Option<Posted>, 3>,
    age: Option<u16>,
    timer: u16,
}

impl Model for Voter {
    ghost use Rattle.s2_voter.specs.VoterState.{VoterState, IsVoter};

    ghost Value = { VoterState };

    ghost view = { λ v. record { members = v.members; latches = v.latches.items; age = v.age; timer = v.timer } };

    ghost invariant = { λ v. IsVoter (record { members = v.members; latches = v.latches.items; age = v.age; timer = v.timer }) };
}

/// Whether two processors at least are latched.
fn has_two(latches: &[Option<Posted>]) -> bool
    ensures { result ≡ has_two_latches latches.now }
{
    latches.iter().filter(|latch| latch.is_some()).count() > 1
}

/// The age after a latch: the second latch sets an absent one to 0.
fn started(two: bool, age: Option<u16>) -> Option<u16>
    ensures { result ≡ started_age two age }
{
    match age {
        Some(age) => Some(age),
        None => { if two { Some(0) } else { None } }
    }
}

/// The age after a latch is gone: it stays where two latches remain.
fn remaining(two: bool, age: Option<u16>) -> Option<u16>
    ensures { result ≡ remaining_age two age }
{
    if two { age } else { None }
}

/// The age one tick later.
fn grown(timer: u16, age: Option<u16>) -> Option<u16>
    ensures { result ≡ older timer age }
{
    match age {
        Some(age) => {
            if age < timer {
                Some(age + 1)
            } else {
                Some(age)
            }
        }
        None => None,
    }
}

/// The age so many ticks later.
fn grown_by(timer: u16, age: Option<u16>, n: u64) -> Option<u16>
    requires { IsAge timer age }
    ensures { result ≡ aged_by timer n age }
{
    match age {
        Some(age) => {
            if n < u64::from(timer - age) {
                Some(age + n as u16)
            } else {
                Some(timer)
            }
        }
        None => None,
    }
}

/// How many ticks may pass before the timer runs out at one.
fn rest(timer: u16, age: Option<u16>) -> u64
    ensures { result ≡ rest_of timer age }
{
    match age {
        Some(age) => u64::from(timer).saturating_sub(u64::from(age) + 1),
        None => u64::MAX,
    }
}

/// Whether the timer has run out.
fn timed_out(timer: u16, age: Option<u16>) -> bool
    ensures { result ≡ is_timed_out timer age }
{
    match age {
        Some(age) => age >= timer,
        None => false,
    }
}

impl Voter {
    /// Members 0, 1 and 2, without a latch.
    pub fn new() -> Voter
        ensures { result ≡ new_voter }
    {
        Voter {
            members: [true; 3],
            latches: ArrayVec::from([None; 3]),
            age: None,
            timer: DECISION_TIMER,
        }
    }

    /// The timer is another, [`DECISION_TIMER`](crate::DECISION_TIMER) or
    /// [`LONG_DECISION_TIMER`](crate::LONG_DECISION_TIMER), in a voter without a latch.
    pub fn set_timer(&mut self, timer: u16)
        requires timer { IsTimer timer }
        requires unlatched { (p : ℕ) → p < 3 → latch_of self.old p ≡ None }
        ensures timed { self.new ≡ timed_voter timer self.old }
        ensures kept { IsVoter self.new }
    {
        self.timer = timer;
    }

    /// Latches what `p`, a member without a latch, asks for. The second latch sets an absent age to 0.
    pub fn latch(&mut self, p: u8, posted: Posted)
        requires processor { p < 3 }
        requires member { is_member self.old p ≡ true }
        requires unlatched { latch_of self.old p ≡ None }
        ensures latched { self.new ≡ latched_voter p posted self.old }
        ensures kept { IsVoter self.new }
    {
        self.latches[p as usize] = Some(posted);
        self.age = started(has_two(self.latches.as_slice()), self.age);
    }

    /// Processor `p`, below 3, is no member, and its latch is dropped. Where fewer than two latches remain,
    /// the age becomes absent.
    pub fn drop_member(&mut self, p: u8)
        requires { p < 3 }
        ensures dropped { self.new ≡ without_member p self.old }
        ensures kept { IsVoter self.new }
    {
        self.members[p as usize] = false;
        self.latches[p as usize] = None;
        self.age = remaining(has_two(self.latches.as_slice()), self.age);
    }

    /// Processor `p`, below 3, is a member. A new member has no latch.
    pub fn add_member(&mut self, p: u8)
        requires { p < 3 }
        ensures members { self.new ≡ with_member p self.old }
        ensures kept { IsVoter self.new }
        ensures unlatched { is_member self.old p ≡ false → latch_of self.new p ≡ None }
    {
        self.members[p as usize] = true;
    }

    /// No latch, and no age.
    pub fn clear(&mut self)
        ensures cleared { self.new ≡ cleared_voter self.old }
        ensures kept { IsVoter self.new }
    {
        self.latches = ArrayVec::from([None; 3]);
        self.age = None;
    }

    /// One tick passes: a present age below the timer grows by one.
    pub fn tick(&mut self)
        ensures ticked { self.new ≡ ticked_voter self.old }
        ensures kept { IsVoter self.new }
    {
        self.age = grown(self.timer, self.age);
    }

    /// So many ticks pass: a present age grows by them, to the timer at most.
    pub fn age_by(&mut self, n: u64)
        ensures aged { self.new ≡ aged_voter n self.old }
        ensures kept { IsVoter self.new }
    {
        self.age = grown_by(self.timer, self.age, n);
    }

    /// The age: `None` exactly where it is absent.
    pub fn age(&self) -> Option<u16>
        ensures { result ≡ self.now.age }
    {
        self.age
    }

    /// How many ticks may pass without a decision: none where every member is latched.
    pub fn rest(&self) -> u64
        ensures rest { result ≡ ticks_to_decision self.now }
        ensures kept { IsVoter self.now }
    {
        let waits = self.is_unlatched(0) || self.is_unlatched(1) || self.is_unlatched(2);
        if waits { rest(self.timer, self.age) } else { 0 }
    }

    /// Whether `p`, which is below 3, is a member.
    pub fn is_member(&self, p: u8) -> bool
        requires { p < 3 }
        ensures { result ≡ is_member self.now p }
    {
        self.members[p as usize]
    }

    /// The latch of `p`, which is below 3. `None` exactly where it has no latch.
    pub fn latched(&self, p: u8) -> Option<Posted>
        requires { p < 3 }
        ensures latch { result ≡ latch_of self.now p }
        ensures kept { IsVoter self.now }
    {
        self.latches[p as usize]
    }

    /// What the voter says: the first of these that holds.
    ///
    /// - `Waiting` where a member is not latched and the age is absent or below the timer;
    /// - `Done` with the request that two latches share, and the name of the remaining member, if any;
    /// - `Split` otherwise.
    #[tactic(auto, using(crate::proofs::Agreement::verdict_decided))]
    pub fn verdict(&self) -> Verdict
        ensures { result ≡ verdict_of self.now }
    {
        if self.is_due() {
            self.decision()
        } else {
            Verdict::Waiting
        }
    }

    /// What is decided, where a decision is due.
    fn decision(&self) -> Verdict
        ensures { result
            ≡ option_map_or (done_with self.now) (agreed_request self.now.latches) Verdict.Split }
    {
        match agreed(self.latches.as_slice()) {
            Some(request) => self.done(request),
            None => Verdict::Split,
        }
    }

    /// The request is agreed, and the remaining member, if any, is named.
    fn done(&self, request: Request) -> Verdict
        ensures { result ≡ done_with self.now request }
    {
        Verdict::Done {
            request,
            differ: self.differing(&request),
            late: self.late(),
        }
    }

    /// The member whose latch holds another request, if any.
    fn differing(&self, request: &Request) -> Option<u8>
        ensures { result ≡ differing_member self.now request.now }
    {
        if self.is_differing(request, 0) {
            Some(0)
        } else if self.is_differing(request, 1) {
            Some(1)
        } else if self.is_differing(request, 2) {
            Some(2)
        } else {
            None
        }
    }

    /// The member without a latch, if any.
    fn late(&self) -> Option<u8>
        ensures { result ≡ late_member self.now }
    {
        if self.is_unlatched(0) {
            Some(0)
        } else if self.is_unlatched(1) {
            Some(1)
        } else if self.is_unlatched(2) {
            Some(2)
        } else {
            None
        }
    }

    /// Whether a decision is due.
    fn is_due(&self) -> bool
        ensures { result ≡ is_due self.now }
    {
        let waits = self.is_unlatched(0) || self.is_unlatched(1) || self.is_unlatched(2);
        !waits || timed_out(self.timer, self.age)
    }

    /// Whether `p` is a member without a latch.
    fn is_unlatched(&self, p: u8) -> bool
        requires { p < 3 }
        ensures { result ≡ is_unlatched self.now p }
    {
        self.is_member(p) && self.latches[p as usize].is_none()
    }

    /// Whether `p` is a member whose latch holds another request.
    fn is_differing(&self, request: &Request, p: u8) -> bool
        requires { p < 3 }
        ensures { result ≡ is_differing self.now request.now p }
    {
        self.members[p as usize]
            && self.latches[p as usize].is_some()
            && !holds(&self.latches[p as usize], request)
    }
}
