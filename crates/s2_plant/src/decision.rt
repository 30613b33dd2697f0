//! A decision: who is named leaves, and the members that are left are answered.

ghost use Rattle.s2_clock.specs.ClockWatch.{is_tainted};
ghost use Rattle.s2_plant.specs.StepParts.{answered_modules, memberships_left, voter_decided};
ghost use Rattle.s2_triplex.specs.R2000Triplex.{r2000_triplex};
ghost use Rattle.s2_triplex.specs.ReferenceMachine.{least_run as least_run_of, one_behind};
ghost use Rattle.s2_triplex.specs.StepTurns.{out_notes};
ghost use Rattle.s2_triplex.specs.TriplexState.{is_good};
ghost use Rattle.s2_triplex.specs.VotedAccess.{seen_in, seen_of};
ghost use Rattle.s2_triplex.specs.VoterDecision.{answered_if, is_named, is_processor, membership_unless_left};
ghost use Rattle.s2_triplex_laws.specs.VoterTurn.{without_named};
ghost use Rattle.s2_voter.specs.RequestEquality.{is_same_request};
ghost use Rattle.s2_voter.specs.VoterState.{IsVoter};
ghost use Rattle.std.specs.Prelude.{◌≡◌, ◌<◌, ◌≤◌, ◌+◌, ◌++◌, ◌||◌, IfSome, length};

use arrayvec::ArrayVec;
use s2_journal::{Note, Why};
use s2_module::Module;
use s2_ports::{Posted, Reply, Request, same};
use s2_triplex::Membership;
use s2_voter::Voter;

/// Whether an optional processor is this one.
fn is(named: Option<u8>, p: u8) -> bool
    ensures { result ≡ is_processor named p }
{
    match named {
        Some(q) => q == p,
        None => false,
    }
}

/// Whether a decision names processor `p`.
fn named(differ: Option<u8>, late: Option<u8>, p: u8) -> bool
    ensures { result ≡ is_named differ late p }
{
    is(differ, p) || is(late, p)
}

/// The note of a processor that is out, if one is.
pub fn note_out(notes: &mut ArrayVec<Note, 12>, tick: u64, why: Why, named: Option<u8>)
    requires { length notes.old.items < 12 }
    ensures notes { notes.new.items ≡ notes.old.items ++ out_notes tick why named }
    ensures most { length notes.new.items ≤ length notes.old.items + 1 }
{
    if let Some(p) = named {
        notes.push(Note::Out { tick, p, why });
    }
}

/// A processor that leaves is out.
pub fn unless_left(leaves: bool, membership: Membership) -> Membership
    ensures { result ≡ membership_unless_left leaves membership }
{
    if leaves { Membership::Out } else { membership }
}

/// Those that a decision names are out.
pub fn leave(memberships: &mut [Membership; 3], differ: Option<u8>, late: Option<u8>)
    ensures { memberships.new ≡ memberships_left (is_named differ late) memberships.old }
{
    memberships[0] = unless_left(named(differ, late, 0), memberships[0]);
    memberships[1] = unless_left(named(differ, late, 1), memberships[1]);
    memberships[2] = unless_left(named(differ, late, 2), memberships[2]);
}

/// The voter drops a processor that a decision names, if it names one.
fn drop_named(voter: &mut Voter, named: Option<u8>)
    requires { IfSome named (λ p. p < 3) }
    ensures { voter.new ≡ without_named named voter.old }
{
    if let Some(p) = named {
        voter.drop_member(p);
    }
}

/// Those that a decision names are no members, and there is no latch and no age.
pub fn settle_voter(voter: &mut Voter, differ: Option<u8>, late: Option<u8>)
    requires differ { IfSome differ (λ p. p < 3) }
    requires late { IfSome late (λ p. p < 3) }
    ensures { voter.new ≡ voter_decided (is_named differ late) voter.old }
{
    drop_named(voter, differ);
    drop_named(voter, late);
    voter.clear();
}

/// A member is answered.
fn answer_one(replica: &mut Module, member: bool, request: &Request, reply: Reply)
    requires { reply.lines < 4 }
    ensures { replica.new ≡ answered_if member r2000_triplex request.now reply.word reply.lines replica.old }
{
    if member {
        replica.answer(request, reply);
    }
}

/// The members are answered.
pub fn answer_all(modules: &mut [Module; 3], voter: &Voter, request: &Request, reply: Reply)
    requires { reply.lines < 4 }
    ensures { modules.new
        ≡ answered_modules r2000_triplex voter.now request.now reply.word reply.lines modules.old }
{
    answer_one(&mut modules[0], voter.is_member(0), request, reply);
    answer_one(&mut modules[1], voter.is_member(1), request, reply);
    answer_one(&mut modules[2], voter.is_member(2), request, reply);
}

/// Whether processor `p` is good.
fn good(tainted: Option<u8>, p: u8) -> bool
    ensures { result ≡ is_good tainted p }
{
    match tainted {
        Some(t) => t != p,
        None => true,
    }
}

/// The good one of two processors that is behind, and the first of two that are level.
fn behind(tainted: Option<u8>, modules: &[Module; 3], p: u8, q: u8) -> u8
    requires p { p < 3 }
    requires q { q < 3 }
    ensures value { result ≡ one_behind tainted modules.now p q }
    ensures below { result < 3 }
{
    let later = modules[q as usize].run() < modules[p as usize].run();
    if good(tainted, q) && (!good(tainted, p) || later) {
        q
    } else {
        p
    }
}

/// The least run count of a good processor.
pub fn least_run(tainted: Option<u8>, modules: &[Module; 3]) -> u64
    ensures { result ≡ least_run_of tainted modules.now }
{
    let first = behind(tainted, modules, 0, 1);
    let slowest = behind(tainted, modules, first, 2);
    modules[slowest as usize].run()
}

/// Whether two requests are equal.
fn is_same(a: &Request, b: &Request) -> bool
    ensures { result ≡ is_same_request a.now b.now }
{
    same(a, b)
}

/// The count of events that a latch has seen, where it asks for the request.
fn add_seen(seen: &mut ArrayVec<u64, 3>, latch: &Option<Posted>, request: &Request)
    requires { length seen.old.items < 3 }
    ensures seen { seen.new.items ≡ seen.old.items ++ seen_of request.now latch.now }
    ensures most { length seen.new.items ≤ length seen.old.items + 1 }
{
    if let Some(posted) = latch {
        if is_same(request, &posted.request) {
            seen.push(posted.seen);
        }
    }
}

/// The counts of events that the latches with a request have seen, in the order of the processors.
pub fn seen_counts(voter: &Voter, request: &Request) -> ArrayVec<u64, 3>
    ensures seen { result.items ≡ seen_in voter.now request.now }
    ensures voter { IsVoter voter.now }
{
    let mut seen = ArrayVec::new();
    add_seen(&mut seen, &voter.latched(0), request);
    add_seen(&mut seen, &voter.latched(1), request);
    add_seen(&mut seen, &voter.latched(2), request);
    seen
}
