//! The firings of a tick, and the latching of what the ports hold.

ghost use Rattle.s2_clock.specs.ClockWatch.{is_firing};
ghost use Rattle.s2_plant.specs.StepParts.{fired_modules, idled_modules, port_of, posting_ticks, three_postings};
ghost use Rattle.s2_plant.specs.ApartTicks.{AreLeads, IsLead, caught_modules, caught_up, cut_to, last_posting, later, one_of_three, port_by, ports_by, posted_run, posting_by, postings_by, second_of, voter_run};
ghost use Rattle.s2_plant.specs.TickRests.{any_of, idled_by_if, is_latching_at, rest_at, rest_firings, rested_modules};
ghost use Rattle.s2_plant.specs.TickRuns.{NoneWait, is_any_posting, modules_run};
ghost use Rattle.s2_triplex.specs.CopyHolds.{idled_if};
ghost use Rattle.s2_triplex.specs.ModuleFiring.{is_posting, module_ticked};
ghost use Rattle.s2_triplex.specs.R2000Triplex.{r2000_triplex};
ghost use Rattle.s2_triplex.specs.TriplexState.{module_at};
ghost use Rattle.s2_clock.specs.declared.numbers.TheConstants.{REFRESH_PERIOD};
ghost use Rattle.s2_triplex.specs.TickFirings.{latched_from};
ghost use Rattle.s2_triplex_laws.specs.VoterTurn.{latched_at};
ghost use Rattle.s2_voter.specs.VoterCalls.{cleared_voter};
ghost use Rattle.s2_voter.specs.VoterRests.{aged_voter};
ghost use Rattle.s2_voter.specs.VoterState.{IsTimer, is_member};
ghost use Rattle.s2_voter.specs.Verdicts.{verdict_of};
ghost use Rattle.s2_voter.specs.declared.verdicts.Verdict.{Verdict};
ghost use Rattle.std.specs.Prelude.{◌≡◌, ◌<◌, ◌≤◌, ◌+◌, ◌-◌, ◌^◌, ◌&&◌, ℕ, suc, true, false, None, if◌then◌else◌, length};

use s2_module::Module;
use s2_ports::Posted;
use s2_voter::Voter;

/// Whether a mask has processor `p` fire.
fn fires(mask: u8, p: u8) -> bool
    requires { p < 3 }
    ensures { result ≡ is_firing mask p }
{
    (mask >> p) & 1 == 1
}

/// A module fires or misses the tick; and whether it posted a request.
fn fire_one(replica: &mut Module, member: bool, fires: bool, seen: u64) -> bool
    ensures module { replica.new ≡ module_ticked r2000_triplex seen member fires replica.old }
    ensures posted { result ≡ (fires && is_posting r2000_triplex replica.old member) }
{
    if !fires {
        return false;
    }
    if member {
        return replica.fire(seen);
    }
    replica.idle();
    false
}

/// The tick of the last posting, after a firing that posted or did not.
fn posting_tick(posts: bool, tick: u64, before: u64) -> u64
    ensures { result ≡ (if posts then tick else before) }
{
    if posts { tick } else { before }
}

/// The ticks of the last postings, after firings of which some posted.
#[cold]
#[inline(never)]
fn note_postings(posted: &mut [u64; 3], first: bool, second: bool, third: bool, tick: u64)
    ensures { posted.new ≡ three_postings first second third tick posted.old }
{
    posted[0] = posting_tick(first, tick, posted[0]);
    posted[1] = posting_tick(second, tick, posted[1]);
    posted[2] = posting_tick(third, tick, posted[2]);
}

/// The firings of a tick outside of holds, in the order of the processors; and whether one of them posted.
/// `seen` events were accepted so far.
pub fn fire_all(
    modules: &mut [Module; 3],
    posted: &mut [u64; 3],
    voter: &Voter,
    mask: u8,
    seen: u64,
    tick: u64,
) -> bool
    ensures modules { modules.new ≡ fired_modules r2000_triplex seen mask voter.now modules.old }
    ensures posted { posted.new
        ≡ posting_ticks r2000_triplex tick mask voter.now modules.old posted.old }
    ensures posts { result ≡ is_any_posting r2000_triplex mask voter.now modules.old }
    ensures quiet { result ≡ false → posted.new ≡ posted.old }
{
    let first = fire_one(&mut modules[0], voter.is_member(0), fires(mask, 0), seen);
    let second = fire_one(&mut modules[1], voter.is_member(1), fires(mask, 1), seen);
    let third = fire_one(&mut modules[2], voter.is_member(2), fires(mask, 2), seen);
    let posts = first || second || third;
    if posts {
        note_postings(posted, first, second, third, tick);
    }
    posts
}

/// Whether no processor is latched.
pub fn is_unlatched(voter: &Voter) -> bool
    ensures clear { result ≡ true → voter.now ≡ cleared_voter voter.now }
    ensures timer { IsTimer voter.now.timer }
{
    voter.latched(0).is_none() && voter.latched(1).is_none() && voter.latched(2).is_none()
}

/// Whether a processor is no member, or has nothing in its port.
fn waits_not(modules: &[Module; 3], voter: &Voter, p: u8) -> bool
    requires { p < 3 }
    ensures { result ≡ true → is_member voter.now p ≡ true → port_of modules.now p ≡ None }
{
    !voter.is_member(p) || port(modules, p).is_none()
}

/// Whether no member has a request in its port.
pub fn none_wait(modules: &[Module; 3], voter: &Voter) -> bool
    ensures { result ≡ true → NoneWait voter.now modules.now }
{
    waits_not(modules, voter, 0) && waits_not(modules, voter, 1) && waits_not(modules, voter, 2)
}

/// A firing that is counted alone, or a missed tick.
fn idle_one(replica: &mut Module, fires: bool)
    ensures { replica.new ≡ idled_if fires replica.old }
{
    if fires {
        replica.idle();
    }
}

/// The firings of a tick in a hold.
pub fn idle_all(modules: &mut [Module; 3], mask: u8)
    ensures { modules.new ≡ idled_modules mask modules.old }
{
    idle_one(&mut modules[0], fires(mask, 0));
    idle_one(&mut modules[1], fires(mask, 1));
    idle_one(&mut modules[2], fires(mask, 2));
}

/// A member without a latch is latched with what its port holds.
fn latch_one(voter: &mut Voter, p: u8, port: Option<Posted>)
    requires { p < 3 }
    ensures { voter.new ≡ latched_at port p voter.old }
{
    if let Some(posted) = port {
        if voter.is_member(p) && voter.latched(p).is_none() {
            voter.latch(p, posted);
        }
    }
}

/// What the port of a processor holds.
fn port(modules: &[Module; 3], p: u8) -> Option<Posted>
    requires { p < 3 }
    ensures { result ≡ port_of modules.now p }
{
    modules[p as usize].port()
}

/// The age grows, and the members without a latch are latched with these.
fn latch_ports(
    voter: &mut Voter,
    first: Option<Posted>,
    second: Option<Posted>,
    third: Option<Posted>,
)
    ensures { voter.new ≡ latched_from (one_of_three first second third) voter.old }
{
    voter.tick();
    latch_one(voter, 0, first);
    latch_one(voter, 1, second);
    latch_one(voter, 2, third);
}

/// The age grows, and the members without a latch are latched with what their ports hold.
pub fn latch_all(voter: &mut Voter, modules: &[Module; 3])
    ensures { voter.new ≡ latched_from (port_of modules.now) voter.old }
{
    let first = port(modules, 0);
    let second = port(modules, 1);
    let third = port(modules, 2);
    latch_ports(voter, first, second, third);
}

/// For how many ticks with a mask a processor only counts.
fn rest_of(modules: &[Module; 3], voter: &Voter, mask: u8, p: u8) -> u64
    requires { p < 3 }
    ensures { result ≡ rest_at mask voter.now modules.now p }
{
    if fires(mask, p) && voter.is_member(p) {
        modules[p as usize].idle_for()
    } else {
        u64::MAX
    }
}

/// For how many ticks with a mask all only count.
pub fn rest(modules: &[Module; 3], voter: &Voter, mask: u8) -> u64
    ensures { result ≡ rest_firings mask voter.now modules.now }
{
    let first = rest_of(modules, voter, mask, 0);
    let second = rest_of(modules, voter, mask, 1);
    let third = rest_of(modules, voter, mask, 2);
    first.min(second.min(third))
}

/// Whether processor `p` is a member without a latch and has a request in its port.
fn would_latch(modules: &[Module; 3], voter: &Voter, p: u8) -> bool
    requires { p < 3 }
    ensures { result ≡ is_latching_at voter.now modules.now p }
{
    voter.is_member(p) && voter.latched(p).is_none() && port(modules, p).is_some()
}

/// Whether one of the processors is so.
pub fn any_would_latch(modules: &[Module; 3], voter: &Voter) -> bool
    ensures { result ≡ any_of (is_latching_at voter.now modules.now) }
{
    would_latch(modules, voter, 0)
        || would_latch(modules, voter, 1)
        || would_latch(modules, voter, 2)
}

/// So many firings of a module that are counted alone, where it fires.
fn idle_one_by(replica: &mut Module, fires: bool, n: u64)
    ensures { replica.new ≡ idled_by_if fires n replica.old }
{
    if fires {
        replica.idle_by(n);
    }
}

/// The firings of so many ticks with a mask at which all only count.
pub fn idle_all_by(modules: &mut [Module; 3], mask: u8, n: u64)
    ensures { modules.new ≡ rested_modules mask n modules.old }
{
    idle_one_by(&mut modules[0], fires(mask, 0), n);
    idle_one_by(&mut modules[1], fires(mask, 1), n);
    idle_one_by(&mut modules[2], fires(mask, 2), n);
}

/// There are three of each, and each module has the number of a firing of its period. It does nothing, and tells a
/// caller so.
pub fn sized(modules: &[Module; 3], posted: &[u64; 3])
    ensures modules { length modules.now ≡ 3 }
    ensures posted { length posted.now ≡ 3 }
    ensures first { (module_at modules.now 0).fires < REFRESH_PERIOD }
    ensures second { (module_at modules.now 1).fires < REFRESH_PERIOD }
    ensures third { (module_at modules.now 2).fires < REFRESH_PERIOD }
{
    modules[0].well_formed();
    modules[1].well_formed();
    modules[2].well_formed();
}

/// How many ticks came before the first posting of each processor, where each was run alone.
#[derive(Debug, Clone, Copy, PartialEq, Eq)]
struct Leads {
    first: u64,
    second: u64,
    third: u64,
}

/// A processor is run alone for at most `n` ticks, up to its first posting. How many ticks came before that, and `n`
/// where it has not posted.
fn lead_one(replica: &mut Module, member: bool, fires: bool, n: u64, seen: u64) -> u64
    ensures { IsLead r2000_triplex seen member fires n result replica.old replica.new }
{
    if fires && member {
        replica.lead(n, seen)
    } else {
        n
    }
}

/// All three are run so, one after another.
fn lead_all(modules: &mut [Module; 3], voter: &Voter, mask: u8, n: u64, seen: u64) -> Leads
    ensures { AreLeads r2000_triplex seen mask n result.first result.second result.third voter.now modules.old modules.new }
{
    let first = lead_one(&mut modules[0], voter.is_member(0), fires(mask, 0), n, seen);
    let second = lead_one(&mut modules[1], voter.is_member(1), fires(mask, 1), n, seen);
    let third = lead_one(&mut modules[2], voter.is_member(2), fires(mask, 2), n, seen);
    Leads {
        first,
        second,
        third,
    }
}

/// The greater of two numbers of ticks, of which the first counts for a member alone.
fn later(member: bool, q: u64, last: u64) -> u64
    ensures { result ≡ later member q last }
{
    if member && last < q { q } else { last }
}

/// A number of ticks, and at most `n - 1`.
fn cut_to(n: u64, last: u64) -> u64
    requires { 0 < n }
    ensures { result ≡ cut_to n last }
{
    if last < n { last } else { n - 1 }
}

/// How many ticks came before the posting of the last member, at most `n - 1`.
fn last_posting(voter: &Voter, leads: &Leads, n: u64) -> u64
    requires { 0 < n }
    ensures { result ≡ cut_to n (last_posting voter.now leads.now.first leads.now.second leads.now.third) }
{
    let first = later(voter.is_member(0), leads.first, 0);
    let second = later(voter.is_member(1), leads.second, first);
    let third = later(voter.is_member(2), leads.third, second);
    cut_to(n, third)
}

/// A processor counts the ticks that are left for it.
fn catch_up(replica: &mut Module, member: bool, fires: bool, q: u64, r: u64)
    requires { r < 128 }
    ensures { replica.new ≡ caught_up fires member q r replica.old }
{
    if fires {
        if !member {
            replica.idle_by(r + 1);
        } else if q < r {
            replica.idle_by(r - q);
        }
    }
}

/// All three count the ticks that are left for them.
fn catch_up_all(modules: &mut [Module; 3], voter: &Voter, mask: u8, leads: &Leads, r: u64)
    requires { r < 128 }
    ensures { modules.new
        ≡ caught_modules mask voter.now leads.now.first leads.now.second leads.now.third r modules.old }
{
    catch_up(
        &mut modules[0],
        voter.is_member(0),
        fires(mask, 0),
        leads.first,
        r,
    );
    catch_up(
        &mut modules[1],
        voter.is_member(1),
        fires(mask, 1),
        leads.second,
        r,
    );
    catch_up(
        &mut modules[2],
        voter.is_member(2),
        fires(mask, 2),
        leads.third,
        r,
    );
}

/// The tick of the last posting of a processor.
fn posting_by(tick: u64, q: u64, r: u64, old: u64) -> u64
    requires r { r < 128 }
    requires tick { tick ≤ 2 ^ 40 }
    ensures { result ≡ posting_by tick q r old }
{
    if q <= r { tick + q + 1 } else { old }
}

/// The ticks of the last postings.
fn note_leads(posted: &mut [u64; 3], tick: u64, leads: &Leads, r: u64)
    requires r { r < 128 }
    requires tick { tick ≤ 2 ^ 40 }
    ensures posted { posted.new ≡ postings_by tick leads.now.first leads.now.second leads.now.third r posted.old }
    ensures size { length posted.old ≡ 3 }
{
    posted[0] = posting_by(tick, leads.first, r, posted[0]);
    posted[1] = posting_by(tick, leads.second, r, posted[1]);
    posted[2] = posting_by(tick, leads.third, r, posted[2]);
}

/// What the port of a processor holds, if it has posted by then.
fn port_by(modules: &[Module; 3], p: u8, q: u64, r: u64) -> Option<Posted>
    requires { p < 3 }
    ensures { result ≡ port_by q r (port_of modules.now p) }
{
    if q <= r { port(modules, p) } else { None }
}

/// The second of three numbers in their order.
fn second_of(a: u64, b: u64, c: u64) -> u64
    ensures { result ≡ second_of a b c }
{
    if a <= b {
        if b <= c {
            b
        } else if a <= c {
            c
        } else {
            a
        }
    } else if a <= c {
        a
    } else if b <= c {
        c
    } else {
        b
    }
}

/// The members that have posted are latched, and the age is that since the second of them.
fn latch_leads(voter: &mut Voter, modules: &[Module; 3], leads: &Leads, r: u64)
    ensures { voter.new
        ≡ aged_voter (r - second_of leads.now.first leads.now.second leads.now.third) (latched_from (ports_by leads.now.first leads.now.second leads.now.third r modules.now) voter.old) }
{
    let first = port_by(modules, 0, leads.first, r);
    let second = port_by(modules, 1, leads.second, r);
    let third = port_by(modules, 2, leads.third, r);
    latch_ports(voter, first, second, third);
    let from = second_of(leads.first, leads.second, leads.third);
    voter.age_by(r.saturating_sub(from));
}

/// The firings of ticks with a mask, at most `n`, after `tick` ticks without a latch, up to the one at which the last
/// member posts, and the latching of all; each processor is run alone. How many ticks came before the last.
pub fn fire_apart(
    modules: &mut [Module; 3],
    posted: &mut [u64; 3],
    voter: &mut Voter,
    mask: u8,
    seen: u64,
    tick: u64,
    n: u64,
) -> u64
    requires some { 0 < n }
    requires few { n ≤ 128 }
    requires tick { tick ≤ 2 ^ 40 }
    requires clear { voter.old ≡ cleared_voter voter.old }
    requires timer { IsTimer voter.old.timer }
    requires none { NoneWait voter.old modules.old }
    ensures within { result < n }
    ensures modules { modules.new ≡ modules_run r2000_triplex seen mask voter.old (suc result) modules.old }
    ensures voter { voter.new ≡ voter_run r2000_triplex seen mask voter.old modules.old (suc result) }
    ensures posted { posted.new ≡ posted_run r2000_triplex seen tick mask voter.old modules.old posted.old (suc result) }
    ensures waits { (j : ℕ) → 0 < j → j ≤ result
        → verdict_of (voter_run r2000_triplex seen mask voter.old modules.old j) ≡ Verdict.Waiting }
{
    let leads = lead_all(modules, voter, mask, n, seen);
    let last = last_posting(voter, &leads, n);
    catch_up_all(modules, voter, mask, &leads, last);
    note_leads(posted, tick, &leads, last);
    latch_leads(voter, modules, &leads, last);
    last
}
