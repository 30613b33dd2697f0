//! What acts do to modules and memberships.

ghost use Rattle.s2_base.specs.declared.map.TheConstants.{LOCAL_WORDS};
ghost use Rattle.s2_join.specs.declared.join.TheConstants.{SAVED_WORDS};
ghost use Rattle.s2_plant.specs.StepParts.{changed_by, memberships_removed, memberships_revived, modules_replaced};
ghost use Rattle.s2_plant.specs.ActRanges.{IsActInRange};
ghost use Rattle.s2_triplex.specs.ActStep.{membership_revived, voter_without};
ghost use Rattle.s2_triplex.specs.ModuleFaults.{module_revived};
ghost use Rattle.s2_triplex.specs.StepRefusals.{second_fault};
ghost use Rattle.s2_triplex.specs.TriplexState.{is_out, membership_at, module_at};
ghost use Rattle.std.specs.Prelude.{◌≡◌, ◌<◌};

use crate::decision::unless_left;
use s2_journal::Reason;
use s2_module::Module;
use s2_script::Act;
use s2_triplex::Membership;
use s2_voter::Voter;

/// The module of a processor that an act disturbs.
fn change(replica: &mut Module, act: &Act)
    requires { IsActInRange act.now }
    ensures { replica.new ≡ changed_by act.now replica.old }
{
    match *act {
        Act::Poke { p: _, k, v } => replica.poke(k, v),
        Act::PokeLocal { p: _, i, v } => replica.poke_local(i, v),
        Act::Drive { p: _, posted } => replica.drive(posted),
        Act::Mute { p: _ } => replica.mute(),
        Act::Event(_) | Act::Remove { p: _ } | Act::Revive { p: _ } | Act::Board(_) => {}
        Act::Mend { board: _ } => {}
    }
}

/// The module of processor `p`, which an act disturbs.
pub fn change_at(modules: &mut [Module; 3], p: u8, act: &Act)
    requires p { p < 3 }
    requires act { IsActInRange act.now }
    ensures { modules.new
        ≡ modules_replaced p (changed_by act.now (module_at modules.old p)) modules.old }
{
    if p == 0 {
        change(&mut modules[0], act);
    } else if p == 1 {
        change(&mut modules[1], act);
    } else {
        change(&mut modules[2], act);
    }
}

/// A reintegration of processor `p` begins in its module.
pub fn revive_at(modules: &mut [Module; 3], p: u8)
    requires { p < 3 }
    ensures { modules.new ≡ modules_replaced p (module_revived (module_at modules.old p)) modules.old }
{
    if p == 0 {
        modules[0].revive();
    } else if p == 1 {
        modules[1].revive();
    } else {
        modules[2].revive();
    }
}

/// Processor `p` is out.
pub fn remove(memberships: &mut [Membership; 3], p: u8)
    ensures { memberships.new ≡ memberships_removed p memberships.old }
{
    memberships[0] = unless_left(p == 0, memberships[0]);
    memberships[1] = unless_left(p == 1, memberships[1]);
    memberships[2] = unless_left(p == 2, memberships[2]);
}

/// Processor `p` is no member and has no latch.
pub fn drop_from_voter(voter: &mut Voter, p: u8)
    requires { p < 3 }
    ensures { voter.new ≡ voter_without p voter.old }
{
    voter.drop_member(p);
}

/// A processor of which a reintegration begins is joining.
fn joining(begins: bool, membership: Membership) -> Membership
    ensures { result ≡ membership_revived begins membership }
{
    if begins {
        Membership::Joining
    } else {
        membership
    }
}

/// Processor `p` is joining.
pub fn revive(memberships: &mut [Membership; 3], p: u8)
    ensures { memberships.new ≡ memberships_revived p memberships.old }
{
    memberships[0] = joining(p == 0, memberships[0]);
    memberships[1] = joining(p == 1, memberships[1]);
    memberships[2] = joining(p == 2, memberships[2]);
}

/// Whether processor `p` is out.
pub fn out_at(memberships: &[Membership; 3], p: u8) -> bool
    requires { p < 3 }
    ensures { result ≡ is_out (membership_at memberships.now p) }
{
    match memberships[p as usize] {
        Membership::In => false,
        Membership::Out => true,
        Membership::Joining => false,
    }
}

/// The refusal of an act on processor `p` where another one is tainted.
pub fn second(tainted: Option<u8>, p: u8) -> Option<Reason>
    ensures { result ≡ second_fault tainted p }
{
    match tainted {
        Some(tainted) => {
            if tainted == p {
                None
            } else {
                Some(Reason::Second { tainted, named: p })
            }
        }
        None => None,
    }
}
