//! A reintegration that is open: what it keeps, and what each of its steps does to the modules.

ghost use Rattle.s2_base.specs.declared.map.TheConstants.{LOCAL_WORDS};
ghost use Rattle.s2_join.specs.CopyOrder.{copy_after_store, copy_after_sync, copy_start, none_left, IsItem};
ghost use Rattle.s2_plant.specs.StepParts.{copied_modules, is_disturbed as disturbed_by, is_saved, joiner_of, left_after_copy, memberships_joined, next_item as item_of, copied_count, restored_modules, unmarked_modules, voter_joined};
ghost use Rattle.s2_triplex.specs.ActStep.{reintegration_disturbed};
ghost use Rattle.s2_triplex.specs.CopyHolds.{after_copy, clean_without, is_holding as is_held, lowest_member as lowest_of, membership_joined, tainted_if, unmarked_if, word_set_if};
ghost use Rattle.s2_triplex.specs.TriplexState.{module_at};
ghost use Rattle.std.specs.Prelude.{◌≡◌, ◌<◌, ◌-◌, ◌^◌, ◌∷◌, false, true, slice_index_or, if◌then◌else◌};

use s2_cpu::Cpu;
use s2_join::{Item, Join};
use s2_module::Module;
use s2_pages::LOCAL_PAGES;
use s2_saved::copy_state;
use s2_triplex::Membership;
use s2_voter::Voter;
use std::marker::Model;

/// An open reintegration: the order of copying, the tick of its `revive`, the run count of the last resume
/// then, the words copied so far, and whether an act disturbed the joining processor since.
#[derive(Drop)]
pub struct OpenReintegration {
    copying: Join,
    revived: u64,
    revived_run: u64,
    copied: u64,
    disturbed: bool,
}

impl Model for OpenReintegration {
    ghost use Rattle.std.specs.Prelude.{◌<◌};
    ghost use Rattle.s2_triplex.specs.TriplexState.{Reintegration};

    ghost Value = { Reintegration };

    ghost view = { λ j. record {
      copying = j.copying;
      revived = j.revived;
      revived_run = j.revived_run;
      copied = j.copied;
      disturbed = j.disturbed;
    } };

    ghost invariant = { λ j. j.copying.joiner < 3 };
}

/// The page is unclean where it is marked in the lowest member.
fn take_mark(copying: &mut Join, lowest: &Module, page: u16)
    requires page { page < LOCAL_PAGES }
    requires resting { none_left copying.old.left ≡ true }
    requires open { copying.old.saved ≡ false }
    ensures { copying.new
        ≡ (if slice_index_or lowest.now.marks page false then copy_after_store page copying.old else copying.old) }
{
    if lowest.dirty(page) {
        copying.stored(page);
    }
}

/// The marks of the lowest member are taken over: a marked page is unclean.
fn take_marks(copying: &mut Join, lowest: &Module)
    requires resting { none_left copying.old.left ≡ true }
    requires open { copying.old.saved ≡ false }
    ensures { copying.new ≡ record copying.old { clean = clean_without copying.old.clean lowest.now.marks } }
{
    lowest.well_formed();
    for page in 0..LOCAL_PAGES as u16 {
        take_mark(copying, lowest, page);
    }
}

impl OpenReintegration {
    /// A reintegration of processor `p` begins, after so many ticks, with the run count of the last resume.
    pub fn begin(p: u8, ticks: u64, resumed_run: u64) -> OpenReintegration
        requires { p < 3 }
        ensures { result
            ≡ record { copying = copy_start p; revived = ticks; revived_run = resumed_run; copied = 0; disturbed = false } }
    {
        OpenReintegration {
            copying: Join::begin(p),
            revived: ticks,
            revived_run: resumed_run,
            copied: 0,
            disturbed: false,
        }
    }

    /// The processor that joins.
    pub fn joiner(&self) -> u8
        ensures joiner { result ≡ self.now.copying.joiner }
        ensures below { result < 3 }
    {
        self.copying.joiner()
    }

    /// Whether an act disturbed that processor since it began.
    pub fn is_disturbed(&self) -> bool
        ensures { result ≡ self.now.disturbed }
    {
        self.disturbed
    }

    /// An act disturbed it.
    pub fn disturb(&mut self)
        ensures { self.new ≡ record self.old { disturbed = true } }
    {
        self.disturbed = true;
    }

    /// Whether no word is to copy.
    pub fn resting(&self) -> bool
        ensures { result ≡ none_left self.now.copying.left }
    {
        self.copying.resting()
    }

    /// A Sync takes over the marks of the lowest member, and sets the words to copy.
    pub fn begin_hold(&mut self, lowest: &Module)
        requires resting { none_left self.old.copying.left ≡ true }
        requires open { self.old.copying.saved ≡ false }
        ensures { self.new
            ≡ record self.old { copying = copy_after_sync (record self.old.copying { clean = clean_without self.old.copying.clean lowest.now.marks }) } }
    {
        take_marks(&mut self.copying, lowest);
        self.copying.at_sync();
    }

    /// The next word to copy, which is then no longer to copy.
    pub fn next(&mut self) -> Item
        requires left { none_left self.old.copying.left ≡ false }
        requires few { self.old.copied < 2 ^ 64 - 1 }
        ensures item { self.old.copying.left ≡ result ∷ self.new.copying.left }
        ensures step { self.new ≡ after_copy self.old }
        ensures range { IsItem result }
    {
        let item = self.copying.next();
        self.copied += 1;
        item
    }
}

/// The member that is lowest in number.
pub fn lowest_member(voter: &Voter) -> u8
    ensures value { result ≡ lowest_of voter.now }
    ensures below { result < 3 }
{
    if voter.is_member(0) {
        0
    } else if voter.is_member(1) {
        1
    } else {
        2
    }
}

/// The marks of a member are cleared.
fn clear_one(replica: &mut Module, member: bool)
    ensures { replica.new ≡ unmarked_if member replica.old }
{
    if member {
        replica.clear_dirty();
    }
}

/// The marks of the members are cleared.
pub fn clear_marks(modules: &mut [Module; 3], voter: &Voter)
    ensures { modules.new ≡ unmarked_modules voter.now modules.old }
{
    clear_one(&mut modules[0], voter.is_member(0));
    clear_one(&mut modules[1], voter.is_member(1));
    clear_one(&mut modules[2], voter.is_member(2));
}

/// An open reintegration at a Sync: the marks of the lowest member are taken over and those of the members
/// cleared, and words are set to be copied.
pub fn begin_hold(current: &mut OpenReintegration, modules: &mut [Module; 3], voter: &Voter)
    requires resting { none_left current.old.copying.left ≡ true }
    requires open { current.old.copying.saved ≡ false }
    ensures copying { current.new
        ≡ record current.old { copying = copy_after_sync (record current.old.copying { clean = clean_without current.old.copying.clean (module_at modules.old (lowest_of voter.now)).marks }) } }
    ensures marks { modules.new ≡ unmarked_modules voter.now modules.old }
{
    let lowest = lowest_member(voter);
    current.begin_hold(&modules[lowest as usize]);
    clear_marks(modules, voter);
}

/// Word `i` of the local list is set in the processor that joins.
fn set_one(replica: &mut Module, joins: bool, i: u32, word: u32)
    requires { i < LOCAL_WORDS }
    ensures { replica.new ≡ word_set_if joins i word replica.old }
{
    if joins {
        replica.poke_local(i, word);
    }
}

/// Word `i` of the local list is copied from the lowest member to the processor that joins.
pub fn copy_word(modules: &mut [Module; 3], lowest: u8, joiner: u8, i: u32)
    requires lowest { lowest < 3 }
    requires i { i < LOCAL_WORDS }
    ensures { modules.new
        ≡ copied_modules joiner i (slice_index_or (module_at modules.old lowest).local i 0) modules.old }
{
    let word = modules[lowest as usize].local_word(i);
    set_one(&mut modules[0], joiner == 0, i, word);
    set_one(&mut modules[1], joiner == 1, i, word);
    set_one(&mut modules[2], joiner == 2, i, word);
}

/// A copy of the processor of a module.
fn copy_cpu(replica: &Module) -> Cpu
    ensures { result ≡ replica.now.cpu }
{
    let mut cpu = Cpu::start(0);
    copy_state(replica.cpu(), &mut cpu);
    cpu
}

/// All modules go on with the processor of the lowest member.
pub fn restore_all(modules: &mut [Module; 3], lowest: u8)
    requires { lowest < 3 }
    ensures { modules.new ≡ restored_modules (module_at modules.old lowest).cpu modules.old }
{
    let cpu = copy_cpu(&modules[lowest as usize]);
    modules[0].restore(&cpu);
    modules[1].restore(&cpu);
    modules[2].restore(&cpu);
}

/// A processor that joined is in.
fn joined(joins: bool, membership: Membership) -> Membership
    ensures { result ≡ membership_joined joins membership }
{
    if joins { Membership::In } else { membership }
}

/// The processor that joined is in.
pub fn join(memberships: &mut [Membership; 3], joiner: u8)
    ensures { memberships.new ≡ memberships_joined joiner memberships.old }
{
    memberships[0] = joined(joiner == 0, memberships[0]);
    memberships[1] = joined(joiner == 1, memberships[1]);
    memberships[2] = joined(joiner == 2, memberships[2]);
}

/// The processor that joined is a member.
pub fn add_joiner(voter: &mut Voter, joiner: u8)
    requires { joiner < 3 }
    ensures { voter.new ≡ voter_joined joiner voter.old }
{
    voter.add_member(joiner);
}

/// Nobody is tainted after a reintegration that no act disturbed.
pub fn tainted_after(disturbed: bool, tainted: Option<u8>) -> Option<u8>
    ensures { result ≡ tainted_if disturbed tainted }
{
    if disturbed { tainted } else { None }
}

/// Whether the machine holds.
pub fn is_holding(current: &Option<OpenReintegration>) -> bool
    ensures { result ≡ is_held current.now }
{
    match current {
        Some(open) => !open.resting(),
        None => false,
    }
}

/// An act disturbed the processor that joins, if one does.
pub fn disturb(current: &mut Option<OpenReintegration>)
    ensures { current.new ≡ reintegration_disturbed current.old }
{
    if let Some(open) = current {
        open.disturb();
    }
}

/// The processor that joins, and 0 where none does.
pub fn joiner(current: &Option<OpenReintegration>) -> u8
    ensures joiner { result ≡ joiner_of current.now }
    ensures below { result < 3 }
{
    match current {
        Some(open) => open.joiner(),
        None => 0,
    }
}

/// Whether an act disturbed it.
pub fn was_disturbed(current: &Option<OpenReintegration>) -> bool
    ensures { result ≡ disturbed_by current.now }
{
    match current {
        Some(open) => open.is_disturbed(),
        None => false,
    }
}

/// The next word to copy in a hold, which is then no longer to copy.
pub fn next_item(current: &mut Option<OpenReintegration>) -> Item
    requires holding { is_held current.old ≡ true }
    requires few { copied_count current.old < 2 ^ 64 - 1 }
    ensures item { result ≡ item_of current.old }
    ensures left { current.new ≡ left_after_copy current.old }
    ensures range { IsItem result }
{
    match current {
        Some(open) => open.next(),
        None => Item::Saved(0),
    }
}
