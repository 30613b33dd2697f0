//! Where a text stands, behind some of its lines.

ghost use Rattle.std.specs.Prelude.{◌≡◌, ℕ, ◌+◌, ◌<◌, ◌≤◌, List, [], ◌∷◌, ◌++◌, Bool, false, Option, OnOk, OnErr, Err, None, Some};
ghost use Rattle.s2_asm.specs.TextMeaning.{is_known, fault_by, org_fault, word_fault, fault_of, HasFault, is_placed, after, word_in, label_at_line, four_on};
ghost use Rattle.s2_mnemonics.specs.LineWords.{address_in};
ghost use Rattle.s2_asm.specs.Cutting.{org_in, Bounded, IsBelow, IsPlaced, HasRoom, TakesOne, Holds};
ghost use Rattle.s2_asm.specs.declared.fault.AsmFail.{AsmFail};
ghost use Rattle.s2_mnemonics.specs.declared.line.Line.{Line};

use crate::fault::{AsmFail, AsmFault};
use s2_mnemonics::{Line, read_line};
use s2_text::Name;
use std::collections::BTreeMap;

/// The labels of a text with their addresses.
pub type Labels = BTreeMap<Name, u32>;

/// What the lines so far lead to.
#[derive(Drop)]
pub struct Progress {
    /// How many `.org` lines stood before.
    pub orgs: u32,
    /// How many words stood before.
    pub words: u32,
    /// The present address.
    pub here: Option<u64>,
    /// The labels that stood before.
    pub labels: Labels,
}

/// Adds a label that is not there yet.
fn add(labels: &mut Labels, name: Name, at: u32) -> Result<(), AsmFail>
    ensures ok { OnOk result ((list : List (List ℕ × ℕ)) → Holds labels.old list → address_in list name.items ≡ None → Holds labels.new (list ++ (name.items, at) ∷ [])) }
    ensures memory { OnErr result (result ≡ Err AsmFail.Memory) }
{
    match labels.insert(name, at) {
        Ok(_) => Ok(()),
        Err(_) => Err(AsmFail::Memory),
    }
}

/// Whether the label of this line stood before.
fn stood(labels: &Labels, line: &Line) -> bool
    ensures { (list : List (List ℕ × ℕ)) → Holds labels.now list → result ≡ is_known list line.now }
{
    match line {
        Line::Label(name) => labels.contains_key(name),
        _ => false,
    }
}

/// Whether there is a place here for a word or a label.
fn placed(here: Option<u64>) -> bool
    ensures { result ≡ is_placed here }
{
    match here {
        None => false,
        Some(at) => at < 0x1_0000_0000,
    }
}

fn fault_of_word(words: u32, here: Option<u64>, n: u64) -> Option<AsmFault>
    ensures { result ≡ word_fault words here n }
{
    if placed(here) {
        if words >= 540672 {
            Some(AsmFault::Long { line: n })
        } else {
            None
        }
    } else {
        Some(AsmFault::Place { line: n })
    }
}

fn fault_of_org(orgs: u32, n: u64, at: u32) -> Option<AsmFault>
    ensures { result ≡ org_fault orgs n at }
{
    if orgs >= 64 {
        Some(AsmFault::Many { line: n })
    } else if at % 4 == 0 {
        None
    } else {
        Some(AsmFault::Place { line: n })
    }
}

/// The first fault of line `n`, by what stands before it.
fn fault_in(
    orgs: u32,
    words: u32,
    here: Option<u64>,
    known: bool,
    n: u64,
    line: &Line,
) -> Option<AsmFault>
    ensures { result ≡ fault_by orgs words here known n line.now }
{
    match line {
        Line::Org(at) => fault_of_org(orgs, n, *at),
        Line::Entry(_) => None,
        Line::Label(_) => {
            if placed(here) {
                if known {
                    Some(AsmFault::Twice { line: n })
                } else {
                    None
                }
            } else {
                Some(AsmFault::Place { line: n })
            }
        }
        Line::Word(_) | Line::Plain(_) | Line::Jump { .. } | Line::Branch { .. } => {
            fault_of_word(words, here, n)
        }
    }
}

/// The address of the next word.
fn four_further(here: Option<u64>) -> Option<u64>
    requires placed { IsPlaced here }
    requires limit { IsBelow here }
    ensures below { IsBelow result }
    ensures next { result ≡ four_on here }
{
    match here {
        None => None,
        Some(at) => Some(at + 4),
    }
}

/// One line further, which has no fault.
#[tactic(auto, using(crate::proofs::LabelMaps::unknown, crate::proofs::LabelMaps::nothing_more))]
fn advance(progress: &mut Progress, line: Line) -> Result<(), AsmFail>
    requires bounded { Bounded progress.old }
    requires room { HasRoom progress.old.orgs progress.old.words progress.old.here line }
    ensures bounded { Bounded progress.new }
    ensures orgs { progress.new.orgs ≡ progress.old.orgs + org_in line }
    ensures words { progress.new.words ≡ progress.old.words + word_in (Some line) }
    ensures here { progress.new.here ≡ after progress.old.here (Some line) }
    ensures labels { OnOk result ((list : List (List ℕ × ℕ)) → Holds progress.old.labels list → is_known list line ≡ false → Holds progress.new.labels (list ++ label_at_line progress.old.here (Some line))) }
    ensures memory { OnErr result (result ≡ Err AsmFail.Memory) }
{
    match line {
        Line::Org(at) => {
            progress.orgs += 1;
            progress.here = Some(at as u64);
            Ok(())
        }
        Line::Entry(_) => Ok(()),
        Line::Label(name) => match progress.here {
            None => Ok(()),
            Some(at) => add(&mut progress.labels, name, at as u32),
        },
        Line::Word(_) | Line::Plain(_) | Line::Jump { .. } | Line::Branch { .. } => {
            progress.words += 1;
            progress.here = four_further(progress.here);
            Ok(())
        }
    }
}

/// Reads one line more.
pub fn take_line(progress: &mut Progress, line: &[u8], n: u64) -> Result<(), AsmFail>
    requires { Bounded progress.old }
    ensures bounded { Bounded progress.new }
    ensures one { TakesOne progress.old progress.new line.now n result }
{
    match read_line(line) {
        Err(bad) => Err(AsmFail::Fault(AsmFault::Bad {
            line: n,
            column: bad.column,
        })),
        Ok(None) => Ok(()),
        Ok(Some(said)) => {
            let known = stood(&progress.labels, &said);
            match fault_in(
                progress.orgs,
                progress.words,
                progress.here,
                known,
                n,
                &said,
            ) {
                Some(fault) => Err(AsmFail::Fault(fault)),
                None => advance(progress, said),
            }
        }
    }
}
