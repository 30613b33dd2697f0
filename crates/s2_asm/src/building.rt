//! The second pass: the parts of a program, line by line.

ghost use Rattle.std.specs.Prelude.{◌≡◌, ℕ, ◌+◌, ◌*◌, ◌<◌, ◌≤◌, List, [], ◌∷◌, ◌++◌, OnOk, OnErr, IfOk, Option, Some, None, Ok, Err};
ghost use Rattle.s2_asm.specs.TextMeaning.{first_part};
ghost use Rattle.s2_asm.specs.Cutting.{Holds};
ghost use Rattle.s2_asm.specs.LineFaults.{IsGood, IsWritten};
ghost use Rattle.s2_asm.specs.Building.{built, views, view_part, next_of, HasPlace, Opens, Begins, Builds, TakesLater, entry_or};
ghost use Rattle.s2_asm.specs.declared.fault.AsmFail.{AsmFail};
ghost use Rattle.s2_mnemonics.specs.declared.line.Line.{Line};
ghost use Rattle.s2_mnemonics.specs.TextTable.{text_rows};
ghost use Rattle.s2_text.specs.LineTables.{ReadsLine};

use crate::fault::AsmFail;
use crate::progress::Labels;
use crate::words::line_word;
use s2_mnemonics::{Line, read_line};
use s2_program::{Part, Program};
use std::alloc::Global;

/// A program so far: its parts that are whole, the one that grows, and its entry.
#[derive(Drop)]
pub struct Building {
    pub closed: Vec<Part>,
    pub open: Option<Part>,
    pub entry: Option<u32>,
}

/// One part more.
#[tactic(auto, using(crate::proofs::Stages::views_more))]
fn push_part(parts: &mut Vec<Part>, part: Part) -> Result<(), AsmFail>
    ensures parts { OnOk result (views parts.new.items ≡ views parts.old.items ++ view_part part ∷ []) }
    ensures memory { OnErr result (result ≡ Err AsmFail.Memory) }
{
    match parts.push(part) {
        Ok(()) => Ok(()),
        Err(_) => Err(AsmFail::Memory),
    }
}

/// Closes the part that grows.
#[tactic(auto, using(crate::proofs::Stages::nothing_opened))]
fn close(building: &mut Building) -> Result<(), AsmFail>
    ensures parts { OnOk result (built building.new ≡ built building.old) }
    ensures none { OnOk result (building.new.open ≡ None) }
    ensures entry { building.new.entry ≡ building.old.entry }
    ensures memory { OnErr result (result ≡ Err AsmFail.Memory) }
{
    match building.open.take() {
        Some(part) => push_part(&mut building.closed, part),
        None => Ok(()),
    }
}

/// A part begins.
fn begin(building: &mut Building, alloc: Global, at: u32) -> Result<(), AsmFail>
    ensures begins { OnOk result (Begins building.old building.new at) }
    ensures memory { OnErr result (result ≡ Err AsmFail.Memory) }
{
    if let Err(fail) = close(building) {
        return Err(fail);
    }
    building.open = Some(Part::new(alloc, at));
    Ok(())
}

/// A word more in the part that grows.
fn write(building: &mut Building, word: u32) -> Result<(), AsmFail>
    requires { HasPlace building.old.open }
    ensures closed { building.new.closed.items ≡ building.old.closed.items }
    ensures opens { OnOk result (Opens building.old.open word building.new.open) }
    ensures entry { building.new.entry ≡ building.old.entry }
    ensures memory { OnErr result (result ≡ Err AsmFail.Memory) }
{
    match &mut building.open {
        Some(part) => match part.push(word) {
            Ok(()) => Ok(()),
            Err(_) => Err(AsmFail::Memory),
        },
        None => Ok(()),
    }
}

/// The address of the next word.
fn next_address(growing: &Option<Part>) -> u32
    requires { HasPlace growing.now }
    ensures { Some result ≡ next_of growing.now }
{
    match growing {
        Some(part) => part.next(),
        None => 0,
    }
}

/// The word of a line, in the part that grows.
fn write_line(building: &mut Building, labels: &Labels, line: &Line, n: u64) -> Result<(), AsmFail>
    requires good { IsGood line.now }
    requires written { IsWritten line.now }
    requires place { HasPlace building.old.open }
    ensures { (list : List (List ℕ × ℕ)) → Holds labels.now list → Builds list building.old building.new n line.now result }
{
    let at = next_address(&building.open);
    match line_word(labels, at, line, n) {
        Ok(word) => write(building, word),
        Err(fault) => Err(AsmFail::Fault(fault)),
    }
}

/// One line more.
pub fn add_line(
    building: &mut Building,
    alloc: Global,
    labels: &Labels,
    line: &Line,
    n: u64,
) -> Result<(), AsmFail>
    requires good { IsGood line.now }
    requires place { IsWritten line.now → HasPlace building.old.open }
    ensures { (list : List (List ℕ × ℕ)) → Holds labels.now list → Builds list building.old building.new n line.now result }
{
    match line {
        Line::Org(at) => begin(building, alloc, *at),
        Line::Entry(at) => {
            building.entry = Some(*at);
            Ok(())
        }
        Line::Label(_) => Ok(()),
        Line::Word(_) | Line::Plain(_) | Line::Jump { .. } | Line::Branch { .. } => {
            write_line(building, labels, line, n)
        }
    }
}

/// Reads one line more.
pub fn take_later(
    building: &mut Building,
    alloc: Global,
    labels: &Labels,
    line: &[u8],
    n: u64,
) -> Result<(), AsmFail>
    requires { (l : Line) → ReadsLine text_rows line.now (Ok (Some l)) → IsWritten l → HasPlace building.old.open }
    ensures { (list : List (List ℕ × ℕ)) → Holds labels.now list → TakesLater list building.old building.new n line.now result }
{
    match read_line(line) {
        Ok(Some(said)) => add_line(building, alloc, labels, &said, n),
        Ok(None) => Ok(()),
        Err(_) => Ok(()),
    }
}

fn first_address(parts: &[Part]) -> u32
    ensures { result ≡ first_part (views parts.now) }
{
    match parts.first() {
        Some(part) => part.address(),
        None => 0x8001_0000,
    }
}

/// The program, once all lines are read.
pub fn finish(building: Building) -> Result<Program, AsmFail>
    ensures parts { IfOk result (λ p. views p.parts ≡ built building) }
    ensures entry { IfOk result (λ p. p.entry ≡ entry_or building.entry (first_part (built building))) }
    ensures memory { OnErr result (result ≡ Err AsmFail.Memory) }
{
    let mut building = building;
    if let Err(fail) = close(&mut building) {
        return Err(fail);
    }
    let entry = match building.entry {
        Some(at) => at,
        None => first_address(building.closed.as_slice()),
    };
    Ok(Program {
        entry,
        parts: building.closed,
    })
}
