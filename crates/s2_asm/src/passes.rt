//! The two passes over a text.

ghost use Rattle.std.specs.Prelude.{◌≡◌, ℕ, ◌+◌, ◌<◌, ◌≤◌, Ok, Err, length, IfOk};
ghost use Rattle.s2_program.specs.Programs.{words_in, AreAligned};
ghost use Rattle.s2_asm.specs.TextMeaning.{text_lines};
ghost use Rattle.s2_asm.specs.Building.{Assembled};
ghost use Rattle.s2_asm.specs.Cutting.{cut, FirstPass, PassesOne};

use crate::building::{Building, finish, take_later};
use crate::fault::AsmFail;
use crate::progress::{Labels, Progress, take_line};
use s2_program::Program;
use std::alloc::Global;
use std::collections::BTreeMap;

/// The first line of a text, without its line feed, and what follows.
fn cut_line(text: &[u8]) -> (&[u8], &[u8])
    ensures line { result.0.now ≡ (cut text.now).0 }
    ensures rest { result.1.now ≡ (cut text.now).1 }
{
    for (i, byte) in text.iter().enumerate() {
        if *byte == b'\n' {
            return (&text[..i], &text[i + 1..]);
        }
    }
    (text, &text[text.len()..])
}

/// The first pass: the labels of a text that has no fault in it, or its first fault.
fn first_pass(alloc: Global, text: &[u8]) -> Result<Labels, AsmFail>
    ensures { FirstPass text.now result }
{
    let mut progress = Progress {
        orgs: 0,
        words: 0,
        here: None,
        labels: BTreeMap::new(alloc),
    };
    let mut rest = text;
    for i in 0..text.len() {
        if rest.len() == 0 {
            return Ok(progress.labels);
        }
        let (line, more) = cut_line(rest);
        if let Err(fail) = take_line(&mut progress, line, i as u64 + 1) {
            return Err(fail);
        }
        rest = more;
    }
    Ok(progress.labels)
}

/// The second pass: the program, or the first fault of a target.
fn second_pass(alloc: Global, text: &[u8], labels: &Labels) -> Result<Program, AsmFail>
    requires { PassesOne (text_lines text.now) labels.now }
    ensures { Assembled text.now result }
{
    let mut building = Building {
        closed: Vec::new(alloc),
        open: None,
        entry: None,
    };
    let mut rest = text;
    for i in 0..text.len() {
        if rest.len() == 0 {
            return finish(building);
        }
        let (line, more) = cut_line(rest);
        if let Err(fail) = take_later(&mut building, alloc, labels, line, i as u64 + 1) {
            return Err(fail);
        }
        rest = more;
    }
    finish(building)
}

/// Both passes.
fn passes(alloc: Global, text: &[u8]) -> Result<Program, AsmFail>
    ensures { Assembled text.now result }
{
    match first_pass(alloc, text) {
        Ok(labels) => second_pass(alloc, text, &labels),
        Err(fail) => Err(fail),
    }
}

/// Assembles a text: its program, or the first fault.
///
/// The program keeps the limits of a file. `AsmFail::Memory` comes for want of memory alone.
pub fn assemble(alloc: Global, text: &[u8]) -> Result<Program, AsmFail>
    ensures meaning { Assembled text.now result }
    ensures few { IfOk result (λ p. length p.parts ≤ 64) }
    ensures small { IfOk result (λ p. words_in p.parts ≤ 540672) }
    ensures aligned { IfOk result (λ p. AreAligned p.parts) }
{
    match passes(alloc, text) {
        Ok(program) => Ok(program),
        Err(fail) => Err(fail),
    }
}
