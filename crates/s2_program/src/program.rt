//! A program as parts.

ghost use Rattle.std.specs.Prelude.{◌≡◌, ◌+◌, ◌*◌, ◌^◌, ◌<◌, length, [], ◌∷◌, ◌++◌, IfOk, OnErr, is_ok, if◌then◌else◌};
ghost use Rattle.s2_program.specs.Programs.{FitsPart, FitParts};
ghost use Rattle.s2_program.specs.PlainFiles.{size_of};

use s2_base::Memory;
use std::alloc::Global;
use std::marker::Model;

/// Words that follow each other from an address on.
#[derive(Drop)]
pub struct Part {
    /// The virtual address of the first word.
    pub at: u32,
    /// The words.
    pub words: Vec<u32>,
}

impl Model for Part {
    ghost use Rattle.s2_program.specs.Programs.{PartData, FitsPart};

    ghost Value = { PartData };

    ghost view = { λ p. record { at = p.at; words = p.words.items } };

    ghost invariant = { λ p. FitsPart (record { at = p.at; words = p.words.items }) };
}

impl Part {
    /// A part at a virtual address that has no words yet.
    pub fn new(alloc: Global, at: u32) -> Part
        ensures { result ≡ record { at = at; words = [] } }
    {
        Part {
            at,
            words: Vec::new(alloc),
        }
    }

    /// Adds a word behind the others.
    ///
    /// `Memory` where it was refused; the part is then as before.
    #[tactic(auto, using(crate::proofs::PartWords::words_more))]
    pub fn push(&mut self, word: u32) -> Result<(), Memory>
        ensures at { self.new.at ≡ self.old.at }
        ensures words { self.new.words ≡ if is_ok result then self.old.words ++ word ∷ [] else self.old.words }
    {
        match self.words.push(word) {
            Ok(()) => Ok(()),
            Err(_) => Err(Memory),
        }
    }

    /// The words.
    pub fn words(&self) -> &[u32]
        ensures { result.now ≡ self.now.words }
    {
        &self.words
    }

    /// The virtual address of the first word.
    pub fn address(&self) -> u32
        ensures { result ≡ self.now.at }
    {
        self.at
    }

    /// The virtual address of the next word, which lies below 2^32.
    pub fn next(&self) -> u32
        requires { self.now.at + 4 * length self.now.words < 2 ^ 32 }
        ensures { result ≡ self.now.at + 4 * length self.now.words }
    {
        self.at + 4 * self.words.len() as u32
    }

    /// How many bytes the words have.
    pub fn size(&self) -> u32
        requires { 4 * length self.now.words < 2 ^ 32 }
        ensures { result ≡ size_of self.now }
    {
        4 * self.words.len() as u32
    }

    /// Each number of a part is a word.
    pub fn fits(&self)
        ensures { FitsPart self.now }
    {
        let _at = self.at;
    }
}

/// An entry, and parts of which a later one counts where two overlap.
#[derive(Drop)]
pub struct Program {
    /// The virtual address of the first instruction.
    pub entry: u32,
    /// The parts.
    pub parts: Vec<Part>,
}

impl Model for Program {
    ghost use Rattle.s2_program.specs.Programs.{ProgramData};

    ghost Value = { ProgramData };

    ghost view = { λ p. record { entry = p.entry; parts = p.parts.items } };
}

impl Program {
    /// Each number of a program is a word.
    pub fn fits(&self)
        ensures entry { self.now.entry < 2 ^ 32 }
        ensures parts { FitParts self.now.parts }
    {
        let _entry = self.entry;
        all_fit(&self.parts);
    }
}

/// Each number of some parts is a word.
fn all_fit(parts: &[Part])
    ensures { FitParts parts.now }
{
    for part in parts {
        part.fits();
    }
}
