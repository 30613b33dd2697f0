//! The line of a word.

ghost use Rattle.std.specs.Prelude.{◌≡◌, ◌%◌, List, [], ◌∷◌, ◌++◌, Result};
ghost use Rattle.s2_text.specs.declared.lines.TheConstants.{LINE_FEED};
ghost use Rattle.s2_program.specs.Programs.{ProgramData};
ghost use Rattle.s2_mnemonics.specs.declared.line.Line.{Line};
ghost use Rattle.s2_mnemonics.specs.LineWords.{line_text, GivesWord};
ghost use Rattle.s2_asm.specs.declared.fault.AsmFail.{AsmFail};
ghost use Rattle.s2_asm.specs.Building.{Assembled};
ghost use Rattle.s2_asm.specs.Listings.{IsProgramOr};

use s2_text::Text;

/// The line of a word at an address, which is a multiple of 4.
///
/// Assembling a line `.org` of the address and this line gives the word there.
pub fn disassemble(at: u32, word: u32) -> Text
    requires { at % 4 ≡ 0 }
    ensures line { (l : Line) × GivesWord at word l × (result.items ≡ line_text l) }
    ensures again { (r : Result ProgramData AsmFail) → Assembled (line_text (Line.Org at) ++ LINE_FEED ∷ (result.items ++ LINE_FEED ∷ [])) r → IsProgramOr (record { entry = at; parts = (record { at = at; words = word ∷ [] }) ∷ [] }) r }
{
    s2_mnemonics::disassemble(at, word)
}
