//! Laws of texts.

ghost use Rattle.s2_asm.specs.TextLaws.{HaveOneMeaning};

/// A text has one meaning: one program, or one first fault.
pub fn texts_have_one_meaning()
    ensures { HaveOneMeaning }
{}
