//! The lines of a refusal and of a check, each without its line feed.

ghost use Rattle.std.specs.Prelude.{◌≡◌, ◌<◌, ◌≤◌, ◌+◌, ◌++◌, ◌∷◌, codes, length};
ghost use Rattle.s2_run.specs.RefusalText.{counted_text, refusal_text};
ghost use Rattle.s2_run.specs.ReportText.{verdict_text};

use crate::verdict::Verdict;
use s2_elf::ElfFault;
use s2_text::{Text, and_dec, put_word, start};

/// A word of at most 20 bytes, a space and a decimal number.
fn counted(word: &[u8], n: u64) -> Text
    requires { length word.now ≤ 20 }
    ensures text { result.items ≡ counted_text word.now n }
    ensures size { length result.items ≤ 41 }
{
    and_dec(start(word), n)
}

/// The text of a refusal.
fn refusal(fault: &ElfFault) -> Text
    ensures text { result.items ≡ refusal_text fault.now }
    ensures size { length result.items ≤ 41 }
{
    match fault {
        ElfFault::Short(size) => counted(b"short", *size),
        ElfFault::Magic => start(b"magic"),
        ElfFault::Class => start(b"class"),
        ElfFault::Order => start(b"order"),
        ElfFault::Version => start(b"version"),
        ElfFault::Kind => start(b"kind"),
        ElfFault::Machine => start(b"machine"),
        ElfFault::TooMany(headers) => counted(b"toomany", *headers as u64),
        ElfFault::HeaderSize => start(b"headersize"),
        ElfFault::TableOutside => start(b"tableoutside"),
        ElfFault::Dynamic(header) => counted(b"dynamic", *header as u64),
        ElfFault::Bounds(header) => counted(b"bounds", *header as u64),
        ElfFault::FileOutside(header) => counted(b"fileoutside", *header as u64),
        ElfFault::Placed(header) => counted(b"placed", *header as u64),
        ElfFault::Entry => start(b"entry"),
    }
}

/// The line of a file that is refused.
pub fn refused(fault: &ElfFault) -> Text
    ensures text { result.items ≡ codes "elf" ++ 32 ∷ refusal_text fault.now }
    ensures size { length result.items ≤ 45 }
{
    let mut line = start(b"elf ");
    put_word(&mut line, refusal(fault).as_slice());
    line
}

/// The line of a verdict.
pub fn verdict(verdict: &Verdict) -> Text
    ensures text { result.items ≡ verdict_text verdict.now }
    ensures size { length result.items ≤ 62 }
{
    match verdict {
        Verdict::Passed => start(b"ok"),
        Verdict::Bad { line, column } => and_dec(counted(b"bad", *line), *column as u64),
        Verdict::TooLong { line } => counted(b"toolong", *line),
    }
}
