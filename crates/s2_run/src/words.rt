//! The words of the command line.

ghost use Rattle.std.specs.Prelude.{◌≡◌, ℕ, IfSome, IfNone, map, string_bytes};
ghost use Rattle.s2_run.specs.CommandWords.{IsWorkload, words_of, IsOffered, IsUsage, request_of};

use s2_gen::WORKLOADS;
use s2_text::read_dec;

/// What a command line asks for.
#[derive(Debug, Clone, Copy, PartialEq, Eq)]
pub enum Command<'a> {
    /// `run NAME`: a script is run on the program of the file.
    Run(&'a str),
    /// `single NAME`: a report is run again on the program of the file, by one processor.
    Single(&'a str),
    /// `check`: a script is checked.
    Check,
    /// `load N`: a workload is run.
    Load(u32),
}

/// The number of a workload, where the word is one.
fn workload(word: &str) -> Option<u32>
    ensures some { IfSome result (λ n. IsWorkload word.now n) }
    ensures none { IfNone result ((n : ℕ) → IsWorkload word.now n → ⊥) }
{
    match read_dec(word.as_bytes(), WORKLOADS as u64) {
        Some(n) => { if n >= 1 { Some(n as u32) } else { None } }
        None => None,
    }
}

/// What the words ask for, or none where they ask for nothing that is offered.
pub fn command_of(words: &[String]) -> Option<Command<'_>>
    ensures offered { IfSome result (λ c. IsOffered (request_of c)) }
    ensures words { IfSome result (λ c. map string_bytes words.now ≡ words_of (request_of c)) }
    ensures none { IfNone result (IsUsage (map string_bytes words.now)) }
{
    match words {
        [command] => if command.as_str() == "check" {
            Some(Command::Check)
        } else {
            None
        },
        [command, word] => match command.as_str() {
            "run" => Some(Command::Run(word.as_str())),
            "single" => Some(Command::Single(word.as_str())),
            "load" => match workload(word.as_str()) {
                Some(n) => Some(Command::Load(n)),
                None => None
            },
            _ => None,
        },
        _ => None,
    }
}
