//! The text that lists a program in memory.

ghost use Rattle.std.specs.Prelude.{◌≡◌, suc, ◌+◌, ◌-◌, ◌==◌, take, drop, if◌then◌else◌, ◌*◌, ◌%◌, ◌^◌, ◌<◌, ◌≤◌, [], ◌∷◌, ◌++◌, OnOk, IfOk, length, Result};
ghost use Rattle.s2_text.specs.declared.lines.TheConstants.{LINE_FEED};
ghost use Rattle.s2_base.specs.declared.map.TheConstants.{LOCAL_WORDS, GLOBAL_WORDS};
ghost use Rattle.s2_program.specs.Programs.{ProgramData};
ghost use Rattle.s2_mnemonics.specs.declared.line.Line.{Line};
ghost use Rattle.s2_mnemonics.specs.LineWords.{line_text};
ghost use Rattle.s2_asm.specs.declared.fault.AsmFail.{AsmFail};
ghost use Rattle.s2_asm.specs.Building.{Assembled};
ghost use Rattle.s2_asm.specs.ImageListings.{first_word, end_of_words, parts_of_memory, parts_of_image, program_of, WritesWords, WritesParts, IsListing, IsImageOr};

use s2_base::{LOCAL_MEMORY_WORDS, Memory};
use s2_elf::Image;
use s2_mnemonics::disassemble;
use s2_text::{LINE_FEED, Text, WORD_DIGITS, put_hex, put_word};
use std::alloc::Global;

/// How many words are 0 before the first other word.
#[tactic(auto, using(crate::proofs::ListedImages::first_inside))]
fn first_word(words: &[u32]) -> usize
    ensures count { result ≡ first_word words.now }
    ensures inside { 0 < end_of_words words.now → result < end_of_words words.now }
{
    count_zeros(words)
}

/// How many words are 0 before the first other word.
fn count_zeros(words: &[u32]) -> usize
    ensures { result ≡ first_word words.now }
{
    for (i, word) in words.iter().enumerate() {
        if *word != 0 {
            return i;
        }
    }
    words.len()
}

/// How many words there are up to the last one that is not 0, of which there were so many before this one.
fn end_behind(end: usize, i: usize, word: u32) -> usize
    requires { i < 2 ^ 63 }
    ensures { result ≡ if word == 0 then end else suc i }
{
    if word == 0 { end } else { i + 1 }
}

/// How many words there are up to the last one that is not 0.
#[tactic(auto, using(crate::proofs::ListedImages::end_within))]
fn end_of_words(words: &[u32]) -> usize
    ensures count { result ≡ end_of_words words.now }
    ensures within { result ≤ length words.now }
{
    count_up_to_last(words)
}

/// How many words there are up to the last one that is not 0.
fn count_up_to_last(words: &[u32]) -> usize
    ensures { result ≡ end_of_words words.now }
{
    let mut end = 0;
    for (i, word) in words.iter().enumerate() {
        end = end_behind(end, i, *word);
    }
    end
}

/// The words from one index up to another.
fn between(words: &[u32], first: usize, end: usize) -> &[u32]
    requires order { first ≤ end }
    requires within { end ≤ length words.now }
    ensures words { result.now ≡ drop first (take end words.now) }
    ensures count { length result.now ≡ end - first }
{
    let front = &words[..end];
    &front[first..]
}

/// The line `.org X`.
fn org_text(at: u32) -> Text
    ensures { result.items ≡ line_text (Line.Org at) }
{
    let mut text = Text::new();
    put_word(&mut text, b".org 0x");
    put_hex(&mut text, at, WORD_DIGITS);
    text
}

/// The line `.entry X`.
fn entry_text(at: u32) -> Text
    ensures { result.items ≡ line_text (Line.Entry at) }
{
    let mut text = Text::new();
    put_word(&mut text, b".entry 0x");
    put_hex(&mut text, at, WORD_DIGITS);
    text
}

/// Writes a line and its line feed.
#[tactic(auto, using(crate::proofs::ListedLines::lines))]
fn put_line(text: &mut Vec<u8>, line: &[u8]) -> Result<(), Memory>
    ensures { OnOk result (text.new.items ≡ text.old.items ++ (line.now ++ LINE_FEED ∷ [])) }
{
    if text.extend_from_slice(line).is_err() {
        return Err(Memory);
    }
    match text.push(LINE_FEED) {
        Ok(()) => Ok(()),
        Err(_) => Err(Memory),
    }
}

/// Writes the line of each word, from an address on.
fn put_words(text: &mut Vec<u8>, at: u32, words: &[u32]) -> Result<(), Memory>
    requires aligned { at % 4 ≡ 0 }
    requires room { at + 4 * length words.now ≤ 2 ^ 32 }
    ensures { OnOk result (WritesWords at words.now text.old.items text.new.items) }
{
    for (i, word) in words.iter().enumerate() {
        let line = disassemble(at + 4 * i as u32, *word);
        put_line(text, line.as_slice())?;
    }
    Ok(())
}

/// Writes a part.
fn put_part(text: &mut Vec<u8>, at: u32, words: &[u32]) -> Result<(), Memory>
    requires aligned { at % 4 ≡ 0 }
    requires room { at + 4 * length words.now ≤ 2 ^ 32 }
    ensures { OnOk result (WritesParts ((record { at = at; words = words.now }) ∷ []) text.old.items text.new.items) }
{
    put_line(text, org_text(at).as_slice())?;
    put_words(text, at, words)
}

/// Writes the part of a memory that begins at a virtual address, if it has a word other than 0.
fn put_memory(text: &mut Vec<u8>, base: u32, words: &[u32]) -> Result<(), Memory>
    requires aligned { base % 4 ≡ 0 }
    requires room { base + 4 * length words.now < 2 ^ 32 }
    ensures { OnOk result (WritesParts (parts_of_memory base words.now) text.old.items text.new.items) }
{
    let end = end_of_words(words);
    if end == 0 {
        return Ok(());
    }
    let first = first_word(words);
    put_part(text, base + 4 * first as u32, between(words, first, end))
}

/// So many words at the front.
fn front(words: &[u32], count: usize) -> &[u32]
    requires { count ≤ length words.now }
    ensures words { result.now ≡ take count words.now }
    ensures count { length result.now ≡ count }
{
    &words[..count]
}

/// The words behind so many.
fn back(words: &[u32], count: usize) -> &[u32]
    requires { count ≤ length words.now }
    ensures words { result.now ≡ drop count words.now }
    ensures count { length result.now ≡ length words.now - count }
{
    &words[count..]
}

/// Writes the parts of the local list, whose words before the boundary are of local memory.
fn put_local(text: &mut Vec<u8>, words: &[u32], boundary: usize) -> Result<(), Memory>
    requires within { boundary ≤ length words.now }
    requires most { length words.now ≤ 278528 }
    ensures { OnOk result (WritesParts (parts_of_memory 0x80000000 (take boundary words.now) ++ parts_of_memory 0x9FC00000 (drop boundary words.now)) text.old.items text.new.items) }
{
    put_memory(text, 0x8000_0000, front(words, boundary))?;
    put_memory(text, 0x9FC0_0000, back(words, boundary))
}

/// Writes the parts of the two lists.
fn put_lists(
    text: &mut Vec<u8>,
    local: &[u32],
    boundary: usize,
    global: &[u32],
) -> Result<(), Memory>
    requires within { boundary ≤ length local.now }
    requires most { length local.now ≤ 278528 }
    requires global { length global.now ≤ 278528 }
    ensures { OnOk result (WritesParts (parts_of_memory 0x80000000 (take boundary local.now) ++ (parts_of_memory 0x9FC00000 (drop boundary local.now) ++ parts_of_memory 0x84000000 global.now)) text.old.items text.new.items) }
{
    put_local(text, local, boundary)?;
    put_memory(text, 0x8400_0000, global)
}

/// An image has lists of the sizes of the memories, and its entry is a word.
fn image_fits(image: &Image)
    ensures entry { image.now.entry < 2 ^ 32 }
    ensures local { length image.now.local ≡ LOCAL_WORDS }
    ensures global { length image.now.global ≡ GLOBAL_WORDS }
{
    let _entry = image.entry;
}

/// The entry of an image.
fn entry_of(image: &Image) -> u32
    ensures { result ≡ image.now.entry }
{
    image.entry
}

/// The words of the local list.
fn local_words(image: &Image) -> &[u32]
    ensures words { result.now ≡ image.now.local }
    ensures count { length result.now ≡ LOCAL_WORDS }
{
    image.local.as_slice()
}

/// The words of the global list.
fn global_words(image: &Image) -> &[u32]
    ensures words { result.now ≡ image.now.global }
    ensures count { length result.now ≡ GLOBAL_WORDS }
{
    image.global.as_slice()
}

/// Writes the parts of an image.
fn put_image(text: &mut Vec<u8>, image: &Image) -> Result<(), Memory>
    ensures { OnOk result (WritesParts (parts_of_image image.now) text.old.items text.new.items) }
{
    let local = local_words(image);
    put_lists(
        text,
        local,
        LOCAL_MEMORY_WORDS as usize,
        global_words(image),
    )
}

/// The listing of an image.
fn listing(alloc: Global, image: &Image) -> Result<Vec<u8>, Memory>
    ensures { IfOk result (λ text. IsListing (program_of image.now) text.items) }
{
    let mut text = Vec::new(alloc);
    let entry = entry_of(image);
    put_line(&mut text, entry_text(entry).as_slice())?;
    put_image(&mut text, image)?;
    Ok(text)
}

/// The text that lists a program in memory: its entry, and for each memory with a word other than 0 where
/// its first such word lies, and the line of each word from there to its last such word.
///
/// Assembling the text gives a program with that image, whose file the loader takes where it takes the entry.
/// `Memory` comes for want of memory alone.
pub fn list(alloc: Global, image: &Image) -> Result<Vec<u8>, Memory>
    ensures listing { IfOk result (λ text. IsListing (program_of image.now) text.items) }
    ensures again { IfOk result (λ text. (r : Result ProgramData AsmFail) → Assembled text.items r → IsImageOr image.now r) }
{
    image_fits(image);
    match listing(alloc, image) {
        Ok(text) => Ok(text),
        Err(Memory) => Err(Memory),
    }
}
