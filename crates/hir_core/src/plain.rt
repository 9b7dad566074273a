//! Patterns that are one text, and the search for one.

ghost use Rattle.std.specs.Prelude.{◌≡◌, ◌+◌, ◌-◌, ◌<◌, ◌≤◌, ◌++◌, length, map, option_map, IfOk, IfSome, OnOk, Some, None, if◌then◌else◌};
ghost use Rattle.hir_core.specs.Found.{IsFound, IsOfLeast, place_found, span_found};
ghost use Rattle.hir_tree.specs.PlainText.{joined_all, text_found, text_of};

use crate::{Bytes, Hir, Slots};
use grep_matcher::Match;
use memchr::memmem::{Finder, FinderBuilder};
use sd_base::NoMemory;
use std::alloc::Global;
use std::marker::Model;

/// The bytes of a pattern that is one text, or `None` where it is none. Refuses for want of memory alone.
fn plain_text(alloc: Global, hir: &Hir) -> Result<Option<Vec<u8>>, NoMemory>
    ensures { IfOk result (λ found. option_map (λ bytes. bytes.items) found ≡ text_of hir.now) }
{
    let mut bytes = Vec::new(alloc);
    let is_text = append(hir, &mut bytes)?;
    if is_text { Ok(Some(bytes)) } else { Ok(None) }
}

/// Appends the bytes of a pattern that is one text, and tells whether it is one. Refuses for want of memory alone.
#[cycle(plain)]
fn append(hir: &Hir, bytes: &mut Vec<u8>) -> Result<bool, NoMemory>
    ensures { IfOk result (λ is_text. (if is_text then Some bytes.new.items else None) ≡ option_map (λ text. bytes.old.items ++ text) (text_of hir.now)) }
{
    match hir {
        Hir::Empty => Ok(true),
        Hir::Literal(literal) => {
            append_bytes(literal, bytes)?;
            Ok(true)
        }
        Hir::Concat(hirs) => append_all(hirs.parts(), bytes),
        Hir::ClassChars(_) | Hir::ClassBytes(_) | Hir::Look(_) => Ok(false),
        Hir::Repetition(_) | Hir::Capture(_) | Hir::Alternation(_) => Ok(false),
    }
}

/// Appends the bytes of parts that are one text each, and tells whether all are. Refuses for want of memory alone.
#[cycle(plain)]
fn append_all(parts: &[Hir], bytes: &mut Vec<u8>) -> Result<bool, NoMemory>
    ensures { IfOk result
        (λ is_text. (if is_text then Some bytes.new.items else None) ≡ option_map (λ text. bytes.old.items ++ text) (joined_all (map text_of parts.now))) }
{
    for part in parts {
        if !append(part, bytes)? {
            return Ok(false);
        }
    }
    Ok(true)
}

/// Appends the bytes of a literal. Refuses for want of memory alone.
fn append_bytes(literal: &Bytes, bytes: &mut Vec<u8>) -> Result<(), NoMemory>
    ensures { OnOk result (bytes.new.items ≡ bytes.old.items ++ literal.now) }
{
    for i in 0..literal.len() {
        bytes.push(literal.get(i))?;
    }
    Ok(())
}

/// A search for one text. It is made ready once, and then goes over any number of texts.
#[derive(Drop)]
pub struct TextFinder {
    finder: Finder<'static>,
}

impl Model for TextFinder {
    ghost use Rattle.std.specs.Prelude.{List, ℕ};

    ghost Value = { List ℕ };

    ghost view = { λ t. t.finder };
}

impl TextFinder {
    /// The search for the text that a pattern is, or `None` where it is none. Refuses for want of memory alone.
    pub fn of_pattern(alloc: Global, hir: &Hir) -> Result<Option<TextFinder>, NoMemory>
        ensures { IfOk result (λ found. found ≡ text_of hir.now) }
    {
        match plain_text(alloc, hir)? {
            None => Ok(None),
            Some(bytes) => Ok(Some(TextFinder::new(bytes))),
        }
    }

    /// The search for these bytes.
    pub fn new(bytes: Vec<u8>) -> TextFinder
        ensures { result ≡ bytes.items }
    {
        TextFinder {
            finder: FinderBuilder::new().build_forward_owned(bytes),
        }
    }

    /// The bytes that are searched for.
    pub fn bytes(&self) -> &[u8]
        ensures { result.now ≡ self.now }
    {
        self.finder.needle()
    }

    /// The least place of a text, from one on, where the bytes stand. An empty text stands at every place, also at the end.
    pub fn find(&self, text: &[u8], at: usize) -> Option<usize>
        ensures least { IsOfLeast (place_found self.now text.now) at (length text.now) result }
        ensures fits { IfSome result (λ start. start + length self.now ≤ length text.now) }
    {
        if at > text.len() {
            return None;
        }
        match self.finder.find(&text[at..]) {
            None => None,
            Some(offset) => Some(at + offset),
        }
    }

    /// The span of the bytes at the least place of a text, from one on, where they stand.
    pub fn find_span(&self, text: &[u8], at: usize) -> Option<Match>
        ensures { IsOfLeast (span_found self.now text.now) at (length text.now) result }
    {
        match self.find(text, at) {
            None => None,
            Some(start) => Some(Match::new(start, start + self.bytes().len())),
        }
    }

    /// Whether the bytes stand in a text at a place from one on. Then group 0 of the slots is the least such place, and all
    /// other groups are unset; else all are.
    pub fn search(&self, text: &[u8], at: usize, slots: &mut Slots) -> bool
        requires { 0 < length slots.old }
        ensures found { IsFound (text_found self.now (length slots.old - 1) text.now) at (length text.now) result slots.new }
        ensures kept { length slots.new ≡ length slots.old }
    {
        match self.find(text, at) {
            None => {
                slots.unset_all();
                false
            }
            Some(start) => {
                slots.set_whole(start, start + self.bytes().len());
                true
            }
        }
    }
}
