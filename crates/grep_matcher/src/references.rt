//! References to groups in a replacement text.

ghost use Rattle.std.specs.Prelude.{◌≡◌, ◌≢◌, ◌++◌, ◌+◌, ◌≤◌, ◌<◌, ℕ, [], IfOk, IfSome, OnOk, OnErr, MatchOption, Option, Some, List, length, drop, option_map, slice_get, slice_index};
ghost use Rattle.std.specs.List.{prefix_len};
ghost use Rattle.grep_matcher.specs.References as form;
ghost use Rattle.grep_matcher.specs.References.{Adds, Looks, Appends, Answers, Keeps};
ghost use Rattle.grep_matcher.specs.CaptureRefs.{target_of, reference_of};
ghost use Rattle.grep_matcher.specs.Replaced.{Extends};
ghost use Rattle.grep_matcher.specs.Reached.{Reached};

use memchr::memchr;
use sd_base::NoMemory;
use std::str::from_utf8;

/// A reference to a group at the front of a replacement text.
///
/// In `${12}th` it is the group 12, and takes five bytes.
#[derive(Clone, Copy, Debug, Eq, PartialEq)]
pub struct CaptureRef<'a> {
    /// What the reference names.
    pub cap: Ref<'a>,
    /// The number of bytes that the reference takes, with `$` and the braces.
    pub end: usize,
}

/// What a reference names: a group by its name or by its number.
///
/// `$year` names a group `year`, `$1` the group 1, and `$1a` a group `1a`.
#[derive(Clone, Copy, Debug, Eq, PartialEq)]
pub enum Ref<'a> {
    /// A group's name.
    Named(&'a str),
    /// A group's number.
    Number(usize),
}

impl<'a> From<&'a str> for Ref<'a> {
    ghost from_gives = { λ name made. target_of made ≡ form.named name.now };

    /// A group by its name, also where the name reads as a number.
    fn from(name: &'a str) -> Ref<'a> {
        Ref::Named(name)
    }
}

impl From<usize> for Ref<'_> {
    ghost from_gives = { λ number made. target_of made ≡ form.number number };

    /// A group by its number.
    fn from(number: usize) -> Self {
        Ref::Number(number)
    }
}

/// Adds a replacement text to `dst`, with each reference replaced by what `append` adds for its group.
///
/// `$$` becomes `$`. `$name` and `${name}` are references, where a name is a run of letters, digits and `_`, the longest
/// that stands there. A name that reads as a number below 2 ^ 32 is a group's number, and any other is given to
/// `name_to_index`. A name without a number becomes nothing. Any other `$` is itself.
///
/// Refuses where `append` does, or where memory is out. What `dst` held at entry is kept at its front.
///
/// With a group 1 of the text `May`, `in $1: $$5 ($x)` becomes `in May: $5 ()`.
pub fn interpolate<A, N>(
    replacement: &[u8],
    mut append: A,
    mut name_to_index: N,
    dst: &mut Vec<u8>,
) -> Result<(), NoMemory>
where
    A: FnMut(usize, &mut Vec<u8>) -> Result<(), NoMemory>,
    N: FnMut(&str) -> Option<usize>,
    requires appends { A.IsAlwaysCallable append }
    requires answers { N.IsAlwaysCallable name_to_index }
    requires keeps { Keeps A.step (λ d. d.now.items) append }
    ensures expanded { OnOk result ((text_of : ℕ → List ℕ) (number_of : List ℕ → Option ℕ) → Appends A.step (λ d. d.now.items) append text_of → Answers N.step (λ name. name.now) name_to_index number_of
        → dst.new.items ≡ dst.old.items ++ form.expand text_of number_of replacement.now) }
    ensures kept { OnErr result (Extends dst.old.items dst.new.items) }
{
    let mut rest = replacement;
    while let Some(place) = memchr(b'$', rest) {
        let (before, front) = rest.split_at(place);
        dst.extend_from_slice(before)?;
        let taken = append_front(front, &mut append, &mut name_to_index, dst)?;
        rest = &front[taken..];
    }
    dst.extend_from_slice(rest)?;
    Ok(())
}

/// Adds what stands at the front of a text that begins with `$`, and answers the number of bytes that it takes.
fn append_front<A, N>(
    text: &[u8],
    append: &mut A,
    name_to_index: &mut N,
    dst: &mut Vec<u8>,
) -> Result<usize, NoMemory>
where
    A: FnMut(usize, &mut Vec<u8>) -> Result<(), NoMemory>,
    N: FnMut(&str) -> Option<usize>,
    requires dollar { slice_get text.now 0 ≡ Some 36 }
    requires appends { A.IsAlwaysCallable append.old }
    requires answers { N.IsAlwaysCallable name_to_index.old }
    requires keeps { Keeps A.step (λ d. d.now.items) append.old }
    ensures taken { IfOk result (λ taken. taken ≡ (form.front 36 (drop 1 text.now)).width) }
    ensures within { IfOk result (λ taken. taken ≤ length text.now) }
    ensures added { OnOk result ((text_of : ℕ → List ℕ) (number_of : List ℕ → Option ℕ) → Appends A.step (λ d. d.now.items) append.old text_of → Answers N.step (λ name. name.now) name_to_index.old number_of
        → dst.new.items ≡ dst.old.items ++ form.meaning text_of number_of (form.front 36 (drop 1 text.now)).piece) }
    ensures kept { Extends dst.old.items dst.new.items }
    ensures appends_on { OnOk result (A.IsAlwaysCallable append.new) }
    ensures answers_on { OnOk result (N.IsAlwaysCallable name_to_index.new) }
    ensures adding { OnOk result (Reached (Adds A.step) append.old append.new) }
    ensures looking { OnOk result (Reached (Looks N.step) name_to_index.old name_to_index.new) }
{
    let Some(reference) = find_cap_ref(text) else {
        dst.push(b'$')?;
        return Ok(dollars(text));
    };
    append_group(reference.cap, append, name_to_index, dst)?;
    Ok(reference.end)
}

/// How many bytes of a text that begins with `$`, and with no reference, stand for one `$`: two for `$$`.
fn dollars(text: &[u8]) -> usize
    ensures taken { result ≡ (form.dollars_or_byte 36 (drop 1 text.now)).width }
    ensures within { 0 < length text.now → result ≤ length text.now }
{
    if text.get(1) == Some(&b'$') { 2 } else { 1 }
}

/// Adds the text of a group, or nothing for a name without a number.
fn append_group<A, N>(
    group: Ref<'_>,
    append: &mut A,
    name_to_index: &mut N,
    dst: &mut Vec<u8>,
) -> Result<(), NoMemory>
where
    A: FnMut(usize, &mut Vec<u8>) -> Result<(), NoMemory>,
    N: FnMut(&str) -> Option<usize>,
    requires appends { A.IsAlwaysCallable append.old }
    requires answers { N.IsAlwaysCallable name_to_index.old }
    requires keeps { Keeps A.step (λ d. d.now.items) append.old }
    ensures added { OnOk result ((text_of : ℕ → List ℕ) (number_of : List ℕ → Option ℕ) → Appends A.step (λ d. d.now.items) append.old text_of → Answers N.step (λ name. name.now) name_to_index.old number_of
        → dst.new.items ≡ dst.old.items ++ form.meaning text_of number_of (form.group (target_of group.entry))) }
    ensures kept { Extends dst.old.items dst.new.items }
    ensures appends_on { A.IsAlwaysCallable append.new }
    ensures answers_on { N.IsAlwaysCallable name_to_index.new }
    ensures adding { Reached (Adds A.step) append.old append.new }
    ensures looking { Reached (Looks N.step) name_to_index.old name_to_index.new }
{
    match group {
        Ref::Number(number) => append(number, dst),
        Ref::Named(name) => match name_to_index(name) {
            Some(number) => append(number, dst),
            None => Ok(()),
        },
    }
}

/// Reads the reference at the front of a replacement text. Answers `None` where neither `$name` nor `${name}` stands
/// there.
///
/// `$42a` is a reference to the name `42a` and takes four bytes. `${42}a` is one to the group 42 and takes five. There
/// is none in `${42`, in `$$` and in `a$1`.
pub fn find_cap_ref(replacement: &[u8]) -> Option<CaptureRef<'_>>
    ensures read { option_map reference_of result ≡ form.reference_at replacement.now }
    ensures within { IfSome result (λ reference. (2 ≤ reference.end) × (reference.end ≤ length replacement.now)) }
{
    let text = replacement.strip_prefix(b"$")?;
    match text.strip_prefix(b"{") {
        Some(text) => find_braced(text),
        None => {
            let name = name_at(text)?;
            Some(CaptureRef {
                cap: target(name),
                end: name.len() + 1,
            })
        }
    }
}

/// Reads a reference after its `${`.
fn find_braced(text: &[u8]) -> Option<CaptureRef<'_>>
    ensures read { option_map reference_of result ≡ form.braced text.now }
    ensures within { IfSome result (λ reference. (2 ≤ reference.end) × (reference.end ≤ length text.now + 2)) }
{
    let name = name_at(text)?;
    if text.get(name.len()) != Some(&b'}') {
        return None;
    }
    Some(CaptureRef {
        cap: target(name),
        end: name.len() + 3,
    })
}

/// The name at the front of a text, if there is one: its longest run of word bytes. So it doesn't begin with `+`, which
/// a number may.
fn name_at(text: &[u8]) -> Option<&str>
    ensures { MatchOption result (form.name_at text.now ≡ []) (λ name. (name.now ≡ form.name_at text.now) × (0 < length name.now) × (slice_index name.now 0 ≢ 43)) }
{
    match name_len(text) {
        0 => None,
        len => from_utf8(&text[..len]).ok(),
    }
}

/// How many word bytes stand at the front of a text.
fn name_len(text: &[u8]) -> usize
    ensures counted { result ≡ prefix_len form.is_word text.now }
    ensures within { result ≤ length text.now }
{
    text.iter().take_while(|byte| is_word(**byte)).count()
}

/// What a name names: a number where it reads as one below 2 ^ 32.
fn target(name: &str) -> Ref<'_>
    requires not_empty { 0 < length name.now }
    requires no_plus { slice_index name.now 0 ≢ 43 }
    ensures { target_of result ≡ form.target name.now }
{
    match name.parse::<u32>() {
        Ok(number) => Ref::Number(number as usize),
        Err(_) => Ref::Named(name),
    }
}

fn is_word(byte: u8) -> bool
    ensures { result ≡ form.is_word byte }
{
    byte.is_ascii_alphanumeric() || byte == b'_'
}
