//! Globs matched slowly, for the tests: a sign of a glob tries each end to which it may take a path, and goes on with
//! the signs after it. Reads globs without backslashes, and classes without ranges.

use glob_match::{glob_match, glob_valid};
use sd_base::NoMemory;
use std::alloc::Global;
use std::process::Abort;
use std::test::Fail;

/// A sign of a glob.
#[derive(Drop)]
enum Sign<'a> {
    /// A character.
    Same(char),
    /// `?`
    AnyCharacter,
    /// `[..]`
    Class { negated: bool, members: &'a [char] },
    /// `*`
    Run,
    /// `**/`
    Folders,
    /// `**` at the end.
    Rest,
    /// `{`
    Open,
    /// `,` in a brace.
    Comma,
    /// `}` of a brace.
    Close,
}

impl Sign<'_> {
    /// Whether it takes what stands between two places of a path.
    fn takes(&self, path: &[char], from: usize, to: usize) -> bool {
        let (Some(before), Some(part)) = (path.get(..to), path.get(from..to)) else {
            return false;
        };
        match self {
            Sign::Same(own) => matches!(part, [c] if c == own),
            Sign::AnyCharacter => matches!(part, [c] if *c != '/'),
            Sign::Class { negated, members } => {
                matches!(part, [c] if members.contains(c) != *negated)
            }
            Sign::Run => !part.contains(&'/'),
            Sign::Folders => matches!(before, [] | [.., '/']),
            Sign::Rest => true,
            Sign::Open | Sign::Comma | Sign::Close => part.is_empty(),
        }
    }

    /// Whether it goes on at this place of the signs after it: those of a brace's option, those after the brace, or all.
    fn goes_on_at(&self, after: &[Sign], place: usize) -> bool {
        match self {
            Sign::Open => begins_option(after, place),
            Sign::Comma => place == brace_end(after),
            _ => place == 0,
        }
    }
}

/// The place after the `}` of the brace in which these signs begin.
fn brace_end(signs: &[Sign]) -> usize {
    let mut depth: usize = 1;
    for (place, sign) in signs.iter().enumerate() {
        match sign {
            Sign::Open => depth = depth.saturating_add(1),
            Sign::Close if depth == 1 => return place + 1,
            Sign::Close => depth = depth.saturating_sub(1),
            _ => {}
        }
    }
    signs.len()
}

/// Whether an option begins here, of the brace in which these signs begin: at their start, or after a `,` whose brace
/// ends where this one does.
fn begins_option(signs: &[Sign], place: usize) -> bool {
    let (Some(before), Some(after)) = (signs.get(..place), signs.get(place..)) else {
        return false;
    };
    match before {
        [] => true,
        [.., Sign::Comma] => brace_end(signs) == place.saturating_add(brace_end(after)),
        _ => false,
    }
}

/// Whether these signs take a path from a place to its end.
fn take_rest(signs: &[Sign], path: &[char], from: usize) -> bool {
    let [sign, after @ ..] = signs else {
        return from == path.len();
    };
    for place in 0..=after.len() {
        if !sign.goes_on_at(after, place) {
            continue;
        }
        for to in from..=path.len() {
            if sign.takes(path, from, to) && take_rest(&after[place..], path, to) {
                return true;
            }
        }
    }
    false
}

/// What begins with a `*`, and how many characters after it belong to it. `starts` at the start and just after `/`.
fn stars(starts: bool, text: &[char]) -> (Sign<'static>, usize) {
    let ['*', after @ ..] = text else {
        return (Sign::Run, 0);
    };
    let tails = after
        .chunks(3)
        .take_while(|chunk| matches!(chunk, ['/', '*', '*']))
        .count();
    let size = tails.saturating_mul(3).saturating_add(1);
    match text.get(size) {
        None => (Sign::Rest, size),
        Some('/') if starts || tails > 0 => (Sign::Folders, size.saturating_add(1)),
        _ => (Sign::Run, size),
    }
}

/// What begins with a `[`, and how many characters after it belong to it, or `None` where no `]` ends it.
fn class(text: &[char]) -> Option<(Sign<'_>, usize)> {
    let (negated, body) = match text {
        ['^' | '!', body @ ..] => (true, body),
        _ => (false, text),
    };
    let others = body.get(1..)?;
    let end = others.iter().position(|c| *c == ']')?;
    let members = body.get(..end.saturating_add(1))?;
    let size = members.len() + 1 + usize::from(negated);
    Some((Sign::Class { negated, members }, size))
}

/// The sign at a place of a text, within so many braces, and how many characters after it belong to it, or `None`
/// where the glob is invalid.
fn sign_at(text: &[char], place: usize, depth: usize) -> Option<(Sign<'_>, usize)> {
    let before = text.get(..place)?;
    let [first, after @ ..] = text.get(place..)? else {
        return None;
    };
    let sign = match first {
        '*' => return Some(stars(matches!(before, [] | [.., '/']), after)),
        '[' => return class(after),
        '?' => Sign::AnyCharacter,
        '{' if depth == 10 => return None,
        '{' => Sign::Open,
        ',' if depth > 0 => Sign::Comma,
        '}' if depth > 0 => Sign::Close,
        _ => Sign::Same(*first),
    };
    Some((sign, 0))
}

/// The signs of a text, or `None` where the glob is invalid.
fn signs_of(alloc: Global, text: &[char]) -> Result<Option<Vec<Sign<'_>>>, NoMemory> {
    let mut signs = Vec::new(alloc);
    let mut depth: usize = 0;
    let mut more: usize = 0;
    for place in 0..text.len() {
        if more > 0 {
            more -= 1;
            continue;
        }
        let Some((sign, size)) = sign_at(text, place, depth) else {
            return Ok(None);
        };
        match sign {
            Sign::Open => depth = depth.saturating_add(1),
            Sign::Close => depth = depth.saturating_sub(1),
            _ => {}
        }
        signs.push(sign)?;
        more = size;
    }
    Ok(if depth == 0 { Some(signs) } else { None })
}

/// A glob that was read slowly.
#[derive(Drop)]
struct SlowGlob<'a> {
    negated: bool,
    /// None where the glob is invalid.
    signs: Option<Vec<Sign<'a>>>,
}

impl SlowGlob<'_> {
    /// Reads a glob.
    fn read(alloc: Global, glob: &[char]) -> Result<SlowGlob<'_>, NoMemory> {
        let mut negated = false;
        let mut text = glob;
        for _ in glob {
            if let ['!', after @ ..] = text {
                negated = !negated;
                text = after;
            }
        }
        Ok(SlowGlob {
            negated,
            signs: signs_of(alloc, text)?,
        })
    }

    /// Whether it is valid.
    fn is_valid(&self) -> bool {
        self.signs.is_some()
    }

    /// Whether it is valid and fits a path.
    fn fits(&self, path: &[char]) -> bool {
        match &self.signs {
            None => false,
            Some(signs) => take_rest(signs, path, 0) != self.negated,
        }
    }
}

/// How many answers were compared.
#[derive(Drop)]
struct Compared {
    fitting: usize,
    others: usize,
    invalid: usize,
}

impl Compared {
    /// Counts a glob where it is invalid.
    fn count_glob(&mut self, is_valid: bool) {
        if !is_valid {
            self.invalid = self.invalid.saturating_add(1);
        }
    }

    /// Counts an answer.
    fn count(&mut self, fits: bool) {
        if fits {
            self.fitting = self.fitting.saturating_add(1);
        } else {
            self.others = self.others.saturating_add(1);
        }
    }
}

/// The words with the numbers below this one, among those over some letters from the shortest on.
fn words(alloc: Global, letters: &[char], numbers: usize) -> Result<Vec<String>, NoMemory> {
    let mut words = Vec::new(alloc);
    for number in 0..numbers {
        words.push(word(alloc, letters, number)?)?;
    }
    Ok(words)
}

/// The word with this number.
fn word(alloc: Global, letters: &[char], number: usize) -> Result<String, NoMemory> {
    let mut word = String::new(alloc);
    let mut left = number;
    for _ in 0..10 {
        if left == 0 || letters.is_empty() {
            break;
        }
        left -= 1;
        word.push(letters[left % letters.len()])?;
        left /= letters.len();
    }
    Ok(word)
}

/// Whether the answer for a glob and a path is that of the slow reader, which is counted.
fn agrees(
    alloc: Global,
    glob: &str,
    slow: &SlowGlob<'_>,
    path: &str,
    compared: &mut Compared,
) -> Result<bool, NoMemory> {
    let characters: Vec<char> = path.chars().collect(alloc)?;
    let wanted = slow.fits(&characters);
    compared.count(wanted);
    Ok(glob_match(alloc, glob, path)? == wanted)
}

/// Whether the answers for a glob, without a path and with each of these, are those of the slow reader.
fn agrees_on_paths(
    alloc: Global,
    glob: &str,
    slow: &SlowGlob<'_>,
    paths: &[String],
    compared: &mut Compared,
) -> Result<bool, NoMemory> {
    if glob_valid(glob) != slow.is_valid() {
        return Ok(false);
    }
    for path in paths {
        if !agrees(alloc, glob, slow, path.as_str(), compared)? {
            return Ok(false);
        }
    }
    Ok(true)
}

/// Reads a glob slowly, and tells whether the answers for it are those of the slow reader.
fn agrees_at(
    alloc: Global,
    glob: &str,
    paths: &[String],
    compared: &mut Compared,
) -> Result<bool, NoMemory> {
    let characters: Vec<char> = glob.chars().collect(alloc)?;
    let slow = SlowGlob::read(alloc, &characters)?;
    compared.count_glob(slow.is_valid());
    agrees_on_paths(alloc, glob, &slow, paths, compared)
}

/// The first of these globs of which an answer is not that of the slow reader.
fn first_unlike<'a>(
    alloc: Global,
    globs: &'a [String],
    paths: &[String],
    compared: &mut Compared,
) -> Result<Option<&'a str>, NoMemory> {
    for glob in globs {
        if !agrees_at(alloc, glob.as_str(), paths, compared)? {
            return Ok(Some(glob.as_str()));
        }
    }
    Ok(None)
}

/// Whether these are the last of the words.
fn are_last(globs: &[String], glob: &str, paths: &[String], path: &str) -> bool {
    match (globs, paths) {
        ([.., last_glob], [.., last_path]) => {
            last_glob.as_str() == glob && last_path.as_str() == path
        }
        _ => false,
    }
}

/// Compares the answers for each of these globs and each of these paths.
fn compare(
    rt: &(impl Abort + AllocGlobal),
    globs: &[String],
    paths: &[String],
    wanted: usize,
) -> Result<(), Fail> {
    let mut compared = Compared {
        fitting: 0,
        others: 0,
        invalid: 0,
    };
    assert_eq!(rt;
        first_unlike(rt.alloc(), globs, paths, &mut compared)?,
        None
    );
    assert!(rt; compared.fitting.saturating_add(compared.others) == wanted);
    assert!(rt; compared.fitting > 0 && compared.others > 0 && compared.invalid > 0);
    Ok(())
}

#[test]
fn short_globs_fit_as_slowly(rt: HostRuntime) -> Result<(), Fail> {
    let signs = ['a', '/', '*', '?', '{', ',', '}', '!', '[', ']'];
    let globs = words(rt.alloc(), &signs, 11111)?;
    let paths = words(rt.alloc(), &['a', 'b', '/'], 121)?;
    assert!(rt; are_last(&globs, "]]]]", &paths, "////"));
    compare(&rt, &globs, &paths, 11111 * 121)
}

#[test]
fn stars_and_braces_fit_as_slowly(rt: HostRuntime) -> Result<(), Fail> {
    let signs = ['a', '/', '*', '{', ',', '}'];
    let globs = words(rt.alloc(), &signs, 55987)?;
    let paths = words(rt.alloc(), &['a', '/'], 63)?;
    assert!(rt; are_last(&globs, "}}}}}}", &paths, "/////"));
    compare(&rt, &globs, &paths, 55987 * 63)
}
