//! Journals and their texts.

use journal_text::{Journal, JournalTextFault, Line, ResolvedPath, read_journal, write_journal};
use sd_base::Text;
use sd_plan::digest;
use std::alloc::Global;
use std::process::Abort;
use std::test::Fail;

const ONE_LINE: &str =
    "sd-journal 1\nba7816bf8f01cfea414140de5dae2223b00361a396177a9cb410ff61f20015ad beef /t/a b\\\\c\\nd\nend 1\n";

/// Texts of no journal: each is that of one line, or of none, with something else in it.
const NO_JOURNALS: [&str; 15] = [
    "",
    "x",
    "sd-journal 1\n",
    "sd-journal 2\nend 0\n",
    "sd-journal 1\nend 0",
    "sd-journal 1\nend 1\n",
    "sd-journal 1\nend 00\n",
    "sd-journal 1\nend 0\n\n",
    "sd-journal 1\nba7816bf8f01cfea414140de5dae2223b00361a396177a9cb410ff61f20015ad BEEF /t/x\nend 1\n",
    "sd-journal 1\nba7816bf8f01cfea414140de5dae2223b00361a396177a9cb410ff61f20015ad eef /t/x\nend 1\n",
    "sd-journal 1\nba78 beef /t/x\nend 1\n",
    "sd-journal 1\nba7816bf8f01cfea414140de5dae2223b00361a396177a9cb410ff61f20015ad beef t/x\nend 1\n",
    "sd-journal 1\nba7816bf8f01cfea414140de5dae2223b00361a396177a9cb410ff61f20015ad beef /t/../x\nend 1\n",
    "sd-journal 1\nba7816bf8f01cfea414140de5dae2223b00361a396177a9cb410ff61f20015ad beef /t\\x\nend 1\n",
    "sd-journal 1\nba7816bf8f01cfea414140de5dae2223b00361a396177a9cb410ff61f20015ad beef /\nend 1\n",
];

/// The line of `abc` at a path.
fn line_of(path: Text) -> Result<Line, Fail> {
    Ok(Line {
        digest: digest(b"abc"),
        number: 48879,
        path: ResolvedPath::new(path).ok_or("no path")?,
    })
}

/// The text of a journal of that line.
fn written(alloc: Global, path: &str) -> Result<Vec<u8>, Fail> {
    let line = line_of(Text::new(alloc, path)?)?;
    let mut journal = Journal::new(alloc);
    journal.push(line)?;
    Ok(write_journal(alloc, &journal)?)
}

/// The lines of a journal: the number and the path of each, and whether its digest is that of `abc`.
fn told(alloc: Global, journal: &Journal) -> Result<String, Fail> {
    let mut text = String::new(alloc);
    for line in journal.lines() {
        let is_abc = line.digest == digest(b"abc");
        write!(text, "{} {} {is_abc}\n", line.number, line.path.as_str())?;
    }
    Ok(text)
}

/// What is read of a text.
fn read(alloc: Global, text: &str) -> Result<String, Fail> {
    let journal = read_journal(alloc, text.as_bytes())?;
    told(alloc, &journal)
}

#[test]
fn a_journal_is_written_and_read(rt: HostRuntime) -> Result<(), Fail> {
    let text = written(rt.alloc(), "/t/a b\\c\nd")?;
    assert_eq!(rt; text.as_slice(), ONE_LINE.as_bytes());
    let read_again = read(rt.alloc(), ONE_LINE)?;
    assert_eq!(rt; read_again.as_str(), "48879 /t/a b\\c\nd true\n");
    let of_no_lines = read(rt.alloc(), "sd-journal 1\nend 0\n")?;
    assert_eq!(rt; of_no_lines.as_str(), "");
    Ok(())
}

/// Whether a text is refused as that of no journal.
fn is_refused(alloc: Global, text: &str) -> bool {
    matches!(
        read_journal(alloc, text.as_bytes()),
        Err(JournalTextFault::NotAJournal)
    )
}

#[test]
fn texts_of_no_journal_are_refused(rt: HostRuntime) {
    for text in NO_JOURNALS {
        assert!(rt; is_refused(rt.alloc(), text), "{text}");
    }
}
