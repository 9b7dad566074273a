//! What named files would become, shown.

ghost use Rattle.std.specs.Prelude.{◌≡◌, ◌≤◌, ◌++◌, ℕ, List, IsTrue, IfOk, IfErr, OnOk, MatchResult, codes};
ghost use Rattle.sd_io.specs.Disk.{SameTree, SameLists};
ghost use Rattle.sd_course.specs.Course.{course};
ghost use Rattle.file_rewrite.specs.Paths.{IsNoPath};
ghost use Rattle.named_files.specs.Clear.{IsFirstUnshown, IsPreviewClear};
ghost use Rattle.named_files.specs.Preview.{are_many, have_headers, header_where, HasText, IsUnread, Shows, ShowsNot, DoesPreview, PreviewFails, AnswersNoPath};

use crate::PreviewFault;
use file_rewrite::is_no_path;
use sd_base::{NoMemory, Text};
use sd_change::Replaces;
use sd_io::{Disk, Sink};
use std::alloc::Global;
use stream_rewrite::write_all;

/// Writes what each of the named files would become, in their order, and changes nothing on the disk. A file that is empty, or
/// has nothing to replace, is left out. Every other is written with its new bytes and a newline, after a line with its path
/// where more than one was named.
///
/// Refuses `File` with a counted fault of the disk or the sink, or where no regular file stands at a path; `InvalidPath` where
/// a path names no file; and for want of memory. The first fault ends it. The texts of the files before it were written, and
/// after a fault of the sink a prefix of one more. Where nothing stands in the way, it refuses for want of memory alone.
pub fn preview_named<D: Disk, O: Sink, R: Replaces>(
    alloc: Global,
    disk: &mut D,
    out: &mut O,
    paths: Vec<Text>,
    replacer: &R,
) -> Result<(), PreviewFault>
    ensures done { OnOk result (DoesPreview (R.change replacer.now) paths.items
        (course D.tells (D.state disk.old) (D.state disk.new)) (course O.tells (O.state out.old) (O.state out.new))) }
    ensures fails { IfErr result (PreviewFails (R.change replacer.now) paths.items
        (course D.tells (D.state disk.old) (D.state disk.new)) (course O.tells (O.state out.old) (O.state out.new))) }
    ensures tree { SameTree (D.state disk.old) (D.state disk.new) }
    ensures lists { SameLists (D.state disk.old) (D.state disk.new) }
    ensures disk_never_falls { (D.state disk.old).faults ≤ (D.state disk.new).faults }
    ensures sink_never_falls { (O.state out.old).faults ≤ (O.state out.new).faults }
    ensures no_path { IsTrue D.tells → (path : List ℕ) → IsFirstUnshown paths.items (D.state disk.old).tree path → IsNoPath path
        → MatchResult result (λ _. ⊥) (AnswersNoPath
        (course D.tells (D.state disk.old) (D.state disk.new)) (course O.tells (O.state out.old) (O.state out.new)) path) }
    ensures complete { IsPreviewClear paths.items (course D.tells (D.state disk.old) (D.state disk.new)) (course O.tells (O.state out.old) (O.state out.new))
        → IfErr result (λ fault. fault ≡ PreviewFault.NoMemory) }
{
    let headers = headers_for(&paths);
    for path in paths {
        if is_no_path(path.as_str()) {
            return Err(PreviewFault::InvalidPath(path));
        }
        show(alloc, disk, out, replacer, headers, path.as_str())?;
    }
    Ok(())
}

/// Whether the text of a file has a line before it that names it.
#[derive(Clone, Copy)]
enum Headers {
    Written,
    LeftOut,
}

/// Written where more than one file is named.
fn headers_for(paths: &[Text]) -> Headers
    ensures { have_headers result ≡ are_many paths.now }
{
    match paths {
        [_, _, ..] => Headers::Written,
        _ => Headers::LeftOut,
    }
}

/// Writes the text of one file.
fn show<D: Disk, O: Sink, R: Replaces>(
    alloc: Global,
    disk: &mut D,
    out: &mut O,
    replacer: &R,
    headers: Headers,
    path: &str,
) -> Result<(), PreviewFault>
    ensures shown { OnOk result (Shows (R.change replacer.now) (have_headers headers) path.now
        (course D.tells (D.state disk.old) (D.state disk.new)) (course O.tells (O.state out.old) (O.state out.new))) }
    ensures fails { IfErr result (ShowsNot (R.change replacer.now) (have_headers headers) path.now
        (course D.tells (D.state disk.old) (D.state disk.new)) (course O.tells (O.state out.old) (O.state out.new))) }
    ensures tree { SameTree (D.state disk.old) (D.state disk.new) }
    ensures lists { SameLists (D.state disk.old) (D.state disk.new) }
    ensures disk_never_falls { (D.state disk.old).faults ≤ (D.state disk.new).faults }
    ensures sink_never_falls { (O.state out.old).faults ≤ (O.state out.new).faults }
{
    let text = text_of_file(alloc, disk, replacer, headers, path)?;
    write_all(out, &text)?;
    Ok(())
}

/// The text of one file: nothing where it is empty, or has nothing to replace.
fn text_of_file<D: Disk, R: Replaces>(
    alloc: Global,
    disk: &mut D,
    replacer: &R,
    headers: Headers,
    path: &str,
) -> Result<Vec<u8>, PreviewFault>
    ensures text { IsTrue D.tells → IfOk result (λ text. HasText (R.change replacer.now) (have_headers headers) (D.state disk.old).tree path.now text.items) }
    ensures cause { IfErr result (IsUnread (course D.tells (D.state disk.old) (D.state disk.new)) path.now) }
    ensures tree { SameTree (D.state disk.old) (D.state disk.new) }
    ensures lists { SameLists (D.state disk.old) (D.state disk.new) }
    ensures never_falls { (D.state disk.old).faults ≤ (D.state disk.new).faults }
{
    let bytes = disk.read_file(alloc, path)?;
    if bytes.is_empty() {
        return Ok(Vec::new(alloc));
    }
    match replacer.change(&bytes)? {
        None => Ok(Vec::new(alloc)),
        Some(changed) => Ok(with_header(alloc, headers, path, &changed.new_bytes)?),
    }
}

/// The new bytes of a file and a newline, after its header.
fn with_header(
    alloc: Global,
    headers: Headers,
    path: &str,
    new_bytes: &[u8],
) -> Result<Vec<u8>, NoMemory>
    ensures { IfOk result (λ text. text.items ≡ header_where (have_headers headers) path.now ++ new_bytes.now ++ codes "\n") }
{
    let mut text = header(alloc, headers, path)?;
    text.extend_from_slice(new_bytes)?;
    text.extend_from_slice(b"\n")?;
    Ok(text)
}

/// The line that names a file, or nothing.
fn header(alloc: Global, headers: Headers, path: &str) -> Result<Vec<u8>, NoMemory>
    ensures { IfOk result (λ line. line.items ≡ header_where (have_headers headers) path.now) }
{
    let mut line = Vec::new(alloc);
    match headers {
        Headers::LeftOut => {}
        Headers::Written => {
            line.extend_from_slice(b"----- FILE ")?;
            line.extend_from_slice(path.as_bytes())?;
            line.extend_from_slice(b" -----\n")?;
        }
    }
    Ok(line)
}
