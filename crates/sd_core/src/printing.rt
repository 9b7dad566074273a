//! The printing of a report. No memory is taken for it.

ghost use Rattle.std.specs.Prelude.{◌≡◌, ◌+◌, ◌≤◌, true, [], ◌++◌, length, IsTrue, OnOk, OnErr, IsErr};
ghost use Rattle.sd_io.specs.Count.{HasRisen};
ghost use Rattle.sd_course.specs.Course.{AppendsPrefix};
ghost use Rattle.sd_core.specs.Report as form;

use itoa::Buffer;
use many_files::Report;
use sd_io::{Failed, Sink};
use std::marker::Model;
use stream_rewrite::write_all;

/// The room for a report's line: its three numbers have at most 39 digits each, and its words 29 bytes.
const LINE_ROOM: usize = 160;

/// A text in a buffer of its own. Contracts see its bytes.
#[derive(Drop)]
struct Line {
    bytes: [u8; LINE_ROOM],
    len: usize,
}

impl Model for Line {
    ghost use Rattle.std.specs.Prelude.{List, ℕ, ◌≤◌, take};

    ghost Value = { List ℕ };

    ghost view = { λ line. take line.len line.bytes };

    ghost invariant = { λ line. line.len ≤ 160 };
}

impl Line {
    fn new() -> Line
        ensures { result ≡ [] }
    {
        Line {
            bytes: [0; LINE_ROOM],
            len: 0,
        }
    }

    fn as_bytes(&self) -> &[u8]
        ensures { result.now ≡ self.now }
    {
        &self.bytes[..self.len]
    }

    fn push(&mut self, text: &str)
        requires { length self.old + length text.now ≤ 160 }
        ensures { self.new ≡ self.old ++ text.now }
    {
        let end = self.len + text.len();
        self.bytes[self.len..end].copy_from_slice(text.as_bytes());
        self.len = end;
    }
}

/// A report's line.
fn line_of(report: &Report) -> Line
    ensures { result ≡ form.line_of report.now }
{
    let mut digits = Buffer::new();
    let mut line = Line::new();
    line.push("chosen ");
    line.push(digits.format(report.chosen));
    line.push(", changed ");
    line.push(digits.format(report.changed));
    line.push(", replaced ");
    line.push(digits.format(report.replaced));
    line.push("\n");
    line
}

/// Prints a report's line. Refuses with a counted fault of the sink alone, after a prefix of the line.
pub fn print_report<O: Sink>(out: &mut O, report: &Report) -> Result<(), Failed>
    ensures printed { IsTrue O.tells → OnOk result ((O.state out.new).held ≡ (O.state out.old).held ++ form.line_of report.now) }
    ensures refused { IsTrue O.tells → OnErr result (AppendsPrefix (O.state out.old).held (form.line_of report.now) (O.state out.new).held) }
    ensures never_falls { (O.state out.old).faults ≤ (O.state out.new).faults }
    ensures cause { IsErr result → HasRisen (O.state out.old).faults (O.state out.new).faults }
{
    write_all(out, line_of(report).as_bytes())
}
