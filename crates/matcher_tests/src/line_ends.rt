//! What ends a line.

use crate::values::prints_as;
use grep_matcher::LineTerminator;
use std::test::Fail;

/// Whether the ends of lines are told apart.
fn are_told_apart(newline: LineTerminator, crlf: LineTerminator) -> bool {
    newline == LineTerminator::byte(b'\n')
        && newline != crlf
        && crlf.is_crlf()
        && !newline.is_crlf()
        && !LineTerminator::byte(b'\r').is_crlf()
}

/// Whether the bytes of the ends of lines are theirs.
fn have_their_bytes(newline: LineTerminator, crlf: LineTerminator) -> bool {
    newline.as_bytes() == b"\n".as_slice()
        && crlf.as_bytes() == b"\r\n".as_slice()
        && crlf.as_byte() == b'\n'
        && LineTerminator::byte(0).as_byte() == 0
}

/// Whether it is told which lines have their end.
fn end_lines(crlf: LineTerminator) -> bool {
    crlf.is_suffix(b"a\n")
        && crlf.is_suffix(b"a\r\n")
        && !crlf.is_suffix(b"")
        && !crlf.is_suffix(b"a\r")
        && LineTerminator::byte(0).is_suffix(&[7, 0])
}

#[test]
fn lines_end(rt: HostRuntime) {
    let newline = LineTerminator::default();
    let crlf = LineTerminator::crlf();
    assert!(rt; are_told_apart(newline, crlf));
    assert!(rt; have_their_bytes(newline, crlf));
    assert!(rt; end_lines(crlf));
}

#[test]
fn prints(rt: HostRuntime) -> Result<(), Fail> {
    let newline = LineTerminator::default();
    assert!(rt; prints_as(rt.alloc(), &newline, "LineTerminator(Byte(10))")?);
    Ok(())
}
