//! The reading of a stream to its end.

ghost use Rattle.std.specs.Prelude.{◌<◌, ◌≤◌, IsTrue, length, IfOk, IfErr};
ghost use Rattle.sd_course.specs.Course.{course};
ghost use Rattle.stream_rewrite.specs.Reading.{ReadsAll, ReadFails};

use crate::StreamFault;
use sd_io::Source;
use std::alloc::Global;

/// Reads all that is left in a source, where that is at most `cap` bytes, and asks for so many at a time. Refuses with a
/// counted fault of the source, where it gives more, or for want of memory.
pub(crate) fn read_all<S: Source>(
    alloc: Global,
    input: &mut S,
    cap: u64,
    at_a_time: usize,
) -> Result<Vec<u8>, StreamFault>
    requires { 0 < at_a_time }
    ensures read { IsTrue S.tells → IfOk result (λ content. ReadsAll (S.state input.old) content.items (S.state input.new)) }
    ensures within { IfOk result (λ content. length content.items ≤ cap) }
    ensures fails { IfErr result (ReadFails cap (course S.tells (S.state input.old) (S.state input.new))) }
    ensures never_falls { (S.state input.old).faults ≤ (S.state input.new).faults }
{
    let mut piece = vec![in alloc; 0; at_a_time]?;
    read_pieces(alloc, input, cap, &mut piece)
}

/// The same, with room for a piece.
fn read_pieces<S: Source>(
    alloc: Global,
    input: &mut S,
    cap: u64,
    piece: &mut [u8],
) -> Result<Vec<u8>, StreamFault>
    requires { 0 < length piece.old }
    ensures read { IsTrue S.tells → IfOk result (λ content. ReadsAll (S.state input.old) content.items (S.state input.new)) }
    ensures within { IfOk result (λ content. length content.items ≤ cap) }
    ensures fails { IfErr result (ReadFails cap (course S.tells (S.state input.old) (S.state input.new))) }
    ensures never_falls { (S.state input.old).faults ≤ (S.state input.new).faults }
{
    let mut content = Vec::new(alloc);
    'pieces: loop {
        let given = input.read(piece)?;
        if given == 0 {
            return Ok(content);
        }
        content.extend_from_slice(&piece[..given])?;
        if content.len() as u64 > cap {
            return Err(StreamFault::InputTooLong);
        }
    }
}
