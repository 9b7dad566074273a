//! A stream's replacing.

ghost use Rattle.std.specs.Prelude.{◌≡◌, ◌<◌, ◌≤◌, IsTrue, length, IfOk, IfErr, OnOk, MatchResult};
ghost use Rattle.sd_course.specs.Course.{course};
ghost use Rattle.stream_rewrite.specs.Stream.{Becomes, DoesStream, StreamFails, IsTooLongFor, IsStreamClear};

use crate::reading::read_all;
use crate::{StreamFault, write_all};
use sd_base::NoMemory;
use sd_change::{Replaces, Rewritten};
use sd_io::{Sink, Source};
use std::alloc::Global;

/// How many bytes are asked for at a time.
const PIECE: usize = 65536;

/// Reads a source to its end, and then writes the new bytes that the replacer makes of all that it gave.
///
/// Refuses with a counted fault of a stream, where more than `cap` bytes were left in the source, and for want of memory;
/// each before the first write, but for a failed write, after which a prefix of the new bytes was written.
pub fn replace_stream<S: Source, O: Sink, R: Replaces>(
    alloc: Global,
    input: &mut S,
    out: &mut O,
    replacer: &R,
    cap: u64,
) -> Result<(), StreamFault>
    ensures done { OnOk result (DoesStream (R.change replacer.now)
        (course S.tells (S.state input.old) (S.state input.new)) (course O.tells (O.state out.old) (O.state out.new))) }
    ensures fails { IfErr result (StreamFails (R.change replacer.now) cap
        (course S.tells (S.state input.old) (S.state input.new)) (course O.tells (O.state out.old) (O.state out.new))) }
    ensures too_long { IsTrue S.tells → cap < length (S.state input.old).left
        → MatchResult result (λ _. ⊥) (IsTooLongFor (course S.tells (S.state input.old) (S.state input.new))) }
    ensures complete { IsStreamClear cap (course S.tells (S.state input.old) (S.state input.new)) (course O.tells (O.state out.old) (O.state out.new))
        → IfErr result (λ fault. fault ≡ StreamFault.NoMemory) }
    ensures source_never_falls { (S.state input.old).faults ≤ (S.state input.new).faults }
    ensures sink_never_falls { (O.state out.old).faults ≤ (O.state out.new).faults }
{
    let content = read_all(alloc, input, cap, PIECE)?;
    let new_bytes = change_all(replacer, content)?;
    write_all(out, &new_bytes)?;
    Ok(())
}

/// What the bytes become, for which their own room may serve.
fn change_all<R: Replaces>(replacer: &R, content: Vec<u8>) -> Result<Vec<u8>, NoMemory>
    ensures { IfOk result (λ new. Becomes (R.change replacer.now) content.items new.items) }
{
    match replacer.rewrite(content)? {
        Rewritten::Same { bytes, .. } => Ok(bytes),
        Rewritten::Other(changed) => Ok(changed.new_bytes),
    }
}
