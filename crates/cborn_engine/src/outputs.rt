//! Writing a whole answer.
ghost use Rattle.std.specs.Prelude.{◌≡◌};
ghost use Rattle.cborn_engine.specs.Common.{OnOk};
ghost use Rattle.cborn_engine.specs.Failures.{failures_after};
ghost use Rattle.cborn_engine.specs.Writing.{Sends};

use crate::faults::EngineFault;
use crate::sinks::Sink;

/// Writes all bytes, and then flushes once, even if there are none. Where that fails, or a write takes
/// nothing, a front of the bytes was written, which may be all of them.
#[tactic(auto, using(crate::proofs::Streams::Written::no_progress, crate::proofs::Streams::Written::sent_on, crate::proofs::Streams::Written::front_out, crate::proofs::Streams::Written::no_failure, crate::proofs::Streams::Written::rest_after))]
pub fn write_answer<W: Sink>(writer: &mut W, bytes: &[u8]) -> Result<(), EngineFault>
    ensures writes { Sends (W.contents writer.old) (W.contents writer.new) bytes.now result }
    ensures failures { W.failed writer.new ≡ failures_after result (W.failed writer.old) }
    ensures flushed { OnOk result (W.unflushed writer.new ≡ 0) }
{
    let mut sent = 0;
    while sent < bytes.len() {
        let count = match writer.write_some(&bytes[sent..]) {
            Ok(count) => count,
            Err(_) => return Err(EngineFault::WriteFault),
        };
        if count == 0 {
            return Err(EngineFault::WriteFault);
        }
        sent += count;
    }
    match writer.flush_all() {
        Ok(()) => Ok(()),
        Err(_) => Err(EngineFault::WriteFault),
    }
}
