//! Reading a whole input as nodes: bytes by pieces that aren't kept, a text whole.
ghost use Rattle.std.specs.Prelude.{◌≡◌, ◌≤◌, ◌+◌};
ghost use Rattle.cborn_engine.specs.Common.{EngineFault, Kind};
ghost use Rattle.cborn_engine.specs.Failures.{CountsFault};
ghost use Rattle.cborn_engine.specs.devices.Encoding.{kind_of};
ghost use Rattle.cborn_engine.specs.Loading.{Loads};
ghost use Rattle.cborn_engine.specs.Reading.{most_bytes};
ghost use Rattle.cborn_engine.specs.devices.Counting.{read_failures};

use crate::faults::EngineFault;
use crate::kinds::{Kind, profile_of};
use crate::pieces::read_piece;
use crate::sources::Source;
use crate::texts::notated_nodes;
use crate::whole_inputs::read_bytes;
use cborn_lex::Profile;
use cborn_model::{Limit, Spelled};
use cborn_wire::Feeder;
use std::alloc::Global;

/// The most bytes of an input.
pub const MOST: u64 = 1 << 30;

/// The items of the whole input as they are spelled, valid or not. The input has at most 2^30
/// bytes.
///
/// # Errors
/// Those of `load_within`.
pub fn load<R: Source>(
    alloc: Global,
    limit: Limit,
    kind: Kind,
    reader: &mut R,
) -> Result<Vec<Spelled>, EngineFault>
    ensures loads { Loads kind limit most_bytes (R.remaining reader.old) (R.remaining reader.new) result }
    ensures failures { CountsFault EngineFault.ReadFault result (R.failed reader.old) (R.failed reader.new) }
    ensures calls { R.asked reader.new ≤ R.asked reader.old + most_bytes + 1 }
{
    load_within(alloc, limit, MOST, kind, reader)
}

/// The items of the whole input as they are spelled, valid or not, none deeper than `limit`, each
/// with its place in bytes from the start of the input. The input has at most `most` bytes, and
/// `most` is at most 2^30.
///
/// # Errors
/// `ReadFault` where the reader failed, which ends the reading. `TooLong` where it gave `most` + 1
/// bytes; no more are read. Else, once the input has ended, the fault of its content, at its offset
/// in bytes from the start of the input: `Wire` where bytes aren't well-formed (RFC 8949 section
/// 3), `TextInput` where a text isn't UTF-8, `Edn` where a text notates no items (RFC 8949 section
/// 8). `OutOfMemory` may come at any time.
#[tactic(auto, using(crate::proofs::Streams::Counted::read_counted))]
pub fn load_within<R: Source>(
    alloc: Global,
    limit: Limit,
    most: u64,
    kind: Kind,
    reader: &mut R,
) -> Result<Vec<Spelled>, EngineFault>
    requires { most ≤ most_bytes }
    ensures loads { Loads kind limit most (R.remaining reader.old) (R.remaining reader.new) result }
    ensures failures { CountsFault EngineFault.ReadFault result (R.failed reader.old) (R.failed reader.new) }
    ensures calls { R.asked reader.new ≤ R.asked reader.old + most + 1 }
{
    match profile_of(kind) {
        None => load_bytes(alloc, limit, most, reader),
        Some(profile) => load_text(alloc, limit, most, profile, reader),
    }
}

/// The bytes that are read at a time. They lie on the stack.
const PIECE: usize = 4096;

/// The items of bytes, of which none is kept once it was fed. After a fault the bytes are read on
/// to their end and not fed, so that a failed read and a byte too many are reported in its place.
#[tactic(auto, using(crate::proofs::Streams::Coming::at_first, crate::proofs::Streams::Feeding::none_fed))]
fn load_bytes<R: Source>(
    alloc: Global,
    limit: Limit,
    most: u64,
    reader: &mut R,
) -> Result<Vec<Spelled>, EngineFault>
    requires { most ≤ most_bytes }
    ensures loads { Loads Kind.Wire limit most (R.remaining reader.old) (R.remaining reader.new) result }
    ensures failures { R.failed reader.new ≡ read_failures result (R.failed reader.old) }
    ensures calls { R.asked reader.new ≤ R.asked reader.old + most + 1 }
{
    let mut feeder = Feeder::new(alloc, limit);
    let mut piece = [0; PIECE];
    let mut left = most;
    let mut is_refused = false;
    'pieces: loop {
        let count = read_piece(reader, &mut piece, left)?;
        if count == 0 {
            break;
        }
        left -= count as u64;
        if !is_refused {
            is_refused = feeder.feed(&piece[..count]).is_err();
        }
    }
    Ok(feeder.finish()?)
}

/// The items of a text, which is kept until they are made.
#[tactic(auto, using(crate::proofs::Answers::still, crate::proofs::Answers::loaded, crate::proofs::Answers::read_whole))]
fn load_text<R: Source>(
    alloc: Global,
    limit: Limit,
    most: u64,
    profile: Profile,
    reader: &mut R,
) -> Result<Vec<Spelled>, EngineFault>
    requires { most ≤ most_bytes }
    ensures loads { Loads (kind_of profile) limit most (R.remaining reader.old) (R.remaining reader.new) result }
    ensures failures { R.failed reader.new ≡ read_failures result (R.failed reader.old) }
    ensures calls { R.asked reader.new ≤ R.asked reader.old + most + 1 }
{
    let input = read_bytes(alloc, most, reader)?;
    notated_nodes(alloc, limit, profile, &input)
}
