//! Reading a source to its end, up to a limit.

ghost use Rattle.std.specs.Prelude.{◌≡◌, ◌<◌, ◌≤◌, List, ℕ, length, IfOk, IsErrOf};
ghost use Rattle.gql_streams.specs.Causes.{SourceFails};
ghost use Rattle.gql_streams.specs.Reading.{ReadsAll, GivesMore};

use crate::outside::Source;
use std::alloc::Global;

/// The bytes that one call of `read` is asked for.
const PIECE: usize = 65_536;

/// Why a source was not read to its end.
#[derive(Clone, Copy, Debug, PartialEq, Eq)]
pub enum ReadFault {
    /// The source failed.
    Failed,
    /// The source gave a byte after the limit.
    TooLong,
    OutOfMemory,
}

/// Reads all that is left, which may be `limit` bytes. It calls `read` at most `limit + 2` times, since each call but
/// the last takes a byte.
pub fn read_all<S: Source>(alloc: Global, input: &mut S, limit: u32) -> Result<Vec<u8>, ReadFault>
    ensures all { IfOk result (λ bytes.
        ReadsAll (S.state input.old) (S.state input.new) bytes.items) }
    ensures within { IfOk result (λ bytes. length bytes.items ≤ limit) }
    ensures later { (S.state input.old).faults ≤ (S.state input.new).faults }
    ensures failed { IsErrOf result ReadFault.Failed →
        SourceFails (S.state input.old) (S.state input.new) }
    ensures too_long { IsErrOf result ReadFault.TooLong →
        GivesMore (S.state input.old) (S.state input.new) limit }
{
    let limit = limit as usize;
    let mut bytes = Vec::new(alloc);
    let mut piece = [0u8; PIECE];
    for _turn in 0..limit + 2 {
        let Ok(count) = input.read(&mut piece) else {
            return Err(ReadFault::Failed);
        };
        if count == 0 {
            return Ok(bytes);
        }
        if limit - bytes.len() < count {
            return Err(ReadFault::TooLong);
        }
        let Ok(()) = bytes.extend_from_slice(&piece[..count]) else {
            return Err(ReadFault::OutOfMemory);
        };
    }
    unreachable!()
}
