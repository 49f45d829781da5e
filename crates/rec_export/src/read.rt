//! The session, from its source.
ghost use Rattle.std.specs.Prelude.{IfOk, IfErr};
ghost use Rattle.rec_container.specs.Within.{Gave};
ghost use Rattle.rec_export.specs.Reading.{Unread};

use rec_container::{ReadError, Source, read_within};
use rec_errors::RecordExportError;
use std::alloc::Global;

/// Reads the source to its end. It asks for at most `limit + 1` bytes.
///
/// # Errors
///
/// `SourceFault` comes where the source failed, `SessionTooLarge` where it gave `limit + 1` bytes,
/// and `OutOfMemory` where memory ran out. In the last two cases the source had not failed.
pub fn read_session<S: Source>(
    alloc: Global,
    limit: u64,
    source: &mut S,
) -> Result<Vec<u8>, RecordExportError>
    ensures ok { IfOk result
        (λ session. Gave S.left S.faults limit source.old source.new session.items) }
    ensures err { IfErr result (Unread S.left S.faults limit source.old source.new) }
{
    match read_within(alloc, limit, source) {
        Ok(session) => Ok(session),
        Err(ReadError::SourceFault) => Err(RecordExportError::SourceFault),
        Err(ReadError::TooLarge { limit }) => Err(RecordExportError::SessionTooLarge { limit }),
        Err(ReadError::OutOfMemory) => Err(RecordExportError::OutOfMemory),
    }
}
