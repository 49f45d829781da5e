//! A source, read to its end.
ghost use Rattle.std.specs.Prelude.{IfOk, IfErr};
ghost use Rattle.rec_container.specs.Within.{Gave, Unread};

use crate::streams::Source;
use std::alloc::{AllocError, AllocFailed, Global};
use thiserror::Error;

const PIECE: usize = 4096;

/// Says why the bytes of a source were not read.
#[derive(Clone, Copy, Debug, Error)]
pub enum ReadError {
    /// The source failed.
    #[error("the source failed")]
    SourceFault,
    /// The source has more bytes than the limit.
    #[error("the source has more than {limit} bytes")]
    TooLarge {
        /// The limit.
        limit: u64,
    },
    /// Memory ran out.
    #[error("out of memory")]
    OutOfMemory,
}

impl From<AllocError> for ReadError {
    ghost use Rattle.std.specs.Prelude.{◌≡◌};
    ghost use Rattle.rec_container.specs.declared.within.ReadError.TheVariants.{OutOfMemory};

    ghost from_gives = { λ _ e. e ≡ OutOfMemory };

    fn from(_error: AllocError) -> ReadError {
        ReadError::OutOfMemory
    }
}

/// Reads the source to its end, within a limit. It asks for at most `limit + 1` bytes.
///
/// # Errors
///
/// `SourceFault` means that a read failed before more bytes than the limit had come. `TooLarge`
/// means that one byte more than the limit came, and no read failed. `OutOfMemory` means that there
/// was no memory for the bytes; at most one byte more than the limit came, and no read failed.
pub fn read_within<S: Source>(
    alloc: Global,
    limit: u64,
    source: &mut S,
) -> Result<Vec<u8>, ReadError>
    ensures ok { IfOk result
        (λ bytes. Gave S.left S.faults limit source.old source.new bytes.items) }
    ensures err { IfErr result (Unread S.left S.faults limit source.old source.new) }
{
    let mut bytes = Vec::new(alloc);
    let mut piece = [0u8; PIECE];
    'pieces: while bytes.len() as u64 <= limit {
        let ask = (limit - bytes.len() as u64).min(PIECE as u64 - 1) as usize + 1;
        let window = &mut piece[..ask];
        match source.read(window) {
            Err(_) => return Err(ReadError::SourceFault),
            Ok(0) => return Ok(bytes),
            Ok(count) => bytes.extend_from_slice(&window[..count])?,
        }
    }
    Err(ReadError::TooLarge { limit })
}
