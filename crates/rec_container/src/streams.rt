//! Where bytes come from and where they go.
//!
//! An implementation counts its faults, and answers an error only where that count rises. So a
//! caller that gets a fault can show that there was one.
ghost use Rattle.std.specs.declared.option.Option.{Option};
ghost use Rattle.std.specs.Io.KnownBytes.{Appends, ReadConsumes, WriteAppends};
ghost use Rattle.std.specs.Io.{ReadsAtMost};
ghost use Rattle.std.specs.Prelude.{◌≡◌, ◌<◌, ◌≤◌, List, ℕ, length, IfOk, OnOk, OnErr};
ghost use Rattle.rec_container.specs.Causes.{HasCause};
ghost use Rattle.rec_container.specs.Taking.{TookPart};

use thiserror::Error;

/// Says that a read failed.
#[derive(Debug, Drop, Error)]
#[error("the source failed")]
pub struct SourceFailed;

/// Says that a write failed.
#[derive(Debug, Drop, Error)]
#[error("the sink failed")]
pub struct SinkFailed;

/// Gives bytes, piece by piece.
pub trait Source {
    /// Names the bytes that are left, where they are known.
    ghost left: { Self → Option (List ℕ) };

    /// Counts how often it has failed. The count stays at u64's greatest once it is there.
    ghost faults: { Self → ℕ };

    /// Moves the first bytes that are left to the start of `buf`, and answers how many.
    ///
    /// With room in `buf`, 0 means that nothing is left. A read that doesn't fail counts no fault.
    ///
    /// # Errors
    ///
    /// `SourceFailed` means that the source failed: its count of faults rose, and all bytes that
    /// were left still are.
    fn read(&mut self, buf: &mut [u8]) -> Result<usize, SourceFailed>
        ensures bound { ReadsAtMost result buf.new }
        ensures bytes { ReadConsumes (left self.old) (left self.new) result buf.new }
        ensures cause { HasCause (faults self.old) (faults self.new) result }
        ensures faultless { OnOk result (faults self.new ≡ faults self.old) };
}

/// Takes bytes, piece by piece.
pub trait Sink {
    /// Names the bytes taken so far, where they are known.
    ghost taken: { Self → Option (List ℕ) };

    /// Counts how often it has failed. The count stays at u64's greatest once it is there.
    ghost faults: { Self → ℕ };

    /// Takes the first bytes of `piece`, and answers how many: at least one, unless it is empty.
    ///
    /// # Errors
    ///
    /// `SinkFailed` means that the sink failed: its count of faults rose, and it took nothing,
    /// where its bytes are known.
    fn write(&mut self, piece: &[u8]) -> Result<usize, SinkFailed>
        ensures bound { IfOk result (λ n. n ≤ length piece.now) }
        ensures progress { IfOk result (λ n. 0 < length piece.now → 0 < n) }
        ensures bytes { WriteAppends (taken self.old) (taken self.new) result piece.now }
        ensures cause { HasCause (faults self.old) (faults self.new) result };
}

/// Writes until all bytes are taken.
///
/// # Errors
///
/// `SinkFailed` means that the sink failed at one of the writes: its count of faults rose, and it
/// took a proper prefix of the bytes, where its bytes are known.
pub fn write_all<K: Sink>(sink: &mut K, bytes: &[u8]) -> Result<(), SinkFailed>
    ensures ok { OnOk result (Appends (K.taken sink.old) (K.taken sink.new) bytes.now) }
    ensures fault { OnErr result (TookPart (K.taken sink.old) (K.taken sink.new) bytes.now) }
    ensures cause { HasCause (K.faults sink.old) (K.faults sink.new) result }
{
    let mut at = 0;
    while at < bytes.len() {
        at += sink.write(&bytes[at..])?;
    }
    Ok(())
}

/// Writes as [`write_all`] does, for a sink whose type isn't known.
///
/// # Errors
///
/// `SinkFailed` means that the sink failed at one of the writes: its count of faults rose, and it
/// took a proper prefix of the bytes, where its bytes are known.
pub fn write_all_dyn(sink: &mut dyn Sink, bytes: &[u8]) -> Result<(), SinkFailed>
    ensures ok { OnOk result (Appends (taken sink.old) (taken sink.new) bytes.now) }
    ensures fault { OnErr result (TookPart (taken sink.old) (taken sink.new) bytes.now) }
    ensures cause { HasCause (faults sink.old) (faults sink.new) result }
{
    let mut done = 0;
    while done < bytes.len() {
        done += sink.write(&bytes[done..])?;
    }
    Ok(())
}
