//! Why nothing is salvaged of a bundle.
ghost use Rattle.std.specs.Prelude.{◌≡◌};
ghost use Rattle.rec_program.specs.declared.salvage_refusal.SalvageRefusal.TheVariants.{
  OutOfMemory,
};
ghost use Rattle.rec_program.specs.Salvaging.{bundle_refusal, refusal_shown};
ghost use Rattle.rec_program.specs.Salvaging.{refusal_status, store_refusal};

use rec_container::Sink;
use rec_faults::{BUNDLE_FAILED, Line, OUT_OF_MEMORY, Refusal};
use rec_portable::PortableRecordingReadError;
use rec_salvage::SalvageError;
use std::alloc::AllocError;

/// Says why `salvage` doesn't write a bundle. It is judged in the order of the variants, and the
/// first refusal is answered. Want of memory may come at any time before the first byte is written,
/// and is never an inner error.
#[derive(Drop)]
pub enum SalvageRefusal {
    /// The bundle isn't opened, its log is missing or too long, or its store is missing.
    Bundle(PortableRecordingReadError),
    /// Nothing can be salvaged of its store.
    Store(SalvageError),
    /// The sink of the salvaged bundle failed. It took a proper prefix of it.
    BundleFailed,
    /// Memory ran out.
    OutOfMemory,
}

impl From<AllocError> for SalvageRefusal {
    ghost from_gives = { λ _ e. e ≡ OutOfMemory };

    fn from(_error: AllocError) -> Self {
        SalvageRefusal::OutOfMemory
    }
}

impl From<PortableRecordingReadError> for SalvageRefusal {
    ghost from_gives = { λ fault e. e ≡ bundle_refusal fault };

    fn from(error: PortableRecordingReadError) -> Self {
        match error {
            PortableRecordingReadError::OutOfMemory => SalvageRefusal::OutOfMemory,
            fault => SalvageRefusal::Bundle(fault),
        }
    }
}

impl From<SalvageError> for SalvageRefusal {
    ghost from_gives = { λ fault e. e ≡ store_refusal fault };

    fn from(error: SalvageError) -> Self {
        match error {
            SalvageError::OutOfMemory => SalvageRefusal::OutOfMemory,
            fault => SalvageRefusal::Store(fault),
        }
    }
}

impl Refusal for SalvageRefusal {
    ghost shown = { refusal_shown };

    ghost status_of = { refusal_status };

    fn write<G: Sink>(&self, line: Line, diag: &mut G) -> Line {
        match self {
            SalvageRefusal::Bundle(error) => error.write(line, diag),
            SalvageRefusal::Store(error) => error.write(line, diag),
            SalvageRefusal::BundleFailed => line.name("SinkFailed", diag),
            SalvageRefusal::OutOfMemory => line.name("OutOfMemory", diag),
        }
    }

    fn status(&self) -> u8 {
        match self {
            SalvageRefusal::Bundle(error) => error.status(),
            SalvageRefusal::Store(error) => error.status(),
            SalvageRefusal::BundleFailed => BUNDLE_FAILED,
            SalvageRefusal::OutOfMemory => OUT_OF_MEMORY,
        }
    }
}
