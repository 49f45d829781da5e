//! The event log in a bundle.
ghost use Rattle.std.specs.Option.{option_map};
ghost use Rattle.std.specs.Prelude.{◌≡◌};
ghost use Rattle.rec_codec.specs.Lines.{lines, numbered};
ghost use Rattle.rec_portable.specs.Errors.{Reads};
ghost use Rattle.rec_portable.specs.OuterEntries.{log_found};

use crate::errors::PortableRecordingReadError;
use rec_codec::LineIter;
use rec_events::{RecordingSpec, Text};
use rec_format::RUN_LOG_FILE_NAME;
use std::alloc::Global;
use std::marker::Model;

/// Lends the event log in a bundle, which is a window of the bundle's bytes.
#[derive(Drop)]
pub struct PortableRecordingRunLog<'a> {
    bytes: &'a [u8],
}

impl<'a> Model for PortableRecordingRunLog<'a> {
    ghost use Rattle.std.specs.Prelude.{List, ℕ};

    ghost Value = { List ℕ };

    ghost view = { λ l. l.bytes.now };
}

/// Goes over the events of a log: one item for each line that isn't blank.
pub type PortableRecordingEventIter<'a> = LineIter<'a, RecordingSpec>;

impl<'a> PortableRecordingRunLog<'a> {
    /// Goes over the events of the log. The first line has the number 1.
    pub fn events(&self, alloc: Global) -> PortableRecordingEventIter<'a>
        ensures { result ≡ numbered 1 (lines self.now) }
    {
        LineIter::new(alloc, self.bytes, 1)
    }

    /// Takes the log that was found, as far as the limit allows.
    pub(crate) fn within(
        alloc: Global,
        limit: u64,
        found: Option<&'a [u8]>,
    ) -> Result<PortableRecordingRunLog<'a>, PortableRecordingReadError>
        ensures { Reads (log_found limit (option_map (λ b. b.now) found.entry)) result }
    {
        let Some(bytes) = found else {
            let file_name = Text::from_str(alloc, RUN_LOG_FILE_NAME)?;
            return Err(PortableRecordingReadError::MissingFile { file_name });
        };
        let size = bytes.len() as u64;
        if limit < size {
            let file_name = Text::from_str(alloc, RUN_LOG_FILE_NAME)?;
            return Err(PortableRecordingReadError::FileTooLarge {
                file_name,
                size,
                limit,
            });
        }
        Ok(PortableRecordingRunLog { bytes })
    }
}
