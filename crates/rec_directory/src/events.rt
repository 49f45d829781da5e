//! The events of a run's log, from a disk.
ghost use Rattle.std.specs.Prelude.{◌≡◌, ◌≤◌, ◌<◌, None, IfOk, IfErr, OnSome, option_map};
ghost use Rattle.rec_forms.specs.Outputs.{stored_outputs_form};
ghost use Rattle.rec_codec.specs.EventForms.{event_form};
ghost use Rattle.rec_directory.specs.Events as events;
ghost use Rattle.rec_directory.specs.Events.{Gives, GivesLifted, IsPlaced, LogFault};
ghost use Rattle.rec_directory.specs.Events.{ReadsLog, error_of_line, left_of, most_of};
ghost use Rattle.rec_directory.specs.Logs.{IsPlace, left_at};

use crate::file::read_prefix;
use crate::log::{LogPlace, next_event};
use rec_codec::LineError;
use rec_disk::{Disk, DiskError};
use rec_events::{RecordingSpec, TestEventSummary, Text};
use rec_json::Scratch;
use rec_store::RecordReadError;
use std::alloc::Global;
use std::marker::Model;

/// Goes over the events of a run's log: one item for each line that isn't blank, up to the length
/// that the log had when `events` was called. The log is read up to there at the first call of
/// `next`.
///
/// It ends after `DiskFault`, after `OpenRunLog`, which it answers where the log is missing by
/// then, and after `OutOfMemory`. Where the log has become shorter,
/// it ends with the last line that is there.
#[derive(Drop)]
pub struct RecordEventIter<'r, D: Disk> {
    alloc: Global,
    disk: &'r mut D,
    path: Text,
    len: u64,
    log: Option<Vec<u8>>,
    place: LogPlace,
    // for the read of each line
    scratch: Scratch,
}

impl<'r, D: Disk> Model for RecordEventIter<'r, D> {
    ghost use Rattle.std.specs.Prelude.{option_map};
    ghost use Rattle.rec_directory.specs.Events.{EventReading, left_of, IsPlaced};

    ghost Value = { EventReading D };

    ghost view = { λ r.
        record {
          disk = r.disk;
          path = r.path;
          len = r.len;
          left = left_of
              (option_map (λ v. v.items) r.log) r.place;
        } };

    ghost invariant = { λ r. IsPlaced (option_map (λ v. v.items) r.log) r.place };
}

impl<'r, D: Disk> RecordEventIter<'r, D> {
    /// Makes an iterator over the events of the log at `path`, which has `len` bytes.
    pub(crate) fn new(
        alloc: Global,
        disk: &'r mut D,
        path: Text,
        len: u64,
    ) -> RecordEventIter<'r, D>
        ensures { result ≡ record { disk = disk.entry; path = path; len = len; left = None } }
    {
        RecordEventIter {
            alloc,
            disk,
            path,
            len,
            log: None,
            place: LogPlace { at: 0, number: 1 },
            scratch: Scratch::new(alloc),
        }
    }
}

impl<'r, D: Disk> Iterator for RecordEventIter<'r, D> {
    ghost use Rattle.std.specs.Iterator.{at_most};
    ghost use Rattle.rec_forms.specs.Outputs.{stored_outputs_form};
    ghost use Rattle.rec_codec.specs.EventForms.{event_form};
    ghost use Rattle.rec_directory.specs.Events.{GivesEvent, most_of};

    type Item = Result<TestEventSummary<RecordingSpec>, RecordReadError>;

    ghost remaining = { λ st. at_most (most_of st.len st.left) };

    ghost next_gives = { GivesEvent D.files D.faults (event_form stored_outputs_form) };

    fn next(&mut self) -> Option<Result<TestEventSummary<RecordingSpec>, RecordReadError>> {
        next_item(
            self.alloc,
            self.disk,
            &self.path,
            self.len,
            &mut self.log,
            &mut self.place,
            &mut self.scratch,
        )
    }
}

/// Returns the next item of a log on a disk, which is read where it wasn't yet.
fn next_item<D: Disk>(
    alloc: Global,
    disk: &mut D,
    path: &Text,
    len: u64,
    log: &mut Option<Vec<u8>>,
    place: &mut LogPlace,
    scratch: &mut Scratch,
) -> Option<Result<TestEventSummary<RecordingSpec>, RecordReadError>>
    requires { IsPlaced (option_map (λ v. v.items) log.old) place.old }
    ensures placed { IsPlaced (option_map (λ v. v.items) log.new) place.new }
    ensures gives { Gives D.files D.faults (event_form stored_outputs_form) disk.old disk.new
        path.now len (left_of (option_map (λ v. v.items) log.old) place.old) result
        (left_of (option_map (λ v. v.items) log.new) place.new) }
    ensures same { D.files disk.new ≡ D.files disk.old }
    ensures later { D.faults disk.old ≤ D.faults disk.new }
    ensures fewer { OnSome result
        (most_of len (left_of (option_map (λ v. v.items) log.new) place.new)
        < most_of len (left_of (option_map (λ v. v.items) log.old) place.old)) }
{
    if let Some(bytes) = log {
        return item_at(alloc, bytes, place, scratch);
    }
    *place = LogPlace { at: 0, number: 1 };
    match read_log(alloc, disk, path, len) {
        Ok(bytes) => {
            let item = item_at(alloc, &bytes, place, scratch);
            *log = Some(bytes);
            item
        }
        Err(error) => {
            *log = Some(Vec::new(alloc));
            Some(Err(error))
        }
    }
}

/// Reads a log up to a length.
fn read_log<D: Disk>(
    alloc: Global,
    disk: &mut D,
    path: &Text,
    len: u64,
) -> Result<Vec<u8>, RecordReadError>
    ensures ok { IfOk result (λ v. ReadsLog (D.files disk.old) path.now len v.items) }
    ensures err { IfErr result
        (LogFault (D.faults disk.old) (D.faults disk.new) (D.files disk.old) path.now) }
    ensures same { D.files disk.new ≡ D.files disk.old }
    ensures later { D.faults disk.old ≤ D.faults disk.new }
{
    match read_prefix(alloc, disk, path.as_str(), len) {
        Ok(bytes) => Ok(bytes),
        Err(error) => {
            let path = Text::from_str(alloc, path.as_str())?;
            Err(log_error(path, error))
        }
    }
}

/// Returns why a log isn't read.
pub(crate) fn log_error(path: Text, error: DiskError) -> RecordReadError
    ensures { result ≡ events.log_error path error }
{
    match error {
        DiskError::Missing => RecordReadError::OpenRunLog { path },
        DiskError::DiskFailed => RecordReadError::DiskFault { path },
        DiskError::OutOfMemory => RecordReadError::OutOfMemory,
    }
}

/// Returns the next item of a log in memory.
fn item_at(
    alloc: Global,
    log: &[u8],
    place: &mut LogPlace,
    scratch: &mut Scratch,
) -> Option<Result<TestEventSummary<RecordingSpec>, RecordReadError>>
    requires { IsPlace log.now place.old }
    ensures place { IsPlace log.now place.new }
    ensures gives { GivesLifted (event_form stored_outputs_form) (left_at log.now place.old) result
        (left_at log.now place.new) }
{
    match next_event(alloc, log, place, scratch) {
        Some(Ok(event)) => Some(Ok(event)),
        Some(Err(error)) => Some(Err(line_error(error))),
        None => None,
    }
}

/// Returns why a line gives no event.
fn line_error(error: LineError) -> RecordReadError
    ensures { result ≡ error_of_line error }
{
    match error {
        LineError::ReadRunLog { line_number } => RecordReadError::ReadRunLog { line_number },
        LineError::ParseEvent { line_number } => RecordReadError::ParseEvent { line_number },
        LineError::OutOfMemory => RecordReadError::OutOfMemory,
    }
}
