//! The events that are told as the log has them.
ghost use Rattle.std.specs.Prelude.{◌≡◌, ◌++◌, OnOk};
ghost use Rattle.rec_json.specs.Tokens.{value_tokens};
ghost use Rattle.rec_forms.specs.Outputs.{stored_outputs_value};
ghost use Rattle.rec_codec.specs.EventForms.{event_value};
ghost use Rattle.rec_view_json.specs.Told.{is_marked};

use crate::lists::SomeWriter;
use crate::told::{cancels, finishes_run, is_slow, starts_run, starts_script};
use rec_codec::{ToValueError, write_event};
use rec_events::{RecordingSpec, TestEventKindSummary, TestEventSummary};
use rec_json::JsonText;
use std::alloc::{AllocError, Global};

/// Writes an event. The names of files are always loaded, so only memory can be short.
fn write_recorded(
    alloc: Global,
    text: &mut JsonText,
    event: &TestEventSummary<RecordingSpec>,
) -> Result<(), AllocError>
    ensures { OnOk result
        (text.new ≡ text.old ++ value_tokens (event_value stored_outputs_value event.now)) }
{
    match write_event::<RecordingSpec>(alloc, event, text) {
        Ok(()) => Ok(()),
        Err(ToValueError::OutOfMemory) => Err(AllocError),
        Err(ToValueError::NotLoaded) => unreachable!(),
    }
}

/// Which events stand in a list of a view.
#[derive(Clone, Copy)]
pub(crate) enum Mark {
    /// Those by which the run is cancelled.
    Cancelled,
    /// Those with which the run finishes.
    RunFinish,
    /// Those with which the run starts.
    RunStart,
    /// Those with which a setup script starts.
    ScriptStart,
    /// Those that tell of something that has run for longer than it should.
    Slow,
}

/// Returns whether an event stands in a list.
fn is_marked(mark: Mark, kind: &TestEventKindSummary<RecordingSpec>) -> bool
    ensures { result ≡ is_marked mark kind.now }
{
    match mark {
        Mark::Cancelled => cancels(kind),
        Mark::RunFinish => finishes_run(kind),
        Mark::RunStart => starts_run(kind),
        Mark::ScriptStart => starts_script(kind),
        Mark::Slow => is_slow(kind),
    }
}

impl SomeWriter for Mark {
    ghost use Rattle.rec_view_json.specs.Told.{is_marked};
    ghost use Rattle.rec_view_json.specs.Views.{event_if};

    type Item = TestEventSummary<RecordingSpec>;

    ghost value_of = { λ mark. event_if (is_marked mark) };

    fn write(
        &self,
        alloc: Global,
        text: &mut JsonText,
        item: &TestEventSummary<RecordingSpec>,
    ) -> Result<(), AllocError> {
        if is_marked(*self, &item.kind) {
            return write_recorded(alloc, text, item);
        }
        Ok(())
    }
}
