//! What shows the events of a run.
ghost use Rattle.std.specs.Prelude.{◌≡◌, ◌≤◌, List, ℕ, Option, Result, ⊤, Bool, Some, true};
ghost use Rattle.rec_events.specs.declared.live_events.TestEvent.{TestEvent};
ghost use Rattle.rec_replay.specs.declared.event_reporter.WriteEventError.TheVariants.{OutOfMemory};
ghost use Rattle.rec_replay.specs.declared.event_reporter.WriteEventError.{WriteEventError};
ghost use Rattle.rec_replay.specs.declared.header.ReplayHeader.{ReplayHeader};
ghost use Rattle.rec_replay.specs.declared.output_load.OutputLoadDecider.{OutputLoadDecider};
ghost use Rattle.rec_replay.specs.declared.settings.Configuration.{Configuration};
ghost use Rattle.rec_replay.specs.Reporting.{Becomes, Shows, known};

use crate::header::ReplayHeader;
use crate::output_load::OutputLoadDecider;
use crate::settings::DisplaySettings;
use rec_events::{NextestRunMode, TestEvent};
use std::alloc::AllocError;
use thiserror::Error;

/// Says why something was not shown.
#[derive(Clone, Copy, PartialEq, Eq, Debug, Error)]
pub enum WriteEventError {
    /// What it was to be written to failed. It took a prefix of the text.
    #[error("writing failed")]
    SinkFault,
    /// Memory ran out. Nothing was written.
    #[error("out of memory")]
    OutOfMemory,
}

impl From<AllocError> for WriteEventError {
    ghost from_gives = { λ _ e. e ≡ OutOfMemory };

    fn from(_error: AllocError) -> WriteEventError {
        WriteEventError::OutOfMemory
    }
}

/// Shows the events of a run.
///
/// Contracts see of a reporter a count of faults and which outputs it wants. Where they are known,
/// also the bytes that it has written, what it was last configured with, and whether it was
/// finished. Headers and events have texts, which depend on the configuration alone; what isn't
/// shown has none.
pub trait EventReporter: Drop {
    /// Names the outputs that it wants. No call changes it.
    ghost wants: { Self → OutputLoadDecider };

    /// Counts how often it has failed. The count stays at u64's greatest once it is there.
    ghost faults: { Self → ℕ };

    /// Names the bytes written so far, where they are known.
    ghost written: { Self → Option (List ℕ) };

    /// Names what it was last configured with, if it was, where that is known.
    ghost configured: { Self → Option (Option Configuration) };

    /// Says whether it was finished, where that is known.
    ghost finished: { Self → Option Bool };

    /// Names the text of a header under a configuration.
    ghost header_text: { Option Configuration → ReplayHeader → List ℕ };

    /// Names the text of an event under a configuration.
    ghost event_text: { Option Configuration → TestEvent → List ℕ };

    /// Says what its own `configure` may leave of it.
    ghost configures: { Self → Configuration → Self → Type 0 };

    /// Says what its own `write_header` may return, and leave of it.
    ghost writes_header: { Self → ReplayHeader → Result ⊤ WriteEventError → Self → Type 0 };

    /// Says what its own `write_event` may return, and leave of it.
    ghost writes_event: { Self → TestEvent → Result ⊤ WriteEventError → Self → Type 0 };

    /// Says what its own `finish` may leave of it.
    ghost finishes: { Self → Self → Type 0 };

    /// Takes how a run is to be shown, what it does with its tests, and how many of them it runs.
    fn configure(&mut self, settings: &DisplaySettings, mode: NextestRunMode, run_count: usize)
        ensures own { configures self.old
            (record { settings = settings.now; mode = mode; run_count = run_count }) self.new }
        ensures configured { Becomes (configured self.old) (configured self.new)
            (Some (record { settings = settings.now; mode = mode; run_count = run_count })) }
        ensures wants { wants self.new ≡ wants self.old }
        ensures later { faults self.old ≤ faults self.new }
        ensures written { written self.new ≡ written self.old }
        ensures finished { finished self.new ≡ finished self.old };

    /// Returns which outputs it wants.
    fn decider(&self) -> OutputLoadDecider
        ensures { result ≡ wants self.now };

    /// Shows a header.
    ///
    /// # Errors
    ///
    /// - `SinkFault` where writing failed: the count of faults rose, and a prefix of the header's
    ///   text was written.
    /// - `OutOfMemory` if memory runs out. Nothing was written.
    fn write_header(&mut self, header: &ReplayHeader) -> Result<(), WriteEventError>
        ensures own { writes_header self.old header.now result self.new }
        ensures shown { Shows (written self.old) (written self.new) (faults self.old)
            (faults self.new)
            (header_text (known (configured self.old)) header.now) result }
        ensures wants { wants self.new ≡ wants self.old }
        ensures later { faults self.old ≤ faults self.new }
        ensures configured { configured self.new ≡ configured self.old }
        ensures finished { finished self.new ≡ finished self.old };

    /// Shows an event.
    ///
    /// # Errors
    ///
    /// - `SinkFault` where writing failed: the count of faults rose, and a prefix of the event's
    ///   text was written.
    /// - `OutOfMemory` if memory runs out. Nothing was written.
    fn write_event(&mut self, event: &TestEvent<'_>) -> Result<(), WriteEventError>
        ensures own { writes_event self.old event.now result self.new }
        ensures shown { Shows (written self.old) (written self.new) (faults self.old)
            (faults self.new)
            (event_text (known (configured self.old)) event.now) result }
        ensures wants { wants self.new ≡ wants self.old }
        ensures later { faults self.old ≤ faults self.new }
        ensures configured { configured self.new ≡ configured self.old }
        ensures finished { finished self.new ≡ finished self.old };

    /// Ends the showing.
    fn finish(&mut self)
        ensures own { finishes self.old self.new }
        ensures finished { Becomes (finished self.old) (finished self.new) true }
        ensures wants { wants self.new ≡ wants self.old }
        ensures later { faults self.old ≤ faults self.new }
        ensures written { written self.new ≡ written self.old }
        ensures configured { configured self.new ≡ configured self.old };
}

/// Shows an event as [`EventReporter::write_event`] does, on a reporter whose type isn't known.
///
/// # Errors
///
/// Those of the reporter's own call.
pub fn write_event_dyn(
    reporter: &mut dyn EventReporter,
    event: &TestEvent<'_>,
) -> Result<(), WriteEventError>
    ensures own { (after : _)
        × ((⟦<dyn EventReporter as EventReporter>⟧ reporter.old.0).writes_event reporter.old.1
        event.now result after)
        × (reporter.new ≡ (reporter.old.0, after)) }
    ensures shown { Shows (written reporter.old) (written reporter.new) (faults reporter.old)
        (faults reporter.new)
        ((⟦<dyn EventReporter as EventReporter>⟧ reporter.old.0).event_text
        (known (configured reporter.old)) event.now) result }
    ensures wants { wants reporter.new ≡ wants reporter.old }
    ensures later { faults reporter.old ≤ faults reporter.new }
    ensures configured { configured reporter.new ≡ configured reporter.old }
    ensures finished { finished reporter.new ≡ finished reporter.old }
{
    reporter.write_event(event)
}
