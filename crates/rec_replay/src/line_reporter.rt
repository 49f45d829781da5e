//! A reporter that writes a line for a header and for each event.
ghost use Rattle.std.specs.Prelude.{◌≡◌, ◌≤◌, false, None, Some, true};
ghost use Rattle.rec_replay.specs.Lines as spec;
ghost use Rattle.rec_replay.specs.Reporting.{Becomes, Shows, known};

use crate::event_reporter::{EventReporter, WriteEventError};
use crate::header::ReplayHeader;
use crate::lines::{event_line, header_line};
use crate::output_load::OutputLoadDecider;
use crate::settings::{Configuration, DisplaySettings};
use rec_container::{Sink, write_all};
use rec_events::{NextestRunMode, TestEvent};
use std::alloc::Global;

/// Writes a line to a sink for a header and for each event, whatever the settings are; events that
/// only inform have none. `docs/FORMATS.md#lines-of-a-replay` describes the lines. It knows what it
/// is configured with, and whether it was finished.
#[derive(Drop)]
pub struct LineReporter<'k, K: Sink> {
    alloc: Global,
    sink: &'k mut K,
    decider: OutputLoadDecider,
    configuration: Option<Configuration>,
    finished: bool,
}

impl<'k, K: Sink> LineReporter<'k, K> {
    /// Makes the reporter that writes to this sink, and wants the outputs that `decider` names.
    pub fn new(alloc: Global, sink: &'k mut K, decider: OutputLoadDecider) -> LineReporter<'k, K>
        ensures same { result.sink.ghost_name ≡ sink.entry.ghost_name }
        ensures sink { result.sink.now ≡ sink.old }
        ensures decider { result.decider ≡ decider }
        ensures configuration { result.configuration ≡ None }
        ensures finished { result.finished ≡ false }
    {
        LineReporter {
            alloc,
            sink,
            decider,
            configuration: None,
            finished: false,
        }
    }
}

/// Writes a text to the sink.
fn show<K: Sink>(sink: &mut K, text: &[u8]) -> Result<(), WriteEventError>
    ensures shown { Shows (K.taken sink.old) (K.taken sink.new) (K.faults sink.old)
        (K.faults sink.new) text.now result }
    ensures later { K.faults sink.old ≤ K.faults sink.new }
{
    match write_all(sink, text) {
        Ok(()) => Ok(()),
        Err(_) => Err(WriteEventError::SinkFault),
    }
}

impl<'k, K: Sink> EventReporter for LineReporter<'k, K> {
    ghost wants = { λ r. r.decider };

    ghost faults = { λ r. K.faults r.sink.now };

    ghost written = { λ r. K.taken r.sink.now };

    ghost configured = { λ r. Some r.configuration };

    ghost finished = { λ r. Some r.finished };

    ghost header_text = { λ _. spec.header_line };

    ghost event_text = { λ _. spec.line_text };

    ghost configures = { λ old c new. (new ≡ record old { configuration = Some c }) };

    ghost writes_header = { λ old header result new.
        (new ≡ record old { sink = record old.sink { now = new.sink.now } })
        × Shows (K.taken old.sink.now) (K.taken new.sink.now) (K.faults old.sink.now)
        (K.faults new.sink.now) (spec.header_line header) result };

    ghost writes_event = { λ old event result new.
        (new ≡ record old { sink = record old.sink { now = new.sink.now } })
        × Shows (K.taken old.sink.now) (K.taken new.sink.now) (K.faults old.sink.now)
        (K.faults new.sink.now) (spec.line_text event) result };

    ghost finishes = { λ old new. new ≡ record old { finished = true } };

    fn configure(&mut self, settings: &DisplaySettings, mode: NextestRunMode, run_count: usize) {
        self.configuration = Some(Configuration {
            settings: *settings,
            mode,
            run_count,
        });
    }

    fn decider(&self) -> OutputLoadDecider {
        self.decider
    }

    fn write_header(&mut self, header: &ReplayHeader) -> Result<(), WriteEventError> {
        let line = header_line(self.alloc, header)?;
        show(self.sink, line.as_bytes())
    }

    fn write_event(&mut self, event: &TestEvent<'_>) -> Result<(), WriteEventError> {
        let line = event_line(self.alloc, event)?;
        show(self.sink, &line)
    }

    fn finish(&mut self) {
        self.finished = true;
    }
}
