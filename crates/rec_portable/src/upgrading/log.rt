//! The log of a run, written anew.
ghost use Rattle.std.specs.Prelude.{◌≡◌, ◌⊎◌, Ok, Err, IfErr, OnOk};
ghost use Rattle.rec_codec.specs.declared.line_events.LineError.{LineError};
ghost use Rattle.rec_codec.specs.Event.{RecordedEvent};
ghost use Rattle.rec_store.specs.declared.read_error.RecordReadError.TheVariants.{OutOfMemory};
ghost use Rattle.rec_store.specs.JudgedParts.{line_refusal, log_judged};
ghost use Rattle.rec_portable.specs.Rewriting.{AddsEvent, IsRewrittenLog, Rewrites};

use crate::run_log::PortableRecordingRunLog;
use rec_codec::{LineError, log_line};
use rec_events::{OutputFileName, RecordingSpec, TestEventSummary};
use rec_store::{RecordReadError, named_outputs};
use std::alloc::{AllocError, Global};

/// Holds a log that is written anew.
#[derive(Drop)]
pub(crate) struct RewrittenLog {
    /// The lines.
    pub(crate) text: Vec<u8>,
    /// How many there are.
    pub(crate) events: u64,
    /// The outputs that the events name, in their order.
    pub(crate) names: Vec<OutputFileName>,
}

/// Writes each event of a log anew, in one pass.
pub(crate) fn rewrite_log(
    alloc: Global,
    log: &PortableRecordingRunLog<'_>,
) -> Result<RewrittenLog, RecordReadError>
    ensures { Rewrites IsRewrittenLog (log_judged log.now) result }
{
    let mut rewritten = RewrittenLog {
        text: Vec::new(alloc),
        events: 0,
        names: Vec::new(alloc),
    };
    let mut events = log.events(alloc);
    for item in &mut events {
        if let Err(refusal) = rewritten.add_item(alloc, item) {
            drop(rewritten);
            return Err(refusal);
        }
    }
    Ok(rewritten)
}

impl RewrittenLog {
    /// Adds what a line gives.
    fn add_item(
        &mut self,
        alloc: Global,
        item: Result<TestEventSummary<RecordingSpec>, LineError>,
    ) -> Result<(), RecordReadError>
        ensures ok { OnOk result
            ((e : RecordedEvent) × (item ≡ Ok e) × AddsEvent e self.old self.new) }
        ensures err { IfErr result
            (λ x. (x ≡ OutOfMemory)
            ⊎ ((fault : LineError) × (item ≡ Err fault) × (x ≡ line_refusal fault))) }
    {
        match item {
            Ok(event) => {
                let added = self.add_event(alloc, &event);
                // By a call: in place, each kind of event would be a case of the proof.
                event.discard();
                added?;
                Ok(())
            }
            Err(fault) => Err(refusal_of(fault)),
        }
    }

    /// Adds the line of an event, and the outputs that it names.
    fn add_event(
        &mut self,
        alloc: Global,
        event: &TestEventSummary<RecordingSpec>,
    ) -> Result<(), AllocError>
        ensures ok { OnOk result (AddsEvent event.now self.old self.new) }
    {
        let line = log_line(alloc, event)?;
        self.text.extend_from_slice(&line)?;
        let names = named_outputs(alloc, event)?;
        self.names.extend_from_slice(&names)?;
        // More events than a u64 counts fit no memory.
        self.events = self.events.checked_add(1).ok_or(AllocError)?;
        Ok(())
    }
}

/// Returns the refusal of a log for one of its lines.
fn refusal_of(fault: LineError) -> RecordReadError
    ensures { result ≡ line_refusal fault }
{
    match fault {
        LineError::ReadRunLog { line_number } => RecordReadError::ReadRunLog { line_number },
        LineError::ParseEvent { line_number } => RecordReadError::ParseEvent { line_number },
        LineError::OutOfMemory => RecordReadError::OutOfMemory,
    }
}
