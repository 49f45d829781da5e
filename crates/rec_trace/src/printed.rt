//! Keeps the texts of the trace events so far.
ghost use Rattle.std.specs.Prelude.{◌≡◌, List, [], ◌++◌, map, IfOk, OnOk, OnErr};
ghost use Rattle.serde_json.specs.Data.{Data};
ghost use Rattle.rec_forms.specs.Writable.{IsWritable};
ghost use Rattle.rec_trace_events.specs.EventTexts.{event_value};
ghost use Rattle.rec_trace.specs.declared.settings.ChromeTraceMessageFormat.{
  ChromeTraceMessageFormat,
};
ghost use Rattle.rec_trace.specs.Kept.{AreKept};
ghost use Rattle.rec_trace.specs.Texts.{other_data, text_in, trace_value};

use crate::event_texts::write_events;
use crate::other_data::other_data_text;
use crate::run_start::RunStart;
use crate::settings::ChromeTraceMessageFormat;
use crate::whole_text::{trace_end, trace_prefix};
use bstr::ByteVec;
use json::Scratch;
use rec_events::Version;
use rec_trace_events::TraceEvent;
use std::alloc::{AllocError, Global};

/// Holds the texts of the trace events so far, with commas between them,
/// as they stand in the text of the trace.
#[derive(Drop)]
pub struct Printed {
    format: ChromeTraceMessageFormat,
    text: Vec<u8>,
    has_events: bool,
    /// Is lent to each event that is laid out, as it is large.
    scratch: Scratch,
}

impl Printed {
    /// Keeps no trace events so far.
    pub fn new(alloc: Global, format: ChromeTraceMessageFormat) -> Printed
        ensures { AreKept format [] result }
    {
        Printed {
            format,
            text: Vec::new(alloc),
            has_events: false,
            scratch: Scratch::new(alloc),
        }
    }

    /// Puts the texts of trace events after those so far.
    ///
    /// # Errors
    ///
    /// Fails only where memory ran out. The trace events so far then stay as they are.
    pub fn put_all(&mut self, alloc: Global, events: &[TraceEvent]) -> Result<(), AllocError>
        ensures all { OnOk result
            ((format : ChromeTraceMessageFormat) (kept : List Data) → AreKept format kept self.old
            → AreKept format (kept ++ map event_value events.now) self.new) }
        ensures same { OnErr result
            ((format : ChromeTraceMessageFormat) (kept : List Data) → AreKept format kept self.old
            → AreKept format kept self.new) }
    {
        let before = self.text.as_slice().len();
        let scratch = &mut self.scratch;
        match write_events(
            alloc,
            self.format,
            scratch,
            &mut self.text,
            self.has_events,
            events,
        ) {
            Ok(has_events) => {
                self.has_events = has_events;
                Ok(())
            }
            Err(AllocError) => {
                self.text.truncate(before);
                Err(AllocError)
            }
        }
    }

    /// Writes the text of the trace, of runs by this version of the runner, of which this one
    /// started last. The texts of the events are moved and not copied,
    /// so that a long trace isn't held twice.
    ///
    /// # Errors
    ///
    /// Fails only where memory ran out.
    pub fn into_bytes(
        self,
        alloc: Global,
        version: &Version,
        last_run: &Option<RunStart>,
    ) -> Result<Vec<u8>, AllocError>
        ensures written { IfOk result
            (λ s. (format : ChromeTraceMessageFormat) (events : List Data)
            → AreKept format events self
            → s.items ≡ text_in format (trace_value (other_data version.now last_run.now) events)) }
        ensures known { IfOk result (λ s. IsWritable 8 (other_data version.now last_run.now)) }
    {
        let Printed {
            format,
            mut text,
            has_events,
            scratch,
        } = self;
        drop(scratch);
        let other_data = other_data_text(alloc, version, last_run)?;
        let prefix = trace_prefix(alloc, format, &other_data)?;
        let end = trace_end(format, has_events);
        text.reserve_exact(prefix.len().saturating_add(end.len()))?;
        text.insert_str(0, &prefix)?;
        text.extend_from_slice(end.as_bytes())?;
        Ok(text)
    }
}
