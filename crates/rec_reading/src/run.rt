//! The events of a run, printed one after the other.
ghost use Rattle.std.specs.Prelude.{◌≡◌, [], List};
ghost use Rattle.rec_container.specs.Container.{Entry};
ghost use Rattle.rec_events.specs.declared.live_events.TestEvent.{TestEvent};
ghost use Rattle.rec_codec.specs.LineReading.{log_items};
ghost use Rattle.rec_store.specs.Readers.{Keeps};
ghost use Rattle.rec_replay.specs.Registration.{is_registered};
ghost use Rattle.rec_reading.specs.Converting.{converted};
ghost use Rattle.rec_reading.specs.Listing.{printed};
ghost use Rattle.rec_reading.specs.Printing.{Adds, AddsEvent, text_from};
ghost use Rattle.rec_reading.specs.RunParts.{Answers, parts_in};

use crate::parts::OpenRun;
use crate::printer::EventPrinter;
use crate::registration::register_tests;
use rec_codec::LineIter;
use rec_errors::ReadingError;
use rec_events::{RecordingSpec, TestEvent, TestEventSummary, TestList};
use rec_replay::{LoadOutput, ReplayContext};
use rec_store::StoreReader;
use std::alloc::Global;

/// Adds what a printer prints of a run's events to a text.
/// Each test of the run's list may be named.
///
/// # Errors
///
/// Why the first line of the log that fails gives no event, or why this event isn't converted or
/// printed. `OutOfMemory` may come at any time.
pub(crate) fn print_run<P: EventPrinter>(
    alloc: Global,
    run: &mut OpenRun<'_>,
    load_output: LoadOutput,
    printer: &mut P,
    text: &mut Vec<u8>,
) -> Result<(), ReadingError>
    requires begun { P.stands printer.now [] }
    ensures { Adds
        (printed (P.prints printer.old) load_output run.old.store.limit (parts_in run.old))
        text.old.items text.new.items result }
{
    let list = TestList::from_summary(run.mode, &run.tests);
    let mut context = ReplayContext::new(alloc, &list);
    register_tests(alloc, &mut context, &run.tests)?;
    let events = run.log.events(alloc);
    print_events(
        alloc,
        &context,
        &mut run.store,
        load_output,
        events,
        printer,
        text,
    )
}

/// Adds what a printer prints of events, from the first on.
fn print_events<P: EventPrinter>(
    alloc: Global,
    context: &ReplayContext<'_>,
    reader: &mut dyn StoreReader,
    load_output: LoadOutput,
    mut events: LineIter<'_, RecordingSpec>,
    printer: &mut P,
    text: &mut Vec<u8>,
) -> Result<(), ReadingError>
    requires begun { P.stands printer.now [] }
    // The reader never fails.
    requires never { (x : _) → (⟦<dyn StoreReader as StoreReader>⟧ reader.now.0).failures x ≡ 0 }
    ensures { (es : List Entry) → holds reader.old es → Adds
        (text_from (P.prints printer.old)
        (converted (is_registered context.now.tests) context.now.test_list load_output es
        (limit reader.old)) [] (log_items events.entry))
        text.old.items text.new.items result }
{
    for item in &mut events {
        let event = item?;
        print_event(alloc, context, reader, load_output, event, printer, text)?;
    }
    Ok(())
}

/// Adds what a printer prints of an event.
fn print_event<P: EventPrinter>(
    alloc: Global,
    context: &ReplayContext<'_>,
    reader: &mut dyn StoreReader,
    load_output: LoadOutput,
    event: TestEventSummary<RecordingSpec>,
    printer: &mut P,
    text: &mut Vec<u8>,
) -> Result<(), ReadingError>
    requires never { (x : _) → (⟦<dyn StoreReader as StoreReader>⟧ reader.now.0).failures x ≡ 0 }
    ensures prints { (es : List Entry) (past : List TestEvent)
        → holds reader.old es
        → P.stands printer.old past
        → AddsEvent
        (P.prints printer.old)
        (converted (is_registered context.now.tests) context.now.test_list load_output es
        (limit reader.old)) (P.stands printer.new)
        past event text.old.items text.new.items result }
    ensures same_printer { P.prints printer.new ≡ P.prints printer.old }
    ensures same { Keeps (limit reader.old) (limit reader.new) (holds reader.old)
        (holds reader.new) }
{
    let live = convert(alloc, context, reader, load_output, event)?;
    let result = printer.print(alloc, &live, text);
    // By a call: in place, each kind of event would be a case of the proof.
    drop(live);
    result
}

/// Converts a recorded event. It is let go by a call, as in `print_event`.
fn convert<'cx>(
    alloc: Global,
    context: &'cx ReplayContext<'_>,
    reader: &mut dyn StoreReader,
    load_output: LoadOutput,
    event: TestEventSummary<RecordingSpec>,
) -> Result<TestEvent<'cx>, ReadingError>
    requires never { (x : _) → (⟦<dyn StoreReader as StoreReader>⟧ reader.now.0).failures x ≡ 0 }
    ensures converted { (es : List Entry) → holds reader.old es → Answers
        (converted (is_registered context.now.tests) context.now.test_list load_output es
        (limit reader.old) event) result }
    ensures same { Keeps (limit reader.old) (limit reader.new) (holds reader.old)
        (holds reader.new) }
{
    let result = context.convert_event(alloc, &event, reader, load_output);
    event.discard();
    Ok(result?)
}
