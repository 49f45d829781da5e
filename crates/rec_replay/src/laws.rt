//! Laws of replays. The functions do nothing: their contracts are what they are for.
ghost use Rattle.std.specs.Borrow.{Bor};
ghost use Rattle.std.specs.Prelude.{◌≡◌, ◌++◌, List, Ok, Some, ℕ};
ghost use Rattle.rec_container.specs.Container.{Entry};
ghost use Rattle.rec_events.specs.declared.live_events.TestEvent.{TestEvent};
ghost use Rattle.rec_events.specs.LiveEvents.{event_summary};
ghost use Rattle.rec_events.specs.TestLists.{Tests};
ghost use Rattle.rec_codec.specs.Event.{IsLogged, LiveEvent, RecordedEvent};
ghost use Rattle.rec_codec.specs.Event.{event_text, recorded_event_of};
ghost use Rattle.rec_store.specs.EventOutputs.{event_recorded};
ghost use Rattle.rec_store.specs.Logging.{Logs};
ghost use Rattle.rec_store.specs.Recording.{Recording};
ghost use Rattle.rec_replay.specs.Conversions.{ConvertsAs};
ghost use Rattle.rec_replay.specs.declared.output_load.LoadOutput.TheVariants.{Load};
ghost use Rattle.rec_replay.specs.LiveKept.{live_event_kept};
ghost use Rattle.rec_replay.specs.Loading.{event_names, first_refusal};
ghost use Rattle.rec_replay.specs.Replaying.{replayed};

use rec_container::Sink;
use rec_store::OutputNamer;

/// States that an event which is recorded, read back and replayed is the live event that it was,
/// but for what a recording doesn't keep: outputs are cut at the limit; a cancel has no statistics
/// but its reason; a setup script has lost its flags for reports; and the test list of a run's
/// start is the context's.
///
/// `rec_summaries::from_test_event` gave the event that `RunRecorder::write_event` recorded, and
/// its line was read as `read`. `ReplayContext::convert_event` then answered `replay`, with `Load`
/// and over the entries that the recorder's store had after the event, and `more` after them.
pub fn recorded_events_are_replayed<S: Sink, L: Sink, N: OutputNamer>()
    ensures { (live : TestEvent) (event : LiveEvent) (old new : Recording S L N)
        (read : RecordedEvent) (more : List Entry) (limit : ℕ) (tests : Bor Tests)
        (replay : TestEvent)
        → event_summary live ≡ Some event
        → Logs S.taken S.faults L.taken L.faults N.number old new event
        → IsLogged (event_recorded (N.number old.namer) old.max_output event)
        → recorded_event_of (event_text (event_recorded (N.number old.namer) old.max_output event))
        ≡ Some read
        → ConvertsAs (first_refusal (new.store.entries ++ more) limit (event_names Load read))
        (replayed Load tests (new.store.entries ++ more) read) (Ok replay)
        → replay ≡ live_event_kept old.max_output tests live }
{}
