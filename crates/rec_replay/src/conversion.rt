//! Recorded events, as they are replayed.
ghost use Rattle.std.specs.Prelude.{◌≡◌, ◌<◌, [], IfOk, List, None, Some, length, true};
ghost use Rattle.rec_container.specs.Container.{Entry};
ghost use Rattle.rec_events.specs.EventMaps.{of_event, of_kind, of_output_kind};
ghost use Rattle.rec_store.specs.Readers.{Keeps};
ghost use Rattle.rec_replay.specs.Conversions.{ConversionCause, Converts, ConvertsAs, Judges};
ghost use Rattle.rec_replay.specs.Conversions.{Replays, event_refusal, is_failed_attempt};
ghost use Rattle.rec_replay.specs.Conversions.{is_finished, is_script_finished, kind_refusal};
ghost use Rattle.rec_replay.specs.Conversions.{output_refusal};
ghost use Rattle.rec_replay.specs.declared.conversion_error.ReplayConversionError.{
  ReplayConversionError,
};
ghost use Rattle.rec_replay.specs.declared.output_load.LoadOutput.TheVariants.{Skip};
ghost use Rattle.rec_replay.specs.Loading.{description_loaded, description_names};
ghost use Rattle.rec_replay.specs.Loading.{event_names, first_refusal};
ghost use Rattle.rec_replay.specs.Registration.{is_registered};
ghost use Rattle.rec_replay.specs.Replaying.{event_unloaded, kind_replayed, kind_unloaded};
ghost use Rattle.rec_replay.specs.Replaying.{output_replayed, replayed, left_out};

use crate::context::ReplayContext;
use crate::conversion_error::ReplayConversionError;
use crate::core_conversion::{replay_index, script_copies};
use crate::loading::{load_script_status, load_status, load_statuses};
use crate::output_load::LoadOutput;
use rec_events::{
    OutputEventKind, RecordingSpec, TestEvent, TestEventKind, TestEventKindSummary,
    TestEventSummary,
};
use rec_store::StoreReader;
use std::alloc::Global;

impl<'a> ReplayContext<'a> {
    /// Replays a recorded event.
    ///
    /// With `Load` its outputs are read, in their order; one without bytes is in no file. With
    /// `Skip` nothing is read, and outputs are `NotLoaded`. A cancel has zeros as statistics but
    /// for its reason, and a setup script has no flag for reports.
    ///
    /// # Errors
    ///
    /// - `TestNotFound` exactly where the event is of a test that isn't registered. Tests that a
    ///   run has not seen aren't looked up. Nothing was read.
    /// - `InvalidStressCount` exactly where a run starts with a stress count of 0. Nothing was
    ///   read.
    /// - `RecordRead` only with `Load` and where the event names an output, with why the first such
    ///   output that is refused isn't read, or `DiskFault` where the reader failed.
    /// - `OutOfMemory` if memory runs out.
    pub fn convert_event<'cx>(
        &'cx self,
        alloc: Global,
        summary: &TestEventSummary<RecordingSpec>,
        reader: &mut dyn StoreReader,
        load_output: LoadOutput,
    ) -> Result<TestEvent<'cx>, ReplayConversionError>
        ensures judged { Judges (event_refusal (is_registered self.now.tests) summary.now)
            (event_names load_output summary.now) result }
        ensures answer { (es : List Entry)
            → (0 < length (event_names load_output summary.now) → holds reader.old es)
            → ConvertsAs (first_refusal es (limit reader.old) (event_names load_output summary.now))
            (replayed load_output self.now.test_list es summary.now) result }
        ensures same { Keeps (limit reader.old) (limit reader.new) (holds reader.old)
            (holds reader.new) }
        // The object behind it is of the same kind.
        ensures same_reader { reader.new.0 ≡ reader.old.0 }
        ensures cause { ConversionCause (failures reader.old) (failures reader.new) result }
        ensures refused { (e : ReplayConversionError)
            → event_refusal (is_registered self.now.tests) summary.now ≡ Some e
            → reader.new ≡ reader.old }
        ensures skipped { load_output ≡ Skip → (reader.new ≡ reader.old)
            × Converts (event_refusal (is_registered self.now.tests) summary.now)
            (replayed Skip self.now.test_list [] summary.now) result }
        ensures apart { IfOk result
            (λ event. event_unloaded event ≡ replayed Skip self.now.test_list [] summary.now) }
    {
        self.replay(alloc, summary, reader, load_output)
    }

    /// Replays a recorded event.
    fn replay<'cx>(
        &'cx self,
        alloc: Global,
        summary: &TestEventSummary<RecordingSpec>,
        reader: &mut dyn StoreReader,
        load: LoadOutput,
    ) -> Result<TestEvent<'cx>, ReplayConversionError>
        ensures replays { Replays (limit reader.old) (limit reader.new) (failures reader.old)
            (failures reader.new) (holds reader.old) (holds reader.new)
            (event_refusal (is_registered self.now.tests) summary.now)
            (event_names load summary.now) (λ es. replayed load self.now.test_list es summary.now)
            result }
        ensures same_reader { reader.new.0 ≡ reader.old.0 }
        ensures skipped { load ≡ Skip → reader.new ≡ reader.old }
        ensures apart { IfOk result
            (λ event. event_unloaded event ≡ replayed Skip self.now.test_list [] summary.now) }
        ensures refused { (e : ReplayConversionError)
            → event_refusal (is_registered self.now.tests) summary.now ≡ Some e
            → reader.new ≡ reader.old }
    {
        let kind = self.convert_kind(alloc, &summary.kind, reader, load)?;
        Ok(TestEvent {
            timestamp: summary.timestamp,
            elapsed: summary.elapsed,
            kind,
        })
    }

    /// Replays what happened.
    fn convert_kind<'cx>(
        &'cx self,
        alloc: Global,
        kind: &TestEventKindSummary<RecordingSpec>,
        reader: &mut dyn StoreReader,
        load: LoadOutput,
    ) -> Result<TestEventKind<'cx>, ReplayConversionError>
        ensures replays { Replays (limit reader.old) (limit reader.new) (failures reader.old)
            (failures reader.new) (holds reader.old) (holds reader.new)
            (kind_refusal (is_registered self.now.tests) kind.now)
            (of_kind (description_names load) kind.now)
            (λ es. kind_replayed (description_loaded load es) self.now.test_list kind.now) result }
        ensures same_reader { reader.new.0 ≡ reader.old.0 }
        ensures skipped { load ≡ Skip → reader.new ≡ reader.old }
        ensures apart { IfOk result
            (λ k. kind_unloaded k ≡ kind_replayed left_out self.now.test_list kind.now) }
        ensures refused { (e : ReplayConversionError)
            → kind_refusal (is_registered self.now.tests) kind.now ≡ Some e
            → reader.new ≡ reader.old }
    {
        match kind {
            TestEventKindSummary::Core(kind) => self.convert_core(alloc, kind),
            TestEventKindSummary::Output(kind) => self.convert_output(alloc, kind, reader, load),
        }
    }

    /// Replays what happened with outputs.
    fn convert_output<'cx>(
        &'cx self,
        alloc: Global,
        kind: &OutputEventKind<RecordingSpec>,
        reader: &mut dyn StoreReader,
        load: LoadOutput,
    ) -> Result<TestEventKind<'cx>, ReplayConversionError>
        ensures replays { Replays (limit reader.old) (limit reader.new) (failures reader.old)
            (failures reader.new) (holds reader.old) (holds reader.new)
            (output_refusal (is_registered self.now.tests) kind.now)
            (of_output_kind (description_names load) kind.now)
            (λ es. output_replayed (description_loaded load es) kind.now) result }
        ensures same_reader { reader.new.0 ≡ reader.old.0 }
        ensures skipped { load ≡ Skip → reader.new ≡ reader.old }
        ensures apart { IfOk result (λ k. kind_unloaded k ≡ output_replayed left_out kind.now) }
        ensures refused { (e : ReplayConversionError)
            → output_refusal (is_registered self.now.tests) kind.now ≡ Some e
            → reader.new ≡ reader.old }
    {
        match kind {
            OutputEventKind::SetupScriptFinished { .. } => {
                script_finished(alloc, kind, reader, load)
            }
            OutputEventKind::TestAttemptFailedWillRetry { .. } => {
                self.attempt_failed(alloc, kind, reader, load)
            }
            OutputEventKind::TestFinished { .. } => self.test_finished(alloc, kind, reader, load),
        }
    }

    /// Replays a failed attempt.
    fn attempt_failed<'cx>(
        &'cx self,
        alloc: Global,
        kind: &OutputEventKind<RecordingSpec>,
        reader: &mut dyn StoreReader,
        load: LoadOutput,
    ) -> Result<TestEventKind<'cx>, ReplayConversionError>
        requires kind { is_failed_attempt kind.now ≡ true }
        ensures replays { Replays (limit reader.old) (limit reader.new) (failures reader.old)
            (failures reader.new) (holds reader.old) (holds reader.new)
            (output_refusal (is_registered self.now.tests) kind.now)
            (of_output_kind (description_names load) kind.now)
            (λ es. output_replayed (description_loaded load es) kind.now) result }
        ensures same_reader { reader.new.0 ≡ reader.old.0 }
        ensures skipped { load ≡ Skip → reader.new ≡ reader.old }
        ensures apart { IfOk result (λ k. kind_unloaded k ≡ output_replayed left_out kind.now) }
        ensures refused { (e : ReplayConversionError)
            → output_refusal (is_registered self.now.tests) kind.now ≡ Some e
            → reader.new ≡ reader.old }
    {
        let OutputEventKind::TestAttemptFailedWillRetry {
            stress_index,
            test_instance,
            run_status,
            delay_before_next_attempt,
            failure_output,
            running,
        } = kind
        else {
            unreachable!()
        };
        let test_instance = self.find(alloc, test_instance)?;
        let run_status = load_status(alloc, reader, load, run_status)?;
        Ok(TestEventKind::TestAttemptFailedWillRetry {
            stress_index: replay_index(stress_index),
            test_instance,
            run_status,
            delay_before_next_attempt: *delay_before_next_attempt,
            failure_output: *failure_output,
            running: *running,
        })
    }

    /// Replays the end of a test.
    fn test_finished<'cx>(
        &'cx self,
        alloc: Global,
        kind: &OutputEventKind<RecordingSpec>,
        reader: &mut dyn StoreReader,
        load: LoadOutput,
    ) -> Result<TestEventKind<'cx>, ReplayConversionError>
        requires kind { is_finished kind.now ≡ true }
        ensures replays { Replays (limit reader.old) (limit reader.new) (failures reader.old)
            (failures reader.new) (holds reader.old) (holds reader.new)
            (output_refusal (is_registered self.now.tests) kind.now)
            (of_output_kind (description_names load) kind.now)
            (λ es. output_replayed (description_loaded load es) kind.now) result }
        ensures same_reader { reader.new.0 ≡ reader.old.0 }
        ensures skipped { load ≡ Skip → reader.new ≡ reader.old }
        ensures apart { IfOk result (λ k. kind_unloaded k ≡ output_replayed left_out kind.now) }
        ensures refused { (e : ReplayConversionError)
            → output_refusal (is_registered self.now.tests) kind.now ≡ Some e
            → reader.new ≡ reader.old }
    {
        let OutputEventKind::TestFinished {
            stress_index,
            test_instance,
            success_output,
            failure_output,
            junit_store_success_output,
            junit_store_failure_output,
            junit_flaky_fail_status,
            run_statuses,
            current_stats,
            running,
        } = kind
        else {
            unreachable!()
        };
        let test_instance = self.find(alloc, test_instance)?;
        let run_statuses = load_statuses(alloc, reader, load, run_statuses)?;
        Ok(TestEventKind::TestFinished {
            stress_index: replay_index(stress_index),
            test_instance,
            success_output: *success_output,
            failure_output: *failure_output,
            junit_store_success_output: *junit_store_success_output,
            junit_store_failure_output: *junit_store_failure_output,
            junit_flaky_fail_status: *junit_flaky_fail_status,
            run_statuses,
            current_stats: *current_stats,
            running: *running,
        })
    }
}

/// Replays the end of a setup script.
fn script_finished<'cx>(
    alloc: Global,
    kind: &OutputEventKind<RecordingSpec>,
    reader: &mut dyn StoreReader,
    load: LoadOutput,
) -> Result<TestEventKind<'cx>, ReplayConversionError>
    requires kind { is_script_finished kind.now ≡ true }
    ensures replays { Replays (limit reader.old) (limit reader.new) (failures reader.old)
        (failures reader.new) (holds reader.old) (holds reader.new)
        None (of_output_kind (description_names load) kind.now)
        (λ es. output_replayed (description_loaded load es) kind.now) result }
    ensures same_reader { reader.new.0 ≡ reader.old.0 }
    ensures skipped { load ≡ Skip → reader.new ≡ reader.old }
    ensures apart { IfOk result (λ k. kind_unloaded k ≡ output_replayed left_out kind.now) }
{
    let OutputEventKind::SetupScriptFinished {
        stress_index,
        index,
        total,
        script_id,
        program,
        args,
        no_capture,
        run_status,
    } = kind
    else {
        unreachable!()
    };
    let named = script_copies(alloc, script_id, program, args)?;
    let run_status = match load_script_status(alloc, reader, load, run_status) {
        Ok(run_status) => run_status,
        Err(error) => {
            drop(named);
            return Err(ReplayConversionError::from(error));
        }
    };
    let (script_id, program, args) = named;
    Ok(TestEventKind::SetupScriptFinished {
        stress_index: replay_index(stress_index),
        index: *index,
        total: *total,
        script_id,
        program,
        args,
        no_capture: *no_capture,
        run_status,
        junit_store_success_output: false,
        junit_store_failure_output: false,
    })
}
