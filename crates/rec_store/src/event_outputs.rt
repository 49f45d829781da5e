//! The outputs of an event's scripts and attempts, as they are stored.
ghost use Rattle.std.specs.List.{flat_map};
ghost use Rattle.std.specs.Prelude.{◌≡◌, false, true, Err};
ghost use Rattle.rec_store.specs.declared.error.RunStoreError.TheVariants.{Failed};
ghost use Rattle.rec_store.specs.EventOutputs.{status_entries, status_recorded, statuses_recorded};
ghost use Rattle.rec_store.specs.EventOutputs.{script_status_entries, script_status_recorded};
ghost use Rattle.rec_store.specs.EventOutputs.{is_script_finished, is_failed_attempt, is_finished};
ghost use Rattle.rec_store.specs.EventOutputs.{output_kind_entries, output_kind_recorded};
ghost use Rattle.rec_store.specs.EventOutputs.{kind_entries, kind_recorded, event_entries};
ghost use Rattle.rec_store.specs.EventOutputs.{event_recorded};
ghost use Rattle.rec_store.specs.Stopping.{StoresAs};

use crate::error::RunStoreError;
use crate::namer::OutputNamer;
use crate::outputs::OutputRules;
use rec_container::{ContainerWriter, Sink};
use rec_events::{
    ExecuteStatus, ExecutionStatuses, LiveSpec, OutputEventKind, RecordingSpec,
    SetupScriptExecuteStatus, TestEventKindSummary, TestEventSummary,
};

impl<'n, N: OutputNamer> OutputRules<'n, N> {
    /// Stores the outputs of an attempt.
    fn store_status<S: Sink>(
        &self,
        store: &mut ContainerWriter<S>,
        status: ExecuteStatus<LiveSpec>,
    ) -> Result<ExecuteStatus<RecordingSpec>, RunStoreError>
        requires sound { store.old.failed ≡ false }
        ensures { StoresAs S.taken S.faults store.old store.new
            (status_entries (N.number self.now.namer.now) self.now.max_size status)
            (status_recorded (N.number self.now.namer.now) self.now.max_size status) result }
    {
        let ExecuteStatus {
            retry_data,
            output,
            result,
            start_time,
            time_taken,
            is_slow,
            delay_before_start,
            error_summary,
            output_error_slice,
            cpu_time,
        } = status;
        let output = match self.store_execution(store, output) {
            Ok(output) => output,
            Err(error) => {
                // By a call: in place, each case of what is let go of is one of the proof.
                drop((result, error_summary, output_error_slice));
                return Err(error);
            }
        };
        Ok(ExecuteStatus {
            retry_data,
            output,
            result,
            start_time,
            time_taken,
            is_slow,
            delay_before_start,
            error_summary,
            output_error_slice,
            cpu_time,
        })
    }

    /// Stores the outputs of all attempts, in order.
    fn store_statuses<S: Sink>(
        &self,
        store: &mut ContainerWriter<S>,
        statuses: ExecutionStatuses<LiveSpec>,
    ) -> Result<ExecutionStatuses<RecordingSpec>, RunStoreError>
        requires sound { store.old.failed ≡ false }
        ensures { StoresAs S.taken S.faults store.old store.new
            (flat_map (status_entries (N.number self.now.namer.now) self.now.max_size)
            statuses.statuses)
            (statuses_recorded (N.number self.now.namer.now) self.now.max_size statuses) result }
    {
        // that at least one attempt is stored rests on the list, which isn't empty
        let _some = statuses.statuses.as_slice();
        let mut recorded = Vec::new(self.alloc);
        for status in statuses.statuses.into_vec() {
            let status = self.store_status(store, status)?;
            recorded.push(status)?;
        }
        Ok(ExecutionStatuses::new(recorded, statuses.flaky_result))
    }

    /// Stores the output of a run of a setup script.
    fn store_script_status<S: Sink>(
        &self,
        store: &mut ContainerWriter<S>,
        status: SetupScriptExecuteStatus<LiveSpec>,
    ) -> Result<SetupScriptExecuteStatus<RecordingSpec>, RunStoreError>
        requires sound { store.old.failed ≡ false }
        ensures { StoresAs S.taken S.faults store.old store.new
            (script_status_entries (N.number self.now.namer.now) self.now.max_size status)
            (script_status_recorded (N.number self.now.namer.now) self.now.max_size status) result }
    {
        let SetupScriptExecuteStatus {
            output,
            result,
            start_time,
            time_taken,
            is_slow,
            env_map,
            error_summary,
        } = status;
        let output = match self.store_execution(store, output) {
            Ok(output) => output,
            Err(error) => {
                drop((result, error_summary, env_map));
                return Err(error);
            }
        };
        Ok(SetupScriptExecuteStatus {
            output,
            result,
            start_time,
            time_taken,
            is_slow,
            env_map,
            error_summary,
        })
    }

    /// Stores the outputs of a kind of event.
    fn store_kind<S: Sink>(
        &self,
        store: &mut ContainerWriter<S>,
        kind: TestEventKindSummary<LiveSpec>,
    ) -> Result<TestEventKindSummary<RecordingSpec>, RunStoreError>
        requires sound { store.old.failed ≡ false }
        ensures { StoresAs S.taken S.faults store.old store.new
            (kind_entries (N.number self.now.namer.now) self.now.max_size kind)
            (kind_recorded (N.number self.now.namer.now) self.now.max_size kind) result }
    {
        match kind {
            TestEventKindSummary::Core(kind) => Ok(TestEventKindSummary::Core(kind)),
            TestEventKindSummary::Output(kind) => {
                let kind = self.store_output_kind(store, kind)?;
                Ok(TestEventKindSummary::Output(kind))
            }
        }
    }

    /// Stores the outputs of a script, of one attempt or of all attempts.
    fn store_output_kind<S: Sink>(
        &self,
        store: &mut ContainerWriter<S>,
        kind: OutputEventKind<LiveSpec>,
    ) -> Result<OutputEventKind<RecordingSpec>, RunStoreError>
        requires sound { store.old.failed ≡ false }
        ensures { StoresAs S.taken S.faults store.old store.new
            (output_kind_entries (N.number self.now.namer.now) self.now.max_size kind)
            (output_kind_recorded (N.number self.now.namer.now) self.now.max_size kind) result }
    {
        match &kind {
            OutputEventKind::SetupScriptFinished { .. } => self.store_script_finished(store, kind),
            OutputEventKind::TestAttemptFailedWillRetry { .. } => {
                self.store_failed_attempt(store, kind)
            }
            OutputEventKind::TestFinished { .. } => self.store_finished(store, kind),
        }
    }

    /// Stores the output of a setup script that ended.
    fn store_script_finished<S: Sink>(
        &self,
        store: &mut ContainerWriter<S>,
        kind: OutputEventKind<LiveSpec>,
    ) -> Result<OutputEventKind<RecordingSpec>, RunStoreError>
        requires sound { store.old.failed ≡ false }
        requires script { is_script_finished kind ≡ true }
        ensures { StoresAs S.taken S.faults store.old store.new
            (output_kind_entries (N.number self.now.namer.now) self.now.max_size kind)
            (output_kind_recorded (N.number self.now.namer.now) self.now.max_size kind) result }
    {
        let OutputEventKind::SetupScriptFinished {
            stress_index,
            index,
            total,
            script_id,
            program,
            args,
            no_capture,
            run_status,
        } = kind
        else {
            unreachable!()
        };
        let run_status = match self.store_script_status(store, run_status) {
            Ok(run_status) => run_status,
            Err(error) => {
                drop((script_id, program, args));
                return Err(error);
            }
        };
        Ok(OutputEventKind::SetupScriptFinished {
            stress_index,
            index,
            total,
            script_id,
            program,
            args,
            no_capture,
            run_status,
        })
    }

    /// Stores the outputs of an attempt that another one follows.
    fn store_failed_attempt<S: Sink>(
        &self,
        store: &mut ContainerWriter<S>,
        kind: OutputEventKind<LiveSpec>,
    ) -> Result<OutputEventKind<RecordingSpec>, RunStoreError>
        requires sound { store.old.failed ≡ false }
        requires attempt { is_failed_attempt kind ≡ true }
        ensures { StoresAs S.taken S.faults store.old store.new
            (output_kind_entries (N.number self.now.namer.now) self.now.max_size kind)
            (output_kind_recorded (N.number self.now.namer.now) self.now.max_size kind) result }
    {
        let OutputEventKind::TestAttemptFailedWillRetry {
            stress_index,
            test_instance,
            run_status,
            delay_before_next_attempt,
            failure_output,
            running,
        } = kind
        else {
            unreachable!()
        };
        let run_status = match self.store_status(store, run_status) {
            Ok(run_status) => run_status,
            Err(error) => {
                drop(test_instance);
                return Err(error);
            }
        };
        Ok(OutputEventKind::TestAttemptFailedWillRetry {
            stress_index,
            test_instance,
            run_status,
            delay_before_next_attempt,
            failure_output,
            running,
        })
    }

    /// Stores the outputs of all attempts of a test that ended.
    fn store_finished<S: Sink>(
        &self,
        store: &mut ContainerWriter<S>,
        kind: OutputEventKind<LiveSpec>,
    ) -> Result<OutputEventKind<RecordingSpec>, RunStoreError>
        requires sound { store.old.failed ≡ false }
        requires finished { is_finished kind ≡ true }
        ensures { StoresAs S.taken S.faults store.old store.new
            (output_kind_entries (N.number self.now.namer.now) self.now.max_size kind)
            (output_kind_recorded (N.number self.now.namer.now) self.now.max_size kind) result }
    {
        let OutputEventKind::TestFinished {
            stress_index,
            test_instance,
            success_output,
            failure_output,
            junit_store_success_output,
            junit_store_failure_output,
            junit_flaky_fail_status,
            run_statuses,
            current_stats,
            running,
        } = kind
        else {
            unreachable!()
        };
        let run_statuses = match self.store_statuses(store, run_statuses) {
            Ok(run_statuses) => run_statuses,
            Err(error) => {
                drop(test_instance);
                return Err(error);
            }
        };
        Ok(OutputEventKind::TestFinished {
            stress_index,
            test_instance,
            success_output,
            failure_output,
            junit_store_success_output,
            junit_store_failure_output,
            junit_flaky_fail_status,
            run_statuses,
            current_stats,
            running,
        })
    }

    /// Stores the outputs of an event, and returns the event as it is recorded.
    ///
    /// Outputs are stored one after the other, stdout before stderr. The first refusal ends it, and
    /// those before it are stored. An output that isn't loaded stores nothing; the recorder refuses
    /// its event before.
    ///
    /// # Errors
    ///
    /// `Failed` comes exactly where the store's sink failed before, and then nothing is stored. The
    /// other refusals are those of `RunRecorder::write_meta`.
    pub(crate) fn store_event<S: Sink>(
        &self,
        store: &mut ContainerWriter<S>,
        event: TestEventSummary<LiveSpec>,
    ) -> Result<TestEventSummary<RecordingSpec>, RunStoreError>
        ensures failed { store.old.failed ≡ true → (result ≡ Err Failed) × (store.new ≡ store.old) }
        ensures stored { store.old.failed ≡ false → StoresAs S.taken S.faults store.old store.new
            (event_entries (N.number self.now.namer.now) self.now.max_size event)
            (event_recorded (N.number self.now.namer.now) self.now.max_size event) result }
    {
        // The event is let go of by a call: in place,
        // each of its kinds would be a case of the proof.
        if store.is_failed() {
            event.discard();
            return Err(RunStoreError::Failed);
        }
        self.store_outputs(store, event)
    }

    /// Stores the outputs of an event in a store that has not failed.
    fn store_outputs<S: Sink>(
        &self,
        store: &mut ContainerWriter<S>,
        event: TestEventSummary<LiveSpec>,
    ) -> Result<TestEventSummary<RecordingSpec>, RunStoreError>
        requires sound { store.old.failed ≡ false }
        ensures { StoresAs S.taken S.faults store.old store.new
            (event_entries (N.number self.now.namer.now) self.now.max_size event)
            (event_recorded (N.number self.now.namer.now) self.now.max_size event) result }
    {
        Ok(TestEventSummary {
            timestamp: event.timestamp,
            elapsed: event.elapsed,
            kind: self.store_kind(store, event.kind)?,
        })
    }
}
