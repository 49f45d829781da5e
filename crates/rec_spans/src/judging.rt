//! Judges whether an event is refused, before anything changes.
ghost use Rattle.std.specs.Option.{option_or};
ghost use Rattle.rec_spans.specs.declared.settings.ChromeTraceGroupBy.{ChromeTraceGroupBy};
ghost use Rattle.rec_spans.specs.declared.spans.SpanKey.TheVariants as keys;
ghost use Rattle.rec_spans.specs.Kinds.{change_of};
ghost use Rattle.rec_spans.specs.Past.{of_key};
ghost use Rattle.rec_spans.specs.Refusals.{Judges, act_refusal, attempt_missing};
ghost use Rattle.rec_spans.specs.Refusals.{failures_refusal, flow_refusal, missing_refusal};
ghost use Rattle.rec_spans.specs.Refusals.{open_refusal, row_refusal, script_missing};
ghost use Rattle.rec_spans.specs.Refusals.{scripts_in, scripts_refusal, slot_refusal};
ghost use Rattle.rec_spans.specs.Seen.{seen};

use crate::acts::Act;
use crate::errors::ChromeTraceError;
use crate::settings::ChromeTraceGroupBy;
use crate::span_tracker::SpanTracker;
use crate::spans::SpanKey;
use crate::starts::{process, thread};
use rec_events::{OwnedTestInstanceId, ScriptId, TryClone};
use std::alloc::Global;

impl SpanTracker {
    /// Judges an event whose number and instant are in range.
    pub(crate) fn judge(
        &self,
        alloc: Global,
        group_by: ChromeTraceGroupBy,
        number: u64,
        act: Act<'_>,
    ) -> Result<(), ChromeTraceError>
        ensures { Judges result
            (act_refusal number self.now (seen act.entry)
            (change_of group_by self.now.binaries (seen act.entry))) }
    {
        self.judge_missing(alloc, number, act)?;
        self.judge_open(alloc, number, act)?;
        self.judge_slot(number, act)?;
        self.judge_row(group_by, number, act)?;
        self.judge_counts(number, act)
    }

    /// Judges whether what the event needs is open.
    fn judge_missing(
        &self,
        alloc: Global,
        number: u64,
        act: Act<'_>,
    ) -> Result<(), ChromeTraceError>
        ensures { Judges result (missing_refusal number self.now.spans (seen act.entry)) }
    {
        match act {
            Act::AttemptFails { test } => self.judge_attempt(alloc, number, test),
            Act::TestEnds { test, .. } => self.judge_attempt(alloc, number, test),
            Act::TestIsSlow { test } => self.judge_attempt(alloc, number, test),
            Act::ScriptEnds { index, id } => self.judge_script(alloc, number, index, id),
            Act::ScriptIsSlow { id } => self.judge_some_script(alloc, number, id),
            Act::SubRunEnds => {
                if self.open_spans.sub_run().is_none() {
                    return Err(ChromeTraceError::MissingStressSubRunStart { event: number });
                }
                Ok(())
            }
            _ => Ok(()),
        }
    }

    fn judge_attempt(
        &self,
        alloc: Global,
        number: u64,
        test: &OwnedTestInstanceId,
    ) -> Result<(), ChromeTraceError>
        ensures { Judges result (attempt_missing number self.now.spans test.now) }
    {
        if self.open_spans.test(test).is_none() {
            let OwnedTestInstanceId {
                binary_id,
                test_name,
            } = test.try_clone(alloc)?;
            return Err(ChromeTraceError::MissingTestStart {
                event: number,
                binary_id,
                test_name,
            });
        }
        Ok(())
    }

    fn judge_script(
        &self,
        alloc: Global,
        number: u64,
        index: usize,
        id: &ScriptId,
    ) -> Result<(), ChromeTraceError>
        ensures { Judges result
            (script_missing number (of_key (keys.Script index) self.now.spans) id.now) }
    {
        if !self.open_spans.is_script_under(index, id) {
            return Err(ChromeTraceError::MissingScriptStart {
                event: number,
                script_id: id.try_clone(alloc)?,
            });
        }
        Ok(())
    }

    fn judge_some_script(
        &self,
        alloc: Global,
        number: u64,
        id: &ScriptId,
    ) -> Result<(), ChromeTraceError>
        ensures { Judges result (script_missing number (scripts_in self.now.spans) id.now) }
    {
        if self.open_spans.some_script(id).is_none() {
            return Err(ChromeTraceError::MissingScriptStart {
                event: number,
                script_id: id.try_clone(alloc)?,
            });
        }
        Ok(())
    }

    /// Judges whether the event starts what is open.
    fn judge_open(&self, alloc: Global, number: u64, act: Act<'_>) -> Result<(), ChromeTraceError>
        ensures { (g : ChromeTraceGroupBy)
            → Judges result
            (open_refusal number self.now.spans (change_of g self.now.binaries (seen act.entry))) }
    {
        match act {
            Act::RunStarts => {
                if self.open_spans.run().is_some() {
                    return Err(ChromeTraceError::SpanAlreadyOpen {
                        event: number,
                        span: SpanKey::Run,
                    });
                }
                Ok(())
            }
            Act::SubRunStarts => {
                if self.open_spans.sub_run().is_some() {
                    return Err(ChromeTraceError::SpanAlreadyOpen {
                        event: number,
                        span: SpanKey::SubRun,
                    });
                }
                Ok(())
            }
            Act::ScriptStarts { index, .. } => {
                if self.open_spans.script(index).is_some() {
                    return Err(ChromeTraceError::SpanAlreadyOpen {
                        event: number,
                        span: SpanKey::Script(index),
                    });
                }
                Ok(())
            }
            Act::AttemptStarts { test, .. } => {
                if self.open_spans.test(test).is_some() {
                    return Err(ChromeTraceError::SpanAlreadyOpen {
                        event: number,
                        span: SpanKey::Test(test.try_clone(alloc)?),
                    });
                }
                Ok(())
            }
            _ => Ok(()),
        }
    }

    /// Judges whether the event starts a test on a slot that is held.
    fn judge_slot(&self, number: u64, act: Act<'_>) -> Result<(), ChromeTraceError>
        ensures { (g : ChromeTraceGroupBy)
            → Judges result
            (slot_refusal number self.now.spans (change_of g self.now.binaries (seen act.entry))) }
    {
        match act {
            Act::AttemptStarts { slot, .. } => {
                if self.open_spans.on_slot(slot).is_some() {
                    return Err(ChromeTraceError::SlotBusy {
                        event: number,
                        slot,
                    });
                }
                Ok(())
            }
            _ => Ok(()),
        }
    }

    /// Judges whether the row of what the event starts has a number past u64.
    fn judge_row(
        &self,
        group_by: ChromeTraceGroupBy,
        number: u64,
        act: Act<'_>,
    ) -> Result<(), ChromeTraceError>
        ensures { Judges result
            (row_refusal number (change_of group_by self.now.binaries (seen act.entry))) }
    {
        match act {
            Act::ScriptStarts { index, .. } => {
                if thread(index as u64).is_none() {
                    return Err(ChromeTraceError::RowOutOfRange {
                        event: number,
                        number: index as u64,
                    });
                }
                Ok(())
            }
            Act::AttemptStarts { test, slot } => {
                if thread(slot).is_none() {
                    return Err(ChromeTraceError::RowOutOfRange {
                        event: number,
                        number: slot,
                    });
                }
                if process(group_by, &self.binaries, &test.binary_id).is_none() {
                    return Err(ChromeTraceError::RowOutOfRange {
                        event: number,
                        number: u64::MAX,
                    });
                }
                Ok(())
            }
            _ => Ok(()),
        }
    }

    /// Judges whether the event issues a flow number past u64, or counts more setup scripts or
    /// failed tests than a usize.
    fn judge_counts(&self, number: u64, act: Act<'_>) -> Result<(), ChromeTraceError>
        ensures { Judges result (option_or (flow_refusal number (seen act.entry) self.now.next_flow)
            (option_or (scripts_refusal number (seen act.entry) self.now.scripts)
            (failures_refusal number (seen act.entry)))) }
    {
        match act {
            Act::ScriptStarts { .. } => {
                if self.scripts.checked_add(1).is_none() {
                    return Err(ChromeTraceError::CountOutOfRange { event: number });
                }
                Ok(())
            }
            Act::AttemptFails { .. } => {
                // each flow number so far is a u64, and so is the next
                let _next = self.next_flow;
                Ok(())
            }
            Act::TestEnds { current_stats, .. } => {
                if current_stats.failed_count().is_none() {
                    return Err(ChromeTraceError::CountOutOfRange { event: number });
                }
                Ok(())
            }
            _ => Ok(()),
        }
    }
}
