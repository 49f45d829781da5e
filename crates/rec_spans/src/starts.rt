//! The spans that events start.
ghost use Rattle.std.specs.Prelude.{◌≡◌, ◌^◌, ◌+◌, true, false, nat_lt, IfOk, MatchOption};
ghost use Rattle.rec_spans.specs.Kinds.{pid_of, run_span, script_span};
ghost use Rattle.rec_spans.specs.Kinds.{sub_run_span, test_name, test_span};

use crate::binaries::Binaries;
use crate::settings::ChromeTraceGroupBy;
use crate::spans::{Place, Span, SpanKey};
use rec_events::{OwnedTestInstanceId, RustBinaryId, ScriptId, Text, TryClone};
use rec_trace_events::Row;
use std::alloc::{AllocError, Global};

/// The tid of the thread of slot or index 0. Smaller ones are those of the run and its sub-runs.
const FIRST_THREAD: u64 = 10000;

/// Makes the span of the run.
pub fn run_span(alloc: Global) -> Result<Span, AllocError>
    ensures { IfOk result (λ span. span ≡ run_span) }
{
    let name = Text::from_str(alloc, "test run")?;
    Ok(Span {
        key: SpanKey::Run,
        place: Place::Run,
        row: Row { pid: 0, tid: 1 },
        name,
    })
}

/// Makes the span of a sub-run.
pub fn sub_run_span(alloc: Global) -> Result<Span, AllocError>
    ensures { IfOk result (λ span. span ≡ sub_run_span) }
{
    let name = Text::from_str(alloc, "sub-run")?;
    Ok(Span {
        key: SpanKey::SubRun,
        place: Place::SubRun,
        row: Row { pid: 0, tid: 2 },
        name,
    })
}

/// Returns the thread of a slot of tests, or of an index of setup scripts,
/// where its number is a u64.
pub fn thread(number: u64) -> Option<u64>
    ensures { MatchOption result (nat_lt (number + 10000) (2 ^ 64) ≡ false)
        (λ tid. (tid ≡ number + 10000) × (nat_lt (number + 10000) (2 ^ 64) ≡ true)) }
{
    number.checked_add(FIRST_THREAD)
}

/// Returns the process of a binary, where its number is a u64.
pub fn process(group_by: ChromeTraceGroupBy, binaries: &Binaries, id: &RustBinaryId) -> Option<u64>
    ensures { MatchOption result (nat_lt (pid_of group_by binaries.now id.now) (2 ^ 64) ≡ false)
        (λ pid. (pid ≡ pid_of group_by binaries.now id.now)
        × (nat_lt (pid_of group_by binaries.now id.now) (2 ^ 64) ≡ true)) }
{
    match group_by {
        ChromeTraceGroupBy::Slot => Some(2),
        ChromeTraceGroupBy::Binary => {
            let number = binaries.number(id).unwrap_or(binaries.len());
            (number as u64).checked_add(2)
        }
    }
}

/// Makes the span of a setup script, whose thread is a u64.
pub fn script_span(alloc: Global, index: usize, id: &ScriptId) -> Result<Span, AllocError>
    requires { nat_lt (index + 10000) (2 ^ 64) ≡ true }
    ensures { IfOk result (λ span. span ≡ script_span index id.now) }
{
    let name = Text::from_str(alloc, id.as_str())?;
    Ok(Span {
        key: SpanKey::Script(index),
        place: Place::Script(index),
        row: Row {
            pid: 1,
            tid: index as u64 + FIRST_THREAD,
        },
        name,
    })
}

/// Makes the span of an attempt of a test on a slot, whose thread and process are u64.
pub fn test_span(
    alloc: Global,
    group_by: ChromeTraceGroupBy,
    binaries: &Binaries,
    test: &OwnedTestInstanceId,
    slot: u64,
) -> Result<Span, AllocError>
    requires tid { nat_lt (slot + 10000) (2 ^ 64) ≡ true }
    requires pid { nat_lt (pid_of group_by binaries.now test.now.binary_id) (2 ^ 64) ≡ true }
    ensures { IfOk result (λ span. span ≡ test_span group_by binaries.now test.now slot) }
{
    let Some(pid) = process(group_by, binaries, &test.binary_id) else {
        unreachable!()
    };
    let name = test_name(alloc, group_by, test)?;
    Ok(Span {
        key: SpanKey::Test(test.try_clone(alloc)?),
        place: Place::Slot(slot),
        row: Row {
            pid,
            tid: slot + FIRST_THREAD,
        },
        name,
    })
}

/// Makes the name of the span of a test.
fn test_name(
    alloc: Global,
    group_by: ChromeTraceGroupBy,
    test: &OwnedTestInstanceId,
) -> Result<Text, AllocError>
    ensures { IfOk result (λ name. name ≡ test_name group_by test.now) }
{
    let test_name = test.test_name.as_str();
    match group_by {
        ChromeTraceGroupBy::Binary => Text::from_str(alloc, test_name),
        ChromeTraceGroupBy::Slot => {
            let binary_id = test.binary_id.as_str();
            Ok(Text::new(format!(in alloc; "{binary_id} {test_name}")?))
        }
    }
}
