//! What happens to a setup script before its end, as it is recorded.
ghost use Rattle.std.specs.Prelude.{◌≡◌, IfOk};
ghost use Rattle.rec_events.specs.declared.events.CoreEventKind.TheVariants as core;
ghost use Rattle.rec_events.specs.LiveStress.{index_summary};

use crate::copies::copy_script;
use crate::stress::recorded_index;
use rec_events::{CoreEventKind, Duration, Items, ScriptId, StressIndex, Text};
use std::alloc::{AllocError, Global};

/// Summarizes the start of a setup script.
pub(crate) fn script_started(
    alloc: Global,
    stress_index: &Option<StressIndex>,
    index: usize,
    total: usize,
    script_id: &ScriptId,
    program: &Text,
    args: &Items<Text>,
    no_capture: bool,
) -> Result<CoreEventKind, AllocError>
    ensures { IfOk result
        (λ summary. summary
        ≡ core.SetupScriptStarted (index_summary stress_index.now) index total script_id.now
        program.now args.now no_capture) }
{
    let (script_id, program, args) = copy_script(alloc, script_id, program, args)?;
    Ok(CoreEventKind::SetupScriptStarted {
        stress_index: recorded_index(stress_index),
        index,
        total,
        script_id,
        program,
        args,
        no_capture,
    })
}

/// Summarizes that a setup script is slow.
pub(crate) fn script_slow(
    alloc: Global,
    stress_index: &Option<StressIndex>,
    script_id: &ScriptId,
    program: &Text,
    args: &Items<Text>,
    elapsed: Duration,
    will_terminate: bool,
) -> Result<CoreEventKind, AllocError>
    ensures { IfOk result
        (λ summary. summary
        ≡ core.SetupScriptSlow (index_summary stress_index.now) script_id.now program.now args.now
        elapsed will_terminate) }
{
    let (script_id, program, args) = copy_script(alloc, script_id, program, args)?;
    Ok(CoreEventKind::SetupScriptSlow {
        stress_index: recorded_index(stress_index),
        script_id,
        program,
        args,
        elapsed,
        will_terminate,
    })
}
