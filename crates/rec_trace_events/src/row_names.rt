//! The names of processes and of their rows.
ghost use Rattle.std.specs.Prelude.{◌≡◌, IfOk, option_copied};
ghost use Rattle.rec_trace_events.specs.RowNames.{run_process_name, script_name, slot_name};

use rec_events::Text;
use std::alloc::{AllocError, Global};

/// Makes the name of the run's process, under the profile of the run that started last, if one
/// started, as `docs/FORMATS.md#spans-and-rows` gives it.
///
/// # Errors
///
/// `AllocError` if memory runs out.
pub fn run_process_name(alloc: Global, profile: Option<&Text>) -> Result<Text, AllocError>
    ensures { IfOk result (λ name. name ≡ run_process_name (option_copied profile.entry)) }
{
    match profile {
        Some(profile) => {
            let profile = profile.as_str();
            Ok(Text::new(format!(in alloc; "nextest run ({profile})")?))
        }
        None => Text::from_str(alloc, "nextest run"),
    }
}

/// Makes the name of the row of a slot, in which tests run.
///
/// # Errors
///
/// `AllocError` if memory runs out.
pub fn slot_name(alloc: Global, slot: u64) -> Result<Text, AllocError>
    ensures { IfOk result (λ name. name ≡ slot_name slot) }
{
    Ok(Text::new(format!(in alloc; "slot-{slot}")?))
}

/// Makes the name of the row of a setup script.
///
/// # Errors
///
/// `AllocError` if memory runs out.
pub fn script_name(alloc: Global, index: usize) -> Result<Text, AllocError>
    ensures { IfOk result (λ name. name ≡ script_name index) }
{
    Ok(Text::new(format!(in alloc; "script-{index}")?))
}
