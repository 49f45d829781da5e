//! The kinds of events of setup scripts that hold no outputs.
ghost use Rattle.std.specs.Prelude.{◌≡◌, OnOk, codes};
ghost use Rattle.rec_json.specs.Nodes.{members_view};
ghost use Rattle.rec_json.specs.Tokens.{with_fields};
ghost use Rattle.rec_forms.specs.Gives.{Gives};
ghost use Rattle.rec_codec.specs.CoreKindForms.{place_form, command_form};
ghost use Rattle.rec_codec.specs.CoreKindForms.{setup_script_started_form, setup_script_slow_form};
ghost use Rattle.rec_codec.specs.CoreKinds.{core_name};
ghost use Rattle.rec_codec.specs.EventParts.{core_event_fields, IsCoreEvent};

use crate::event_parts::{with_args_to_index, with_elapsed_and_kind, with_script};
use rec_events::{CoreEventKind, Duration, Items, ScriptId, Stamp, StressIndexSummary, Text};
use rec_forms::{
    FromValueError, ObjectWriter, optional_field, required_field, required_three, required_two,
};
use rec_json::{JsonText, Node};
use std::alloc::{AllocError, Global};

/// Says which setup script it is.
#[derive(Drop)]
pub struct Place {
    /// Which of a stress run's runs it belongs to.
    pub stress_index: Option<StressIndexSummary>,
    /// How many setup scripts come before this one, from 0.
    pub index: usize,
    /// How many setup scripts there are.
    pub total: usize,
}

impl Place {
    /// Reads the place from the members of an event.
    ///
    /// # Errors
    ///
    /// - `NotAValue` if `index` or `total` is missing, or a member stands for no item.
    /// - `OutOfMemory` if memory runs out.
    #[tactic(auto, unfolding(crate::specs::CoreKindForms::place_form))]
    pub fn read<'a>(alloc: Global, object: &[(&'a str, Node<'a>)]) -> Result<Place, FromValueError>
        ensures { Gives result (place_form (members_view object.now)) }
    {
        let stress_index = optional_field(alloc, object, "stress-index")?;
        let (index, total) = required_two(alloc, object, "index", "total")?;
        Ok(Place {
            stress_index,
            index,
            total,
        })
    }
}

/// Says what a setup script runs.
#[derive(Drop)]
pub struct Command {
    /// The setup script.
    pub script_id: ScriptId,
    /// The program that the script runs.
    pub program: Text,
    /// The arguments of the program.
    pub args: Items<Text>,
}

impl Command {
    /// Reads the command from the members of an event.
    ///
    /// # Errors
    ///
    /// - `NotAValue` if a member is missing or stands for no item.
    /// - `OutOfMemory` if memory runs out.
    #[tactic(auto, unfolding(crate::specs::CoreKindForms::command_form))]
    pub fn read<'a>(
        alloc: Global,
        object: &[(&'a str, Node<'a>)],
    ) -> Result<Command, FromValueError>
        ensures { Gives result (command_form (members_view object.now)) }
    {
        let (script_id, program, args) = required_three(
            alloc,
            object,
            "script-id",
            "program",
            "args",
        )?;
        Ok(Command {
            script_id,
            program,
            args,
        })
    }
}

/// Writes the members of a setup script's start.
pub fn write_setup_script_started(
    alloc: Global,
    text: &mut JsonText,
    timestamp: &Stamp,
    elapsed: &Duration,
    kind: &CoreEventKind,
) -> Result<(), AllocError>
    requires named { core_name kind.now ≡ codes "setup-script-started" }
    ensures written { OnOk result (text.new
        ≡ with_fields text.old (core_event_fields timestamp.now elapsed.now kind.now)) }
    ensures known { OnOk result (IsCoreEvent timestamp.now elapsed.now kind.now) }
{
    let CoreEventKind::SetupScriptStarted {
        stress_index,
        index,
        total,
        script_id,
        program,
        args,
        no_capture,
    } = kind
    else {
        unreachable!()
    };
    let object = ObjectWriter::resume(alloc);
    let object = with_args_to_index(object, text, args, elapsed, *index);
    let object = object.text(text, "kind", "setup-script-started");
    let object = object.field(text, "no-capture", no_capture);
    let object = object.field(text, "program", program);
    let object = with_script(object, text, script_id, stress_index, timestamp, *total);
    object.leave_open()
}

/// Reads the members of a setup script's start.
#[tactic(auto, unfolding(crate::specs::CoreKindForms::setup_script_started_form))]
pub fn setup_script_started_from<'a>(
    alloc: Global,
    object: &[(&'a str, Node<'a>)],
) -> Result<CoreEventKind, FromValueError>
    ensures { Gives result (setup_script_started_form (members_view object.now)) }
{
    let place = Place::read(alloc, object)?;
    let no_capture = required_field(alloc, object, "no-capture")?;
    let command = Command::read(alloc, object)?;
    Ok(CoreEventKind::SetupScriptStarted {
        stress_index: place.stress_index,
        index: place.index,
        total: place.total,
        script_id: command.script_id,
        program: command.program,
        args: command.args,
        no_capture,
    })
}

/// Writes the members of a slow setup script.
pub fn write_setup_script_slow(
    alloc: Global,
    text: &mut JsonText,
    timestamp: &Stamp,
    elapsed: &Duration,
    kind: &CoreEventKind,
) -> Result<(), AllocError>
    requires named { core_name kind.now ≡ codes "setup-script-slow" }
    ensures written { OnOk result (text.new
        ≡ with_fields text.old (core_event_fields timestamp.now elapsed.now kind.now)) }
    ensures known { OnOk result (IsCoreEvent timestamp.now elapsed.now kind.now) }
{
    let CoreEventKind::SetupScriptSlow {
        stress_index,
        script_id,
        program,
        args,
        elapsed: slow_elapsed,
        will_terminate,
    } = kind
    else {
        unreachable!()
    };
    let object = ObjectWriter::resume(alloc);
    let object = object.field(text, "args", args);
    let object = with_elapsed_and_kind(object, text, elapsed, "setup-script-slow");
    let object = object.field(text, "program", program);
    let object = object.field(text, "script-id", script_id);
    let object = object.field(text, "slow-elapsed", slow_elapsed);
    let object = object.optional(text, "stress-index", stress_index);
    let object = object.field(text, "timestamp", timestamp);
    let object = object.field(text, "will-terminate", will_terminate);
    object.leave_open()
}

/// Reads the members of a slow setup script.
#[tactic(auto, unfolding(crate::specs::CoreKindForms::setup_script_slow_form))]
pub fn setup_script_slow_from<'a>(
    alloc: Global,
    object: &[(&'a str, Node<'a>)],
) -> Result<CoreEventKind, FromValueError>
    ensures { Gives result (setup_script_slow_form (members_view object.now)) }
{
    let stress_index = optional_field(alloc, object, "stress-index")?;
    let (elapsed, will_terminate) = required_two(alloc, object, "slow-elapsed", "will-terminate")?;
    let command = Command::read(alloc, object)?;
    Ok(CoreEventKind::SetupScriptSlow {
        stress_index,
        script_id: command.script_id,
        program: command.program,
        args: command.args,
        elapsed,
        will_terminate,
    })
}
