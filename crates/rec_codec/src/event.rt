//! Events as JSON.
ghost use Rattle.std.specs.Prelude.{◌≡◌, ◌++◌, OnOk, IfOk, Some, codes, option_map, true};
ghost use Rattle.serde_json.specs.Find.{as_str};
ghost use Rattle.serde_json.specs.View.{view};
ghost use Rattle.rec_json.specs.Nodes.{members_view, view as node_view};
ghost use Rattle.rec_json.specs.Tokens.{value_tokens, with_fields};
ghost use Rattle.rec_forms.specs.Gives.{Gives};
ghost use Rattle.rec_forms.specs.Shape.{required};
ghost use Rattle.rec_codec.specs.EventForms.{kind_named, kind_form, kind_loaded};
ghost use Rattle.rec_codec.specs.EventForms.{event_fields, event_value, event_form, IsEvent};
ghost use Rattle.rec_codec.specs.Writes.{Writes, WritesLoaded};

use crate::core_kinds::{core_from, write_core};
use crate::output_kinds::{
    attempt_failed_from, script_finished_from, test_finished_from, write_output,
};
use crate::{OutputForm, ToValueError};
use rec_events::{TestEventKindSummary, TestEventSummary};
use rec_forms::{FromValueError, required_two, value_of_text};
use rec_json::{JsonText, Node, member};
use serde_json::Value;
use std::alloc::Global;

/// Writes the members of an event.
fn write_members<S: OutputForm>(
    alloc: Global,
    event: &TestEventSummary<S>,
    text: &mut JsonText,
) -> Result<(), ToValueError>
    ensures written { OnOk result
        (text.new ≡ with_fields text.old (event_fields S.output_value event.now)) }
    ensures loaded { WritesLoaded result (kind_loaded S.loaded event.now.kind) }
    ensures known { OnOk result (IsEvent S.output_well_formed event.now) }
{
    match &event.kind {
        TestEventKindSummary::Core(kind) => Ok(write_core(
            alloc,
            text,
            &event.timestamp,
            &event.elapsed,
            kind,
        )?),
        TestEventKindSummary::Output(kind) => write_output(
            alloc,
            text,
            &event.timestamp,
            &event.elapsed,
            kind,
        ),
    }
}

/// Writes an event at the end of `text`: an object with its times, the name of its kind and the
/// members of that kind, as `docs/FORMATS.md#events` lists them.
///
/// # Errors
///
/// `NotLoaded` comes exactly where an output of the event isn't loaded, and `OutOfMemory` where
/// there was not enough memory. Then `text` may hold a part of the event.
pub fn write_event<S: OutputForm>(
    alloc: Global,
    event: &TestEventSummary<S>,
    text: &mut JsonText,
) -> Result<(), ToValueError>
    ensures written { OnOk result
        (text.new ≡ text.old ++ value_tokens (event_value S.output_value event.now)) }
    ensures loaded { WritesLoaded result (kind_loaded S.loaded event.now.kind) }
    ensures known { OnOk result (IsEvent S.output_well_formed event.now) }
{
    text.begin_object()?;
    write_members(alloc, event, text)?;
    text.end_struct()?;
    Ok(())
}

/// Makes the value of an event, which is the value of its text.
fn value_from<S: OutputForm>(
    alloc: Global,
    event: &TestEventSummary<S>,
) -> Result<Value, ToValueError>
    ensures written { Writes result (event_value S.output_value event.now)
        (kind_loaded S.loaded event.now.kind) }
    ensures known { OnOk result (IsEvent S.output_well_formed event.now) }
{
    let mut text = JsonText::new(alloc);
    write_event(alloc, event, &mut text)?;
    let text = text.into_text();
    let value = value_of_text(alloc, &text)?;
    Ok(value)
}

/// Makes the value of an event, which is the value of its text. It is read as this event again.
/// Where only the text is wanted, `write_event` does without a value.
///
/// # Errors
///
/// `NotLoaded` comes exactly where an output of the event isn't loaded, and `OutOfMemory` where
/// there was not enough memory.
pub fn event_to_value<S: OutputForm>(
    alloc: Global,
    event: &TestEventSummary<S>,
) -> Result<Value, ToValueError>
    ensures written { Writes result (event_value S.output_value event.now)
        (kind_loaded S.loaded event.now.kind) }
    ensures known { OnOk result (IsEvent S.output_well_formed event.now) }
    ensures reads_back { IfOk result (λ v. event_form S.output_form (view v) ≡ Some event.now) }
{
    // in a call of its own, so that `reads_back` can rest on the other clauses
    let value = value_from(alloc, event)?;
    Ok(value)
}

/// Reads the members of the kind of this name.
#[tactic(auto, unfolding(crate::specs::EventForms::kind_named))]
fn kind_named<'a, S: OutputForm>(
    alloc: Global,
    object: &[(&'a str, Node<'a>)],
    name: &str,
) -> Result<TestEventKindSummary<S>, FromValueError>
    ensures { Gives result (kind_named S.output_form name.now (members_view object.now)) }
{
    match name {
        "setup-script-finished" => Ok(TestEventKindSummary::Output(script_finished_from(
            alloc, object,
        )?)),
        "test-attempt-failed-will-retry" => Ok(TestEventKindSummary::Output(attempt_failed_from(
            alloc, object,
        )?)),
        "test-finished" => Ok(TestEventKindSummary::Output(test_finished_from(alloc, object)?)),
        _ => Ok(TestEventKindSummary::Core(core_from(alloc, object, name)?)),
    }
}

/// Returns the name of the kind that an object has.
fn kind_name<'a>(object: &[(&'a str, Node<'a>)]) -> Option<&'a str>
    ensures { option_map (λ name. name.now) result
        ≡ required as_str (codes "kind") (members_view object.now) }
{
    member(object, "kind")?.as_str()
}

/// Reads a kind by its name.
#[tactic(auto, unfolding(crate::specs::EventForms::kind_form))]
fn kind_from<'a, S: OutputForm>(
    alloc: Global,
    object: &[(&'a str, Node<'a>)],
) -> Result<TestEventKindSummary<S>, FromValueError>
    ensures { Gives result (kind_form S.output_form (members_view object.now)) }
{
    match kind_name(object) {
        Some(name) => kind_named(alloc, object, name),
        None => Err(FromValueError::NotAValue),
    }
}

/// Reads the event for which `value` stands, a value that is there already. A text is read as a
/// node, without a value in between.
///
/// # Errors
///
/// `NotAValue` comes exactly where the value stands for no event, and `OutOfMemory` where there was
/// not enough memory.
pub fn event_from_value<S: OutputForm>(
    alloc: Global,
    value: &Value,
) -> Result<TestEventSummary<S>, FromValueError>
    ensures read { Gives result (event_form S.output_form (view value.now)) }
    ensures known { IfOk result (IsEvent S.output_well_formed) }
{
    let node = Node::of_value(alloc, value)?;
    let event = event_from_node(alloc, &node);
    // by a call: in place, each kind of node is a case of the proof
    drop(node);
    event
}

/// Reads the event for which `node` stands.
///
/// # Errors
///
/// `NotAValue` comes exactly where the node stands for no event, and `OutOfMemory` where there was
/// not enough memory.
pub fn event_from_node<S: OutputForm>(
    alloc: Global,
    node: &Node<'_>,
) -> Result<TestEventSummary<S>, FromValueError>
    ensures read { Gives result (event_form S.output_form (node_view node.now)) }
    ensures known { IfOk result (IsEvent S.output_well_formed) }
{
    // in a call of its own, so that `known` can rest on `read`
    event_from(alloc, node)
}

/// Reads an event, in a call of its own, so that `known` of `event_from_node` can rest on its
/// clause.
#[tactic(auto, unfolding(crate::specs::EventForms::event_form))]
fn event_from<S: OutputForm>(
    alloc: Global,
    node: &Node<'_>,
) -> Result<TestEventSummary<S>, FromValueError>
    ensures { Gives result (event_form S.output_form (node_view node.now)) }
{
    let Some(object) = node.as_object() else {
        return Err(FromValueError::NotAValue);
    };
    let (timestamp, elapsed) = required_two(alloc, object, "timestamp", "elapsed")?;
    let kind = kind_from(alloc, object)?;
    Ok(TestEventSummary {
        timestamp,
        elapsed,
        kind,
    })
}
