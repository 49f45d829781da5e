//! The metadata of a run, with the two numbers of its store's version apart or together.
use super::parts::{Invocation, Outcome};
use crate::{RecordedRun, RecordedRunInfo, StoreFormatMinorVersion};
use rec_forms::{
    Form, FromValueError, Held, ItemForm, ObjectWriter, defaulted_field, held_optional,
    required_field,
};
use rec_json::{JsonText, Node};
use std::alloc::{AllocError, Global};

impl Form for RecordedRun {
    ghost use Rattle.std.specs.Prelude.{refl};
    ghost use Rattle.rec_forms.specs.Writable.{within_depth};
    ghost use Rattle.rec_format.specs.RunFormLaws.{run_back, run_writable, run_well_formed};
    ghost use Rattle.rec_format.specs.RunForms.{run_value, run_form, IsRun};

    ghost well_formed = { IsRun };

    ghost value_of = { run_value };

    ghost form_of = { run_form };

    ghost levels = { 3 };

    ghost reads_back = { run_back };

    ghost reads_well_formed = { run_well_formed };

    ghost writable = { run_writable };

    ghost shallow = { within_depth refl };

    fn write(&self, alloc: Global, text: &mut JsonText) -> Result<(), AllocError> {
        let object = ObjectWriter::begin(alloc, text);
        let object = object.field(text, "cli-args", &self.cli_args);
        let object = object.optional(text, "duration", &self.duration);
        let object = object.field(text, "env-vars", &self.env_vars);
        let object = object.field(text, "last-written-at", &self.last_written_at);
        let object = object.field(text, "nextest-version", &self.nextest_version);
        let object = object.optional(text, "parent-run-id", &self.parent_run_id);
        let object = object.field(text, "run-id", &self.run_id);
        let object = object.field(text, "sizes", &self.sizes);
        let object = object.field(text, "started-at", &self.started_at);
        let object = object.field(text, "status", &self.status);
        let object = object.field(
            text,
            "store-format-minor-version",
            &self.store_format_minor_version,
        );
        let object = object.field(text, "store-format-version", &self.store_format_version);
        object.end(text)
    }

    #[tactic(auto, unfolding(crate::specs::RunForms::run_form))]
    fn from_node(alloc: Global, node: &Node<'_>) -> Result<RecordedRun, FromValueError> {
        let Some(object) = node.as_object() else {
            return Err(FromValueError::NotAValue);
        };
        let store_format_version = required_field(alloc, object, "store-format-version")?;
        let store_format_minor_version = defaulted_field(
            alloc,
            object,
            "store-format-minor-version",
            StoreFormatMinorVersion::new(0),
        )?;
        let outcome = Outcome::read(alloc, object)?;
        let invocation = Invocation::read(alloc, object)?;
        Ok(RecordedRun {
            run_id: outcome.run_id,
            store_format_version,
            store_format_minor_version,
            nextest_version: invocation.nextest_version,
            started_at: outcome.started_at,
            last_written_at: invocation.last_written_at,
            duration: invocation.duration,
            cli_args: invocation.cli_args,
            env_vars: invocation.env_vars,
            parent_run_id: invocation.parent_run_id,
            sizes: outcome.sizes,
            status: outcome.status,
        })
    }
}

impl ItemForm for RecordedRun {
    ghost use Rattle.std.specs.Prelude.{refl};
    ghost use Rattle.rec_forms.specs.Writable.{within_depth};

    ghost nested = { within_depth refl };
}

impl Held for RecordedRun {
    fn held(&self) {
        self.run_id.held();
        self.nextest_version.held();
        self.started_at.held();
        self.last_written_at.held();
        held_optional(&self.duration);
        self.cli_args.held();
        self.env_vars.held();
        held_optional(&self.parent_run_id);
        self.store_format_version.held();
        self.store_format_minor_version.held();
        self.sizes.held();
        self.status.held();
    }
}

impl Form for RecordedRunInfo {
    ghost use Rattle.std.specs.Prelude.{refl};
    ghost use Rattle.rec_forms.specs.Writable.{within_depth};
    ghost use Rattle.rec_format.specs.RunFormLaws.{info_back, info_writable, info_well_formed};
    ghost use Rattle.rec_format.specs.RunForms.{info_value, info_form, IsInfo};

    ghost well_formed = { IsInfo };

    ghost value_of = { info_value };

    ghost form_of = { info_form };

    ghost levels = { 3 };

    ghost reads_back = { info_back };

    ghost reads_well_formed = { info_well_formed };

    ghost writable = { info_writable };

    ghost shallow = { within_depth refl };

    fn write(&self, alloc: Global, text: &mut JsonText) -> Result<(), AllocError> {
        let object = ObjectWriter::begin(alloc, text);
        let object = object.field(text, "cli-args", &self.cli_args);
        let object = object.optional(text, "duration", &self.duration);
        let object = object.field(text, "env-vars", &self.env_vars);
        let object = object.field(text, "last-written-at", &self.last_written_at);
        let object = object.field(text, "nextest-version", &self.nextest_version);
        let object = object.optional(text, "parent-run-id", &self.parent_run_id);
        let object = object.field(text, "run-id", &self.run_id);
        let object = object.field(text, "sizes", &self.sizes);
        let object = object.field(text, "started-at", &self.started_at);
        let object = object.field(text, "status", &self.status);
        let object = object.field(text, "store-format-version", &self.store_format_version);
        object.end(text)
    }

    #[tactic(auto, unfolding(crate::specs::RunForms::info_form))]
    fn from_node(alloc: Global, node: &Node<'_>) -> Result<RecordedRunInfo, FromValueError> {
        let Some(object) = node.as_object() else {
            return Err(FromValueError::NotAValue);
        };
        let store_format_version = required_field(alloc, object, "store-format-version")?;
        let outcome = Outcome::read(alloc, object)?;
        let invocation = Invocation::read(alloc, object)?;
        Ok(RecordedRunInfo {
            run_id: outcome.run_id,
            store_format_version,
            nextest_version: invocation.nextest_version,
            started_at: outcome.started_at,
            last_written_at: invocation.last_written_at,
            duration: invocation.duration,
            cli_args: invocation.cli_args,
            env_vars: invocation.env_vars,
            parent_run_id: invocation.parent_run_id,
            sizes: outcome.sizes.into(),
            status: outcome.status.into(),
        })
    }
}
