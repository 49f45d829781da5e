//! The head of a session: what was built, and two parts.
ghost use Rattle.rec_json.specs.Nodes.{members_view};
ghost use Rattle.rec_forms.specs.Gives.{Gives};

use super::parts::Invocation;
use crate::{RecordedRunStatus, RerunInfo, SessionHead};
use rec_events::{RecordOpts, ReportUuid, Stamp, TestListSummary};
use rec_forms::{
    Form, FromValueError, ObjectWriter, optional_field, required_field, required_five,
};
use rec_json::{JsonText, Node};
use std::alloc::{AllocError, Global};

/// Which run it is, when it began, what was run and how it ended.
#[derive(Drop)]
struct Contents {
    record_opts: RecordOpts,
    rerun_info: Option<RerunInfo>,
    run_id: ReportUuid,
    started_at: Stamp,
    status: RecordedRunStatus,
    test_list: TestListSummary,
}

impl Contents {
    ghost use Rattle.rec_format.specs.HeadForms.{contents_form};

    #[tactic(auto, unfolding(crate::specs::HeadForms::contents_form))]
    fn read<'a>(alloc: Global, object: &[(&'a str, Node<'a>)]) -> Result<Contents, FromValueError>
        ensures { Gives result (contents_form (members_view object.now)) }
    {
        let (run_id, started_at, record_opts, status, test_list) = required_five(
            alloc,
            object,
            "run-id",
            "started-at",
            "record-opts",
            "status",
            "test-list",
        )?;
        let rerun_info = optional_field(alloc, object, "rerun-info")?;
        Ok(Contents {
            record_opts,
            rerun_info,
            run_id,
            started_at,
            status,
            test_list,
        })
    }
}

impl Form for SessionHead {
    ghost use Rattle.std.specs.Prelude.{refl};
    ghost use Rattle.rec_forms.specs.Writable.{within_depth};
    ghost use Rattle.rec_format.specs.HeadFormLaws.{head_back, head_writable, head_well_formed};
    ghost use Rattle.rec_format.specs.HeadForms.{head_value, head_form, IsHead};

    ghost well_formed = { IsHead };

    ghost value_of = { head_value };

    ghost form_of = { head_form };

    ghost levels = { 8 };

    ghost reads_back = { head_back };

    ghost reads_well_formed = { head_well_formed };

    ghost writable = { head_writable };

    ghost shallow = { within_depth refl };

    fn write(&self, alloc: Global, text: &mut JsonText) -> Result<(), AllocError> {
        let object = ObjectWriter::begin(alloc, text);
        let object = object.field(text, "build-scope", &self.build_scope);
        let object = object.field(text, "cargo-metadata", &self.cargo_metadata);
        let object = object.field(text, "cli-args", &self.cli_args);
        let object = object.optional(text, "duration", &self.duration);
        let object = object.field(text, "env-vars", &self.env_vars);
        let object = object.field(text, "last-written-at", &self.last_written_at);
        let object = object.field(text, "nextest-version", &self.nextest_version);
        let object = object.optional(text, "parent-run-id", &self.parent_run_id);
        let object = object.field(text, "record-opts", &self.record_opts);
        let object = object.optional(text, "rerun-info", &self.rerun_info);
        let object = object.field(text, "run-id", &self.run_id);
        let object = object.field(text, "started-at", &self.started_at);
        let object = object.field(text, "status", &self.status);
        let object = object.field(text, "test-list", &self.test_list);
        object.end(text)
    }

    #[tactic(auto, unfolding(crate::specs::HeadForms::head_form))]
    fn from_node(alloc: Global, node: &Node<'_>) -> Result<SessionHead, FromValueError> {
        let Some(object) = node.as_object() else {
            return Err(FromValueError::NotAValue);
        };
        let cargo_metadata = required_field(alloc, object, "cargo-metadata")?;
        let invocation = Invocation::read(alloc, object)?;
        let contents = Contents::read(alloc, object)?;
        let build_scope = match required_field(alloc, object, "build-scope") {
            Ok(build_scope) => build_scope,
            Err(error) => {
                drop(contents);
                drop(invocation);
                return Err(error);
            }
        };
        Ok(SessionHead {
            run_id: contents.run_id,
            nextest_version: invocation.nextest_version,
            started_at: contents.started_at,
            last_written_at: invocation.last_written_at,
            duration: invocation.duration,
            cli_args: invocation.cli_args,
            env_vars: invocation.env_vars,
            parent_run_id: invocation.parent_run_id,
            status: contents.status,
            cargo_metadata,
            test_list: contents.test_list,
            record_opts: contents.record_opts,
            build_scope,
            rerun_info: contents.rerun_info,
        })
    }
}
