//! The fields that a head and a run's metadata share, and those that both kinds of a run's metadata
//! share, as they are read. Each part stands in JSON without a gap: its fields follow each other in
//! the order of all keys.
ghost use Rattle.rec_json.specs.Nodes.{members_view};
ghost use Rattle.rec_forms.specs.Gives.{Gives};

use crate::{RecordedRunStatusFormat, RecordedSizesFormat};
use rec_events::{Duration, Items, ReportUuid, Stamp, Text, TextMap, Version};
use rec_forms::{FromValueError, defaulted_two, optional_two, required_four, required_two};
use rec_json::Node;
use std::alloc::Global;

/// How the run was started, and how long it took.
#[derive(Drop)]
pub(crate) struct Invocation {
    /// The command line of the run.
    pub cli_args: Items<Text>,
    /// How long the run took, where that is known.
    pub duration: Option<Duration>,
    /// The environment variables that were kept of the run, by their names.
    pub env_vars: TextMap<Text>,
    /// When the recording was last written to.
    pub last_written_at: Stamp,
    /// The version of the test runner.
    pub nextest_version: Version,
    /// The run of which this one is a rerun.
    pub parent_run_id: Option<ReportUuid>,
}

impl Invocation {
    ghost use Rattle.rec_format.specs.PartForms.{invocation_form};

    #[tactic(auto, unfolding(crate::specs::PartForms::invocation_form))]
    pub(crate) fn read<'a>(
        alloc: Global,
        object: &[(&'a str, Node<'a>)],
    ) -> Result<Invocation, FromValueError>
        ensures { Gives result (invocation_form (members_view object.now)) }
    {
        let (duration, parent_run_id) = optional_two(alloc, object, "duration", "parent-run-id")?;
        let (last_written_at, nextest_version) = required_two(
            alloc,
            object,
            "last-written-at",
            "nextest-version",
        )?;
        let (cli_args, env_vars) = defaulted_two(
            alloc,
            object,
            ("cli-args", Items::empty(alloc)),
            ("env-vars", TextMap::empty(alloc)),
        )?;
        Ok(Invocation {
            cli_args,
            duration,
            env_vars,
            last_written_at,
            nextest_version,
            parent_run_id,
        })
    }
}

/// Which run it is, when it began, how large its recording is and how it ended.
#[derive(Drop)]
pub(crate) struct Outcome {
    /// The id of the run.
    pub run_id: ReportUuid,
    /// The sizes of the run's event log and store.
    pub sizes: RecordedSizesFormat,
    /// When the run began.
    pub started_at: Stamp,
    /// How the run ended, if it did.
    pub status: RecordedRunStatusFormat,
}

impl Outcome {
    ghost use Rattle.rec_format.specs.PartForms.{outcome_form};

    #[tactic(auto, unfolding(crate::specs::PartForms::outcome_form))]
    pub(crate) fn read<'a>(
        alloc: Global,
        object: &[(&'a str, Node<'a>)],
    ) -> Result<Outcome, FromValueError>
        ensures { Gives result (outcome_form (members_view object.now)) }
    {
        let (run_id, started_at, sizes, status) = required_four(
            alloc,
            object,
            "run-id",
            "started-at",
            "sizes",
            "status",
        )?;
        Ok(Outcome {
            run_id,
            sizes,
            started_at,
            status,
        })
    }
}
