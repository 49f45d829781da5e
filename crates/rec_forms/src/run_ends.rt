//! How a run ended.
use crate::fields::write_tagged;
use crate::names::named_item;
use crate::objects::ObjectWriter;
use crate::several::{object_of_two, required_four};
use crate::{Form, FromValueError};
use rec_events::{
    FinalRunStats, RunFinishedStats, RunStats, StressFinalRunStats, StressRunStats,
    TestsNotSeenSummary,
};
use rec_json::{JsonText, Node, only_member};
use std::alloc::{AllocError, Global};

impl Form for FinalRunStats {
    ghost use Rattle.std.specs.Prelude.{refl};
    ghost use Rattle.rec_forms.specs.RunEndLaws.{final_stats_back, final_stats_writable};
    ghost use Rattle.rec_forms.specs.RunEnds.{final_stats_value, final_stats_form};
    ghost use Rattle.rec_forms.specs.WellFormedLaws.{any_well_formed};
    ghost use Rattle.rec_forms.specs.Writable.{within_depth};

    ghost well_formed = { λ _. Unit {0} };

    ghost value_of = { final_stats_value };

    ghost form_of = { final_stats_form };

    ghost levels = { 0 };

    ghost reads_back = { λ x _. final_stats_back x };

    ghost reads_well_formed = { any_well_formed final_stats_form };

    ghost writable = { λ x _. final_stats_writable x };

    ghost shallow = { within_depth refl };

    fn write(&self, _alloc: Global, text: &mut JsonText) -> Result<(), AllocError> {
        let name = match self {
            FinalRunStats::Success => "success",
            FinalRunStats::NoTestsRun => "no-tests-run",
            FinalRunStats::Failed => "failed",
            FinalRunStats::Cancelled => "cancelled",
        };
        text.string(name)
    }

    #[tactic(auto, unfolding(crate::specs::RunEnds::final_stats_form))]
    fn from_node(_alloc: Global, node: &Node<'_>) -> Result<FinalRunStats, FromValueError> {
        named_item(
            node,
            &[
                ("success", FinalRunStats::Success),
                ("no-tests-run", FinalRunStats::NoTestsRun),
                ("failed", FinalRunStats::Failed),
                ("cancelled", FinalRunStats::Cancelled),
            ],
        )
    }
}

impl Form for StressFinalRunStats {
    ghost use Rattle.std.specs.Prelude.{refl};
    ghost use Rattle.rec_forms.specs.RunEndLaws.{
      stress_final_stats_back,
      stress_final_stats_writable,
    };
    ghost use Rattle.rec_forms.specs.RunEnds.{stress_final_stats_value, stress_final_stats_form};
    ghost use Rattle.rec_forms.specs.WellFormedLaws.{any_well_formed};
    ghost use Rattle.rec_forms.specs.Writable.{within_depth};

    ghost well_formed = { λ _. Unit {0} };

    ghost value_of = { stress_final_stats_value };

    ghost form_of = { stress_final_stats_form };

    ghost levels = { 0 };

    ghost reads_back = { λ x _. stress_final_stats_back x };

    ghost reads_well_formed = { any_well_formed stress_final_stats_form };

    ghost writable = { λ x _. stress_final_stats_writable x };

    ghost shallow = { within_depth refl };

    fn write(&self, _alloc: Global, text: &mut JsonText) -> Result<(), AllocError> {
        let name = match self {
            StressFinalRunStats::Success => "success",
            StressFinalRunStats::NoTestsRun => "no-tests-run",
            StressFinalRunStats::Failed => "failed",
            StressFinalRunStats::Cancelled => "cancelled",
        };
        text.string(name)
    }

    #[tactic(auto, unfolding(crate::specs::RunEnds::stress_final_stats_form))]
    fn from_node(_alloc: Global, node: &Node<'_>) -> Result<StressFinalRunStats, FromValueError> {
        named_item(
            node,
            &[
                ("success", StressFinalRunStats::Success),
                ("no-tests-run", StressFinalRunStats::NoTestsRun),
                ("failed", StressFinalRunStats::Failed),
                ("cancelled", StressFinalRunStats::Cancelled),
            ],
        )
    }
}

impl Form for StressRunStats {
    ghost use Rattle.std.specs.Prelude.{refl};
    ghost use Rattle.rec_forms.specs.RunEndLaws.{
      stress_run_stats_back,
      stress_run_stats_writable,
      stress_run_stats_well_formed,
    };
    ghost use Rattle.rec_forms.specs.RunEnds.{
      stress_run_stats_value,
      stress_run_stats_form,
      IsStressRunStats,
    };
    ghost use Rattle.rec_forms.specs.Writable.{within_depth};

    ghost well_formed = { IsStressRunStats };

    ghost value_of = { stress_run_stats_value };

    ghost form_of = { stress_run_stats_form };

    ghost levels = { 2 };

    ghost reads_back = { stress_run_stats_back };

    ghost reads_well_formed = { stress_run_stats_well_formed };

    ghost writable = { stress_run_stats_writable };

    ghost shallow = { within_depth refl };

    fn write(&self, alloc: Global, text: &mut JsonText) -> Result<(), AllocError> {
        let object = ObjectWriter::begin(alloc, text);
        let object = object.field(text, "completed", &self.completed);
        let object = object.field(text, "failed-count", &self.failed_count);
        let object = object.field(text, "last-final-stats", &self.last_final_stats);
        let object = object.field(text, "success-count", &self.success_count);
        object.end(text)
    }

    #[tactic(auto, unfolding(crate::specs::RunEnds::stress_run_stats_form))]
    fn from_node(alloc: Global, node: &Node<'_>) -> Result<StressRunStats, FromValueError> {
        let Some(object) = node.as_object() else {
            return Err(FromValueError::NotAValue);
        };
        let (completed, success_count, failed_count, last_final_stats) = required_four(
            alloc,
            object,
            "completed",
            "success-count",
            "failed-count",
            "last-final-stats",
        )?;
        Ok(StressRunStats {
            completed,
            success_count,
            failed_count,
            last_final_stats,
        })
    }
}

impl Form for RunFinishedStats {
    ghost use Rattle.std.specs.Prelude.{refl};
    ghost use Rattle.rec_forms.specs.RunEndLaws.{
      run_finished_stats_back,
      run_finished_stats_writable,
      run_finished_stats_well_formed,
    };
    ghost use Rattle.rec_forms.specs.RunEnds.{
      run_finished_stats_value,
      run_finished_stats_form,
      IsRunFinishedStats,
    };
    ghost use Rattle.rec_forms.specs.Writable.{within_depth};

    ghost well_formed = { IsRunFinishedStats };

    ghost value_of = { run_finished_stats_value };

    ghost form_of = { run_finished_stats_form };

    ghost levels = { 3 };

    ghost reads_back = { run_finished_stats_back };

    ghost reads_well_formed = { run_finished_stats_well_formed };

    ghost writable = { run_finished_stats_writable };

    ghost shallow = { within_depth refl };

    fn write(&self, alloc: Global, text: &mut JsonText) -> Result<(), AllocError> {
        match self {
            RunFinishedStats::Single(stats) => write_tagged(alloc, text, "single", stats),
            RunFinishedStats::Stress(stats) => write_tagged(alloc, text, "stress", stats),
        }
    }

    #[tactic(auto, unfolding(crate::specs::RunEnds::run_finished_stats_form), using(crate::specs::VariantLaws::variant_cased))]
    fn from_node(alloc: Global, node: &Node<'_>) -> Result<RunFinishedStats, FromValueError> {
        let Some(object) = node.as_object() else {
            return Err(FromValueError::NotAValue);
        };
        match only_member(object) {
            Some(("single", node)) => Ok(RunFinishedStats::Single(RunStats::from_node(
                alloc, node,
            )?)),
            Some(("stress", node)) => Ok(RunFinishedStats::Stress(StressRunStats::from_node(
                alloc, node,
            )?)),
            _ => Err(FromValueError::NotAValue),
        }
    }
}

impl Form for TestsNotSeenSummary {
    ghost use Rattle.std.specs.Prelude.{refl};
    ghost use Rattle.rec_forms.specs.RunEndLaws.{
      tests_not_seen_back,
      tests_not_seen_writable,
      tests_not_seen_well_formed,
    };
    ghost use Rattle.rec_forms.specs.RunEnds.{
      tests_not_seen_value,
      tests_not_seen_form,
      IsTestsNotSeen,
    };
    ghost use Rattle.rec_forms.specs.Writable.{within_depth};

    ghost well_formed = { IsTestsNotSeen };

    ghost value_of = { tests_not_seen_value };

    ghost form_of = { tests_not_seen_form };

    ghost levels = { 3 };

    ghost reads_back = { tests_not_seen_back };

    ghost reads_well_formed = { tests_not_seen_well_formed };

    ghost writable = { tests_not_seen_writable };

    ghost shallow = { within_depth refl };

    fn write(&self, alloc: Global, text: &mut JsonText) -> Result<(), AllocError> {
        let object = ObjectWriter::begin(alloc, text);
        let object = object.field(text, "not-seen", &self.not_seen);
        let object = object.field(text, "total-not-seen", &self.total_not_seen);
        object.end(text)
    }

    #[tactic(auto, unfolding(crate::specs::RunEnds::tests_not_seen_form))]
    fn from_node(alloc: Global, node: &Node<'_>) -> Result<TestsNotSeenSummary, FromValueError> {
        let (not_seen, total_not_seen) = object_of_two(alloc, node, "not-seen", "total-not-seen")?;
        Ok(TestsNotSeenSummary {
            not_seen,
            total_not_seen,
        })
    }
}
