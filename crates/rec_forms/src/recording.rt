//! What a recording says of the whole run.
use crate::fields::required_field;
use crate::names::named_item;
use crate::objects::ObjectWriter;
use crate::{Form, FromValueError};
use rec_events::{NextestRunMode, RecordOpts, TestListSummary};
use rec_json::{JsonText, Node};
use std::alloc::{AllocError, Global};

impl Form for NextestRunMode {
    ghost use Rattle.std.specs.Prelude.{refl};
    ghost use Rattle.rec_forms.specs.Recording.{run_mode_value, run_mode_form};
    ghost use Rattle.rec_forms.specs.RecordingLaws.{run_mode_back, run_mode_writable};
    ghost use Rattle.rec_forms.specs.WellFormedLaws.{any_well_formed};
    ghost use Rattle.rec_forms.specs.Writable.{within_depth};

    ghost well_formed = { λ _. Unit {0} };

    ghost value_of = { run_mode_value };

    ghost form_of = { run_mode_form };

    ghost levels = { 0 };

    ghost reads_back = { λ m _. run_mode_back m };

    ghost reads_well_formed = { any_well_formed run_mode_form };

    ghost writable = { λ x _. run_mode_writable x };

    ghost shallow = { within_depth refl };

    fn write(&self, _alloc: Global, text: &mut JsonText) -> Result<(), AllocError> {
        let name = match self {
            NextestRunMode::Test => "test",
            NextestRunMode::Benchmark => "benchmark",
        };
        text.string(name)
    }

    #[tactic(auto, unfolding(crate::specs::Recording::run_mode_form))]
    fn from_node(_alloc: Global, node: &Node<'_>) -> Result<NextestRunMode, FromValueError> {
        named_item(
            node,
            &[
                ("test", NextestRunMode::Test),
                ("benchmark", NextestRunMode::Benchmark),
            ],
        )
    }
}

impl Form for RecordOpts {
    ghost use Rattle.std.specs.Prelude.{refl};
    ghost use Rattle.rec_forms.specs.Recording.{record_opts_value, record_opts_form};
    ghost use Rattle.rec_forms.specs.RecordingLaws.{record_opts_back, record_opts_writable};
    ghost use Rattle.rec_forms.specs.WellFormedLaws.{any_well_formed};
    ghost use Rattle.rec_forms.specs.Writable.{within_depth};

    ghost well_formed = { λ _. Unit {0} };

    ghost value_of = { record_opts_value };

    ghost form_of = { record_opts_form };

    ghost levels = { 1 };

    ghost reads_back = { λ x _. record_opts_back x };

    ghost reads_well_formed = { any_well_formed record_opts_form };

    ghost writable = { λ x _. record_opts_writable x };

    ghost shallow = { within_depth refl };

    fn write(&self, alloc: Global, text: &mut JsonText) -> Result<(), AllocError> {
        let object = ObjectWriter::begin(alloc, text);
        let object = object.field(text, "run-mode", &self.run_mode);
        object.end(text)
    }

    #[tactic(auto, unfolding(crate::specs::Recording::record_opts_form))]
    fn from_node(alloc: Global, node: &Node<'_>) -> Result<RecordOpts, FromValueError> {
        let Some(object) = node.as_object() else {
            return Err(FromValueError::NotAValue);
        };
        Ok(RecordOpts {
            run_mode: required_field(alloc, object, "run-mode")?,
        })
    }
}

impl Form for TestListSummary {
    ghost use Rattle.std.specs.Prelude.{refl};
    ghost use Rattle.rec_forms.specs.Recording.{test_list_value, test_list_form, IsTestList};
    ghost use Rattle.rec_forms.specs.RecordingLaws.{
      test_list_back,
      test_list_writable,
      test_list_well_formed,
    };
    ghost use Rattle.rec_forms.specs.Writable.{within_depth};

    ghost well_formed = { IsTestList };

    ghost value_of = { test_list_value };

    ghost form_of = { test_list_form };

    ghost levels = { 3 };

    ghost reads_back = { test_list_back };

    ghost reads_well_formed = { test_list_well_formed };

    ghost writable = { test_list_writable };

    ghost shallow = { within_depth refl };

    fn write(&self, alloc: Global, text: &mut JsonText) -> Result<(), AllocError> {
        let object = ObjectWriter::begin(alloc, text);
        let object = object.field(text, "suites", &self.suites);
        object.end(text)
    }

    #[tactic(auto, unfolding(crate::specs::Recording::test_list_form))]
    fn from_node(alloc: Global, node: &Node<'_>) -> Result<TestListSummary, FromValueError> {
        let Some(object) = node.as_object() else {
            return Err(FromValueError::NotAValue);
        };
        Ok(TestListSummary {
            suites: required_field(alloc, object, "suites")?,
        })
    }
}
