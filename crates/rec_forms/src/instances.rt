//! Which test ran, where, and which time.
use crate::fields::{optional_field, required_field};
use crate::objects::ObjectWriter;
use crate::several::object_of_two;
use crate::{Form, FromValueError, ItemForm};
use rec_events::{OwnedTestInstanceId, RetryData, StressIndexSummary, TestSlotAssignment};
use rec_json::{JsonText, Node};
use std::alloc::{AllocError, Global};

impl Form for OwnedTestInstanceId {
    ghost use Rattle.std.specs.Prelude.{refl};
    ghost use Rattle.rec_forms.specs.InstanceLaws.{
      test_instance_back,
      test_instance_writable,
      test_instance_well_formed,
    };
    ghost use Rattle.rec_forms.specs.Instances.{
      test_instance_value,
      test_instance_form,
      IsTestInstance,
    };
    ghost use Rattle.rec_forms.specs.Writable.{within_depth};

    ghost well_formed = { IsTestInstance };

    ghost value_of = { test_instance_value };

    ghost form_of = { test_instance_form };

    ghost levels = { 1 };

    ghost reads_back = { test_instance_back };

    ghost reads_well_formed = { test_instance_well_formed };

    ghost writable = { test_instance_writable };

    ghost shallow = { within_depth refl };

    fn write(&self, alloc: Global, text: &mut JsonText) -> Result<(), AllocError> {
        let object = ObjectWriter::begin(alloc, text);
        let object = object.field(text, "binary-id", &self.binary_id);
        let object = object.field(text, "test-name", &self.test_name);
        object.end(text)
    }

    #[tactic(auto, unfolding(crate::specs::Instances::test_instance_form))]
    fn from_node(alloc: Global, node: &Node<'_>) -> Result<OwnedTestInstanceId, FromValueError> {
        let (binary_id, test_name) = object_of_two(alloc, node, "binary-id", "test-name")?;
        Ok(OwnedTestInstanceId {
            binary_id,
            test_name,
        })
    }
}

impl ItemForm for OwnedTestInstanceId {
    ghost use Rattle.std.specs.Prelude.{refl};
    ghost use Rattle.rec_forms.specs.Writable.{within_depth};

    ghost nested = { within_depth refl };
}

impl Form for TestSlotAssignment {
    ghost use Rattle.std.specs.Prelude.{refl};
    ghost use Rattle.rec_forms.specs.InstanceLaws.{
      slot_assignment_back,
      slot_assignment_writable,
      slot_assignment_well_formed,
    };
    ghost use Rattle.rec_forms.specs.Instances.{
      slot_assignment_value,
      slot_assignment_form,
      IsSlotAssignment,
    };
    ghost use Rattle.rec_forms.specs.Writable.{within_depth};

    ghost well_formed = { IsSlotAssignment };

    ghost value_of = { slot_assignment_value };

    ghost form_of = { slot_assignment_form };

    ghost levels = { 1 };

    ghost reads_back = { slot_assignment_back };

    ghost reads_well_formed = { slot_assignment_well_formed };

    ghost writable = { slot_assignment_writable };

    ghost shallow = { within_depth refl };

    fn write(&self, alloc: Global, text: &mut JsonText) -> Result<(), AllocError> {
        let object = ObjectWriter::begin(alloc, text);
        let object = object.field(text, "global-slot", &self.global_slot);
        let object = object.optional(text, "group-slot", &self.group_slot);
        let object = object.field(text, "test-group", &self.test_group);
        object.end(text)
    }

    #[tactic(auto, unfolding(crate::specs::Instances::slot_assignment_form))]
    fn from_node(alloc: Global, node: &Node<'_>) -> Result<TestSlotAssignment, FromValueError> {
        let Some(object) = node.as_object() else {
            return Err(FromValueError::NotAValue);
        };
        Ok(TestSlotAssignment {
            global_slot: required_field(alloc, object, "global-slot")?,
            group_slot: optional_field(alloc, object, "group-slot")?,
            test_group: required_field(alloc, object, "test-group")?,
        })
    }
}

impl Form for RetryData {
    ghost use Rattle.std.specs.Prelude.{refl};
    ghost use Rattle.rec_forms.specs.InstanceLaws.{
      retry_data_back,
      retry_data_writable,
      retry_data_well_formed,
    };
    ghost use Rattle.rec_forms.specs.Instances.{retry_data_value, retry_data_form, IsRetryData};
    ghost use Rattle.rec_forms.specs.Writable.{within_depth};

    ghost well_formed = { IsRetryData };

    ghost value_of = { retry_data_value };

    ghost form_of = { retry_data_form };

    ghost levels = { 1 };

    ghost reads_back = { retry_data_back };

    ghost reads_well_formed = { retry_data_well_formed };

    ghost writable = { retry_data_writable };

    ghost shallow = { within_depth refl };

    fn write(&self, alloc: Global, text: &mut JsonText) -> Result<(), AllocError> {
        let object = ObjectWriter::begin(alloc, text);
        let object = object.field(text, "attempt", &self.attempt);
        let object = object.field(text, "total-attempts", &self.total_attempts);
        object.end(text)
    }

    #[tactic(auto, unfolding(crate::specs::Instances::retry_data_form))]
    fn from_node(alloc: Global, node: &Node<'_>) -> Result<RetryData, FromValueError> {
        let (attempt, total_attempts) = object_of_two(alloc, node, "attempt", "total-attempts")?;
        Ok(RetryData {
            attempt,
            total_attempts,
        })
    }
}

impl Form for StressIndexSummary {
    ghost use Rattle.std.specs.Prelude.{refl};
    ghost use Rattle.rec_forms.specs.InstanceLaws.{
      stress_index_back,
      stress_index_writable,
      stress_index_well_formed,
    };
    ghost use Rattle.rec_forms.specs.Instances.{
      stress_index_value,
      stress_index_form,
      IsStressIndex,
    };
    ghost use Rattle.rec_forms.specs.Writable.{within_depth};

    ghost well_formed = { IsStressIndex };

    ghost value_of = { stress_index_value };

    ghost form_of = { stress_index_form };

    ghost levels = { 1 };

    ghost reads_back = { stress_index_back };

    ghost reads_well_formed = { stress_index_well_formed };

    ghost writable = { stress_index_writable };

    ghost shallow = { within_depth refl };

    fn write(&self, alloc: Global, text: &mut JsonText) -> Result<(), AllocError> {
        let object = ObjectWriter::begin(alloc, text);
        let object = object.field(text, "current", &self.current);
        let object = object.optional(text, "total", &self.total);
        object.end(text)
    }

    #[tactic(auto, unfolding(crate::specs::Instances::stress_index_form))]
    fn from_node(alloc: Global, node: &Node<'_>) -> Result<StressIndexSummary, FromValueError> {
        let Some(object) = node.as_object() else {
            return Err(FromValueError::NotAValue);
        };
        Ok(StressIndexSummary {
            current: required_field(alloc, object, "current")?,
            total: optional_field(alloc, object, "total")?,
        })
    }
}
