//! Test groups.
use crate::{Form, FromValueError};
use rec_events::TestGroup;
use rec_json::{JsonText, Node};
use std::alloc::{AllocError, Global};

impl Form for TestGroup {
    ghost use Rattle.std.specs.Prelude.{refl};
    ghost use Rattle.rec_forms.specs.GroupLaws.{
      test_group_back,
      test_group_writable,
      test_group_well_formed,
    };
    ghost use Rattle.rec_forms.specs.Groups.{test_group_value, test_group_form, IsTestGroup};
    ghost use Rattle.rec_forms.specs.Writable.{within_depth};

    ghost well_formed = { IsTestGroup };

    ghost value_of = { test_group_value };

    ghost form_of = { test_group_form };

    ghost levels = { 0 };

    ghost reads_back = { test_group_back };

    ghost reads_well_formed = { test_group_well_formed };

    ghost writable = { test_group_writable };

    ghost shallow = { within_depth refl };

    fn write(&self, _alloc: Global, text: &mut JsonText) -> Result<(), AllocError> {
        match self {
            TestGroup::Global => text.string(self.text()),
            TestGroup::Custom(name) => text.string(name.as_str()),
        }
    }

    #[tactic(auto, unfolding(crate::specs::Groups::test_group_form))]
    fn from_node(alloc: Global, node: &Node<'_>) -> Result<TestGroup, FromValueError> {
        let Some(name) = node.as_str() else {
            return Err(FromValueError::NotAValue);
        };
        let name = String::from_str(alloc, name)?;
        match TestGroup::custom(name) {
            Some(group) => Ok(group),
            None => Ok(TestGroup::Global),
        }
    }
}
