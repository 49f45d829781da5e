//! Test suites: an array in the order of binary ids, which is read in any order.
ghost use Rattle.rec_forms.specs.Gives.{GivesBy};
ghost use Rattle.rec_format.specs.SuiteForms.{joined_by};

use crate::{RerunSuites, RerunTestSuiteInfo};
use rec_forms::{Form, FromValueError, ObjectWriter, required_three};
use rec_json::{JsonText, Node};
use std::alloc::{AllocError, Global};

/// Puts a suite in, of whose binary there is none.
fn insert_new(suites: &mut RerunSuites, suite: RerunTestSuiteInfo) -> Result<(), FromValueError>
    ensures { GivesBy (λ _. suites.new) result (joined_by suites.old suite) }
{
    if suites.insert(suite)?.is_some() {
        return Err(FromValueError::NotAValue);
    }
    Ok(())
}

impl Form for RerunTestSuiteInfo {
    ghost use Rattle.std.specs.Prelude.{refl};
    ghost use Rattle.rec_forms.specs.Writable.{within_depth};
    ghost use Rattle.rec_format.specs.SuiteFormLaws.{suite_back, suite_writable, suite_well_formed};
    ghost use Rattle.rec_format.specs.SuiteForms.{suite_value, suite_form, IsSuite};

    ghost well_formed = { IsSuite };

    ghost value_of = { suite_value };

    ghost form_of = { suite_form };

    ghost levels = { 2 };

    ghost reads_back = { suite_back };

    ghost reads_well_formed = { suite_well_formed };

    ghost writable = { suite_writable };

    ghost shallow = { within_depth refl };

    fn write(&self, alloc: Global, text: &mut JsonText) -> Result<(), AllocError> {
        let object = ObjectWriter::begin(alloc, text);
        let object = object.field(text, "binary_id", &self.binary_id);
        let object = object.field(text, "outstanding", &self.outstanding);
        let object = object.field(text, "passing", &self.passing);
        object.end(text)
    }

    #[tactic(auto, unfolding(crate::specs::SuiteForms::suite_form))]
    fn from_node(alloc: Global, node: &Node<'_>) -> Result<RerunTestSuiteInfo, FromValueError> {
        let Some(object) = node.as_object() else {
            return Err(FromValueError::NotAValue);
        };
        let (binary_id, passing, outstanding) = required_three(
            alloc,
            object,
            "binary_id",
            "passing",
            "outstanding",
        )?;
        Ok(RerunTestSuiteInfo {
            binary_id,
            passing,
            outstanding,
        })
    }
}

impl Form for RerunSuites {
    ghost use Rattle.std.specs.Prelude.{refl};
    ghost use Rattle.rec_forms.specs.Writable.{within_depth};
    ghost use Rattle.rec_format.specs.SuiteFormLaws.{
      suites_back,
      suites_writable,
      suites_well_formed,
    };
    ghost use Rattle.rec_format.specs.SuiteForms.{suites_value, suites_form, AreSuites};

    ghost well_formed = { AreSuites };

    ghost value_of = { suites_value };

    ghost form_of = { suites_form };

    ghost levels = { 3 };

    ghost reads_back = { suites_back };

    ghost reads_well_formed = { suites_well_formed };

    ghost writable = { suites_writable };

    ghost shallow = { within_depth refl };

    fn write(&self, alloc: Global, text: &mut JsonText) -> Result<(), AllocError> {
        text.begin_array()?;
        for suite in self.as_map().values() {
            suite.write(alloc, text)?;
        }
        text.end_list()?;
        Ok(())
    }

    #[tactic(auto, unfolding(crate::specs::SuiteForms::suites_form))]
    fn from_node(alloc: Global, node: &Node<'_>) -> Result<RerunSuites, FromValueError> {
        let Some(nodes) = node.as_array() else {
            return Err(FromValueError::NotAValue);
        };
        let mut suites = RerunSuites::new(alloc);
        for node in nodes {
            let suite = RerunTestSuiteInfo::from_node(alloc, node)?;
            insert_new(&mut suites, suite)?;
        }
        Ok(suites)
    }
}
