//! Instants and spans of time.
use crate::objects::ObjectWriter;
use crate::several::{object_of_two, required_three};
use crate::{Form, FromValueError, Held};
use rec_events::{Duration, Stamp};
use rec_json::{JsonText, Node};
use std::alloc::{AllocError, Global};

impl Form for Stamp {
    ghost use Rattle.std.specs.Prelude.{refl};
    ghost use Rattle.rec_forms.specs.TimeLaws.{stamp_back, stamp_writable, stamp_well_formed};
    ghost use Rattle.rec_forms.specs.Times.{stamp_value, stamp_form, IsStamp};
    ghost use Rattle.rec_forms.specs.Writable.{within_depth};

    ghost well_formed = { IsStamp };

    ghost value_of = { stamp_value };

    ghost form_of = { stamp_form };

    ghost levels = { 1 };

    ghost reads_back = { stamp_back };

    ghost reads_well_formed = { stamp_well_formed };

    ghost writable = { stamp_writable };

    ghost shallow = { within_depth refl };

    fn write(&self, alloc: Global, text: &mut JsonText) -> Result<(), AllocError> {
        let object = ObjectWriter::begin(alloc, text);
        let object = object.field(text, "nanos", &self.nanos);
        let object = object.field(text, "offset", &self.offset);
        let object = object.field(text, "secs", &self.secs);
        object.end(text)
    }

    #[tactic(auto, unfolding(crate::specs::Times::stamp_form))]
    fn from_node(alloc: Global, node: &Node<'_>) -> Result<Stamp, FromValueError> {
        let Some(object) = node.as_object() else {
            return Err(FromValueError::NotAValue);
        };
        let (secs, nanos, offset) = required_three(alloc, object, "secs", "nanos", "offset")?;
        Stamp::new(secs, nanos, offset).ok_or(FromValueError::NotAValue)
    }
}

impl Held for Stamp {
    fn held(&self) {
        self.secs.held();
        self.nanos.held();
        self.offset.held();
    }
}

impl Form for Duration {
    ghost use Rattle.std.specs.Prelude.{refl};
    ghost use Rattle.rec_forms.specs.TimeLaws.{
      duration_back,
      duration_writable,
      duration_well_formed,
    };
    ghost use Rattle.rec_forms.specs.Times.{duration_value, duration_form, IsDuration};
    ghost use Rattle.rec_forms.specs.Writable.{within_depth};

    ghost well_formed = { IsDuration };

    ghost value_of = { duration_value };

    ghost form_of = { duration_form };

    ghost levels = { 1 };

    ghost reads_back = { duration_back };

    ghost reads_well_formed = { duration_well_formed };

    ghost writable = { duration_writable };

    ghost shallow = { within_depth refl };

    fn write(&self, alloc: Global, text: &mut JsonText) -> Result<(), AllocError> {
        let object = ObjectWriter::begin(alloc, text);
        let object = object.field(text, "nanos", &self.nanos);
        let object = object.field(text, "secs", &self.secs);
        object.end(text)
    }

    #[tactic(auto, unfolding(crate::specs::Times::duration_form))]
    fn from_node(alloc: Global, node: &Node<'_>) -> Result<Duration, FromValueError> {
        let (secs, nanos) = object_of_two(alloc, node, "secs", "nanos")?;
        Duration::new(secs, nanos).ok_or(FromValueError::NotAValue)
    }
}

impl Held for Duration {
    fn held(&self) {
        self.secs.held();
        self.nanos.held();
    }
}
