//! Sizes, which are written as their formats.
use crate::{ComponentSizes, ComponentSizesFormat, RecordedSizes, RecordedSizesFormat};
use rec_forms::{
    Form, FromValueError, Held, ObjectWriter, defaulted_field, object_of_two, required_two,
};
use rec_json::{JsonText, Node};
use std::alloc::{AllocError, Global};

impl Form for ComponentSizesFormat {
    ghost use Rattle.std.specs.Prelude.{refl};
    ghost use Rattle.rec_forms.specs.Writable.{within_depth};
    ghost use Rattle.rec_format.specs.SizeFormLaws.{
      component_format_back,
      component_format_writable,
      component_format_well_formed,
    };
    ghost use Rattle.rec_format.specs.SizeForms.{
      component_format_value,
      component_format_form,
      IsComponentFormat,
    };

    ghost well_formed = { IsComponentFormat };

    ghost value_of = { component_format_value };

    ghost form_of = { component_format_form };

    ghost levels = { 1 };

    ghost reads_back = { component_format_back };

    ghost reads_well_formed = { component_format_well_formed };

    ghost writable = { component_format_writable };

    ghost shallow = { within_depth refl };

    fn write(&self, alloc: Global, text: &mut JsonText) -> Result<(), AllocError> {
        let object = ObjectWriter::begin(alloc, text);
        let object = object.field(text, "compressed", &self.compressed);
        let object = object.field(text, "entries", &self.entries);
        let object = object.field(text, "uncompressed", &self.uncompressed);
        object.end(text)
    }

    #[tactic(auto, unfolding(crate::specs::SizeForms::component_format_form))]
    fn from_node(alloc: Global, node: &Node<'_>) -> Result<ComponentSizesFormat, FromValueError> {
        let Some(object) = node.as_object() else {
            return Err(FromValueError::NotAValue);
        };
        let (compressed, uncompressed) = required_two(alloc, object, "compressed", "uncompressed")?;
        let entries = defaulted_field(alloc, object, "entries", 0)?;
        Ok(ComponentSizesFormat {
            compressed,
            uncompressed,
            entries,
        })
    }
}

impl Held for ComponentSizesFormat {
    fn held(&self) {
        self.compressed.held();
        self.uncompressed.held();
        self.entries.held();
    }
}

impl Form for RecordedSizesFormat {
    ghost use Rattle.std.specs.Prelude.{refl};
    ghost use Rattle.rec_forms.specs.Writable.{within_depth};
    ghost use Rattle.rec_format.specs.SizeFormLaws.{
      sizes_format_back,
      sizes_format_writable,
      sizes_format_well_formed,
    };
    ghost use Rattle.rec_format.specs.SizeForms.{
      sizes_format_value,
      sizes_format_form,
      IsSizesFormat,
    };

    ghost well_formed = { IsSizesFormat };

    ghost value_of = { sizes_format_value };

    ghost form_of = { sizes_format_form };

    ghost levels = { 2 };

    ghost reads_back = { sizes_format_back };

    ghost reads_well_formed = { sizes_format_well_formed };

    ghost writable = { sizes_format_writable };

    ghost shallow = { within_depth refl };

    fn write(&self, alloc: Global, text: &mut JsonText) -> Result<(), AllocError> {
        let object = ObjectWriter::begin(alloc, text);
        let object = object.field(text, "log", &self.log);
        let object = object.field(text, "store", &self.store);
        object.end(text)
    }

    #[tactic(auto, unfolding(crate::specs::SizeForms::sizes_format_form))]
    fn from_node(alloc: Global, node: &Node<'_>) -> Result<RecordedSizesFormat, FromValueError> {
        let (log, store) = object_of_two(alloc, node, "log", "store")?;
        Ok(RecordedSizesFormat { log, store })
    }
}

impl Held for RecordedSizesFormat {
    fn held(&self) {
        self.log.held();
        self.store.held();
    }
}

impl Form for ComponentSizes {
    ghost use Rattle.std.specs.Prelude.{refl};
    ghost use Rattle.rec_forms.specs.Writable.{within_depth};
    ghost use Rattle.rec_format.specs.SizeFormLaws.{
      component_back,
      component_writable,
      component_well_formed,
    };
    ghost use Rattle.rec_format.specs.SizeForms.{component_value, component_form, IsComponent};

    ghost well_formed = { IsComponent };

    ghost value_of = { component_value };

    ghost form_of = { component_form };

    ghost levels = { 1 };

    ghost reads_back = { component_back };

    ghost reads_well_formed = { component_well_formed };

    ghost writable = { component_writable };

    ghost shallow = { within_depth refl };

    fn write(&self, alloc: Global, text: &mut JsonText) -> Result<(), AllocError> {
        ComponentSizesFormat::from(*self).write(alloc, text)
    }

    fn from_node(alloc: Global, node: &Node<'_>) -> Result<ComponentSizes, FromValueError> {
        Ok(ComponentSizesFormat::from_node(alloc, node)?.into())
    }
}

impl Form for RecordedSizes {
    ghost use Rattle.std.specs.Prelude.{refl};
    ghost use Rattle.rec_forms.specs.Writable.{within_depth};
    ghost use Rattle.rec_format.specs.SizeFormLaws.{sizes_back, sizes_writable, sizes_well_formed};
    ghost use Rattle.rec_format.specs.SizeForms.{sizes_value, sizes_form, AreSizes};

    ghost well_formed = { AreSizes };

    ghost value_of = { sizes_value };

    ghost form_of = { sizes_form };

    ghost levels = { 2 };

    ghost reads_back = { sizes_back };

    ghost reads_well_formed = { sizes_well_formed };

    ghost writable = { sizes_writable };

    ghost shallow = { within_depth refl };

    fn write(&self, alloc: Global, text: &mut JsonText) -> Result<(), AllocError> {
        RecordedSizesFormat::from(*self).write(alloc, text)
    }

    fn from_node(alloc: Global, node: &Node<'_>) -> Result<RecordedSizes, FromValueError> {
        Ok(RecordedSizesFormat::from_node(alloc, node)?.into())
    }
}
