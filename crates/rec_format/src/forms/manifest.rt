//! The manifest of a bundle.
use crate::PortableManifest;
use rec_forms::{Form, FromValueError, Held, ObjectWriter, object_of_two};
use rec_json::{JsonText, Node};
use std::alloc::{AllocError, Global};

impl Form for PortableManifest {
    ghost use Rattle.std.specs.Prelude.{refl};
    ghost use Rattle.rec_forms.specs.Writable.{within_depth};
    ghost use Rattle.rec_format.specs.RunFormLaws.{
      manifest_back,
      manifest_writable,
      manifest_well_formed,
    };
    ghost use Rattle.rec_format.specs.RunForms.{manifest_value, manifest_form, IsManifest};

    ghost well_formed = { IsManifest };

    ghost value_of = { manifest_value };

    ghost form_of = { manifest_form };

    ghost levels = { 4 };

    ghost reads_back = { manifest_back };

    ghost reads_well_formed = { manifest_well_formed };

    ghost writable = { manifest_writable };

    ghost shallow = { within_depth refl };

    fn write(&self, alloc: Global, text: &mut JsonText) -> Result<(), AllocError> {
        let object = ObjectWriter::begin(alloc, text);
        let object = object.field(text, "format-version", &self.format_version);
        let object = object.field(text, "run", &self.run);
        object.end(text)
    }

    #[tactic(auto, unfolding(crate::specs::RunForms::manifest_form))]
    fn from_node(alloc: Global, node: &Node<'_>) -> Result<PortableManifest, FromValueError> {
        let (format_version, run) = object_of_two(alloc, node, "format-version", "run")?;
        Ok(PortableManifest {
            format_version,
            run,
        })
    }
}

impl Held for PortableManifest {
    fn held(&self) {
        self.format_version.held();
        self.run.held();
    }
}
