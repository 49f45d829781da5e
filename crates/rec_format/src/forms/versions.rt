//! A version number is written as its number, and a version as an object of both.
use crate::{
    PortableRecordingFormatMajorVersion, PortableRecordingFormatMinorVersion,
    PortableRecordingFormatVersion, RunsJsonFormatVersion, StoreFormatMajorVersion,
    StoreFormatMinorVersion, StoreFormatVersion,
};
use rec_forms::{Form, FromValueError, Held, ObjectWriter, object_of_two};
use rec_json::{JsonText, Node};
use std::alloc::{AllocError, Global};

impl Form for StoreFormatMajorVersion {
    ghost use Rattle.std.specs.Prelude.{refl};
    ghost use Rattle.rec_forms.specs.NumberLaws.{u32_back, u32_well_formed, u32_writable};
    ghost use Rattle.rec_forms.specs.Numbers.{u32_form};
    ghost use Rattle.rec_forms.specs.Shape.{natural};
    ghost use Rattle.rec_forms.specs.Writable.{within_depth};
    ghost use Rattle.rec_format.specs.VersionForms.{IsNumber};

    ghost well_formed = { IsNumber };

    ghost value_of = { natural };

    ghost form_of = { u32_form };

    ghost levels = { 0 };

    ghost reads_back = { u32_back };

    ghost reads_well_formed = { u32_well_formed };

    ghost writable = { u32_writable };

    ghost shallow = { within_depth refl };

    fn write(&self, alloc: Global, text: &mut JsonText) -> Result<(), AllocError> {
        self.number().write(alloc, text)
    }

    fn from_node(
        alloc: Global,
        node: &Node<'_>,
    ) -> Result<StoreFormatMajorVersion, FromValueError> {
        u32::from_node(alloc, node).map(StoreFormatMajorVersion::new)
    }
}

impl Held for StoreFormatMajorVersion {
    fn held(&self) {
        self.number().held();
    }
}

impl Form for StoreFormatMinorVersion {
    ghost use Rattle.std.specs.Prelude.{refl};
    ghost use Rattle.rec_forms.specs.NumberLaws.{u32_back, u32_well_formed, u32_writable};
    ghost use Rattle.rec_forms.specs.Numbers.{u32_form};
    ghost use Rattle.rec_forms.specs.Shape.{natural};
    ghost use Rattle.rec_forms.specs.Writable.{within_depth};
    ghost use Rattle.rec_format.specs.VersionForms.{IsNumber};

    ghost well_formed = { IsNumber };

    ghost value_of = { natural };

    ghost form_of = { u32_form };

    ghost levels = { 0 };

    ghost reads_back = { u32_back };

    ghost reads_well_formed = { u32_well_formed };

    ghost writable = { u32_writable };

    ghost shallow = { within_depth refl };

    fn write(&self, alloc: Global, text: &mut JsonText) -> Result<(), AllocError> {
        self.number().write(alloc, text)
    }

    fn from_node(
        alloc: Global,
        node: &Node<'_>,
    ) -> Result<StoreFormatMinorVersion, FromValueError> {
        u32::from_node(alloc, node).map(StoreFormatMinorVersion::new)
    }
}

impl Held for StoreFormatMinorVersion {
    fn held(&self) {
        self.number().held();
    }
}

impl Form for PortableRecordingFormatMajorVersion {
    ghost use Rattle.std.specs.Prelude.{refl};
    ghost use Rattle.rec_forms.specs.NumberLaws.{u32_back, u32_well_formed, u32_writable};
    ghost use Rattle.rec_forms.specs.Numbers.{u32_form};
    ghost use Rattle.rec_forms.specs.Shape.{natural};
    ghost use Rattle.rec_forms.specs.Writable.{within_depth};
    ghost use Rattle.rec_format.specs.VersionForms.{IsNumber};

    ghost well_formed = { IsNumber };

    ghost value_of = { natural };

    ghost form_of = { u32_form };

    ghost levels = { 0 };

    ghost reads_back = { u32_back };

    ghost reads_well_formed = { u32_well_formed };

    ghost writable = { u32_writable };

    ghost shallow = { within_depth refl };

    fn write(&self, alloc: Global, text: &mut JsonText) -> Result<(), AllocError> {
        self.number().write(alloc, text)
    }

    fn from_node(
        alloc: Global,
        node: &Node<'_>,
    ) -> Result<PortableRecordingFormatMajorVersion, FromValueError> {
        u32::from_node(alloc, node).map(PortableRecordingFormatMajorVersion::new)
    }
}

impl Held for PortableRecordingFormatMajorVersion {
    fn held(&self) {
        self.number().held();
    }
}

impl Form for PortableRecordingFormatMinorVersion {
    ghost use Rattle.std.specs.Prelude.{refl};
    ghost use Rattle.rec_forms.specs.NumberLaws.{u32_back, u32_well_formed, u32_writable};
    ghost use Rattle.rec_forms.specs.Numbers.{u32_form};
    ghost use Rattle.rec_forms.specs.Shape.{natural};
    ghost use Rattle.rec_forms.specs.Writable.{within_depth};
    ghost use Rattle.rec_format.specs.VersionForms.{IsNumber};

    ghost well_formed = { IsNumber };

    ghost value_of = { natural };

    ghost form_of = { u32_form };

    ghost levels = { 0 };

    ghost reads_back = { u32_back };

    ghost reads_well_formed = { u32_well_formed };

    ghost writable = { u32_writable };

    ghost shallow = { within_depth refl };

    fn write(&self, alloc: Global, text: &mut JsonText) -> Result<(), AllocError> {
        self.number().write(alloc, text)
    }

    fn from_node(
        alloc: Global,
        node: &Node<'_>,
    ) -> Result<PortableRecordingFormatMinorVersion, FromValueError> {
        u32::from_node(alloc, node).map(PortableRecordingFormatMinorVersion::new)
    }
}

impl Held for PortableRecordingFormatMinorVersion {
    fn held(&self) {
        self.number().held();
    }
}

impl Form for RunsJsonFormatVersion {
    ghost use Rattle.std.specs.Prelude.{refl};
    ghost use Rattle.rec_forms.specs.NumberLaws.{u32_back, u32_well_formed, u32_writable};
    ghost use Rattle.rec_forms.specs.Numbers.{u32_form};
    ghost use Rattle.rec_forms.specs.Shape.{natural};
    ghost use Rattle.rec_forms.specs.Writable.{within_depth};
    ghost use Rattle.rec_format.specs.VersionForms.{IsNumber};

    ghost well_formed = { IsNumber };

    ghost value_of = { natural };

    ghost form_of = { u32_form };

    ghost levels = { 0 };

    ghost reads_back = { u32_back };

    ghost reads_well_formed = { u32_well_formed };

    ghost writable = { u32_writable };

    ghost shallow = { within_depth refl };

    fn write(&self, alloc: Global, text: &mut JsonText) -> Result<(), AllocError> {
        self.number().write(alloc, text)
    }

    fn from_node(alloc: Global, node: &Node<'_>) -> Result<RunsJsonFormatVersion, FromValueError> {
        u32::from_node(alloc, node).map(RunsJsonFormatVersion::new)
    }
}

impl Form for StoreFormatVersion {
    ghost use Rattle.std.specs.Prelude.{refl};
    ghost use Rattle.rec_forms.specs.Writable.{within_depth};
    ghost use Rattle.rec_format.specs.VersionFormLaws.{
      store_version_back,
      store_version_writable,
      store_version_well_formed,
    };
    ghost use Rattle.rec_format.specs.VersionForms.{
      store_version_value,
      store_version_form,
      IsStoreVersion,
    };

    ghost well_formed = { IsStoreVersion };

    ghost value_of = { store_version_value };

    ghost form_of = { store_version_form };

    ghost levels = { 1 };

    ghost reads_back = { store_version_back };

    ghost reads_well_formed = { store_version_well_formed };

    ghost writable = { store_version_writable };

    ghost shallow = { within_depth refl };

    fn write(&self, alloc: Global, text: &mut JsonText) -> Result<(), AllocError> {
        let object = ObjectWriter::begin(alloc, text);
        let object = object.field(text, "major", &self.major);
        let object = object.field(text, "minor", &self.minor);
        object.end(text)
    }

    #[tactic(auto, unfolding(crate::specs::VersionForms::store_version_form))]
    fn from_node(alloc: Global, node: &Node<'_>) -> Result<StoreFormatVersion, FromValueError> {
        let (major, minor) = object_of_two(alloc, node, "major", "minor")?;
        Ok(StoreFormatVersion { major, minor })
    }
}

impl Form for PortableRecordingFormatVersion {
    ghost use Rattle.std.specs.Prelude.{refl};
    ghost use Rattle.rec_forms.specs.Writable.{within_depth};
    ghost use Rattle.rec_format.specs.VersionFormLaws.{
      portable_version_back,
      portable_version_writable,
      portable_version_well_formed,
    };
    ghost use Rattle.rec_format.specs.VersionForms.{
      portable_version_value,
      portable_version_form,
      IsPortableVersion,
    };

    ghost well_formed = { IsPortableVersion };

    ghost value_of = { portable_version_value };

    ghost form_of = { portable_version_form };

    ghost levels = { 1 };

    ghost reads_back = { portable_version_back };

    ghost reads_well_formed = { portable_version_well_formed };

    ghost writable = { portable_version_writable };

    ghost shallow = { within_depth refl };

    fn write(&self, alloc: Global, text: &mut JsonText) -> Result<(), AllocError> {
        let object = ObjectWriter::begin(alloc, text);
        let object = object.field(text, "major", &self.major);
        let object = object.field(text, "minor", &self.minor);
        object.end(text)
    }

    #[tactic(auto, unfolding(crate::specs::VersionForms::portable_version_form))]
    fn from_node(
        alloc: Global,
        node: &Node<'_>,
    ) -> Result<PortableRecordingFormatVersion, FromValueError> {
        let (major, minor) = object_of_two(alloc, node, "major", "minor")?;
        Ok(PortableRecordingFormatVersion { major, minor })
    }
}

impl Held for PortableRecordingFormatVersion {
    fn held(&self) {
        self.major.held();
        self.minor.held();
    }
}
