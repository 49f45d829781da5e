//! Names and numbers that identify.
ghost use Rattle.std.specs.Prelude.{◌≡◌};
ghost use Rattle.uuid.specs.Text.{parsed};

use crate::{Form, FromValueError, Held, ItemForm};
use rec_events::{ReportUuid, RustBinaryId, ScriptId, TestCaseName, Text, Version, VersionError};
use rec_json::{JsonText, Node};
use std::alloc::{AllocError, Global};
use uuid::Uuid;

impl Form for RustBinaryId {
    ghost use Rattle.std.specs.Prelude.{refl};
    ghost use Rattle.serde_json.specs.Data.{string};
    ghost use Rattle.rec_events.specs.Names.{IsText};
    ghost use Rattle.rec_forms.specs.NumberLaws.{text_back, text_well_formed};
    ghost use Rattle.rec_forms.specs.Shape.{text_of};
    ghost use Rattle.rec_forms.specs.Writable.{string_writable, within_depth};

    ghost well_formed = { IsText };

    ghost value_of = { string };

    ghost form_of = { text_of };

    ghost levels = { 0 };

    ghost reads_back = { text_back };

    ghost reads_well_formed = { text_well_formed };

    ghost writable = { string_writable };

    ghost shallow = { within_depth refl };

    fn write(&self, _alloc: Global, text: &mut JsonText) -> Result<(), AllocError> {
        text.string(self.as_str())
    }

    fn from_node(alloc: Global, node: &Node<'_>) -> Result<RustBinaryId, FromValueError> {
        let text = Text::from_node(alloc, node)?;
        Ok(RustBinaryId::new(text.into_string()))
    }
}

impl Form for TestCaseName {
    ghost use Rattle.std.specs.Prelude.{refl};
    ghost use Rattle.serde_json.specs.Data.{string};
    ghost use Rattle.rec_events.specs.Names.{IsText};
    ghost use Rattle.rec_forms.specs.NumberLaws.{text_back, text_well_formed};
    ghost use Rattle.rec_forms.specs.Shape.{text_of};
    ghost use Rattle.rec_forms.specs.Writable.{string_writable, within_depth};

    ghost well_formed = { IsText };

    ghost value_of = { string };

    ghost form_of = { text_of };

    ghost levels = { 0 };

    ghost reads_back = { text_back };

    ghost reads_well_formed = { text_well_formed };

    ghost writable = { string_writable };

    ghost shallow = { within_depth refl };

    fn write(&self, _alloc: Global, text: &mut JsonText) -> Result<(), AllocError> {
        text.string(self.as_str())
    }

    fn from_node(alloc: Global, node: &Node<'_>) -> Result<TestCaseName, FromValueError> {
        let text = Text::from_node(alloc, node)?;
        Ok(TestCaseName::new(text.into_string()))
    }
}

impl ItemForm for TestCaseName {
    ghost use Rattle.std.specs.Prelude.{refl};
    ghost use Rattle.rec_forms.specs.Writable.{within_depth};

    ghost nested = { within_depth refl };
}

impl Form for ScriptId {
    ghost use Rattle.std.specs.Prelude.{refl};
    ghost use Rattle.serde_json.specs.Data.{string};
    ghost use Rattle.rec_events.specs.Names.{IsText};
    ghost use Rattle.rec_forms.specs.NumberLaws.{text_back, text_well_formed};
    ghost use Rattle.rec_forms.specs.Shape.{text_of};
    ghost use Rattle.rec_forms.specs.Writable.{string_writable, within_depth};

    ghost well_formed = { IsText };

    ghost value_of = { string };

    ghost form_of = { text_of };

    ghost levels = { 0 };

    ghost reads_back = { text_back };

    ghost reads_well_formed = { text_well_formed };

    ghost writable = { string_writable };

    ghost shallow = { within_depth refl };

    fn write(&self, _alloc: Global, text: &mut JsonText) -> Result<(), AllocError> {
        text.string(self.as_str())
    }

    fn from_node(alloc: Global, node: &Node<'_>) -> Result<ScriptId, FromValueError> {
        let text = Text::from_node(alloc, node)?;
        Ok(ScriptId::new(text.into_string()))
    }
}

/// Reads the uuid that a text is, in any of its forms.
fn read_uuid(text: &str) -> Option<Uuid>
    ensures { result ≡ parsed text.now }
{
    match Uuid::parse_str(text) {
        Ok(uuid) => Some(uuid),
        Err(_) => None,
    }
}

impl Form for ReportUuid {
    ghost use Rattle.std.specs.Prelude.{List, ℕ, refl};
    ghost use Rattle.uuid.specs.Text.{lower, hyphenated_text};
    ghost use Rattle.rec_forms.specs.IdLaws.{uuid_back, uuid_well_formed, uuid_writable};
    ghost use Rattle.rec_forms.specs.Ids.{uuid_value, uuid_form, IsUuid};
    ghost use Rattle.rec_forms.specs.Writable.{within_depth};

    ghost well_formed = { IsUuid };

    ghost value_of = { uuid_value };

    ghost form_of = { uuid_form };

    ghost levels = { 0 };

    ghost reads_back = { uuid_back };

    ghost reads_well_formed = { uuid_well_formed };

    ghost writable = { uuid_writable };

    ghost shallow = { within_depth refl };

    fn write(&self, _alloc: Global, text: &mut JsonText) -> Result<(), AllocError> {
        let mut buffer = Uuid::encode_buffer();
        let id = self.uuid().hyphenated().encode_lower(&mut buffer);
        text.string(id)
    }

    #[tactic(auto, unfolding(crate::specs::Ids::uuid_form))]
    fn from_node(_alloc: Global, node: &Node<'_>) -> Result<ReportUuid, FromValueError> {
        match node.as_str().and_then(read_uuid) {
            Some(uuid) => Ok(ReportUuid::new(uuid)),
            None => Err(FromValueError::NotAValue),
        }
    }
}

impl Held for ReportUuid {
    fn held(&self) {
        // its text reads as it, so it is sixteen bytes
        let mut buffer = Uuid::encode_buffer();
        let _text = self.uuid().hyphenated().encode_lower(&mut buffer);
    }
}

impl Form for Version {
    ghost use Rattle.std.specs.Prelude.{refl};
    ghost use Rattle.semver.specs.Identifiers.{parts_text};
    ghost use Rattle.rec_events.specs.Versions.{IsVersion};
    ghost use Rattle.rec_forms.specs.IdLaws.{version_back, version_well_formed, version_writable};
    ghost use Rattle.rec_forms.specs.Ids.{version_value, version_form};
    ghost use Rattle.rec_forms.specs.Writable.{within_depth};

    ghost well_formed = { IsVersion };

    ghost value_of = { version_value };

    ghost form_of = { version_form };

    ghost levels = { 0 };

    ghost reads_back = { version_back };

    ghost reads_well_formed = { version_well_formed };

    ghost writable = { version_writable };

    ghost shallow = { within_depth refl };

    fn write(&self, alloc: Global, text: &mut JsonText) -> Result<(), AllocError> {
        let version = self.to_text(alloc)?;
        text.string(version.as_str())
    }

    #[tactic(auto, unfolding(crate::specs::Ids::version_form))]
    fn from_node(alloc: Global, node: &Node<'_>) -> Result<Version, FromValueError> {
        let text = node.as_str().ok_or(FromValueError::NotAValue)?;
        match Version::parse(alloc, text) {
            Ok(version) => Ok(version),
            Err(VersionError::OutOfMemory) => Err(FromValueError::OutOfMemory),
            Err(VersionError::NotAVersion) => Err(FromValueError::NotAValue),
        }
    }
}

impl Held for Version {
    fn held(&self) {
        // it was made from its text, so its text reads as it
        let _parsed = self.as_semver();
    }
}
