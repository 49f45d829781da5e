//! Laws of versions, heads and manifests. The functions do nothing:
//! their contracts are what they are for.
ghost use Rattle.std.specs.Ordering.{nat_cmp};
ghost use Rattle.std.specs.Prelude.{◌≡◌, ◌≤◌, ◌<◌, ℕ, Some, Ok, Err};
ghost use Rattle.serde_json.specs.Data.{Data};
ghost use Rattle.serde_json.specs.Written.{compact_text};
ghost use Rattle.rec_forms.specs.TextForm.{bytes_form};
ghost use Rattle.rec_format.specs.contracts.versions.PortableRecordingFormatMajorVersionOrd.TheImpl
    as portable_major;
ghost use Rattle.rec_format.specs.contracts.versions.PortableRecordingFormatMinorVersionOrd.TheImpl
    as portable_minor;
ghost use Rattle.rec_format.specs.contracts.versions.RunsJsonFormatVersionOrd.TheImpl as run_list;
ghost use Rattle.rec_format.specs.contracts.versions.StoreFormatMajorVersionOrd.TheImpl
    as store_major;
ghost use Rattle.rec_format.specs.contracts.versions.StoreFormatMinorVersionOrd.TheImpl
    as store_minor;
ghost use Rattle.rec_format.specs.declared.head.SessionHead.{SessionHead};
ghost use Rattle.rec_format.specs.declared.incompatibility.StoreVersionIncompatibility.TheVariants.{
  MinorTooNew,
};
ghost use Rattle.rec_format.specs.declared.incompatibility.TooOldRecordingGuidance.TheVariants.{
  Unknown,
};
ghost use Rattle.rec_format.specs.declared.sizes.RecordedSizes.{RecordedSizes};
ghost use Rattle.rec_format.specs.HeadForms.{head_form, IsHead};
ghost use Rattle.rec_format.specs.HeadTexts.{AreTextsRead};
ghost use Rattle.rec_format.specs.RunForms.{manifest_form, manifest_value, IsManifest};
ghost use Rattle.rec_format.specs.Runs.{manifest_of, recorded_info};
ghost use Rattle.rec_format.specs.SizeForms.{AreSizes};
ghost use Rattle.rec_format.specs.Versions.{guidance, store_readable, store_version};

use crate::PortableManifest;
use rec_forms::Held;

/// States that the version numbers of each kind are ordered as their numbers are.
pub fn versions_are_ordered_by_their_numbers()
    ensures store_major { (a b : ℕ) → store_major.cmp-value.it a b ≡ nat_cmp a b }
    ensures store_minor { (a b : ℕ) → store_minor.cmp-value.it a b ≡ nat_cmp a b }
    ensures portable_major { (a b : ℕ) → portable_major.cmp-value.it a b ≡ nat_cmp a b }
    ensures portable_minor { (a b : ℕ) → portable_minor.cmp-value.it a b ≡ nat_cmp a b }
    ensures run_list { (a b : ℕ) → run_list.cmp-value.it a b ≡ nat_cmp a b }
{}

/// States that a store of each minor version up to that which is written is read, and that one of a
/// newer minor version isn't.
pub fn older_stores_are_read()
    ensures read { (minor : ℕ)
        → minor ≤ 1
        → store_readable (record { major = 3; minor = minor }) store_version ≡ Ok tt }
    ensures newer { (minor : ℕ)
        → 1 < minor
        → store_readable (record { major = 3; minor = minor }) store_version
        ≡ Err (MinorTooNew minor 1) }
{}

/// States that there is guidance for each major version below that which is written.
/// They are counted from 1.
pub fn too_old_stores_have_guidance()
    ensures { (major : ℕ) → 0 < major → major < store_version.major → guidance major ≡ Unknown → ⊥ }
{}

/// States that a head for which a value stands is well-formed.
pub fn read_heads_are_well_formed()
    ensures { (d : Data) (head : SessionHead) → head_form d ≡ Some head → IsHead head }
{}

/// States that a manifest that a program holds is well-formed, whether it is ever written or not.
pub fn held_manifests_are_well_formed(manifest: &PortableManifest)
    ensures { IsManifest manifest.now }
{
    manifest.held();
}

/// States that the texts of a well-formed head's build scope, rerun information, test list and
/// record options are read as these, and that what cargo printed is UTF-8.
pub fn texts_of_heads_read_back()
    ensures { (head : SessionHead) → IsHead head → AreTextsRead head }
{}

/// States that the text of a run's manifest is read as this manifest, where the head is well-formed
/// and the sizes are below 2^64.
pub fn texts_of_manifests_read_back()
    ensures { (head : SessionHead) (sizes : RecordedSizes) → IsHead head → AreSizes sizes
        → bytes_form manifest_form
        (compact_text (manifest_value (manifest_of (recorded_info head sizes))))
        ≡ Some (manifest_of (recorded_info head sizes)) }
{}
