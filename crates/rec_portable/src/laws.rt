//! Laws of bundles that are read, and of those that are upgraded. The functions do nothing, or call
//! the laws on which theirs rest: their contracts are what they are for.
ghost use Rattle.std.specs.List.{AllByRecursion};
ghost use Rattle.std.specs.Prelude.{◌≡◌, ◌≤◌, ◌<◌, ◌^◌, List, [], ℕ, None, Result, length};
ghost use Rattle.rec_format.specs.declared.head.SessionHead.{SessionHead};
ghost use Rattle.rec_format.specs.declared.manifest.PortableManifest.{PortableManifest};
ghost use Rattle.rec_format.specs.HeadForms.{IsHead};
ghost use Rattle.rec_codec.specs.Event.{LiveEvent};
ghost use Rattle.rec_store.specs.Bundle.{run_bundle, run_outputs};
ghost use Rattle.rec_store.specs.Clashes.{clash};
ghost use Rattle.rec_store.specs.Parts.{AreWithin};
ghost use Rattle.rec_store.specs.Reading.{IsReading, RunRecord};
ghost use Rattle.rec_store.specs.Recordable.{IsRecordable};
ghost use Rattle.rec_store.specs.RunParts.{HasParts, RunParts, written};
ghost use Rattle.rec_portable.specs.Components.{AreComponents};
ghost use Rattle.rec_portable.specs.declared.errors.PortableRecordingReadError.{
  PortableRecordingReadError,
};
ghost use Rattle.rec_portable.specs.declared.upgrade_error.UpgradeError.{UpgradeError};
ghost use Rattle.rec_portable.specs.Judging.{IsJudged, IsNoContainer};
ghost use Rattle.rec_portable.specs.Upgrades.{IsReadAndBack, IsUpgradable};
ghost use Rattle.rec_portable.specs.Upgrading.{IsAccepted, IsRefused};

use rec_store::laws::{judged_parts_are_read, one_record, recordings_are_written, written_reads};

/// States that bytes are judged in one way: they are a container, and have one manifest or one
/// first refusal; or they are none, and have one first fault.
pub fn one_judgement()
    ensures entries { (bytes : List ℕ) (limit : ℕ)
        (r s : Result PortableManifest PortableRecordingReadError)
        → IsJudged bytes limit r
        → IsJudged bytes limit s
        → r ≡ s }
    ensures fault { (bytes : List ℕ) (e f : PortableRecordingReadError)
        → IsNoContainer bytes e
        → IsNoContainer bytes f
        → e ≡ f }
    ensures either { (bytes : List ℕ) (limit : ℕ)
        (r : Result PortableManifest PortableRecordingReadError) (e : PortableRecordingReadError)
        → IsJudged bytes limit r
        → IsNoContainer bytes e
        → ⊥ }
{}

/// States that the parts of a bundle with a reading are the components of this reading, where
/// manifest, log and entries of the store are no longer than the limit: version, run information,
/// events, metadata and outputs. Only a version that isn't read may still refuse the manifest.
pub fn parts_are_components()
    ensures { (bytes : List ℕ) (limit : ℕ) (r : RunRecord) (reads : IsReading bytes r)
        → length reads.manifest ≤ limit
        → length reads.log ≤ limit
        → AreWithin reads.entries limit → AreComponents bytes limit r }
{}

/// States that a bundle with a reading is accepted, where its versions are read and nothing that is
/// read or to be written is too long, and that it isn't refused.
pub fn readable_bundles_are_upgraded()
    ensures accepted { (bytes : List ℕ) (limit : ℕ) (run : RunRecord)
        (u : IsUpgradable bytes limit run)
        → IsAccepted bytes limit u.parts }
    ensures refused { (bytes : List ℕ) (limit : ℕ) (run : RunRecord) (e : UpgradeError)
        → IsUpgradable bytes limit run
        → IsRefused bytes limit e
        → ⊥ }
{}

/// States that bytes are upgraded in one way: they are accepted with the parts of one run, or they
/// have one first refusal, and not both.
pub fn one_upgrade()
    ensures accepted { (bytes : List ℕ) (limit : ℕ) (p q : RunParts)
        → IsAccepted bytes limit p
        → IsAccepted bytes limit q
        → p ≡ q }
    ensures refused { (bytes : List ℕ) (limit : ℕ) (e f : UpgradeError)
        → IsRefused bytes limit e
        → IsRefused bytes limit f
        → e ≡ f }
    ensures either { (bytes : List ℕ) (limit : ℕ) (p : RunParts) (e : UpgradeError)
        → IsAccepted bytes limit p
        → IsRefused bytes limit e
        → ⊥ }
{}

/// States that what is accepted is read, and that what is written of it is read as the same but for
/// the versions and the sizes.
pub fn accepted_bundles_are_read()
    ensures { (bytes : List ℕ) (limit : ℕ) (p : RunParts)
        → IsAccepted bytes limit p
        → IsReadAndBack bytes p }
{
    judged_parts_are_read();
    written_reads();
}

/// States that upgrading what was written of a bundle writes the same bytes again.
pub fn upgraded_again()
    ensures { (bytes : List ℕ) (p q : RunParts)
        → HasParts bytes p
        → length (written p) < 2 ^ 64
        → HasParts (written p) q
        → written q ≡ written p }
{
    written_reads();
}

/// States that upgrading the bundle of a recorded run writes the same bytes again: where the head
/// is well-formed, each event is well-formed with loaded outputs, the lengths of outputs and their
/// numbers are u64s, no two outputs of one path differ, and the bundle's length is a u64.
pub fn recorded_stay()
    ensures { (number : List ℕ → ℕ) (m : ℕ) (head : SessionHead) (events : List LiveEvent)
        → IsHead head
        → AllByRecursion IsRecordable events
        → ((bytes : List ℕ) → number bytes < 2 ^ 64)
        → clash [] (run_outputs number m events) ≡ None
        → length (run_bundle number m head events) < 2 ^ 64
        → (q : RunParts)
        → HasParts (run_bundle number m head events) q
        → written q ≡ run_bundle number m head events }
{
    one_record();
    recordings_are_written();
}
