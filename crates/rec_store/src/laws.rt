//! Laws of bundles. The functions do nothing: their contracts are what they are for.
ghost use Rattle.std.specs.List.{AllByRecursion, flat_map};
ghost use Rattle.std.specs.Prelude.{◌≡◌, ◌<◌, ◌^◌, [], ◌∷◌, List, ℕ, None, Ok, Some, length, map};
ghost use Rattle.rec_container.specs.Container.{Entry};
ghost use Rattle.rec_events.specs.declared.output_names.OutputKind.{OutputKind};
ghost use Rattle.rec_forms.specs.TextForm.{bytes_form};
ghost use Rattle.rec_format.specs.declared.head.SessionHead.{SessionHead};
ghost use Rattle.rec_format.specs.declared.manifest.PortableManifest.{PortableManifest};
ghost use Rattle.rec_format.specs.HeadForms.{IsHead};
ghost use Rattle.rec_format.specs.RunForms.{manifest_form};
ghost use Rattle.rec_format.specs.Versions.{portable_version};
ghost use Rattle.rec_codec.specs.Event.{LiveEvent};
ghost use Rattle.rec_store.specs.Bundle.{run_bundle, run_outputs};
ghost use Rattle.rec_store.specs.Clashes.{clash, with_entries, with_entry};
ghost use Rattle.rec_store.specs.Cut.{cut};
ghost use Rattle.rec_store.specs.EventOutputs.{output_entry};
ghost use Rattle.rec_store.specs.JudgedParts.{first_unnamed, parts_judged};
ghost use Rattle.rec_store.specs.Kept.{HavePaths, event_paths, event_resolved};
ghost use Rattle.rec_store.specs.Parts.{ArePartsOf, AreWithin};
ghost use Rattle.rec_store.specs.Reading.{IsReading, RunRecord, record_of};
ghost use Rattle.rec_store.specs.Reading.{record_of_parts, recorded};
ghost use Rattle.rec_store.specs.Recordable.{IsRecordable};
ghost use Rattle.rec_store.specs.Recording.{Recording};
ghost use Rattle.rec_store.specs.RunParts.{AreBack, HasParts, RunParts, parts_of};
ghost use Rattle.rec_store.specs.RunParts.{recorded_parts, settled, settled_info, written};
ghost use Rattle.rec_store.specs.RunParts.{written_log, written_manifest, written_store};
ghost use Rattle.rec_store.specs.Saved.{AreStopped, HasAccepted, required_paths};

use crate::namer::OutputNamer;
use rec_container::Sink;

/// States that the bundle of a run is read as what was recorded of it, with the outputs of its
/// events cut at m bytes: where the head is well-formed, each event is well-formed with loaded
/// outputs, the lengths of outputs and their numbers are u64s, no two outputs of one path differ,
/// and the bundle's length is a u64.
pub fn bundle_reads()
    ensures { (number : List ℕ → ℕ) (m : ℕ) (head : SessionHead) (events : List LiveEvent)
        → IsHead head
        → AllByRecursion IsRecordable events
        → ((bytes : List ℕ) → number bytes < 2 ^ 64) → clash [] (run_outputs number m events) ≡ None
        → length (run_bundle number m head events) < 2 ^ 64
        → IsReading (run_bundle number m head events) (recorded number m head events) }
{}

/// States that bytes are read as one record at most.
pub fn one_record()
    ensures { (bytes : List ℕ) (r s : RunRecord) → IsReading bytes r → IsReading bytes s → r ≡ s }
{}

/// States that the parts of a manifest, of a log and of a store are the components of what these
/// are read as, where no entry of the store is longer than the limit: version and run information,
/// the events of the log's lines, the metadata, and the output of each name.
pub fn parts_are_read()
    ensures { (text log : List ℕ) (es : List Entry) (limit : ℕ) (r : RunRecord)
        → record_of text log es ≡ Some r
        → AreWithin es limit
        → ArePartsOf text log es limit r }
{}

/// States that the parts that are judged one by one are those of the run, where no other entry
/// stands in the store.
pub fn judged_parts_are_read()
    ensures { (limit : ℕ) (manifest log : List ℕ) (m : PortableManifest) (es : List Entry)
        (p : RunParts)
        → bytes_form manifest_form manifest ≡ Some m
        → parts_judged limit m log es ≡ Ok p
        → first_unnamed (flat_map event_paths p.events) es ≡ None
        → parts_of manifest log es ≡ Some p }
{}

/// States that a recording writes what is written of the parts of its run, and with them no other
/// version or sizes.
pub fn recordings_are_written()
    ensures bytes { (number : List ℕ → ℕ) (m : ℕ) (head : SessionHead) (events : List LiveEvent)
        → run_bundle number m head events ≡ written (recorded_parts number m head events) }
    ensures parts { (number : List ℕ → ℕ) (m : ℕ) (head : SessionHead) (events : List LiveEvent)
        → settled (recorded_parts number m head events) ≡ recorded_parts number m head events }
{}

/// States that what is written of parts is written again of the parts that it is read as.
pub fn settled_parts_stay()
    ensures parts { (p : RunParts) → settled (settled p) ≡ settled p }
    ensures bytes { (p : RunParts) → written (settled p) ≡ written p }
{}

/// States that parts whose texts are read back are read from what is written of them, with the
/// version and the sizes that were written.
pub fn written_parts_are_read()
    ensures { (p : RunParts)
        → AreBack p
        → parts_of (written_manifest p) (written_log p) (written_store p) ≡ Some (settled p) }
{}

/// States that the texts of the parts of each bundle are read back, where what is written of them
/// has a length that is a u64.
pub fn parts_back()
    ensures { (bytes : List ℕ) (p : RunParts)
        → HasParts bytes p
        → length (written p) < 2 ^ 64
        → AreBack p }
{}

/// States that a run that is written anew reads back, wherever metadata stood in the bundle that it
/// came from: with its parts, and as its record, but for the versions and the sizes.
pub fn written_reads()
    ensures parts { (bytes : List ℕ) (p : RunParts)
        → HasParts bytes p
        → length (written p) < 2 ^ 64
        → HasParts (written p) (settled p) }
    ensures record { (bytes : List ℕ) (p : RunParts) (r : RunRecord)
        → HasParts bytes p
        → IsReading bytes r
        → length (written p) < 2 ^ 64
        → IsReading (written p)
        (record r { format_version = portable_version; run = settled_info p }) }
{}

/// States that the names in a run's events stand for the same bytes in the store that is written
/// anew.
pub fn resolved_stay()
    ensures { (manifest log : List ℕ) (es : List Entry) (p : RunParts)
        → parts_of manifest log es ≡ Some p
        → map (event_resolved (written_store p)) p.events ≡ map (event_resolved es) p.events }
{}

/// States that each bundle with a reading has the parts of a run,
/// of which the reading is the record.
pub fn readings_have_parts()
    ensures { (bytes : List ℕ) (r : RunRecord)
        → IsReading bytes r
        → (p : RunParts) × (es : List Entry) × HasParts bytes p × (record_of_parts es p ≡ r) }
{}

/// States that two outputs that are equal once they are cut give one entry where they are of one
/// kind, whatever the store has, and that outputs of two kinds give two in an empty store,
/// whatever their bytes.
pub fn equal_outputs_share_an_entry()
    ensures one { (number : List ℕ → ℕ) (m : ℕ) (a b : List ℕ) (kind : OutputKind) (es : List Entry)
        → cut a m ≡ cut b m
        → with_entries es (output_entry number m kind a ∷ output_entry number m kind b ∷ [])
        ≡ with_entry es (output_entry number m kind a) }
    ensures two { (number : List ℕ → ℕ) (m : ℕ) (a b : List ℕ) (kind other : OutputKind)
        → (kind ≡ other → ⊥)
        → with_entries [] (output_entry number m kind a ∷ output_entry number m other b ∷ [])
        ≡ output_entry number m kind a ∷ output_entry number m other b ∷ [] }
{}

/// States what is left where a recorder is stopped: nothing that it accepted is lost. Where the
/// metadata that each run has stands in its store, its two sinks hold the lines of the events that
/// it accepted, perhaps bytes after them in which no line ends, and entries with the metadata and
/// with each output of these events.
pub fn accepted_is_stopped<S: Sink, L: Sink, N: OutputNamer>()
    ensures { (events : List LiveEvent) (r : Recording S L N)
        → HasAccepted S.taken L.taken N.number events r
        → HavePaths r.store.entries required_paths
        → AreStopped (N.number r.namer) r.max_output events (L.taken r.log) (S.taken r.store.sink) }
{}
