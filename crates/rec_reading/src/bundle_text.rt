//! What a command prints of a bundle.
ghost use Rattle.std.specs.Prelude.{ℕ, List, Result};
ghost use Rattle.rec_container.specs.Container.{Entry, IsContainer};
ghost use Rattle.rec_errors.specs.declared.reading_error.ReadingError.{ReadingError};
ghost use Rattle.rec_reading.specs.Listing.{Makes, PrintsInfo, PrintsReplay, PrintsReport};
ghost use Rattle.rec_reading.specs.Reruns.{PrintsRerun};
ghost use Rattle.rec_reading.specs.Slots.{PrintsSlots};
ghost use Rattle.rec_reading.specs.Views.{PrintsView};

use crate::info::info_text;
use crate::replay::replay_text;
use crate::report::report_text;
use crate::rerun::rerun_text;
use crate::slots::slots_text;
use crate::view::view_text;
use rec_errors::ReadingError;
use rec_portable::PortableRecording;
use rec_replay::LoadOutput;
use std::alloc::Global;

/// Makes what a command prints of a bundle.
pub trait BundleText {
    /// Says what may be printed of the entries of a bundle under a read limit, or why nothing is.
    /// The manifest of the bundle was judged before.
    ghost prints: { Self → ℕ → List Entry → Result (List ℕ) ReadingError → Type 0 };

    /// Makes the text. The bundle is freed as soon as it isn't needed.
    ///
    /// # Errors
    ///
    /// Why nothing is printed of the bundle. `OutOfMemory` may come at any time.
    fn text(&self, alloc: Global, bundle: PortableRecording) -> Result<Vec<u8>, ReadingError>
        ensures { (es : List Entry)
            → IsContainer bundle.bytes es
            → Makes (prints self.now bundle.limit es) result };
}

/// Prints the manifest, as [`info_text`] makes it.
#[derive(Drop)]
pub struct Info;

impl BundleText for Info {
    ghost prints = { λ _. PrintsInfo };

    fn text(&self, alloc: Global, bundle: PortableRecording) -> Result<Vec<u8>, ReadingError> {
        let result = info_text(alloc, &bundle);
        bundle.discard();
        result
    }
}

/// Prints the lines of the replay, as [`replay_text`] makes them.
#[derive(Drop)]
pub struct Replay {
    /// Whether outputs are read.
    pub load_output: LoadOutput,
}

impl BundleText for Replay {
    ghost prints = { λ replay. PrintsReplay replay.load_output };

    fn text(&self, alloc: Global, bundle: PortableRecording) -> Result<Vec<u8>, ReadingError> {
        let result = replay_text(alloc, &bundle, self.load_output);
        bundle.discard();
        result
    }
}

/// Prints the reports, as [`report_text`] makes them.
#[derive(Drop)]
pub struct Report;

impl BundleText for Report {
    ghost prints = { λ _. PrintsReport };

    fn text(&self, alloc: Global, bundle: PortableRecording) -> Result<Vec<u8>, ReadingError> {
        let result = report_text(alloc, &bundle);
        bundle.discard();
        result
    }
}

/// Prints which tests are to run again, as [`rerun_text`] makes it.
#[derive(Drop)]
pub struct Rerun;

impl BundleText for Rerun {
    ghost prints = { λ _. PrintsRerun };

    fn text(&self, alloc: Global, bundle: PortableRecording) -> Result<Vec<u8>, ReadingError> {
        let result = rerun_text(alloc, &bundle);
        bundle.discard();
        result
    }
}

/// Prints how the slots were used, as [`slots_text`] makes it.
#[derive(Drop)]
pub struct Slots;

impl BundleText for Slots {
    ghost prints = { λ _. PrintsSlots };

    fn text(&self, alloc: Global, bundle: PortableRecording) -> Result<Vec<u8>, ReadingError> {
        slots_text(alloc, bundle)
    }
}

/// Prints a view of the run, as [`view_text`] makes it.
#[derive(Drop)]
pub struct View {
    /// Whether outputs are read.
    pub load_output: LoadOutput,
}

impl BundleText for View {
    ghost prints = { λ view. PrintsView view.load_output };

    fn text(&self, alloc: Global, bundle: PortableRecording) -> Result<Vec<u8>, ReadingError> {
        view_text(alloc, bundle, self.load_output)
    }
}
