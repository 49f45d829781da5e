//! The reports of a run.
ghost use Rattle.std.specs.Prelude.{◌≡◌, List};
ghost use Rattle.rec_container.specs.Container.{Entry, IsContainer};
ghost use Rattle.rec_replay.specs.declared.output_load.LoadOutput.TheVariants.{Load};
ghost use Rattle.rec_reading.specs.Listing.{Makes, PrintsReport, printed};
ghost use Rattle.rec_reading.specs.Printing.{report_prints};
ghost use Rattle.rec_reading.specs.RunParts.{parts_in};

use crate::parts::OpenRun;
use crate::report_printer::ReportPrinter;
use crate::run::print_run;
use rec_errors::ReadingError;
use rec_junit::PlainDescriber;
use rec_portable::PortableRecording;
use rec_replay::LoadOutput;
use std::alloc::Global;

/// Writes the reports of a bundle's run, each as compact JSON and LF: one for each end of a run in
/// the log. All outputs are read.
///
/// # Errors
///
/// Those of [`replay_text`](crate::replay_text) with `Load`, and `Report` where a line's event is
/// refused as it is reported. `OutOfMemory` may come at any time.
pub fn report_text(alloc: Global, bundle: &PortableRecording) -> Result<Vec<u8>, ReadingError>
    ensures { (es : List Entry)
        → IsContainer bundle.now.bytes es
        → Makes (PrintsReport bundle.now.limit es) result }
{
    let mut run = OpenRun::read(alloc, bundle)?;
    let result = reports_of(alloc, &mut run);
    // By a call: in place, each part of the run would be a case of the proof.
    drop(run);
    result
}

/// Writes the reports of a run that is read.
fn reports_of(alloc: Global, run: &mut OpenRun<'_>) -> Result<Vec<u8>, ReadingError>
    ensures { Makes
        (λ r. printed (report_prints run.old.mode) Load run.old.store.limit (parts_in run.old) ≡ r)
        result }
{
    let describer = PlainDescriber;
    let mut printer = ReportPrinter::new(alloc, run.mode, &describer)?;
    let mut text = Vec::new(alloc);
    print_run(alloc, run, LoadOutput::Load, &mut printer, &mut text)?;
    Ok(text)
}
