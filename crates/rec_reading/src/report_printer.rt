//! What prints the reports of a run.
ghost use Rattle.std.specs.Prelude.{◌≡◌, ◌++◌, [], IfOk, OnOk, Some};
ghost use Rattle.rec_junit.specs.Describing.{plain_text};
ghost use Rattle.rec_junit.specs.Histories.{StandsFor};
ghost use Rattle.rec_reading.specs.Printing.{report_line, report_name, report_prints};
ghost use Rattle.rec_reading.specs.ReportLaws.{report_prints_blind};

use crate::printer::EventPrinter;
use rec_errors::ReadingError;
use rec_events::{NextestRunMode, TestEvent};
use rec_junit::{JunitBuilder, JunitReport, PlainDescriber, report_text};
use std::alloc::{AllocError, Global};

/// Prints a report where a run ends.
#[derive(Drop)]
pub(crate) struct ReportPrinter<'d> {
    builder: JunitBuilder<'d, PlainDescriber>,
}

impl<'d> ReportPrinter<'d> {
    /// Makes the printer of a run in this mode, of which nothing was printed.
    ///
    /// # Errors
    ///
    /// `AllocError` where memory is short.
    pub(crate) fn new(
        alloc: Global,
        mode: NextestRunMode,
        describer: &'d PlainDescriber,
    ) -> Result<ReportPrinter<'d>, AllocError>
        ensures mode { IfOk result (λ printer. printer.builder.mode ≡ mode) }
        ensures name { IfOk result (λ printer. printer.builder.name ≡ report_name) }
        ensures stands { IfOk result
            (λ printer. StandsFor mode plain_text printer.builder.suites []) }
    {
        let name = String::from_str(alloc, "nextest-run")?;
        Ok(ReportPrinter {
            builder: JunitBuilder::new(alloc, mode, name, describer),
        })
    }
}

impl<'d> EventPrinter for ReportPrinter<'d> {
    ghost prints = { λ printer. report_prints printer.builder.mode };

    ghost stands = { λ printer past. (printer.builder.name ≡ report_name)
        × StandsFor printer.builder.mode plain_text printer.builder.suites past };

    ghost blind = { λ printer. report_prints_blind printer.builder.mode };

    fn print(
        &mut self,
        alloc: Global,
        event: &TestEvent<'_>,
        text: &mut Vec<u8>,
    ) -> Result<(), ReadingError> {
        let Some(report) = self.builder.write_event(event)? else {
            return Ok(());
        };
        let added = add_report(alloc, &report, text);
        drop(report);
        Ok(added?)
    }
}

/// Adds the compact JSON of a report and LF.
fn add_report(alloc: Global, report: &JunitReport, text: &mut Vec<u8>) -> Result<(), AllocError>
    ensures { OnOk result (text.new.items ≡ text.old.items ++ report_line (Some report.now)) }
{
    let line = report_text(alloc, report)?;
    text.extend_from_slice(line.as_bytes())?;
    text.push(b'\n')?;
    Ok(())
}
