//! What a replay is shown with.
ghost use Rattle.std.specs.Prelude.{◌≡◌, ◌≤◌, Some, true};
ghost use Rattle.rec_replay.specs.Reporting.{Becomes, Shows, known};
ghost use Rattle.rec_replay.specs.Settings.{default_settings};

use crate::event_reporter::{EventReporter, WriteEventError};
use crate::header::ReplayHeader;
use crate::output_load::OutputLoadDecider;
use crate::settings::{
    DisplaySettings, FinalStatusLevel, MaxProgressRunning, Redactor, ShowProgress, StatusLevel,
};
use rec_events::{NextestRunMode, TestEvent, TestOutputDisplay};

/// Collects how a replay is to be shown.
#[derive(Clone, Copy)]
pub struct ReplayReporterBuilder {
    settings: DisplaySettings,
}

impl Default for ReplayReporterBuilder {
    ghost use Rattle.std.specs.Prelude.{◌≡◌};
    ghost use Rattle.rec_replay.specs.Settings.{default_settings};

    ghost is_default = { λ builder. builder.settings ≡ default_settings };

    fn default() -> ReplayReporterBuilder {
        ReplayReporterBuilder::new()
    }
}

impl ReplayReporterBuilder {
    /// Starts with the defaults: tests that pass or fail are shown as they end and those that fail
    /// again at the end, the progress as the reporter sees fit, of at most eight running tests, and
    /// all else is off.
    pub fn new() -> ReplayReporterBuilder
        ensures { result.settings ≡ default_settings }
    {
        ReplayReporterBuilder {
            settings: DisplaySettings::defaults(),
        }
    }

    /// Sets which tests are shown as they end.
    pub fn set_status_level(&mut self, status_level: StatusLevel) -> &mut Self
        ensures same { result.ghost_name ≡ self.entry.ghost_name }
        ensures set { result.now
            ≡ record self.old
            { settings = record self.old.settings { status_level = status_level } } }
    {
        self.settings.status_level = status_level;
        self
    }

    /// Sets which tests are shown at the end of the run.
    pub fn set_final_status_level(&mut self, final_status_level: FinalStatusLevel) -> &mut Self
        ensures same { result.ghost_name ≡ self.entry.ghost_name }
        ensures set { result.now
            ≡ record self.old
            { settings = record self.old.settings { final_status_level = final_status_level } } }
    {
        self.settings.final_status_level = final_status_level;
        self
    }

    /// Sets when the output of a test that passed is shown.
    pub fn set_success_output(&mut self, success_output: TestOutputDisplay) -> &mut Self
        ensures same { result.ghost_name ≡ self.entry.ghost_name }
        ensures set { result.now
            ≡ record self.old
            { settings = record self.old.settings { success_output = (Some success_output) } } }
    {
        self.settings.success_output = Some(success_output);
        self
    }

    /// Sets when the output of a test that failed is shown.
    pub fn set_failure_output(&mut self, failure_output: TestOutputDisplay) -> &mut Self
        ensures same { result.ghost_name ≡ self.entry.ghost_name }
        ensures set { result.now
            ≡ record self.old
            { settings = record self.old.settings { failure_output = (Some failure_output) } } }
    {
        self.settings.failure_output = Some(failure_output);
        self
    }

    /// Sets whether colours are used.
    pub fn set_colorize(&mut self, colorize: bool) -> &mut Self
        ensures same { result.ghost_name ≡ self.entry.ghost_name }
        ensures set { result.now
            ≡ record self.old
            { settings = record self.old.settings { should_colorize = colorize } } }
    {
        self.settings.should_colorize = colorize;
        self
    }

    /// Sets whether more is shown than usual.
    pub fn set_verbose(&mut self, verbose: bool) -> &mut Self
        ensures same { result.ghost_name ≡ self.entry.ghost_name }
        ensures set { result.now
            ≡ record self.old { settings = record self.old.settings { verbose = verbose } } }
    {
        self.settings.verbose = verbose;
        self
    }

    /// Sets how the progress is shown.
    pub fn set_show_progress(&mut self, show_progress: ShowProgress) -> &mut Self
        ensures same { result.ghost_name ≡ self.entry.ghost_name }
        ensures set { result.now
            ≡ record self.old
            { settings = record self.old.settings { show_progress = show_progress } } }
    {
        self.settings.show_progress = show_progress;
        self
    }

    /// Sets how many of the running tests are shown.
    pub fn set_max_progress_running(
        &mut self,
        max_progress_running: MaxProgressRunning,
    ) -> &mut Self
        ensures same { result.ghost_name ≡ self.entry.ghost_name }
        ensures set { result.now
            ≡ record self.old {
              settings = record self.old.settings
                  { max_progress_running = max_progress_running };
            } }
    {
        self.settings.max_progress_running = max_progress_running;
        self
    }

    /// Sets whether outputs stand without an indent.
    pub fn set_no_output_indent(&mut self, no_output_indent: bool) -> &mut Self
        ensures same { result.ghost_name ≡ self.entry.ghost_name }
        ensures set { result.now
            ≡ record self.old
            { settings = record self.old.settings { no_output_indent = no_output_indent } } }
    {
        self.settings.no_output_indent = no_output_indent;
        self
    }

    /// Sets whether what differs between runs is hidden.
    pub fn set_redactor(&mut self, redactor: Redactor) -> &mut Self
        ensures same { result.ghost_name ≡ self.entry.ghost_name }
        ensures set { result.now
            ≡ record self.old { settings = record self.old.settings { redactor = redactor } } }
    {
        self.settings.redactor = redactor;
        self
    }

    /// Configures the reporter, once, with the settings, with what the run does with its tests and
    /// with how many of them it runs, and replays to it.
    pub fn build<'a, R: EventReporter>(
        self,
        mode: NextestRunMode,
        run_count: usize,
        reporter: &'a mut R,
    ) -> ReplayReporter<'a, R>
        ensures same { result.reporter.ghost_name ≡ reporter.entry.ghost_name }
        ensures own { R.configures reporter.old
            (record { settings = self.settings; mode = mode; run_count = run_count })
            result.reporter.now }
        ensures configured { Becomes (R.configured reporter.old) (R.configured result.reporter.now)
            (Some (record { settings = self.settings; mode = mode; run_count = run_count })) }
        ensures wants { R.wants result.reporter.now ≡ R.wants reporter.old }
        ensures later { R.faults reporter.old ≤ R.faults result.reporter.now }
        ensures written { R.written result.reporter.now ≡ R.written reporter.old }
        ensures finished { R.finished result.reporter.now ≡ R.finished reporter.old }
    {
        reporter.configure(&self.settings, mode, run_count);
        ReplayReporter { reporter }
    }
}

/// Passes on what is replayed to a reporter. Each call leaves the reporter as the reporter's own
/// call of the same name does, and returns what that call returns.
#[derive(Drop)]
pub struct ReplayReporter<'a, R: EventReporter> {
    reporter: &'a mut R,
}

impl<'a, R: EventReporter> ReplayReporter<'a, R> {
    /// Returns which outputs the reporter wants.
    pub fn output_load_decider(&self) -> OutputLoadDecider
        ensures { result ≡ R.wants self.now.reporter.now }
    {
        self.reporter.decider()
    }

    /// Shows a header.
    ///
    /// # Errors
    ///
    /// Those of the reporter's own call.
    pub fn write_header(&mut self, header: &ReplayHeader) -> Result<(), WriteEventError>
        ensures same { self.new.reporter.ghost_name ≡ self.old.reporter.ghost_name }
        ensures own { R.writes_header self.old.reporter.now header.now result
            self.new.reporter.now }
        ensures shown { Shows (R.written self.old.reporter.now) (R.written self.new.reporter.now)
            (R.faults self.old.reporter.now) (R.faults self.new.reporter.now)
            (R.header_text (known (R.configured self.old.reporter.now)) header.now) result }
        ensures wants { R.wants self.new.reporter.now ≡ R.wants self.old.reporter.now }
        ensures later { R.faults self.old.reporter.now ≤ R.faults self.new.reporter.now }
        ensures configured { R.configured self.new.reporter.now
            ≡ R.configured self.old.reporter.now }
        ensures finished { R.finished self.new.reporter.now ≡ R.finished self.old.reporter.now }
    {
        self.reporter.write_header(header)
    }

    /// Shows an event.
    ///
    /// # Errors
    ///
    /// Those of the reporter's own call.
    pub fn write_event(&mut self, event: &TestEvent<'_>) -> Result<(), WriteEventError>
        ensures same { self.new.reporter.ghost_name ≡ self.old.reporter.ghost_name }
        ensures own { R.writes_event self.old.reporter.now event.now result self.new.reporter.now }
        ensures shown { Shows (R.written self.old.reporter.now) (R.written self.new.reporter.now)
            (R.faults self.old.reporter.now) (R.faults self.new.reporter.now)
            (R.event_text (known (R.configured self.old.reporter.now)) event.now) result }
        ensures wants { R.wants self.new.reporter.now ≡ R.wants self.old.reporter.now }
        ensures later { R.faults self.old.reporter.now ≤ R.faults self.new.reporter.now }
        ensures configured { R.configured self.new.reporter.now
            ≡ R.configured self.old.reporter.now }
        ensures finished { R.finished self.new.reporter.now ≡ R.finished self.old.reporter.now }
    {
        self.reporter.write_event(event)
    }

    /// Ends the showing.
    pub fn finish(self)
        ensures own { R.finishes self.entry.reporter.now self.exit.0.now }
        ensures finished { Becomes (R.finished self.entry.reporter.now) (R.finished self.exit.0.now)
            true }
        ensures wants { R.wants self.exit.0.now ≡ R.wants self.entry.reporter.now }
        ensures later { R.faults self.entry.reporter.now ≤ R.faults self.exit.0.now }
        ensures written { R.written self.exit.0.now ≡ R.written self.entry.reporter.now }
        ensures configured { R.configured self.exit.0.now ≡ R.configured self.entry.reporter.now }
    {
        self.reporter.finish();
    }
}
