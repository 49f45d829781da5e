//! The options of the commands.
ghost use Rattle.std.specs.Prelude.{◌≡◌, ◌≤◌, IfSome};
ghost use Rattle.rec_words.specs.Options.{draws, group_by_of, has_come, load_of, loads_outputs};
ghost use Rattle.rec_words.specs.Options.{message_format_of};
ghost use Rattle.rec_words.specs.Options.{new_option, no_values, number_of, option_named};
ghost use Rattle.rec_words.specs.Options.{options_at, output_of, reads_bundle, records};
ghost use Rattle.rec_words.specs.Options.{settings_from, settings_of, takes, tests_of};
ghost use Rattle.rec_words.specs.Options.{values_from, with_value};
ghost use Rattle.rec_words.specs.Words.{texts};

use rec_errors::WordsError;
use rec_export::Settings;
use rec_replay::LoadOutput;
use rec_sample::MAX_TESTS;
use rec_trace::{ChromeTraceGroupBy, ChromeTraceMessageFormat};

/// Names a command that takes options.
#[derive(Clone, Copy)]
pub enum CommandName {
    /// `record`
    Record,
    /// `trace`
    Trace,
    /// `replay`
    Replay,
    /// `report`
    Report,
    /// `info`
    Info,
    /// `slots`
    Slots,
    /// `rerun`
    Rerun,
    /// `view`
    View,
    /// `sample`
    Sample,
    /// `upgrade`
    Upgrade,
    /// `salvage`
    Salvage,
    /// `live`
    Live,
    /// `pack`
    Pack,
}

impl CommandName {
    /// Returns whether the command takes an option.
    fn takes(self, option: OptionName) -> bool
        ensures { result ≡ takes self option }
    {
        match option {
            OptionName::GroupBy | OptionName::MessageFormat => self.draws(),
            OptionName::MaxOutput => self.records(),
            OptionName::Output => self.loads_outputs(),
            OptionName::ReadLimit => self.reads_bundle(),
            OptionName::SessionLimit => true,
        }
    }

    /// Returns whether the command draws a trace.
    fn draws(self) -> bool
        ensures { result ≡ draws self }
    {
        match self {
            CommandName::Record | CommandName::Trace | CommandName::Sample => true,
            CommandName::Replay
            | CommandName::Report
            | CommandName::Info
            | CommandName::Slots
            | CommandName::Rerun
            | CommandName::View
            | CommandName::Upgrade
            | CommandName::Salvage
            | CommandName::Live
            | CommandName::Pack => false,
        }
    }

    /// Returns whether the command records a session.
    fn records(self) -> bool
        ensures { result ≡ records self }
    {
        match self {
            CommandName::Record | CommandName::Sample | CommandName::Live => true,
            CommandName::Trace
            | CommandName::Replay
            | CommandName::Report
            | CommandName::Info
            | CommandName::Slots
            | CommandName::Rerun
            | CommandName::View
            | CommandName::Upgrade
            | CommandName::Salvage
            | CommandName::Pack => false,
        }
    }

    /// Returns whether the command reads outputs, unless they are to be skipped.
    fn loads_outputs(self) -> bool
        ensures { result ≡ loads_outputs self }
    {
        match self {
            CommandName::Replay | CommandName::View => true,
            CommandName::Record
            | CommandName::Trace
            | CommandName::Report
            | CommandName::Info
            | CommandName::Slots
            | CommandName::Rerun
            | CommandName::Sample
            | CommandName::Upgrade
            | CommandName::Salvage
            | CommandName::Live
            | CommandName::Pack => false,
        }
    }

    /// Returns whether the command takes the limit of what is read of a bundle.
    fn reads_bundle(self) -> bool
        ensures { result ≡ reads_bundle self }
    {
        match self {
            CommandName::Live | CommandName::Pack => false,
            CommandName::Record
            | CommandName::Trace
            | CommandName::Replay
            | CommandName::Report
            | CommandName::Info
            | CommandName::Slots
            | CommandName::Rerun
            | CommandName::View
            | CommandName::Sample
            | CommandName::Upgrade
            | CommandName::Salvage => true,
        }
    }

    /// Returns the index of the word at which the options begin.
    fn options_at(self) -> usize
        ensures { result ≡ options_at self }
    {
        match self {
            CommandName::Sample | CommandName::Pack => 3,
            CommandName::Record | CommandName::Upgrade | CommandName::Salvage | CommandName::Live =>
                2,
            CommandName::Trace
            | CommandName::Replay
            | CommandName::Report
            | CommandName::Info
            | CommandName::Slots
            | CommandName::Rerun
            | CommandName::View => 1,
        }
    }
}

/// Names an option by the setting that it sets.
#[derive(Clone, Copy)]
pub enum OptionName {
    /// `--group-by`
    GroupBy,
    /// `--message-format`
    MessageFormat,
    /// `--max-output`
    MaxOutput,
    /// `--read-limit`
    ReadLimit,
    /// `--session-limit`
    SessionLimit,
    /// `--output`
    Output,
}

/// Holds the values that options have. One is `None` until its option comes.
#[derive(Clone, Copy)]
pub struct OptionValues {
    /// How the trace groups tests.
    pub group_by: Option<ChromeTraceGroupBy>,
    /// How the trace is written.
    pub message_format: Option<ChromeTraceMessageFormat>,
    /// The most bytes of an output that is kept whole.
    pub max_output: Option<u64>,
    /// The most bytes of the manifest, the log or an entry of the store.
    pub read_limit: Option<u64>,
    /// The most bytes of the session or the bundle.
    pub session_limit: Option<u64>,
    /// Whether outputs are read.
    pub output: Option<LoadOutput>,
}

impl OptionValues {
    /// Makes the values where no option came.
    fn none() -> OptionValues
        ensures { result ≡ no_values }
    {
        OptionValues {
            group_by: None,
            message_format: None,
            max_output: None,
            read_limit: None,
            session_limit: None,
            output: None,
        }
    }

    /// Returns whether an option came.
    fn has_come(&self, name: OptionName) -> bool
        ensures { result ≡ has_come self.now name }
    {
        match name {
            OptionName::GroupBy => self.group_by.is_some(),
            OptionName::MessageFormat => self.message_format.is_some(),
            OptionName::MaxOutput => self.max_output.is_some(),
            OptionName::ReadLimit => self.read_limit.is_some(),
            OptionName::SessionLimit => self.session_limit.is_some(),
            OptionName::Output => self.output.is_some(),
        }
    }

    /// Returns the values after an option and the text of its value, where the option takes it.
    fn with(self, name: OptionName, text: &str) -> Option<OptionValues>
        ensures { result ≡ with_value self name text.now }
    {
        let mut values = self;
        match name {
            OptionName::GroupBy => values.group_by = Some(group_by(text)?),
            OptionName::MessageFormat => values.message_format = Some(message_format(text)?),
            OptionName::MaxOutput => values.max_output = Some(number(text)?),
            OptionName::ReadLimit => values.read_limit = Some(number(text)?),
            OptionName::SessionLimit => values.session_limit = Some(number(text)?),
            OptionName::Output => values.output = Some(output(text)?),
        }
        Some(values)
    }

    /// Returns the settings: these values, and the defaults where an option didn't come.
    pub fn settings(&self) -> Settings
        ensures { result ≡ settings_of self.now }
    {
        let defaults = Settings::default();
        Settings {
            group_by: self.group_by.unwrap_or(defaults.group_by),
            message_format: self.message_format.unwrap_or(defaults.message_format),
            max_output: self.max_output.unwrap_or(defaults.max_output),
            read_limit: self.read_limit.unwrap_or(defaults.read_limit),
            session_limit: self.session_limit.unwrap_or(defaults.session_limit),
        }
    }

    /// Returns whether outputs are loaded: as the option says, or that they are.
    pub fn load_output(&self) -> LoadOutput
        ensures { result ≡ load_of self.now }
    {
        self.output.unwrap_or(LoadOutput::Load)
    }

    /// Returns the option that a word names, where the command takes it and it didn't come before.
    fn new_option(
        &self,
        command: CommandName,
        at: usize,
        word: &str,
    ) -> Result<OptionName, WordsError>
        ensures { result ≡ new_option command self.now at (option_named word.now) }
    {
        let Some(name) = option_named(word) else {
            return Err(WordsError::UnknownOption { at });
        };
        if !command.takes(name) {
            return Err(WordsError::UnknownOption { at });
        }
        if self.has_come(name) {
            return Err(WordsError::RepeatedOption { at });
        }
        Ok(name)
    }
}

/// Reads the options of a command, which stand after its positional words.
///
/// # Errors
///
/// The first fault from the left. At one option it is judged whether the command takes it, whether
/// it came before, whether a value follows, and whether it takes that value, in this order.
pub fn read_settings(command: CommandName, words: &[String]) -> Result<Settings, WordsError>
    ensures { result ≡ settings_from command (texts words.now) }
{
    let values = read_options(command, words)?;
    Ok(values.settings())
}

/// Reads options of a command and their values, up to the last word.
///
/// # Errors
///
/// Those of [`read_settings`].
pub fn read_options(command: CommandName, words: &[String]) -> Result<OptionValues, WordsError>
    ensures { result ≡ values_from command no_values (options_at command) (texts words.now) }
{
    let mut values = OptionValues::none();
    let mut at = command.options_at();
    let mut rest = words;
    'options: while let Some((word, others)) = rest.split_first() {
        let name = values.new_option(command, at, word.as_str())?;
        let Some((value, after)) = others.split_first() else {
            return Err(WordsError::MissingValue { at: at + 1 });
        };
        let Some(more) = values.with(name, value.as_str()) else {
            return Err(WordsError::BadValue { at: at + 1 });
        };
        values = more;
        at += 2;
        rest = after;
    }
    Ok(values)
}

/// Returns the option that a word names.
#[tactic(auto, unfolding(crate::specs::Options::option_named))]
fn option_named(word: &str) -> Option<OptionName>
    ensures { result ≡ option_named word.now }
{
    match word {
        "--group-by" => Some(OptionName::GroupBy),
        "--message-format" => Some(OptionName::MessageFormat),
        "--max-output" => Some(OptionName::MaxOutput),
        "--read-limit" => Some(OptionName::ReadLimit),
        "--session-limit" => Some(OptionName::SessionLimit),
        "--output" => Some(OptionName::Output),
        _ => None,
    }
}

/// Returns the grouping that a word names.
#[tactic(auto, unfolding(crate::specs::Options::group_by_of))]
fn group_by(word: &str) -> Option<ChromeTraceGroupBy>
    ensures { result ≡ group_by_of word.now }
{
    match word {
        "binary" => Some(ChromeTraceGroupBy::Binary),
        "slot" => Some(ChromeTraceGroupBy::Slot),
        _ => None,
    }
}

/// Returns the form of JSON that a word names.
#[tactic(auto, unfolding(crate::specs::Options::message_format_of))]
fn message_format(word: &str) -> Option<ChromeTraceMessageFormat>
    ensures { result ≡ message_format_of word.now }
{
    match word {
        "json" => Some(ChromeTraceMessageFormat::Json),
        "json-pretty" => Some(ChromeTraceMessageFormat::JsonPretty),
        _ => None,
    }
}

/// Returns whether outputs are loaded, by a word for it.
#[tactic(auto, unfolding(crate::specs::Options::output_of))]
fn output(word: &str) -> Option<LoadOutput>
    ensures { result ≡ output_of word.now }
{
    match word {
        "load" => Some(LoadOutput::Load),
        "skip" => Some(LoadOutput::Skip),
        _ => None,
    }
}

/// Reads the number of tests of a generated session, which is at most [`MAX_TESTS`].
#[tactic(auto, unfolding(crate::specs::Options::tests_of))]
pub fn tests(text: &str) -> Option<u64>
    ensures value { result ≡ tests_of text.now }
    ensures within { IfSome result (λ n. n ≤ 10000) }
{
    let number = number(text)?;
    if number > MAX_TESTS {
        return None;
    }
    Some(number)
}

/// Reads a number of one or more decimal digits. Unlike `parse`, it refuses a sign.
fn number(text: &str) -> Option<u64>
    ensures { result ≡ number_of text.now }
{
    if text.starts_with('+') {
        return None;
    }
    text.parse().ok()
}
