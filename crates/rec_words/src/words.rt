//! The words of the command line.
ghost use Rattle.std.specs.Option.{option_map};
ghost use Rattle.std.specs.Prelude.{◌≡◌, ◌≤◌, IfOk};
ghost use Rattle.rec_words.specs.declared.options.CommandName.TheVariants.{Live, Pack, Record};
ghost use Rattle.rec_words.specs.declared.options.CommandName.TheVariants.{Replay, Sample};
ghost use Rattle.rec_words.specs.declared.options.CommandName.TheVariants.{Salvage, Upgrade, View};
ghost use Rattle.rec_words.specs.Words.{texts, bundle_after, command, command_after};
ghost use Rattle.rec_words.specs.Words.{command_named, directory_of, other_command, bundle_of};
ghost use Rattle.rec_words.specs.Words.{pack_after, sample_after, HasTests, Reads, ReadsBundle};

use crate::options::{CommandName, read_options, read_settings, tests};
use rec_errors::WordsError;
use rec_export::Settings;
use rec_replay::LoadOutput;

/// Says what the words ask for. `bundle` is the path of the file that the bundle is written into,
/// and `settings` are those that the options set.
#[derive(Clone, Copy)]
pub enum Command<'w> {
    /// Records the session on standard input into the file `bundle`.
    Record {
        bundle: &'w str,
        settings: Settings,
    },
    /// Prints the trace of the bundle on standard input.
    Trace {
        settings: Settings,
    },
    /// Prints the events of the bundle on standard input, a line each. `output` says whether
    /// outputs are read.
    Replay {
        output: LoadOutput,
        settings: Settings,
    },
    /// Prints the reports of the runs in the bundle on standard input, a line each.
    Report {
        settings: Settings,
    },
    /// Prints the manifest of the bundle on standard input.
    Info {
        settings: Settings,
    },
    /// Prints how long each slot of the run in the bundle on standard input was busy,
    /// paused and idle.
    Slots {
        settings: Settings,
    },
    /// Prints which tests are to run again after the run in the bundle on standard input.
    Rerun {
        settings: Settings,
    },
    /// Prints what a viewer wants to know of the run in the bundle on standard input. `output` says
    /// whether outputs are read.
    View {
        output: LoadOutput,
        settings: Settings,
    },
    /// Records a generated session of `n` tests, at most 10000, into the file `bundle`.
    Sample {
        n: u64,
        bundle: &'w str,
        settings: Settings,
    },
    /// Writes the bundle on standard input anew into the file `bundle`,
    /// as it would be recorded today.
    Upgrade {
        bundle: &'w str,
        settings: Settings,
    },
    /// Writes what is whole in the bundle on standard input, whose recording was stopped,
    /// into the file `bundle`.
    Salvage {
        bundle: &'w str,
        settings: Settings,
    },
    /// Records the session on standard input into the folder `directory` while the run goes on.
    Live {
        directory: &'w str,
        settings: Settings,
    },
    /// Writes the bundle of the run in the folder `directory`, whole or stopped,
    /// into the file `bundle`.
    Pack {
        directory: &'w str,
        bundle: &'w str,
        settings: Settings,
    },
    /// Prints how the program is used.
    Help,
    /// Prints the program's version and those of the formats that it writes.
    Version,
}

/// Reads the words, which don't hold the program's name. It takes no memory.
/// `docs/CLI.md#the-command-line` lists the commands and their options.
///
/// # Errors
///
/// The first fault from the left, as the variants of [`WordsError`] name it.
pub fn read_words(words: &[String]) -> Result<Command<'_>, WordsError>
    ensures reads { Reads result (command (texts words.now)) }
    ensures within { IfOk result HasTests }
{
    let Some((first, others)) = words.split_first() else {
        return Err(WordsError::NoCommand);
    };
    match command_named(first.as_str()) {
        Some(name) => read_command(name, others),
        None => read_other(first.as_str(), others),
    }
}

/// Returns the command that a word names.
#[tactic(auto, unfolding(crate::specs::Words::command_named))]
fn command_named(word: &str) -> Option<CommandName>
    ensures { result ≡ command_named word.now }
{
    match word {
        "record" => Some(CommandName::Record),
        "trace" => Some(CommandName::Trace),
        "replay" => Some(CommandName::Replay),
        "report" => Some(CommandName::Report),
        "info" => Some(CommandName::Info),
        "slots" => Some(CommandName::Slots),
        "rerun" => Some(CommandName::Rerun),
        "view" => Some(CommandName::View),
        "sample" => Some(CommandName::Sample),
        "upgrade" => Some(CommandName::Upgrade),
        "salvage" => Some(CommandName::Salvage),
        "live" => Some(CommandName::Live),
        "pack" => Some(CommandName::Pack),
        _ => None,
    }
}

/// Reads the words after the name of a command: its positional words,
/// and options with their values.
fn read_command(name: CommandName, words: &[String]) -> Result<Command<'_>, WordsError>
    ensures reads { Reads result (command_after name (texts words.now)) }
    ensures within { IfOk result HasTests }
{
    match name {
        CommandName::Record => read_record(words),
        CommandName::Trace => {
            let settings = read_settings(CommandName::Trace, words)?;
            Ok(Command::Trace { settings })
        }
        CommandName::Replay => read_replay(words),
        CommandName::Report => {
            let settings = read_settings(CommandName::Report, words)?;
            Ok(Command::Report { settings })
        }
        CommandName::Info => {
            let settings = read_settings(CommandName::Info, words)?;
            Ok(Command::Info { settings })
        }
        CommandName::Slots => {
            let settings = read_settings(CommandName::Slots, words)?;
            Ok(Command::Slots { settings })
        }
        CommandName::Rerun => {
            let settings = read_settings(CommandName::Rerun, words)?;
            Ok(Command::Rerun { settings })
        }
        CommandName::View => read_view(words),
        CommandName::Sample => read_sample(words),
        CommandName::Upgrade => read_upgrade(words),
        CommandName::Salvage => read_salvage(words),
        CommandName::Live => read_live(words),
        CommandName::Pack => read_pack(words),
    }
}

/// Reads the words after `record`: the bundle, and the options.
fn read_record(words: &[String]) -> Result<Command<'_>, WordsError>
    ensures reads { Reads result (command_after Record (texts words.now)) }
    ensures within { IfOk result HasTests }
{
    let BundleWords { bundle, settings } = read_bundle_words(CommandName::Record, words)?;
    Ok(Command::Record { bundle, settings })
}

/// Reads the words after `upgrade`: the bundle, and the options.
fn read_upgrade(words: &[String]) -> Result<Command<'_>, WordsError>
    ensures reads { Reads result (command_after Upgrade (texts words.now)) }
    ensures within { IfOk result HasTests }
{
    let BundleWords { bundle, settings } = read_bundle_words(CommandName::Upgrade, words)?;
    Ok(Command::Upgrade { bundle, settings })
}

/// Reads the words after `salvage`: the bundle, and the options.
fn read_salvage(words: &[String]) -> Result<Command<'_>, WordsError>
    ensures reads { Reads result (command_after Salvage (texts words.now)) }
    ensures within { IfOk result HasTests }
{
    let BundleWords { bundle, settings } = read_bundle_words(CommandName::Salvage, words)?;
    Ok(Command::Salvage { bundle, settings })
}

/// Reads the words after `live`: the directory, and the options.
fn read_live(words: &[String]) -> Result<Command<'_>, WordsError>
    ensures reads { Reads result (command_after Live (texts words.now)) }
    ensures within { IfOk result HasTests }
{
    let BundleWords { bundle, settings } = read_bundle_words(CommandName::Live, words)?;
    Ok(Command::Live {
        directory: bundle,
        settings,
    })
}

/// Reads the words after `pack`: the directory, the bundle, and the options.
fn read_pack(words: &[String]) -> Result<Command<'_>, WordsError>
    ensures reads { Reads result (command_after Pack (texts words.now)) }
    ensures within { IfOk result HasTests }
{
    let Some((directory, others)) = words.split_first() else {
        return Err(WordsError::MissingPositional { at: 1 });
    };
    read_pack_bundle(directory.as_str(), others)
}

/// Reads the words after the directory of `pack`.
fn read_pack_bundle<'w>(directory: &'w str, words: &'w [String]) -> Result<Command<'w>, WordsError>
    ensures reads { Reads result (pack_after directory.now (texts words.now)) }
    ensures within { IfOk result HasTests }
{
    let Some((bundle, options)) = words.split_first() else {
        return Err(WordsError::MissingPositional { at: 2 });
    };
    let settings = read_settings(CommandName::Pack, options)?;
    Ok(Command::Pack {
        directory,
        bundle: bundle.as_str(),
        settings,
    })
}

/// Holds the words after a command that takes one path alone.
struct BundleWords<'w> {
    bundle: &'w str,
    settings: Settings,
}

/// Reads the words after a command that takes one path alone: the path, and the options.
fn read_bundle_words(name: CommandName, words: &[String]) -> Result<BundleWords<'_>, WordsError>
    ensures { ReadsBundle result (bundle_after name (texts words.now)) }
{
    let Some((bundle, options)) = words.split_first() else {
        return Err(WordsError::MissingPositional { at: 1 });
    };
    let settings = read_settings(name, options)?;
    Ok(BundleWords {
        bundle: bundle.as_str(),
        settings,
    })
}

/// Reads the words after `replay`: the options, one of which is no setting.
fn read_replay(words: &[String]) -> Result<Command<'_>, WordsError>
    ensures reads { Reads result (command_after Replay (texts words.now)) }
    ensures within { IfOk result HasTests }
{
    let values = read_options(CommandName::Replay, words)?;
    let output = values.load_output();
    let settings = values.settings();
    Ok(Command::Replay { output, settings })
}

/// Reads the words after `view`: the options, one of which is no setting.
fn read_view(words: &[String]) -> Result<Command<'_>, WordsError>
    ensures reads { Reads result (command_after View (texts words.now)) }
    ensures within { IfOk result HasTests }
{
    let values = read_options(CommandName::View, words)?;
    let output = values.load_output();
    let settings = values.settings();
    Ok(Command::View { output, settings })
}

/// Reads the words after `sample`: the number of tests, the bundle, and the options.
fn read_sample(words: &[String]) -> Result<Command<'_>, WordsError>
    ensures reads { Reads result (command_after Sample (texts words.now)) }
    ensures within { IfOk result HasTests }
{
    let Some((number, others)) = words.split_first() else {
        return Err(WordsError::MissingPositional { at: 1 });
    };
    match tests(number.as_str()) {
        Some(n) => read_sample_bundle(n, others),
        None => Err(WordsError::BadNumber { at: 1 }),
    }
}

/// Reads the words after the number of tests of `sample`.
fn read_sample_bundle(n: u64, words: &[String]) -> Result<Command<'_>, WordsError>
    requires { n ≤ 10000 }
    ensures reads { Reads result (sample_after n (texts words.now)) }
    ensures within { IfOk result HasTests }
{
    let Some((bundle, options)) = words.split_first() else {
        return Err(WordsError::MissingPositional { at: 2 });
    };
    let settings = read_settings(CommandName::Sample, options)?;
    Ok(Command::Sample {
        n,
        bundle: bundle.as_str(),
        settings,
    })
}

/// Reads a word that names no command with options, and the words after it.
fn read_other<'w>(word: &str, others: &'w [String]) -> Result<Command<'w>, WordsError>
    ensures reads { Reads result (other_command word.now (texts others.now)) }
    ensures within { IfOk result HasTests }
{
    if !others.is_empty() {
        return Err(WordsError::UnknownCommand { at: 0 });
    }
    match word {
        "--help" => Ok(Command::Help),
        "--version" => Ok(Command::Version),
        _ => Err(WordsError::UnknownCommand { at: 0 }),
    }
}

/// Returns the path of the bundle, where the words ask for a command that writes one.
pub fn bundle_path(words: &[String]) -> Option<&str>
    ensures { option_map (λ path. path.now) result ≡ bundle_of (command (texts words.now)) }
{
    match read_words(words) {
        Ok(
            Command::Record {
                bundle,
                settings: _,
            }
            | Command::Sample {
                n: _,
                bundle,
                settings: _,
            }
            | Command::Upgrade {
                bundle,
                settings: _,
            }
            | Command::Salvage {
                bundle,
                settings: _,
            }
            | Command::Pack {
                directory: _,
                bundle,
                settings: _,
            },
        ) => Some(bundle),
        _ => None,
    }
}

/// Returns the directory that a run is recorded into while it goes on, where the words ask for
/// that.
pub fn directory_path(words: &[String]) -> Option<&str>
    ensures { option_map (λ path. path.now) result ≡ directory_of (command (texts words.now)) }
{
    match read_words(words) {
        Ok(
            Command::Live {
                directory,
                settings: _,
            },
        ) => Some(directory),
        _ => None,
    }
}
