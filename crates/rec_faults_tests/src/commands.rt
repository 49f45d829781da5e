//! The settings that words ask for.

use rec_export::Settings;
use rec_replay::LoadOutput;
use rec_words::{Command, bundle_path, read_words};
use std::alloc::{AllocError, Global};
use std::test::Fail;

/// The name of a command, the file that it writes, and its settings;
/// none where it prints a text of its own.
fn asked(command: Command<'_>) -> Option<(&'static str, &str, Settings)> {
    match command {
        Command::Record { bundle, settings } => Some(("record", bundle, settings)),
        Command::Trace { settings } => Some(("trace", "none", settings)),
        Command::Replay {
            output: LoadOutput::Load,
            settings,
        } => Some(("load", "none", settings)),
        Command::Replay {
            output: LoadOutput::Skip,
            settings,
        } => Some(("skip", "none", settings)),
        Command::Report { settings } => Some(("report", "none", settings)),
        Command::Info { settings } => Some(("info", "none", settings)),
        Command::Slots { settings } => Some(("slots", "none", settings)),
        Command::Rerun { settings } => Some(("rerun", "none", settings)),
        Command::View {
            output: LoadOutput::Load,
            settings,
        } => Some(("view", "none", settings)),
        Command::View {
            output: LoadOutput::Skip,
            settings,
        } => Some(("view-skip", "none", settings)),
        Command::Sample {
            n: _,
            bundle,
            settings,
        } => Some(("sample", bundle, settings)),
        Command::Upgrade { bundle, settings } => Some(("upgrade", bundle, settings)),
        Command::Salvage { bundle, settings } => Some(("salvage", bundle, settings)),
        Command::Live {
            directory,
            settings,
        } => Some(("live", directory, settings)),
        Command::Pack {
            directory: _,
            bundle,
            settings,
        } => Some(("pack", bundle, settings)),
        Command::Help | Command::Version => None,
    }
}

/// The limits, the grouping and the form.
fn shown(alloc: Global, settings: &Settings) -> Result<String, AllocError> {
    let output = settings.max_output;
    let read = settings.read_limit;
    let session = settings.session_limit;
    let group_by = settings.group_by;
    let form = settings.message_format;
    format!(in alloc; "{output} {read} {session} {group_by:?} {form:?}")
}

/// A row each: words with a blank between each two, the path of the bundle, and what they ask for.
fn rows() -> &'static str {
    "\
record b|b|record b 10485760 268435456 268435456 Binary Json
record b --max-output 1|b|record b 1 268435456 268435456 Binary Json
record b --read-limit 2|b|record b 10485760 2 268435456 Binary Json
record b --session-limit 3|b|record b 10485760 268435456 3 Binary Json
record b --read-limit 2 --max-output 1|b|record b 1 2 268435456 Binary Json
record b --max-output 1 --read-limit 2 --session-limit 3|b|record b 1 2 3 Binary Json
record b --session-limit 3 --max-output 1 --read-limit 2|b|record b 1 2 3 Binary Json
record b --max-output 0|b|record b 0 268435456 268435456 Binary Json
record b --max-output 007|b|record b 7 268435456 268435456 Binary Json
record b --max-output 00000000000000000000000|b|record b 0 268435456 268435456 Binary Json
record b --read-limit 18446744073709551615|b|\
record b 10485760 18446744073709551615 268435456 Binary Json
record b --session-limit 0018446744073709551615|b|\
record b 10485760 268435456 18446744073709551615 Binary Json
record ||record  10485760 268435456 268435456 Binary Json
record --max-output --max-output 1|--max-output|\
record --max-output 1 268435456 268435456 Binary Json
record --help|--help|record --help 10485760 268435456 268435456 Binary Json
record b --group-by binary|b|record b 10485760 268435456 268435456 Binary Json
record b --group-by slot|b|record b 10485760 268435456 268435456 Slot Json
record b --max-output 1 --group-by slot|b|record b 1 268435456 268435456 Slot Json
record b --message-format json|b|record b 10485760 268435456 268435456 Binary Json
record b --message-format json-pretty|b|record b 10485760 268435456 268435456 Binary JsonPretty
trace|none|trace none 10485760 268435456 268435456 Binary Json
trace --read-limit 2|none|trace none 10485760 2 268435456 Binary Json
trace --group-by slot --read-limit 1|none|trace none 10485760 1 268435456 Slot Json
trace --message-format json|none|trace none 10485760 268435456 268435456 Binary Json
trace --message-format json-pretty|none|trace none 10485760 268435456 268435456 Binary JsonPretty
trace --message-format json-pretty --group-by slot|none|\
trace none 10485760 268435456 268435456 Slot JsonPretty
info|none|info none 10485760 268435456 268435456 Binary Json
info --session-limit 3|none|info none 10485760 268435456 3 Binary Json
info --session-limit 3 --read-limit 2|none|info none 10485760 2 3 Binary Json
replay|none|load none 10485760 268435456 268435456 Binary Json
replay --output load|none|load none 10485760 268435456 268435456 Binary Json
replay --output skip|none|skip none 10485760 268435456 268435456 Binary Json
replay --read-limit 2 --output skip --session-limit 3|none|skip none 10485760 2 3 Binary Json
replay --session-limit 3 --read-limit 2|none|load none 10485760 2 3 Binary Json
report|none|report none 10485760 268435456 268435456 Binary Json
report --read-limit 2|none|report none 10485760 2 268435456 Binary Json
report --session-limit 3 --read-limit 2|none|report none 10485760 2 3 Binary Json
sample 0 b|b|sample b 10485760 268435456 268435456 Binary Json
sample 0 ||sample  10485760 268435456 268435456 Binary Json
sample 0 --help|--help|sample --help 10485760 268435456 268435456 Binary Json
sample 10000 b|b|sample b 10485760 268435456 268435456 Binary Json
sample 00010000 b|b|sample b 10485760 268435456 268435456 Binary Json
sample 7 --output|--output|sample --output 10485760 268435456 268435456 Binary Json
sample 7 b --session-limit 3 --max-output 1 --read-limit 2|b|sample b 1 2 3 Binary Json
sample 1 b|b|sample b 10485760 268435456 268435456 Binary Json
sample 1 b --group-by slot|b|sample b 10485760 268435456 268435456 Slot Json
sample 1 b --message-format json-pretty|b|sample b 10485760 268435456 268435456 Binary JsonPretty
slots|none|slots none 10485760 268435456 268435456 Binary Json
slots --session-limit 3 --read-limit 2|none|slots none 10485760 2 3 Binary Json
rerun|none|rerun none 10485760 268435456 268435456 Binary Json
rerun --read-limit 2|none|rerun none 10485760 2 268435456 Binary Json
view|none|view none 10485760 268435456 268435456 Binary Json
view --output skip|none|view-skip none 10485760 268435456 268435456 Binary Json
view --session-limit 3 --read-limit 2|none|view none 10485760 2 3 Binary Json
upgrade b|b|upgrade b 10485760 268435456 268435456 Binary Json
upgrade b --read-limit 2|b|upgrade b 10485760 2 268435456 Binary Json
upgrade --read-limit --session-limit 3|--read-limit|\
upgrade --read-limit 10485760 268435456 3 Binary Json
salvage b|b|salvage b 10485760 268435456 268435456 Binary Json
salvage b --session-limit 3 --read-limit 2|b|salvage b 10485760 2 3 Binary Json
live d|none|live d 10485760 268435456 268435456 Binary Json
live d --session-limit 3 --max-output 1|none|live d 1 268435456 3 Binary Json
pack d b|b|pack b 10485760 268435456 268435456 Binary Json
pack d b --session-limit 3|b|pack b 10485760 268435456 3 Binary Json
live d --read-limit 2|none|a fault
pack d|none|a fault
pack d b --max-output 1|none|a fault
--help|none|a text
--version|none|a text
rec b|none|a fault
record b x|none|a fault
sample 10001 b|none|a fault
slots --max-output 1|none|a fault
view b|none|a fault
view --max-output 1|none|a fault
upgrade b --max-output 1|none|a fault
salvage|none|a fault
"
}

/// The words of a text, with a blank between each two.
fn words_in(alloc: Global, text: &str) -> Result<Vec<String>, AllocError> {
    let mut words = Vec::new(alloc);
    for word in text.split(' ') {
        words.push(String::from_str(alloc, word)?)?;
    }
    Ok(words)
}

/// The path of the bundle that words name, and what they ask for.
fn answered(alloc: Global, text: &str) -> Result<String, AllocError> {
    let words = words_in(alloc, text)?;
    let path = bundle_path(&words).unwrap_or("none");
    let Ok(command) = read_words(&words) else {
        return format!(in alloc; "{path}|a fault");
    };
    match asked(command) {
        None => format!(in alloc; "{path}|a text"),
        Some((name, bundle, settings)) => {
            let settings = shown(alloc, &settings)?;
            format!(in alloc; "{path}|{name} {bundle} {settings}")
        }
    }
}

#[test]
fn settings_of_words(rt: HostRuntime) -> Result<(), Fail> {
    for row in rows().lines() {
        let (text, expected) = row.split_once('|').ok_or("a row without a path")?;
        let got = answered(rt.alloc(), text)?;
        assert!(rt; got.as_str() == expected, "{text}: {got}");
    }
    Ok(())
}
