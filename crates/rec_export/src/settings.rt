//! The settings of the commands.
ghost use Rattle.std.specs.Prelude.{◌≡◌};

use rec_trace::{ChromeTraceGroupBy, ChromeTraceMessageFormat};

/// Says how a trace is drawn and written, and how many bytes are read and kept at most. The options
/// of the command line set it; `docs/CLI.md#the-command-line` lists them.
#[derive(Clone, Copy, Debug, PartialEq, Eq)]
pub struct Settings {
    /// Which process and thread a test is drawn as; by default `Binary`.
    pub group_by: ChromeTraceGroupBy,
    /// In which form the trace is written; by default `Json`.
    pub message_format: ChromeTraceMessageFormat,
    /// The most bytes of an output that is kept whole; by default 10485760, which are 10 MiB. A
    /// longer output is cut.
    pub max_output: u64,
    /// The most bytes of the manifest, the log or an entry of the store, as far as a command reads
    /// them; by default 268435456, which are 256 MiB. What records or upgrades a run refuses to
    /// write a longer one, so that a reader with this limit can read it.
    pub read_limit: u64,
    /// The most bytes of what a command reads, the session of a recording or else the bundle; by
    /// default 268435456, which are 256 MiB.
    pub session_limit: u64,
}

impl Default for Settings {
    ghost use Rattle.std.specs.Prelude.{◌≡◌};
    ghost use Rattle.rec_export.specs.Settings.{default_settings};

    ghost is_default = { λ settings. settings ≡ default_settings };

    fn default() -> Settings {
        Settings {
            group_by: ChromeTraceGroupBy::Binary,
            message_format: ChromeTraceMessageFormat::Json,
            max_output: 10485760,
            read_limit: 268435456,
            session_limit: 268435456,
        }
    }
}
