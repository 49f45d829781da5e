//! The setting by which a trace is written.

/// Says in which form the JSON is written. `docs/FORMATS.md#trace` describes both forms.
#[derive(Clone, Copy, PartialEq, Eq, Debug)]
pub enum ChromeTraceMessageFormat {
    /// In one line, without spaces.
    Json,
    /// Over several lines, with two spaces for each level.
    JsonPretty,
}
