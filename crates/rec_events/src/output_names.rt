//! The names under which outputs are stored.
ghost use Rattle.std.specs.Prelude.{◌≡◌, ◌<◌, ◌^◌, Some, IfOk, IfSome, option_map, string_bytes};
ghost use Rattle.rec_events.specs.declared.output_names.OutputFileName.{OutputFileName};
ghost use Rattle.rec_events.specs.OutputNames.{kind_suffix, kind_of, file_name_text};
ghost use Rattle.rec_events.specs.OutputNames.{file_name_of, number_of};

use std::alloc::{AllocError, Global};

/// Says which output it is.
#[derive(Clone, Copy, PartialEq, Eq, Drop)]
pub enum OutputKind {
    /// The standard output.
    Stdout,
    /// The standard error.
    Stderr,
    /// Both in one.
    Combined,
}

impl OutputKind {
    /// Returns what a file name of this kind ends in.
    fn suffix(self) -> &'static str
        ensures { result.now ≡ kind_suffix self }
    {
        match self {
            OutputKind::Stdout => "-stdout",
            OutputKind::Stderr => "-stderr",
            OutputKind::Combined => "-combined",
        }
    }

    /// Returns the kind of file names that end so.
    fn of_suffix(suffix: &[u8]) -> Option<OutputKind>
        ensures { result ≡ kind_of suffix.now }
    {
        if suffix == b"-stdout".as_slice() {
            Some(OutputKind::Stdout)
        } else if suffix == b"-stderr".as_slice() {
            Some(OutputKind::Stderr)
        } else if suffix == b"-combined".as_slice() {
            Some(OutputKind::Combined)
        } else {
            None
        }
    }
}

/// Names a stored output by sixteen hexadecimal digits in lower case, and its kind, as
/// `docs/FORMATS.md#events` spells it.
#[derive(Clone, Copy, PartialEq, Eq, Drop)]
pub struct OutputFileName {
    number: u64,
    kind: OutputKind,
}

impl OutputFileName {
    /// Makes the name of the output of this number and kind.
    pub fn new(number: u64, kind: OutputKind) -> OutputFileName
        ensures { result ≡ record { number = number; kind = kind } }
    {
        OutputFileName { number, kind }
    }

    /// Makes the name that is written so; `None` exactly where no name is.
    pub fn parse(text: &str) -> Option<OutputFileName>
        ensures value { result ≡ file_name_of text.now }
        ensures spelled { IfSome result (λ name. file_name_text name ≡ text.now) }
        ensures complete { (name : OutputFileName)
            → name.number < 2 ^ 64
            → file_name_text name ≡ text.now
            → result ≡ Some name }
    {
        parse_bytes(text.as_bytes())
    }

    /// Returns the name as it is written.
    ///
    /// # Errors
    ///
    /// `AllocError` means that there was not enough memory.
    pub fn text(&self, alloc: Global) -> Result<String, AllocError>
        ensures value { IfOk result (λ text. string_bytes text ≡ file_name_text self.now) }
        ensures in_range { self.now.number < 2 ^ 64 }
    {
        let mut text = hex::encode(alloc, self.number.to_be_bytes())?;
        text.push_str(self.kind.suffix())?;
        Ok(text)
    }
}

/// Says how many digits a number has.
const DIGITS: usize = 16;

/// Returns the name that these bytes are.
fn parse_bytes(bytes: &[u8]) -> Option<OutputFileName>
    ensures { result ≡ file_name_of bytes.now }
{
    if bytes.len() < DIGITS {
        return None;
    }
    let (digits, suffix) = bytes.split_at(DIGITS);
    let kind = OutputKind::of_suffix(suffix)?;
    let number = parse_number(digits)?;
    Some(OutputFileName { number, kind })
}

/// Returns the number that these digits are.
fn parse_number(digits: &[u8]) -> Option<u64>
    ensures { result ≡ number_of digits.now }
{
    let mut bytes = [0; 8];
    hex::decode_to_slice(digits, &mut bytes).ok()?;
    // Only what would be written is read, so capital letters are refused.
    let mut written = [0; DIGITS];
    hex::encode_to_slice(bytes, &mut written).ok()?;
    if written.as_slice() == digits {
        Some(u64::from_be_bytes(bytes))
    } else {
        None
    }
}
