//! A fault's line, written piece by piece, so that no memory is needed for it.
ghost use Rattle.std.specs.Prelude.{◌≡◌, ◌++◌, ℕ, List, false, decimal};
ghost use Rattle.rec_format.specs.Incompatibility.{release_text};
ghost use Rattle.rec_format.specs.Versions.{version_text};
ghost use Rattle.rec_faults.specs.WritingFaults.{Writes};

use itoa::Buffer;
use rec_container::{Sink, write_all};
use rec_format::Release;

/// Writes the pieces of a line, up to the first fault of the sink. Nothing is written after it.
///
/// A label is what stands before a value: a space, and the name of the field with `=` where it has
/// one.
#[derive(Clone, Copy)]
pub struct Line {
    is_failed: bool,
}

impl Line {
    /// Begins a line.
    pub fn new() -> Line
        ensures { result.is_failed ≡ false }
    {
        Line { is_failed: false }
    }

    /// Writes a name, or what else stands in the line as it is.
    pub fn name<G: Sink>(self, name: &str, diag: &mut G) -> Line
        ensures { Writes G.taken G.faults (λ rest. name.now ++ rest) self.is_failed diag.old
            result.is_failed diag.new }
    {
        if self.is_failed {
            return self;
        }
        Line {
            is_failed: write_all(diag, name.as_bytes()).is_err(),
        }
    }

    /// Writes a field with a text.
    pub fn text<G: Sink>(self, label: &str, text: &str, diag: &mut G) -> Line
        ensures { Writes G.taken G.faults (λ rest. label.now ++ (text.now ++ rest)) self.is_failed
            diag.old result.is_failed diag.new }
    {
        self.name(label, diag).name(text, diag)
    }

    /// Writes a field with a number, in decimal.
    pub fn number<G: Sink>(self, label: &str, number: u64, diag: &mut G) -> Line
        ensures { Writes G.taken G.faults (λ rest. label.now ++ (decimal number ++ rest))
            self.is_failed diag.old result.is_failed diag.new }
    {
        let mut digits = Buffer::new();
        self.name(label, diag).name(digits.format(number), diag)
    }

    /// Writes a field with a version: two numbers with a dot between them.
    pub fn version<G: Sink>(self, label: &str, major: u64, minor: u64, diag: &mut G) -> Line
        ensures { Writes G.taken G.faults (λ rest. label.now ++ (version_text major minor ++ rest))
            self.is_failed diag.old result.is_failed diag.new }
    {
        self.number(label, major, diag).number(".", minor, diag)
    }

    /// Writes a field with a release: three numbers with dots between them.
    pub fn release<G: Sink>(self, label: &str, release: Release, diag: &mut G) -> Line
        ensures { Writes G.taken G.faults (λ rest. label.now ++ (release_text release ++ rest))
            self.is_failed diag.old result.is_failed diag.new }
    {
        self.number(label, release.major, diag)
            .number(".", release.minor, diag)
            .number(".", release.patch, diag)
    }
}
