//! A text by its lines, without copying.
ghost use Rattle.std.specs.Option.{option_map};
ghost use Rattle.std.specs.Prelude.{◌≡◌, ◌==◌, ◌+◌, ◌≤◌, ◌<◌, ◌^◌, ◌∷◌, length, position};
ghost use Rattle.rec_codec.specs.Lines.{lines, numbered, text_of};

use memchr::memchr;
use std::marker::Model;
use std::str;

/// Holds a line of a text, without its newline.
#[derive(Clone, Copy)]
pub struct Line<'a> {
    /// The number of the line in its text, whose first line is usually 1.
    pub number: u64,
    /// The bytes of the line.
    pub bytes: &'a [u8],
}

impl<'a> Line<'a> {
    /// Returns the line as a text, without the Unicode white space at its ends. `None` comes
    /// exactly where the line isn't UTF-8.
    pub fn text(&self) -> Option<&'a str>
        ensures { option_map (λ text. text.now) result ≡ text_of self.now.bytes.now }
    {
        match str::from_utf8(self.bytes) {
            Ok(text) => Some(text.trim()),
            Err(_) => None,
        }
    }
}

/// Goes over the lines of a text. A line ends at LF, and what stands after the last LF is a line
/// where it isn't empty.
#[derive(Drop)]
pub struct Lines<'a> {
    rest: &'a [u8],
    // the number of the first line in the rest
    number: u64,
}

impl<'a> Model for Lines<'a> {
    ghost use Rattle.std.specs.Prelude.{◌+◌, ◌≤◌, ◌^◌, List, length};
    ghost use Rattle.rec_codec.specs.Lines.{NumberedLine, lines, numbered};

    ghost Value = { List NumberedLine };

    ghost view = { λ l. numbered l.number (lines l.rest.now) };

    ghost invariant = { λ l. l.number + length l.rest.now ≤ 2 ^ 64 };
}

impl<'a> Lines<'a> {
    /// Makes an iterator over the lines of `text`, the first of which has the number `first_line`.
    /// The number of each line has to be a u64.
    pub fn new(text: &'a [u8], first_line: u64) -> Lines<'a>
        requires room { first_line + length text.now ≤ 2 ^ 64 }
        ensures { result ≡ numbered first_line (lines text.now) }
    {
        Lines {
            rest: text,
            number: first_line,
        }
    }
}

/// Returns how many bytes the first line has, if it ends at LF.
pub fn line_end(bytes: &[u8]) -> Option<usize>
    ensures { result ≡ position (λ b. b == 10) bytes.now }
{
    memchr(b'\n', bytes)
}

/// Splits what isn't empty into its first line and what stands after it.
fn split_line(bytes: &[u8]) -> (&[u8], &[u8])
    requires { 0 < length bytes.now }
    ensures lines { lines bytes.now ≡ result.0.now ∷ lines result.1.now }
    ensures shorter { length result.1.now < length bytes.now }
{
    match line_end(bytes) {
        Some(end) => (&bytes[..end], &bytes[end + 1..]),
        None => (bytes, &bytes[bytes.len()..]),
    }
}

impl<'a> Iterator for Lines<'a> {
    ghost use Rattle.std.specs.Iterator.{YieldsFirstBy, item_count};
    ghost use Rattle.rec_codec.specs.LineView.{line_view};

    type Item = Line<'a>;

    ghost next_gives = { YieldsFirstBy line_view (λ lines. lines) };

    ghost remaining = { item_count (λ lines. lines) };

    fn next(&mut self) -> Option<Line<'a>> {
        if self.rest.is_empty() {
            return None;
        }
        let (bytes, rest) = split_line(self.rest);
        let number = self.number;
        self.rest = rest;
        // after a line with the greatest number nothing stands
        self.number = number.saturating_add(1);
        Some(Line { number, bytes })
    }
}
