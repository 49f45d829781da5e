//! Words as a shell reads them.
ghost use Rattle.std.specs.List.{flat_map};
ghost use Rattle.std.specs.Prelude.{◌≡◌, ◌++◌, ℕ, List, IfOk, OnOk, string_bytes};
ghost use Rattle.std.specs.Str.{chars};
ghost use Rattle.rec_junit.specs.Shell.{are_plain, is_plain, is_plain_word, quoted};
ghost use Rattle.rec_junit.specs.Shell.{shell_word, shell_words, within_quotes};

use rec_events::Text;
use std::alloc::{AllocError, Global};

/// Shows a word as its text.
trait Word {
    // The bytes of its text.
    ghost text_of: { Self → List ℕ };

    /// Returns the text.
    fn text(&self) -> &str
        ensures { result.now ≡ text_of self.now };
}

impl Word for String {
    ghost text_of = { string_bytes };

    fn text(&self) -> &str {
        self.as_str()
    }
}

impl Word for Text {
    ghost text_of = { λ t. t };

    fn text(&self) -> &str {
        self.as_str()
    }
}

/// Joins words with spaces, so that a shell reads them as these words, by the rules of quoting in
/// POSIX (Shell Command Language, 2.2).
///
/// A word of ASCII letters, digits and `_-./,:@+` stands as it is, unless it is empty. Any other
/// stands between single quotes, and each single quote in it is written as `'\''`.
///
/// # Errors
///
/// `AllocError` means that there was not enough memory.
pub fn shell_join(alloc: Global, words: &[String]) -> Result<String, AllocError>
    ensures { IfOk result (λ line. string_bytes line ≡ shell_words string_bytes words.now) }
{
    join(alloc, words)
}

/// Joins the words of an event.
pub(crate) fn join_texts(alloc: Global, words: &[Text]) -> Result<Text, AllocError>
    ensures { IfOk result (λ line. line ≡ shell_words (λ w. w) words.now) }
{
    join(alloc, words).map(Text::new)
}

/// Joins words with spaces.
fn join<W: Word>(alloc: Global, words: &[W]) -> Result<String, AllocError>
    ensures { IfOk result (λ line. string_bytes line ≡ shell_words W.text_of words.now) }
{
    let mut line = String::new(alloc);
    let Some((first, others)) = words.split_first() else {
        return Ok(line);
    };
    put_word(&mut line, first.text())?;
    for word in others {
        line.push_str(" ")?;
        put_word(&mut line, word.text())?;
    }
    Ok(line)
}

/// Adds a word, between quotes where a shell would read it as more than itself.
fn put_word(line: &mut String, word: &str) -> Result<(), AllocError>
    ensures { OnOk result (string_bytes line.new ≡ string_bytes line.old ++ shell_word word.now) }
{
    if is_plain_word(word) {
        line.push_str(word)
    } else {
        put_quoted(line, word)
    }
}

/// Adds a word between quotes.
fn put_quoted(line: &mut String, word: &str) -> Result<(), AllocError>
    ensures { OnOk result (string_bytes line.new ≡ string_bytes line.old ++ quoted word.now) }
{
    line.push_str("'")?;
    put_characters(line, word)?;
    line.push_str("'")
}

/// Adds the characters of a word that stands between quotes.
fn put_characters(line: &mut String, word: &str) -> Result<(), AllocError>
    ensures { OnOk result
        (string_bytes line.new ≡ string_bytes line.old ++ flat_map within_quotes (chars word.now)) }
{
    for character in word.chars() {
        put_within_quotes(line, character)?;
    }
    Ok(())
}

/// Adds a character of a word that stands between quotes.
fn put_within_quotes(line: &mut String, character: char) -> Result<(), AllocError>
    ensures { OnOk result
        (string_bytes line.new ≡ string_bytes line.old ++ within_quotes character) }
{
    if character == '\'' {
        line.push_str("'\\''")
    } else {
        line.push(character)
    }
}

/// Returns whether a word can stand as it is.
fn is_plain_word(word: &str) -> bool
    ensures { result ≡ is_plain_word word.now }
{
    !word.is_empty() && are_plain(word.as_bytes())
}

/// Returns whether a shell reads each character as itself.
fn are_plain(bytes: &[u8]) -> bool
    ensures { result ≡ are_plain bytes.now }
{
    for byte in bytes {
        if !is_plain(*byte) {
            return false;
        }
    }
    true
}

/// Returns whether a shell reads a character as itself.
fn is_plain(byte: u8) -> bool
    ensures { result ≡ is_plain byte }
{
    byte.is_ascii_alphanumeric() || b"_-./,:@+".as_slice().contains(&byte)
}
