//! What stands at a place of a container's bytes: an entry, the end, or a fault.
ghost use Rattle.std.specs.Int.{w16, w64};
ghost use Rattle.std.specs.Option.{option_map};
ghost use Rattle.std.specs.Prelude.{◌≡◌, ◌<◌, ◌+◌, ◌^◌, length, true};
ghost use Rattle.std.specs.Prelude.{false, MatchOption, IfOk, IfSome};
ghost use Rattle.std.specs.Str.{is_utf8};
ghost use Rattle.rec_container.specs.Placed.{placed_entry, placed_entries};
ghost use Rattle.rec_container.specs.Reading.{Gives, number_at, name_at};
ghost use Rattle.rec_container.specs.Reading.{content_at, entry_at, step_at};

use crate::errors::ContainerError;
use crate::indexed::{IndexedEntries, PlacedEntry};

/// Returns a number of two bytes, and what follows.
fn read_u16(bytes: &[u8], at: usize) -> Result<(u16, &[u8]), ContainerError>
    ensures number { Gives (λ x. (x.0, x.1.now)) result (number_at w16 at bytes.now) }
    ensures length { IfOk result (λ x. length x.1.now + 2 ≡ length bytes.now) }
{
    if bytes.len() < 2 {
        return Err(ContainerError::Truncated { at });
    }
    let (prefix, rest) = bytes.split_at(2);
    let number = u16::from_be_bytes([prefix[0], prefix[1]]);
    Ok((number, rest))
}

/// Returns a number of eight bytes, and what follows.
fn read_u64(bytes: &[u8], at: usize) -> Result<(u64, &[u8]), ContainerError>
    ensures number { Gives (λ x. (x.0, x.1.now)) result (number_at w64 at bytes.now) }
    ensures length { IfOk result (λ x. length x.1.now + 8 ≡ length bytes.now) }
{
    if bytes.len() < 8 {
        return Err(ContainerError::Truncated { at });
    }
    let (prefix, rest) = bytes.split_at(8);
    let number = u64::from_be_bytes([
        prefix[0], prefix[1], prefix[2], prefix[3], prefix[4], prefix[5], prefix[6], prefix[7],
    ]);
    Ok((number, rest))
}

/// Returns the bytes as text, where they are UTF-8.
fn text_of(bytes: &[u8]) -> Option<&str>
    ensures { MatchOption result (is_utf8 bytes.now ≡ false)
        (λ text. (is_utf8 bytes.now ≡ true) × (text.now ≡ bytes.now)) }
{
    match str::from_utf8(bytes) {
        Ok(text) => Some(text),
        Err(_) => None,
    }
}

/// Returns a name after its length, and what follows.
#[tactic(auto, unfolding(crate::specs::Reading::name_at))]
fn read_name(bytes: &[u8], at: usize) -> Result<(&str, &[u8]), ContainerError>
    requires { at + length bytes.now < 2 ^ 64 }
    ensures name { Gives (λ x. (x.0.now, x.1.now)) result (name_at at bytes.now) }
    ensures length { IfOk result (λ x. length x.0.now + length x.1.now + 2 ≡ length bytes.now) }
{
    let (len, rest) = read_u16(bytes, at)?;
    let len = len as usize;
    if len == 0 {
        return Err(ContainerError::BadName { at });
    }
    if rest.len() < len {
        return Err(ContainerError::Truncated { at: at + 2 });
    }
    let (name, rest) = rest.split_at(len);
    match text_of(name) {
        Some(name) => Ok((name, rest)),
        None => Err(ContainerError::BadName { at: at + 2 }),
    }
}

/// Returns a content after its length, and what follows.
#[tactic(auto, unfolding(crate::specs::Reading::content_at))]
fn read_content(bytes: &[u8], at: usize) -> Result<(&[u8], &[u8]), ContainerError>
    requires { at + length bytes.now < 2 ^ 64 }
    ensures content { Gives (λ x. (x.0.now, x.1.now)) result (content_at at bytes.now) }
    ensures length { IfOk result (λ x. length x.0.now + length x.1.now + 8 ≡ length bytes.now) }
{
    let (len, rest) = read_u64(bytes, at)?;
    let len = len as usize;
    if rest.len() < len {
        return Err(ContainerError::Truncated { at: at + 8 });
    }
    Ok(rest.split_at(len))
}

/// Returns an entry after its tag, and what follows, after the entries seen.
#[tactic(auto, unfolding(crate::specs::Reading::entry_at))]
fn read_entry<'a>(
    bytes: &'a [u8],
    at: usize,
    seen: &IndexedEntries<'a>,
) -> Result<(PlacedEntry<'a>, &'a [u8]), ContainerError>
    requires { at + length bytes.now < 2 ^ 64 }
    ensures entry { Gives (λ x. (placed_entry x.0, x.1.now)) result
        (entry_at at (placed_entries seen.now) bytes.now) }
    ensures place { IfOk result
        (λ x. (x.0.place ≡ at + 10 + length x.0.name.now)
        × (x.0.place + length x.0.content.now + length x.1.now ≡ at + length bytes.now)) }
{
    let (name, rest) = read_name(bytes, at)?;
    if seen.contains(name) {
        return Err(ContainerError::DuplicateName { at: at + 2 });
    }
    let start = at + 2 + name.len();
    let (content, rest) = read_content(rest, start)?;
    let held = PlacedEntry {
        name,
        content,
        place: start + 8,
    };
    Ok((held, rest))
}

/// Returns an entry and what follows, or none at the end mark, after the entries seen.
#[tactic(auto, unfolding(crate::specs::Reading::step_at))]
pub(crate) fn read_step<'a>(
    bytes: &'a [u8],
    at: usize,
    seen: &IndexedEntries<'a>,
) -> Result<Option<(PlacedEntry<'a>, &'a [u8])>, ContainerError>
    requires { at + length bytes.now < 2 ^ 64 }
    ensures step { Gives (option_map (λ x. (placed_entry x.0, x.1.now))) result
        (step_at at (placed_entries seen.now) bytes.now) }
    ensures place { IfOk result
        (λ o. IfSome o
        (λ x. (x.0.place ≡ at + 11 + length x.0.name.now)
        × (x.0.place + length x.0.content.now + length x.1.now ≡ at + length bytes.now))) }
{
    match bytes {
        [] => Err(ContainerError::Truncated { at }),
        [0] => Ok(None),
        [0, _, ..] => Err(ContainerError::TrailingBytes { at: at + 1 }),
        [1, rest @ ..] => {
            let (held, rest) = read_entry(rest, at + 1, seen)?;
            Ok(Some((held, rest)))
        }
        [_, ..] => Err(ContainerError::BadTag { at }),
    }
}
