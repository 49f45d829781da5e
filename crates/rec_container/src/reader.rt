//! The reader of containers.
ghost use Rattle.std.specs.Option.{option_map};
ghost use Rattle.std.specs.Prelude.{◌≡◌, ◌<◌, ◌≤◌, ◌-◌, ◌*◌, ◌+◌, ◌^◌, [], length, MatchResult};
ghost use Rattle.std.specs.Prelude.{IfOk, IfErr, IsTrue, ◌↔◌, ◌⊎◌, slice_get, map, List, ℕ, Some};
ghost use Rattle.rec_container.specs.Container.{Entry, content_of, place_from};
ghost use Rattle.rec_container.specs.Container.{IsContainer, StandsWithin};
ghost use Rattle.rec_container.specs.declared.errors.ContainerError.TheVariants.{OutOfMemory};
ghost use Rattle.rec_container.specs.Placed.{placed_entries, ArePlaced};
ghost use Rattle.rec_container.specs.Reading.{IsFault};

use crate::errors::ContainerError;
use crate::indexed::{IndexedEntries, PlacedEntry};
use crate::lookup::{find, find_uncounted};
use crate::step_count::Steps;
use crate::steps::read_step;
use std::alloc::{AllocError, Global};
use std::marker::Model;
use std::sync::ledger::Ledger;

/// Lends the entries of a container, in its order. Names and contents are windows of the bytes that
/// were parsed, by the grammar of `docs/FORMATS.md#container`.
#[derive(Drop)]
pub struct Container<'a> {
    bytes: &'a [u8],
    entries: Vec<PlacedEntry<'a>>,
    // the contents again, in the order of their names
    sorted: Vec<(&'a str, &'a [u8])>,
}

impl<'a> Model for Container<'a> {
    ghost use Rattle.rec_container.specs.Container.{ParsedContainer};
    ghost use Rattle.rec_container.specs.Placed.{placed_entries, ArePlaced};
    ghost use Rattle.rec_container.specs.Sorted.{IsSortedOf};

    ghost Value = { ParsedContainer };

    ghost view = { λ c. record { bytes = c.bytes.now; entries = placed_entries c.entries.items } };

    ghost invariant = { λ c. ArePlaced c.bytes.now c.entries.items
        × IsSortedOf c.sorted.items c.entries.items };
}

impl<'a> Container<'a> {
    /// Reads the bytes of a container. Names and contents aren't copied.
    ///
    /// # Errors
    ///
    /// Bytes that are no container are refused with their first fault from the left:
    ///
    /// - `BadMagic`: they don't begin with `nxtcont1`.
    /// - `Truncated`: the tag, length, name or content that begins at `at` isn't there whole.
    /// - `BadTag`: the byte at `at` is neither an entry's tag nor the end mark.
    /// - `BadName`: the length of a name at `at` is 0, or the name at `at` isn't UTF-8.
    /// - `DuplicateName`: the name at `at` is that of an earlier entry.
    /// - `TrailingBytes`: bytes follow the end mark, from `at` on.
    ///
    /// `OutOfMemory` may come at any time instead, and is the only error that the bytes of a
    /// container give.
    ///
    /// # Examples
    ///
    /// A container is written into memory, and read again:
    ///
    /// ```
    /// let mut writer = ContainerWriter::new(alloc, GrowingSink::new(alloc));
    /// writer.add("greeting", b"hello")?;
    /// let end = writer.finish();
    /// let sizes = end.result?;
    /// let container = Container::parse(alloc, end.sink.bytes())?;
    /// let content = container.get("greeting");
    /// ```
    pub fn parse(alloc: Global, bytes: &'a [u8]) -> Result<Container<'a>, ContainerError>
        // The entries are a list that the bytes spell.
        ensures found { IfOk result (λ c. (c.bytes ≡ bytes.now) × IsContainer bytes.now c.entries) }
        // Bytes that spell a list give it, but for want of memory.
        ensures only { (es : List Entry)
            → IsContainer bytes.now es
            → MatchResult result (λ c. c.entries ≡ es) (λ e. e ≡ OutOfMemory) }
        // Each fault has its cause in the bytes.
        ensures fault { IfErr result (λ e. (e ≡ OutOfMemory) ⊎ IsFault bytes.now e) }
    {
        read(alloc, bytes)
    }

    /// Returns how many entries there are.
    pub fn len(&self) -> usize
        ensures { result ≡ length self.now.entries }
    {
        self.entries.len()
    }

    /// Returns whether there is no entry.
    pub fn is_empty(&self) -> bool
        ensures { IsTrue result ↔ (self.now.entries ≡ []) }
    {
        self.entries.len() == 0
    }

    /// Returns the content under a name, as [`Container::get_counted`] finds it.
    pub fn get(&self, name: &str) -> Option<&'a [u8]>
        ensures { option_map (λ c. c.now) result ≡ content_of self.now.entries name.now }
    {
        find_uncounted(&self.sorted, name.as_bytes())
    }

    /// Returns the content under a name, and counts each comparison of two names that this took. It
    /// takes s of them among n entries, with 2^s at most 2n + 1: at most 2 among three entries, and
    /// 5 among sixteen. A comparison says which name comes first, or that they are equal.
    pub fn get_counted<L: Ledger>(&self, name: &str, steps: &mut Steps<L>) -> Option<&'a [u8]>
        ensures found { option_map (λ c. c.now) result ≡ content_of self.now.entries name.now }
        ensures later { steps.old ≤ steps.new }
        ensures cost { 2 ^ (steps.new - steps.old) ≤ 2 * length self.now.entries + 1 }
    {
        find(&self.sorted, name.as_bytes(), steps)
    }

    /// Returns the name of an entry.
    pub fn name(&self, i: usize) -> &'a str
        requires { i < length self.now.entries }
        ensures { slice_get (map (λ e. e.name) self.now.entries) i ≡ Some result.now }
    {
        self.entries[i].name
    }

    /// Returns where the content of an entry begins in the bytes that were parsed.
    pub fn place(&self, i: usize) -> usize
        requires { i < length self.now.entries }
        ensures place { result ≡ place_from 8 self.now.entries i }

        // There the parsed bytes have the content, and it ends within them.
        ensures stands { (content : List ℕ)
            → slice_get (map (λ e. e.content) self.now.entries) i ≡ Some content
            → StandsWithin self.now.bytes result content }
    {
        self.entries[i].place
    }

    /// Returns the content of an entry.
    pub fn bytes(&self, i: usize) -> &'a [u8]
        requires { i < length self.now.entries }
        ensures { slice_get (map (λ e. e.content) self.now.entries) i ≡ Some result.now }
    {
        self.entries[i].content
    }
}

/// Reads the magic, and then entries up to the end mark. It is a call of its own so that the clause
/// `only` of [`Container::parse`] can rest on these two: bytes that spell a list have no fault.
fn read<'a>(alloc: Global, bytes: &'a [u8]) -> Result<Container<'a>, ContainerError>
    ensures found { IfOk result (λ c. (c.bytes ≡ bytes.now) × IsContainer bytes.now c.entries) }
    ensures fault { IfErr result (λ e. (e ≡ OutOfMemory) ⊎ IsFault bytes.now e) }
{
    let Some(mut rest) = bytes.strip_prefix(b"nxtcont1".as_slice()) else {
        return Err(ContainerError::BadMagic);
    };
    let mut at = 8;
    let mut entries = IndexedEntries::new(alloc);
    while let Some((held, after)) = read_step(rest, at, &entries)? {
        at = held.place + held.content.len();
        entries.push(held)?;
        rest = after;
    }
    Ok(container_of(alloc, bytes, entries)?)
}

/// Makes a container of the entries that were read. Their index goes, and a sorted list stays.
pub(crate) fn container_of<'a>(
    alloc: Global,
    bytes: &'a [u8],
    entries: IndexedEntries<'a>,
) -> Result<Container<'a>, AllocError>
    requires { ArePlaced bytes.now entries }
    ensures { IfOk result
        (λ c. c ≡ record { bytes = bytes.now; entries = placed_entries entries.entry }) }
{
    let (entries, sorted) = entries.into_sorted(alloc)?;
    Ok(Container {
        bytes,
        entries,
        sorted,
    })
}
