//! The writer of containers.
ghost use Rattle.std.specs.declared.option.Option.{Option};
ghost use Rattle.std.specs.Io.KnownBytes.{Appends};
ghost use Rattle.std.specs.Option.{SomeIff};
ghost use Rattle.std.specs.Prelude.{List, ℕ, ◌≡◌, ◌↔◌, IsTrue, map, slice_get, ◌<◌, [], ◌∷◌};
ghost use Rattle.std.specs.Prelude.{◌++◌, if◌then◌else◌, false, true, IfSome, IfOk, IfErr, OnOk};
ghost use Rattle.std.specs.Prelude.{OnErr, None, Some, length, ◌+◌, ◌^◌, ◌≤◌, string_bytes};
ghost use Rattle.indexmap.specs.IndexMap.{spare};
ghost use Rattle.rec_container.specs.Causes.{HasCause, Rose};
ghost use Rattle.rec_container.specs.Container.{Entry, entry_head, addition, ending};
ghost use Rattle.rec_container.specs.Container.{magic, content_of, prefix, spell, AreFrom};
ghost use Rattle.rec_container.specs.Taking.{TookPart};
ghost use Rattle.rec_container.specs.Writing.{entry_named, entry_of, refusal};
ghost use Rattle.rec_container.specs.Writing.{Accepts, Adds, Refuses, RefusesLate};
ghost use Rattle.rec_container.specs.Writing.{HasSizesOf, Unfinished, entries_of};

use crate::errors::{ContainerSizes, ContainerWriteError};
use crate::named_contents::{NamedContent, write_content, write_magic};
use crate::streams::{Sink, SinkFailed, write_all};
use indexmap::IndexMap;
use std::alloc::{AllocError, Global};
use std::marker::Model;

/// Writes a container to a sink, entry by entry, by the grammar of `docs/FORMATS.md#container`.
///
/// It keeps a copy of the entries, to know a name that is added again.
#[derive(Drop)]
pub struct ContainerWriter<K: Sink> {
    alloc: Global,
    sink: K,
    entries: IndexMap<String, Vec<u8>>,
    compressed: u64,
    uncompressed: u64,
    failed: bool,
}

/// Holds a new entry, and what goes before its content.
#[derive(Drop)]
struct NewEntry {
    name: String,
    content: Vec<u8>,
    head: Vec<u8>,
}

/// Says how the writing ended, and holds the sink.
#[derive(Drop)]
pub struct ContainerEnd<K> {
    /// The sizes of the whole container, or why the end mark is missing.
    pub result: Result<ContainerSizes, ContainerWriteError>,
    /// The sink that the writer was made with.
    pub sink: K,
}

impl<K: Sink> Model for ContainerWriter<K> {
    ghost use Rattle.rec_container.specs.Writing.{Writing, entries_of, IsSound};

    ghost Value = { Writing K };

    ghost view = { λ w.
        record { entries = entries_of w.entries.entries; sink = w.sink; failed = w.failed } };

    ghost invariant = { λ w. IsSound (entries_of w.entries.entries) w.compressed w.uncompressed };
}

/// Returns what goes before an entry's content. The magic goes before the first entry.
#[tactic(auto, unfolding(crate::specs::Container::magic, crate::specs::Container::entry_head))]
fn head(alloc: Global, is_first: bool, name: &str, content: usize) -> Result<Vec<u8>, AllocError>
    requires { length name.now < 65536 }
    ensures { IfOk result
        (λ v. v.items ≡ (if is_first then magic else []) ++ entry_head name.now content) }
{
    let start = if is_first {
        b"nxtcont1".as_slice()
    } else {
        &[]
    };
    let [high, low] = (name.len() as u16).to_be_bytes();
    let mut head = Vec::from_slice(alloc, start)?;
    head.extend_from_slice(&[1, high, low])?;
    head.extend_from_slice(name.as_bytes())?;
    head.extend_from_slice(&(content as u64).to_be_bytes())?;
    Ok(head)
}

/// Writes one piece after the other.
pub(crate) fn write_two<K: Sink>(
    sink: &mut K,
    first: &[u8],
    second: &[u8],
) -> Result<(), SinkFailed>
    ensures ok { OnOk result
        (Appends (K.taken sink.old) (K.taken sink.new) (first.now ++ second.now)) }
    ensures fault { OnErr result
        (TookPart (K.taken sink.old) (K.taken sink.new) (first.now ++ second.now)) }
    ensures cause { HasCause (K.faults sink.old) (K.faults sink.new) result }
{
    write_all(sink, first)?;
    write_all(sink, second)
}

impl<K: Sink> ContainerWriter<K> {
    /// Makes a writer without entries. Nothing is written yet.
    pub fn new(alloc: Global, sink: K) -> ContainerWriter<K>
        ensures entries { result.entries ≡ [] }
        ensures sink { result.sink ≡ sink }
        ensures failed { result.failed ≡ false }
    {
        ContainerWriter {
            alloc,
            sink,
            entries: IndexMap::new(alloc),
            compressed: 9,
            uncompressed: 0,
            failed: false,
        }
    }

    /// Returns whether the sink has failed.
    pub fn is_failed(&self) -> bool
        ensures { result ≡ self.now.failed }
    {
        self.failed
    }

    /// Returns how many entries there are.
    pub fn len(&self) -> usize
        ensures { result ≡ length self.now.entries }
    {
        self.entries.len()
    }

    /// Returns whether there is no entry.
    pub fn is_empty(&self) -> bool
        ensures { IsTrue result ↔ (self.now.entries ≡ []) }
    {
        self.entries.len() == 0
    }

    /// Returns the name of an entry.
    pub fn name(&self, i: usize) -> &str
        requires { i < length self.now.entries }
        ensures { slice_get (map (λ e. e.name) self.now.entries) i ≡ Some result.now }
    {
        self.entry(i).name
    }

    /// Returns the content of an entry.
    pub fn bytes(&self, i: usize) -> &[u8]
        requires { i < length self.now.entries }
        ensures { slice_get (map (λ e. e.content) self.now.entries) i ≡ Some result.now }
    {
        self.entry(i).content
    }

    /// Returns the sizes of the container that the entries make.
    pub fn sizes(&self) -> ContainerSizes
        ensures sizes { HasSizesOf self.now.entries result }

        // Names are distinct, and each entry has a spelling.
        ensures entries { AreFrom [] self.now.entries }
    {
        ContainerSizes {
            compressed: self.compressed,
            uncompressed: self.uncompressed,
            entries: self.entries.len() as u64,
        }
    }

    /// Writes the container of the entries to another sink. It takes no memory.
    ///
    /// # Errors
    ///
    /// `SinkFailed` means that this sink failed. It took a proper prefix of the container.
    pub fn write_to<T: Sink>(&self, sink: &mut T) -> Result<(), SinkFailed>
        ensures ok { OnOk result
            (Appends (T.taken sink.old) (T.taken sink.new) (spell self.now.entries)) }
        ensures fault { OnErr result
            (TookPart (T.taken sink.old) (T.taken sink.new) (spell self.now.entries)) }
        ensures cause { HasCause (T.faults sink.old) (T.faults sink.new) result }
    {
        write_magic(sink)?;
        for i in 0..self.len() {
            write_content(sink, &self.entry(i))?;
        }
        write_all(sink, &[0])
    }

    /// Returns an entry.
    fn entry(&self, i: usize) -> NamedContent<'_>
        requires { i < length self.now.entries }
        ensures found { slice_get self.now.entries i
            ≡ Some (entry_named result.name.now result.content.now) }
        ensures short { length result.name.now < 65536 }
    {
        let (name, content) = self.entries.get_index(i).unwrap();
        NamedContent {
            name: name.as_str(),
            content: content.as_slice(),
        }
    }

    /// Adds an entry. A name that is there with equal bytes changes nothing.
    ///
    /// The magic goes before the first entry.
    ///
    /// # Errors
    ///
    /// These come exactly where they are the cause, the first of them where there are more:
    ///
    /// - `Failed`: the sink failed at an earlier call.
    /// - `BadName`: the name has no byte, or more than 65535.
    /// - `NameCollision`: an entry of this name with other bytes is there.
    /// - `CountOutOfRange`: with the entry the container would have 2^64 bytes or more.
    ///
    /// An entry that none of them refuses may give two others:
    ///
    /// - `SinkFault`: the sink failed, and took a proper prefix of what was to be written. The
    ///   entry isn't there, and the writer is failed from now on.
    /// - `OutOfMemory`: memory ran out, and nothing was written.
    ///
    /// All errors but `SinkFault` leave the writer and the sink as they were.
    pub fn add(&mut self, name: &str, bytes: &[u8]) -> Result<(), ContainerWriteError>
        ensures accepted { OnOk result
            (refusal self.old.failed self.old.entries name.now bytes.now ≡ None) }
        ensures added { OnOk result (Adds K.taken K.faults self.old self.new name.now bytes.now) }
        ensures refused { IfErr result
            (Refuses K.taken K.faults self.old self.new name.now bytes.now) }
        ensures later { K.faults self.old.sink ≤ K.faults self.new.sink }

        // Names are distinct, and each entry has a spelling.
        ensures entries { AreFrom [] self.new.entries }

        // What the sink took since any time before goes on as the prefix of the entries.
        ensures prefix { (start : Option (List ℕ))
            → Appends start (K.taken self.old.sink) (prefix self.old.entries)
            → OnOk result (Appends start (K.taken self.new.sink) (prefix self.new.entries)) }
    {
        let judged = judge(self.failed, &self.entries, self.compressed, name, bytes);
        match judged {
            Err(e) => Err(e),
            Ok(None) => Ok(()),
            Ok(Some(compressed)) => self.put(name, bytes, compressed),
        }
    }

    /// Adds an entry that was judged.
    fn put(&mut self, name: &str, bytes: &[u8], compressed: u64) -> Result<(), ContainerWriteError>
        requires sound { self.old.failed ≡ false }
        requires some { 0 < length name.now }
        requires length { length name.now < 65536 }
        requires absent { content_of self.old.entries name.now ≡ None }
        requires size { compressed
            ≡ length (spell (self.old.entries ++ entry_named name.now bytes.now ∷ [])) }
        ensures entries { OnOk result
            (self.new.entries ≡ self.old.entries ++ entry_named name.now bytes.now ∷ []) }
        ensures sound { OnOk result (self.new.failed ≡ false) }
        ensures taken { OnOk result
            (Appends (K.taken self.old.sink) (K.taken self.new.sink)
            (addition self.old.entries (entry_named name.now bytes.now))) }
        ensures late { IfErr result
            (RefusesLate K.taken K.faults self.old self.new name.now bytes.now) }
        ensures later { K.faults self.old.sink ≤ K.faults self.new.sink }
        ensures spelled { AreFrom [] self.new.entries }
    {
        let Ok(entry) = prepare(self.alloc, &mut self.entries, name, bytes) else {
            return Err(ContainerWriteError::OutOfMemory);
        };
        let Ok(()) = append(&mut self.sink, &mut self.entries, entry) else {
            self.failed = true;
            return Err(ContainerWriteError::SinkFault);
        };
        self.uncompressed += bytes.len() as u64;
        self.compressed = compressed;
        Ok(())
    }

    /// Writes the end mark, after the magic where there is no entry, and hands the sink back.
    ///
    /// # Errors
    ///
    /// The result that comes with the sink is `Failed` exactly where the sink failed at an earlier
    /// call; it is then as it was. It is `SinkFault` where the sink fails now, with a proper prefix
    /// taken of what was to be written. No other error comes.
    pub fn finish(self) -> ContainerEnd<K>
        ensures ok { IfOk result.result
            (λ sizes. (self.failed ≡ false) × HasSizesOf self.entries sizes
            × Appends (K.taken self.sink) (K.taken result.sink) (ending self.entries)) }
        ensures refused { IfErr result.result (Unfinished K.taken K.faults self result.sink) }
        ensures later { K.faults self.sink ≤ K.faults result.sink }
        ensures entries { AreFrom [] self.entries }

        // What the sink took since any time before, if it is the prefix of the entries,
        // is now their spelling.
        ensures whole { (start : Option (List ℕ))
            → Appends start (K.taken self.sink) (prefix self.entries)
            → OnOk result.result (Appends start (K.taken result.sink) (spell self.entries)) }
    {
        let failed = self.is_failed();
        let sizes = self.sizes();
        let mut sink = self.into_sink();
        let result = write_end(&mut sink, failed, sizes);
        ContainerEnd { result, sink }
    }

    /// Hands the sink back without an end mark.
    pub fn into_sink(self) -> K
        ensures sink { result ≡ self.sink }
        ensures entries { AreFrom [] self.entries }
    {
        self.sink
    }
}

/// Makes room for one more entry, and what [`append`] takes of it.
fn prepare(
    alloc: Global,
    entries: &mut IndexMap<String, Vec<u8>>,
    name: &str,
    bytes: &[u8],
) -> Result<NewEntry, AllocError>
    requires { length name.now < 65536 }
    ensures kept { entries.new.entries ≡ entries.old.entries }
    ensures room { OnOk result (0 < spare entries.new) }
    ensures entry { IfOk result
        (λ e. entry_of (e.name, e.content) ≡ entry_named name.now bytes.now) }
    ensures bytes { IfOk result (λ e. e.head.items ++ e.content.items
        ≡ addition (entries_of entries.old.entries) (entry_named name.now bytes.now)) }
{
    entries.reserve(1)?;
    new_entry(alloc, entries.is_empty(), name, bytes)
}

/// Copies a name and a content, and makes what goes before the content.
fn new_entry(
    alloc: Global,
    is_first: bool,
    name: &str,
    bytes: &[u8],
) -> Result<NewEntry, AllocError>
    requires { length name.now < 65536 }
    ensures entry { IfOk result
        (λ e. entry_of (e.name, e.content) ≡ entry_named name.now bytes.now) }
    ensures head { IfOk result
        (λ e. e.head.items
        ≡ (if is_first then magic else []) ++ entry_head name.now (length bytes.now)) }
{
    let head = head(alloc, is_first, name, bytes.len())?;
    let name = String::from_str(alloc, name)?;
    let content = Vec::from_slice(alloc, bytes)?;
    Ok(NewEntry {
        name,
        content,
        head,
    })
}

/// Writes an entry, and keeps it after the others. Where the sink fails these stay as they are.
fn append<K: Sink>(
    sink: &mut K,
    entries: &mut IndexMap<String, Vec<u8>>,
    entry: NewEntry,
) -> Result<(), SinkFailed>
    requires room { 0 < spare entries.old }
    requires absent { content_of (entries_of entries.old.entries) (string_bytes entry.name) ≡ None }
    ensures ok { OnOk result
        (Appends (K.taken sink.old) (K.taken sink.new) (entry.head.items ++ entry.content.items)) }
    ensures fault { OnErr result
        (TookPart (K.taken sink.old) (K.taken sink.new) (entry.head.items ++ entry.content.items)) }
    ensures cause { HasCause (K.faults sink.old) (K.faults sink.new) result }
    ensures entries { OnOk result (entries_of entries.new.entries
        ≡ entries_of entries.old.entries ++ entry_of (entry.name, entry.content) ∷ []) }
    ensures kept { OnErr result (entries.new.entries ≡ entries.old.entries) }
{
    match write_two(sink, &entry.head, &entry.content) {
        Ok(()) => {
            keep(entries, entry);
            Ok(())
        }
        Err(fault) => {
            drop(entry);
            Err(fault)
        }
    }
}

/// Keeps an entry after the others.
fn keep(entries: &mut IndexMap<String, Vec<u8>>, entry: NewEntry)
    requires room { 0 < spare entries.old }
    requires absent { content_of (entries_of entries.old.entries) (string_bytes entry.name) ≡ None }
    ensures { entries_of entries.new.entries
        ≡ entries_of entries.old.entries ++ entry_of (entry.name, entry.content) ∷ [] }
{
    let NewEntry { name, content, .. } = entry;
    drop(entries.insert(name, content).unwrap());
}

/// Writes the end mark after entries of these sizes, unless the sink has failed.
fn write_end<K: Sink>(
    sink: &mut K,
    failed: bool,
    sizes: ContainerSizes,
) -> Result<ContainerSizes, ContainerWriteError>
    ensures ok { IfOk result (λ s. (failed ≡ false) × (s ≡ sizes)) }
    ensures taken { (es : List Entry) → length es ≡ sizes.entries
        → OnOk result (Appends (K.taken sink.old) (K.taken sink.new) (ending es)) }
    ensures refused { (es : List Entry) → length es ≡ sizes.entries →
        IfErr result
        (Unfinished K.taken K.faults (record { entries = es; sink = sink.old; failed = failed })
        sink.new) }
    ensures later { K.faults sink.old ≤ K.faults sink.new }
{
    if failed {
        return Err(ContainerWriteError::Failed);
    }
    match write_all(sink, end_of(sizes.entries == 0)) {
        Ok(()) => Ok(sizes),
        Err(_) => Err(ContainerWriteError::SinkFault),
    }
}

/// Returns the end mark, after the magic where there is no entry.
#[tactic(auto, unfolding(crate::specs::Container::magic))]
fn end_of(is_empty: bool) -> &'static [u8]
    ensures { result.now ≡ (if is_empty then magic ++ 0 ∷ [] else 0 ∷ []) }
{
    if is_empty { b"nxtcont1\0" } else { &[0] }
}

/// Returns why an entry is refused, or none where it is there, or the container's length with it.
fn judge(
    failed: bool,
    entries: &IndexMap<String, Vec<u8>>,
    compressed: u64,
    name: &str,
    bytes: &[u8],
) -> Result<Option<u64>, ContainerWriteError>
    requires { compressed ≡ length (spell (entries_of entries.now.entries)) }
    ensures refused { IfErr result
        (λ e. refusal failed (entries_of entries.now.entries) name.now bytes.now ≡ Some e) }
    ensures accepted { IfOk result
        (Accepts failed (entries_of entries.now.entries) name.now bytes.now) }
{
    if failed {
        return Err(ContainerWriteError::Failed);
    }
    if name.is_empty() || name.len() > 65535 {
        return Err(ContainerWriteError::BadName);
    }
    match entries.get(name) {
        None => match grown(compressed, name.len(), bytes.len()) {
            None => Err(ContainerWriteError::CountOutOfRange),
            Some(size) => Ok(Some(size)),
        },
        Some(held) => {
            if held.as_slice() == bytes {
                Ok(None)
            } else {
                Err(ContainerWriteError::NameCollision)
            }
        }
    }
}

/// Returns a container's length with one more entry, where it is a u64.
pub(crate) fn grown(compressed: u64, name: usize, content: usize) -> Option<u64>
    ensures { SomeIff result (compressed + (11 + name + content) < 2 ^ 64)
        (compressed + (11 + name + content)) }
{
    compressed
        .checked_add(11)?
        .checked_add(name as u64)?
        .checked_add(content as u64)
}
