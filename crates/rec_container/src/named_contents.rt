//! A container of contents at hand: its length, and its bytes into a sink.
//!
//! Neither takes memory, and no content is copied: a container whose few names are known needs no
//! map that finds a name again.
ghost use Rattle.std.specs.Io.KnownBytes.{Appends};
ghost use Rattle.std.specs.List.{AllByRecursion};
ghost use Rattle.std.specs.Option.{SomeIff};
ghost use Rattle.std.specs.Prelude.{◌≡◌, ◌<◌, ◌^◌, List, ℕ, length, OnOk, OnErr};
ghost use Rattle.rec_container.specs.Causes.{HasCause};
ghost use Rattle.rec_container.specs.Container.{entry, entry_head, magic};
ghost use Rattle.rec_container.specs.NamedContents.{begun, container_of, entry_of};
ghost use Rattle.rec_container.specs.NamedContents.{nested, tagged_name};
ghost use Rattle.rec_container.specs.Taking.{TookPart};

use crate::streams::{Sink, SinkFailed, write_all};
use crate::writer::{ContainerWriter, grown, write_two};

/// Holds a name and its content.
#[derive(Clone, Copy)]
pub struct NamedContent<'a> {
    /// The name, of 1 to 65535 bytes.
    pub name: &'a str,
    /// The content.
    pub content: &'a [u8],
}

/// Returns the length in bytes of the container that has these contents in their order, or none
/// where that is no u64.
pub fn container_length(contents: &[NamedContent<'_>]) -> Option<u64>
    ensures { SomeIff result (length (container_of contents.now) < 2 ^ 64)
        (length (container_of contents.now)) }
{
    // The magic and the end mark.
    let mut length = 9u64;
    for content in contents {
        length = grown(length, content.name.len(), content.content.len())?;
    }
    Some(length)
}

/// Writes the container that has these contents in their order.
///
/// # Errors
///
/// `SinkFailed` means that the sink failed. It took a proper prefix of the container.
pub fn write_container<K: Sink>(
    sink: &mut K,
    contents: &[NamedContent<'_>],
) -> Result<(), SinkFailed>
    requires names { AllByRecursion (λ c. length c.name.now < 65536) contents.now }
    ensures ok { OnOk result
        (Appends (K.taken sink.old) (K.taken sink.new) (container_of contents.now)) }
    ensures fault { OnErr result
        (TookPart (K.taken sink.old) (K.taken sink.new) (container_of contents.now)) }
    ensures cause { HasCause (K.faults sink.old) (K.faults sink.new) result }
{
    write_contents(sink, contents)?;
    write_all(sink, &[0])
}

/// Returns the length in bytes of the container that [`write_nested`] writes, or none where that is
/// no u64.
pub fn nested_length<K: Sink>(
    contents: &[NamedContent<'_>],
    name: &str,
    inner: &ContainerWriter<K>,
) -> Option<u64>
    ensures { SomeIff result (length (nested contents.now name.now inner.now.entries) < 2 ^ 64)
        (length (nested contents.now name.now inner.now.entries)) }
{
    let length = container_length(contents)?;
    grown(length, name.len(), inner.sizes().compressed as usize)
}

/// Writes the container that has these contents in their order, and after them, under the name, the
/// container of a writer's entries. It takes no memory.
///
/// # Errors
///
/// `SinkFailed` means that the sink failed. It took a proper prefix of the container.
pub fn write_nested<T: Sink, K: Sink>(
    sink: &mut T,
    contents: &[NamedContent<'_>],
    name: &str,
    inner: &ContainerWriter<K>,
) -> Result<(), SinkFailed>
    requires names { AllByRecursion (λ c. length c.name.now < 65536) contents.now }
    requires name { length name.now < 65536 }
    ensures ok { OnOk result
        (Appends (T.taken sink.old) (T.taken sink.new)
        (nested contents.now name.now inner.now.entries)) }
    ensures fault { OnErr result
        (TookPart (T.taken sink.old) (T.taken sink.new)
        (nested contents.now name.now inner.now.entries)) }
    ensures cause { HasCause (T.faults sink.old) (T.faults sink.new) result }
{
    write_contents(sink, contents)?;
    write_head(sink, name, inner.sizes().compressed)?;
    inner.write_to(sink)?;
    write_all(sink, &[0])
}

/// Writes the magic, and the entries of contents in their order.
fn write_contents<K: Sink>(sink: &mut K, contents: &[NamedContent<'_>]) -> Result<(), SinkFailed>
    requires names { AllByRecursion (λ c. length c.name.now < 65536) contents.now }
    ensures ok { OnOk result (Appends (K.taken sink.old) (K.taken sink.new) (begun contents.now)) }
    ensures fault { OnErr result
        (TookPart (K.taken sink.old) (K.taken sink.new) (begun contents.now)) }
    ensures cause { HasCause (K.faults sink.old) (K.faults sink.new) result }
{
    write_magic(sink)?;
    for content in contents {
        write_content(sink, content)?;
    }
    Ok(())
}

/// Writes what a container begins with.
#[tactic(auto, unfolding(crate::specs::Container::magic))]
pub(crate) fn write_magic<K: Sink>(sink: &mut K) -> Result<(), SinkFailed>
    ensures ok { OnOk result (Appends (K.taken sink.old) (K.taken sink.new) magic) }
    ensures fault { OnErr result (TookPart (K.taken sink.old) (K.taken sink.new) magic) }
    ensures cause { HasCause (K.faults sink.old) (K.faults sink.new) result }
{
    write_all(sink, b"nxtcont1")
}

/// Writes one entry.
pub(crate) fn write_content<K: Sink>(
    sink: &mut K,
    content: &NamedContent<'_>,
) -> Result<(), SinkFailed>
    requires { length content.now.name.now < 65536 }
    ensures ok { OnOk result
        (Appends (K.taken sink.old) (K.taken sink.new) (entry (entry_of content.now))) }
    ensures fault { OnErr result
        (TookPart (K.taken sink.old) (K.taken sink.new) (entry (entry_of content.now))) }
    ensures cause { HasCause (K.faults sink.old) (K.faults sink.new) result }
{
    write_head(sink, content.name, content.content.len() as u64)?;
    write_all(sink, content.content)
}

/// Writes what stands before a content of this length in bytes.
fn write_head<K: Sink>(sink: &mut K, name: &str, content: u64) -> Result<(), SinkFailed>
    requires { length name.now < 65536 }
    ensures ok { OnOk result
        (Appends (K.taken sink.old) (K.taken sink.new) (entry_head name.now content)) }
    ensures fault { OnErr result
        (TookPart (K.taken sink.old) (K.taken sink.new) (entry_head name.now content)) }
    ensures cause { HasCause (K.faults sink.old) (K.faults sink.new) result }
{
    write_name(sink, name)?;
    write_all(sink, &content.to_be_bytes())
}

/// Writes the tag of an entry, and its name after the name's length.
fn write_name<K: Sink>(sink: &mut K, name: &str) -> Result<(), SinkFailed>
    requires { length name.now < 65536 }
    ensures ok { OnOk result
        (Appends (K.taken sink.old) (K.taken sink.new) (tagged_name name.now)) }
    ensures fault { OnErr result
        (TookPart (K.taken sink.old) (K.taken sink.new) (tagged_name name.now)) }
    ensures cause { HasCause (K.faults sink.old) (K.faults sink.new) result }
{
    let [high, low] = (name.len() as u16).to_be_bytes();
    write_two(sink, &[1, high, low], name.as_bytes())
}
