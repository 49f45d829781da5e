//! What writers answer and write, and what is read of sources that fail.

use rec_container::{
    Container, ContainerError, ContainerWriteError, ContainerWriter, NamedContent, Source,
    container_length, read_within, write_all_dyn, write_container,
};
use rec_memory_streams::{EndlessSource, FailingSink, FailingSource, MemorySink};
use std::alloc::{AllocError, Global};
use std::str;
use std::test::Fail;

/// What is called.
#[derive(Clone, Copy)]
enum Asked<'a> {
    /// A writer of entries over a sink that takes pieces of so many bytes, 0 for whole ones, and
    /// fails at the write of this number.
    Writer(usize, u64, &'a [(&'a str, &'a [u8])]),
    /// A container of one entry, whose content is at hand, into a sink that fails at this write.
    AtHand(u64),
    /// Whether a container has no entries.
    IsEmpty(&'a [u8]),
    /// A source of a text that gives pieces of so many bytes, and fails at the read of this number.
    Pieces(usize, u64),
    /// A read without room, which is to fail.
    NoRoom,
    Endless,
    /// What a source has within a limit, and which of its reads fails.
    Within(u64, u64),
    EndlessWithin(u64),
    /// A sink without room for what is written.
    Full,
    /// What this fault of a writer prints.
    Text(ContainerWriteError),
    /// What this fault of bytes prints.
    Fault(ContainerError),
}

/// The entry `a`, as it is given to a writer.
const HI: &[(&str, &[u8])] = &[("a", b"hi")];

const TEXT: &[u8] = b"in pieces";

fn answer(alloc: Global, asked: Asked<'_>) -> Result<String, Fail> {
    match asked {
        Asked::Writer(piece, fails, entries) => Ok(written(alloc, piece, fails, entries)?),
        Asked::AtHand(fails) => Ok(at_hand(alloc, fails)?),
        Asked::IsEmpty(bytes) => is_empty(alloc, bytes),
        Asked::Pieces(piece, fails) => Ok(pieces(alloc, piece, fails)?),
        Asked::NoRoom => Ok(without_room(alloc)?),
        Asked::Endless => Ok(endless(alloc)?),
        Asked::Within(limit, fails) => Ok(within(alloc, limit, fails)?),
        Asked::EndlessWithin(limit) => Ok(endless_within(alloc, limit)?),
        Asked::Full => Ok(full(alloc)?),
        Asked::Text(fault) => Ok(format!(in alloc; "{fault}")?),
        Asked::Fault(fault) => Ok(format!(in alloc; "{fault}")?),
    }
}

/// A sink with room.
fn sink(alloc: Global, piece: usize, fails: u64) -> Result<FailingSink, AllocError> {
    let mut sink = FailingSink::new(alloc, piece, vec![in alloc; fails]?);
    sink.reserve(64)?;
    Ok(sink)
}

/// What each entry and the end are answered, how often the sink failed, and what it took.
fn written(
    alloc: Global,
    piece: usize,
    fails: u64,
    entries: &[(&str, &[u8])],
) -> Result<String, AllocError> {
    let mut writer = ContainerWriter::new(alloc, sink(alloc, piece, fails)?);
    let added = added(alloc, &mut writer, entries);
    let end = writer.finish();
    let faults = end.sink.faults();
    let taken = String::from_str(alloc, str::from_utf8(end.sink.bytes()).unwrap_or("no text"));
    let ended = match end.result {
        Ok(sizes) => {
            format!(in alloc;
                "{} {} {}",
                sizes.compressed, sizes.uncompressed, sizes.entries
            )
        }
        Err(error) => format!(in alloc; "{error:?}"),
    };
    format!(in alloc; "{}{}, {faults} faults: {}", added?, ended?, taken?)
}

/// What a writer answers to each entry, and what it says of itself then.
fn added(
    alloc: Global,
    writer: &mut ContainerWriter<FailingSink>,
    entries: &[(&str, &[u8])],
) -> Result<String, AllocError> {
    let mut text = String::new(alloc);
    for (name, content) in entries {
        match writer.add(name, content) {
            Ok(()) => text.push_str("added, ")?,
            Err(error) => write!(text, "{error:?}, ")?,
        }
    }
    if writer.is_failed() || writer.is_empty() {
        return Ok(text);
    }
    let content = str::from_utf8(writer.bytes(0)).unwrap_or("no text");
    write!(text, "{} with {} {content}, ", writer.len(), writer.name(0))?;
    Ok(text)
}

/// How long the container of an entry is, whether it is written whole, and what the sink took.
fn at_hand(alloc: Global, fails: u64) -> Result<String, AllocError> {
    let contents = [NamedContent {
        name: "a",
        content: b"hi",
    }];
    let length = container_length(&contents).unwrap_or(0);
    let mut sink = sink(alloc, 0, fails)?;
    let whole = write_container(&mut sink, &contents).is_ok();
    let taken = str::from_utf8(sink.bytes()).unwrap_or("no text");
    format!(in alloc; "{length} {whole}: {taken}")
}

fn is_empty(alloc: Global, bytes: &[u8]) -> Result<String, Fail> {
    let container = Container::parse(alloc, bytes)?;
    Ok(format!(in alloc; "{}", container.is_empty())?)
}

/// What a source has, how many reads failed, and how many it counted.
fn pieces(alloc: Global, piece: usize, fails: u64) -> Result<String, AllocError> {
    let fail_at = [fails];
    let mut source = FailingSource::new(TEXT, piece, &fail_at);
    let mut bytes = Vec::new(alloc);
    let mut failed = 0u64;
    let mut buf = [0; 4];
    for _ in 0..100 {
        match source.read(&mut buf) {
            Ok(0) => break,
            Ok(count) => bytes.extend_from_slice(&buf[..count])?,
            Err(_) => failed = failed.saturating_add(1),
        }
    }
    let text = str::from_utf8(&bytes).unwrap_or("no text");
    format!(in alloc; "{text} {failed} {}", source.faults())
}

fn without_room(alloc: Global) -> Result<String, AllocError> {
    let fail_at = [2];
    let mut source = FailingSource::new(TEXT, 0, &fail_at);
    format!(in alloc; "{}", source.read(&mut []).unwrap_or(9))
}

fn endless(alloc: Global) -> Result<String, AllocError> {
    let mut buf = [0; 3];
    let count = EndlessSource::new(b'7').read(&mut buf).unwrap_or(9);
    let text = str::from_utf8(&buf).unwrap_or("no text");
    format!(in alloc; "{count} {text}")
}

/// What is read of `12345`, in pieces of two bytes.
fn within(alloc: Global, limit: u64, fails: u64) -> Result<String, AllocError> {
    let fail_at = [fails];
    let mut source = FailingSource::new(b"12345", 2, &fail_at);
    match read_within(alloc, limit, &mut source) {
        Ok(bytes) => String::from_str(alloc, str::from_utf8(&bytes).unwrap_or("no text")),
        Err(error) => format!(in alloc; "{error}"),
    }
}

fn endless_within(alloc: Global, limit: u64) -> Result<String, AllocError> {
    match read_within(alloc, limit, &mut EndlessSource::new(b'x')) {
        Ok(bytes) => format!(in alloc; "{} bytes", bytes.as_slice().len()),
        Err(error) => format!(in alloc; "{error}"),
    }
}

/// Whether more than a sink has room for is written, how often it failed, and how much it took.
fn full(alloc: Global) -> Result<String, AllocError> {
    let mut small = MemorySink::new(alloc);
    small.reserve(1)?;
    let long = vec![in alloc; 0; 100_000]?;
    let whole = write_all_dyn(&mut small, &long).is_ok();
    format!(in alloc; "{whole} {} {}", small.faults(), small.bytes().len())
}

const ANSWERS: &[(Asked<'static>, &str)] = &[
    (Asked::Writer(0, 0, &[]), "9 0 0, 0 faults: nxtcont1\0"),
    (
        Asked::Writer(1, 0, HI),
        "added, 1 with a hi, 23 2 1, 0 faults: nxtcont1\x01\0\x01a\0\0\0\0\0\0\0\x02hi\0",
    ),
    // Equal content is taken again.
    (
        Asked::Writer(0, 0, &[("a", b"x"), ("a", b"x"), ("a", b"y"), ("", b"y")]),
        "added, added, NameCollision, BadName, 1 with a x, 22 1 1, 0 faults: \
        nxtcont1\x01\0\x01a\0\0\0\0\0\0\0\x01x\0",
    ),
    // The two pieces of the entry and the end mark, whole or byte by byte.
    (Asked::Writer(0, 1, HI), "SinkFault, Failed, 1 faults: "),
    (
        Asked::Writer(0, 2, HI),
        "SinkFault, Failed, 1 faults: nxtcont1\x01\0\x01a\0\0\0\0\0\0\0\x02",
    ),
    (
        Asked::Writer(0, 3, HI),
        "added, 1 with a hi, SinkFault, 1 faults: nxtcont1\x01\0\x01a\0\0\0\0\0\0\0\x02hi",
    ),
    (Asked::Writer(1, 1, HI), "SinkFault, Failed, 1 faults: "),
    (
        Asked::Writer(1, 9, HI),
        "SinkFault, Failed, 1 faults: nxtcont1",
    ),
    (
        Asked::Writer(1, 22, HI),
        "SinkFault, Failed, 1 faults: nxtcont1\x01\0\x01a\0\0\0\0\0\0\0\x02h",
    ),
    (
        Asked::Writer(1, 23, HI),
        "added, 1 with a hi, SinkFault, 1 faults: nxtcont1\x01\0\x01a\0\0\0\0\0\0\0\x02hi",
    ),
    // The magic, the tag and the name's length, the name, the content's length, the content,
    // and the end mark.
    (Asked::AtHand(1), "23 false: "),
    (Asked::AtHand(2), "23 false: nxtcont1"),
    (Asked::AtHand(3), "23 false: nxtcont1\x01\0\x01"),
    (Asked::AtHand(4), "23 false: nxtcont1\x01\0\x01a"),
    (
        Asked::AtHand(5),
        "23 false: nxtcont1\x01\0\x01a\0\0\0\0\0\0\0\x02",
    ),
    (
        Asked::AtHand(6),
        "23 false: nxtcont1\x01\0\x01a\0\0\0\0\0\0\0\x02hi",
    ),
    (
        Asked::AtHand(7),
        "23 true: nxtcont1\x01\0\x01a\0\0\0\0\0\0\0\x02hi\0",
    ),
    (Asked::IsEmpty(b"nxtcont1\0"), "true"),
    (
        Asked::IsEmpty(b"nxtcont1\x01\0\x01a\0\0\0\0\0\0\0\x02hi\0"),
        "false",
    ),
    (Asked::Pieces(0, 0), "in pieces 0 0"),
    (Asked::Pieces(0, 1), "in pieces 1 1"),
    (Asked::Pieces(0, 2), "in pieces 1 1"),
    (Asked::Pieces(0, 3), "in pieces 1 1"),
    (Asked::Pieces(0, 4), "in pieces 1 1"),
    (Asked::Pieces(1, 1), "in pieces 1 1"),
    (Asked::Pieces(1, 2), "in pieces 1 1"),
    (Asked::Pieces(1, 3), "in pieces 1 1"),
    (Asked::Pieces(1, 4), "in pieces 1 1"),
    (Asked::Pieces(3, 1), "in pieces 1 1"),
    (Asked::Pieces(3, 2), "in pieces 1 1"),
    (Asked::Pieces(3, 3), "in pieces 1 1"),
    (Asked::Pieces(3, 4), "in pieces 1 1"),
    (Asked::NoRoom, "0"),
    (Asked::Endless, "3 777"),
    (Asked::Within(5, 0), "12345"),
    (Asked::Within(6, 0), "12345"),
    (Asked::Within(u64::MAX, 0), "12345"),
    (Asked::Within(4, 0), "the source has more than 4 bytes"),
    (Asked::Within(0, 0), "the source has more than 0 bytes"),
    (Asked::Within(5, 1), "the source failed"),
    // The end takes a fourth call.
    (Asked::Within(5, 4), "the source failed"),
    (Asked::Within(2, 3), "the source has more than 2 bytes"),
    (
        Asked::EndlessWithin(10_000),
        "the source has more than 10000 bytes",
    ),
    (Asked::Full, "false 1 0"),
    (
        Asked::Text(ContainerWriteError::Failed),
        "the sink failed earlier, so nothing more is written",
    ),
    (
        Asked::Text(ContainerWriteError::BadName),
        "an entry's name must have 1 to 65535 bytes",
    ),
    (
        Asked::Text(ContainerWriteError::NameCollision),
        "an entry of this name with other bytes is there already",
    ),
    (
        Asked::Text(ContainerWriteError::CountOutOfRange),
        "the container would have 2^64 bytes or more",
    ),
    (
        Asked::Text(ContainerWriteError::SinkFault),
        "the sink failed",
    ),
    (
        Asked::Text(ContainerWriteError::OutOfMemory),
        "out of memory",
    ),
    (
        Asked::Fault(ContainerError::BadMagic),
        "not a container: it doesn't begin with nxtcont1",
    ),
    (
        Asked::Fault(ContainerError::Truncated { at: 8 }),
        "cut off in the field at byte 8",
    ),
    (
        Asked::Fault(ContainerError::BadTag { at: 9 }),
        "no tag at byte 9",
    ),
    (
        Asked::Fault(ContainerError::BadName { at: 10 }),
        "not a name at byte 10",
    ),
    (
        Asked::Fault(ContainerError::DuplicateName { at: 11 }),
        "a name seen before at byte 11",
    ),
    (
        Asked::Fault(ContainerError::TrailingBytes { at: 12 }),
        "bytes after the end mark, from byte 12 on",
    ),
    (Asked::Fault(ContainerError::OutOfMemory), "out of memory"),
];

#[test]
fn calls_answer_what_they_should(rt: HostRuntime) -> Result<(), Fail> {
    for (asked, want) in ANSWERS {
        let found = answer(rt.alloc(), *asked)?;
        assert!(rt; found.as_str() == *want, "{found:?}, and not {want:?}");
    }
    Ok(())
}
