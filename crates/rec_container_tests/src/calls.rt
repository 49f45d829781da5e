//! Asks a disk, and prints what it answers.

use rec_disk::{Disk, DiskError};
use std::alloc::{AllocError, Global};
use std::str;

/// A call of a disk.
#[derive(Clone, Copy)]
pub(crate) enum Call<'c> {
    Exists(&'c str),
    Len(&'c str),
    /// Four bytes of a file, from here on.
    Read(&'c str, u64),
    Create(&'c str),
    Append(&'c str, &'c [u8]),
    Rename(&'c str, &'c str),
}

/// What calls answer, with `;` after each.
pub(crate) fn answers<D: Disk>(
    alloc: Global,
    disk: &mut D,
    calls: &[Call<'_>],
) -> Result<String, AllocError> {
    let mut text = String::new(alloc);
    for call in calls {
        add_answer(&mut text, disk, *call)?;
        text.push_str(";")?;
    }
    Ok(text)
}

fn add_answer<D: Disk>(text: &mut String, disk: &mut D, call: Call<'_>) -> Result<(), AllocError> {
    match call {
        Call::Exists(path) => match disk.exists(path) {
            Ok(exists) => write!(text, "{exists}"),
            Err(error) => text.push_str(name(error)),
        },
        Call::Len(path) => match disk.len(path) {
            Ok(length) => write!(text, "{length}"),
            Err(error) => text.push_str(name(error)),
        },
        Call::Read(path, at) => add_read(text, disk, path, at),
        Call::Create(path) => add_done(text, disk.create(path)),
        Call::Append(path, piece) => match disk.append(path, piece) {
            Ok(count) => write!(text, "{count}"),
            Err(error) => text.push_str(name(error)),
        },
        Call::Rename(from, to) => add_done(text, disk.rename(from, to)),
    }
}

/// How many bytes are read, and what the room of four bytes holds then.
fn add_read<D: Disk>(
    text: &mut String,
    disk: &mut D,
    path: &str,
    at: u64,
) -> Result<(), AllocError> {
    let mut buf = [b'.'; 4];
    match disk.read(path, at, &mut buf) {
        Ok(count) => write!(
            text,
            "{count} {}",
            str::from_utf8(&buf).unwrap_or("no text")
        ),
        Err(error) => text.push_str(name(error)),
    }
}

fn add_done(text: &mut String, answer: Result<(), DiskError>) -> Result<(), AllocError> {
    match answer {
        Ok(()) => text.push_str("done"),
        Err(error) => text.push_str(name(error)),
    }
}

fn name(error: DiskError) -> &'static str {
    match error {
        DiskError::Missing => "missing",
        DiskError::DiskFailed => "failed",
        DiskError::OutOfMemory => "no memory",
    }
}
