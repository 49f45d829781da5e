//! Logs that change once their length was asked for.

use crate::asking::{AMPLE, Question, answers};
use rec_disk::{Disk, DiskError};
use std::process::Abort;
use std::test::Fail;

/// A disk whose one file has this length, and then these bytes, or is gone where these are none.
#[derive(Drop)]
struct ChangingDisk {
    len: u64,
    bytes: &'static [u8],
}

impl Disk for ChangingDisk {
    ghost use Rattle.std.specs.Prelude.{None};

    ghost files = { λ _. None };

    ghost faults = { λ _. 0 };

    fn exists(&mut self, _path: &str) -> Result<bool, DiskError> {
        Ok(true)
    }

    fn len(&mut self, _path: &str) -> Result<u64, DiskError> {
        Ok(self.len)
    }

    fn read(&mut self, _path: &str, at: u64, buf: &mut [u8]) -> Result<usize, DiskError> {
        let bytes = self.bytes;
        if bytes.is_empty() {
            return Err(DiskError::Missing);
        }
        if at >= bytes.len() as u64 {
            return Ok(0);
        }
        let rest = &bytes[at as usize..];
        let count = buf.len().min(rest.len());
        buf[..count].copy_from_slice(&rest[..count]);
        Ok(count)
    }

    fn create(&mut self, _path: &str) -> Result<(), DiskError> {
        Err(DiskError::OutOfMemory)
    }

    fn append(&mut self, _path: &str, _piece: &[u8]) -> Result<usize, DiskError> {
        Err(DiskError::OutOfMemory)
    }

    fn rename(&mut self, _from: &str, _to: &str) -> Result<(), DiskError> {
        Err(DiskError::OutOfMemory)
    }
}

/// The length that a log had, its bytes, and its items. It is read up to that length, and missed
/// where it had bytes and is gone.
const LOGS: &[(u64, &[u8], &str)] = &[
    (2, b"x\ny\nz\n", "line 1 is no event. \n"),
    (
        5,
        b"x\ny\nz\n",
        "line 1 is no event. line 2 is no event. line 3 is no event. \n",
    ),
    (9, b"x\ny", "line 1 is no event. line 2 is no event. \n"),
    (9, b"", "there is no event log at r/run.log.zst. \n"),
    (0, b"", "\n"),
];

#[test]
fn logs_are_read_up_to_the_length_that_they_had(rt: HostRuntime) -> Result<(), Fail> {
    for (len, bytes, want) in LOGS {
        let mut disk = ChangingDisk { len: *len, bytes };
        let found = answers(rt.alloc(), &mut disk, AMPLE, &[Question::Events])?;
        assert!(rt; found.as_str() == *want, "{len}: {found}");
    }
    Ok(())
}
