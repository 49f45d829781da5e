//! What refusals print.

use rec_events::{RustBinaryId, TestCaseName, Text};
use rec_replay::ReplayConversionError;
use rec_store::RecordReadError;
use std::alloc::Global;
use std::process::Abort;
use std::test::Fail;

/// Asserts what a refusal prints.
fn check(
    rt: &impl Abort,
    alloc: Global,
    error: ReplayConversionError,
    expected: &str,
) -> Result<(), Fail> {
    let got = format!(in alloc; "{error}");
    drop(error);
    let got = got?;
    assert!(rt; got.as_str() == expected, "{got}");
    Ok(())
}

#[test]
fn refusals_are_printed(rt: HostRuntime) -> Result<(), Fail> {
    let alloc = rt.alloc();
    let unknown = ReplayConversionError::TestNotFound {
        binary_id: RustBinaryId::new(String::from_str(alloc, "bin-0")?),
        test_name: TestCaseName::new(String::from_str(alloc, "t1")?),
    };
    check(&rt, alloc, unknown, "test not found under `bin-0`: t1")?;
    let expected = "invalid stress count: expected non-zero value, got 0";
    check(
        &rt,
        alloc,
        ReplayConversionError::InvalidStressCount,
        expected,
    )?;
    let unread = RecordReadError::FileNotFound {
        file_name: Text::from_str(alloc, "out/0000000000000009-stderr")?,
    };
    let unread = ReplayConversionError::RecordRead(unread);
    check(&rt, alloc, unread, "error reading record")
}
