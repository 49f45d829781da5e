//! The names of the tests, and what they write.
ghost use Rattle.std.specs.Prelude.{◌≡◌, IfOk, string_bytes};
ghost use Rattle.rec_sample.specs.Names.{binary_id, test_name, test_instance, test_stdout};

use rec_events::{ChildSingleOutput, OwnedTestInstanceId, RustBinaryId, TestCaseName};
use std::alloc::{AllocError, Global};

/// How many binaries the tests are in, in turn.
pub(crate) const BINARIES: u64 = 4;

/// How many lines there are of which a test writes one.
const LINES: u64 = 16;

/// Makes the name of a binary.
pub(crate) fn binary_id(alloc: Global, binary: u64) -> Result<String, AllocError>
    ensures { IfOk result (λ id. string_bytes id ≡ binary_id binary) }
{
    format!(in alloc; "bin-{binary}")
}

/// Makes the name of a test.
pub(crate) fn test_name(alloc: Global, i: u64) -> Result<TestCaseName, AllocError>
    ensures { IfOk result (λ name. name ≡ test_name i) }
{
    Ok(TestCaseName::new(format!(in alloc; "t{i}")?))
}

/// Makes the names of a test and its binary.
pub(crate) fn test_instance(alloc: Global, i: u64) -> Result<OwnedTestInstanceId, AllocError>
    ensures { IfOk result (λ instance. instance ≡ test_instance i) }
{
    Ok(OwnedTestInstanceId {
        binary_id: RustBinaryId::new(binary_id(alloc, i % BINARIES)?),
        test_name: test_name(alloc, i)?,
    })
}

/// Makes what a test writes.
pub(crate) fn test_stdout(alloc: Global, i: u64) -> Result<ChildSingleOutput, AllocError>
    ensures { IfOk result (λ output. output ≡ test_stdout i) }
{
    let line = i % LINES;
    let text = format!(in alloc; "output {line}\n")?;
    Ok(ChildSingleOutput::new(text.into_bytes()))
}
