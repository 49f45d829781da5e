//! What the small types say of their values: which are equal, which comes first,
//! and which names are taken.

use rec_events::{
    Items, NamedTargets, OutputFileName, OutputKind, OwnedTestInstanceId, RustBinaryId, ScriptId,
    TargetSelection, TestCaseName, TestGroup, TestNames, Text,
};
use std::alloc::{AllocError, Global};
use std::test::Fail;

fn are_equal<T: PartialEq + Drop>(value: T, other: T) -> bool {
    value == other
}

// The list of this text alone.
fn list_of(alloc: Global, text: &str) -> Result<Items<Text>, AllocError> {
    let mut texts = Vec::new(alloc);
    texts.push(Text::from_str(alloc, text)?)?;
    Ok(Items::new(texts))
}

#[test]
fn equal_values(rt: HostRuntime) -> Result<(), Fail> {
    let alloc = rt.alloc();
    assert!(rt; are_equal(list_of(alloc, "é")?, list_of(alloc, "é")?));
    assert!(rt; !are_equal(list_of(alloc, "é")?, Items::empty(alloc)));
    assert!(rt; are_equal(TargetSelection::none(alloc), TargetSelection::none(alloc)));
    assert!(rt; are_equal(NamedTargets::none(alloc), NamedTargets::none(alloc)));
    assert!(rt; are_equal(TestNames::empty(alloc), TestNames::empty(alloc)));
    Ok(())
}

// The test of this name in the binary of that one.
fn test_of(alloc: Global, binary: &str, name: &str) -> Result<OwnedTestInstanceId, AllocError> {
    Ok(OwnedTestInstanceId {
        binary_id: RustBinaryId::new(String::from_str(alloc, binary)?),
        test_name: TestCaseName::new(String::from_str(alloc, name)?),
    })
}

// Whether a test, named by its binary and its name there, comes before another one.
fn is_before(alloc: Global, test: (&str, &str), other: (&str, &str)) -> Result<bool, AllocError> {
    let test = test_of(alloc, test.0, test.1)?;
    let is_before = match test_of(alloc, other.0, other.1) {
        Ok(other) => Ok(test < other),
        Err(error) => Err(error),
    };
    drop(test);
    is_before
}

#[test]
fn tests_stand_in_the_order_of_their_binaries(rt: HostRuntime) -> Result<(), Fail> {
    assert!(rt; is_before(rt.alloc(), ("a", "t10"), ("a", "t2"))?);
    assert!(rt; is_before(rt.alloc(), ("a", "t2"), ("b", "t1"))?);
    Ok(())
}

#[test]
fn names(rt: HostRuntime) -> Result<(), Fail> {
    let alloc = rt.alloc();
    // The group of all tests that are in no other has its own variant.
    assert!(rt; TestGroup::custom(String::from_str(alloc, "@global")?).is_none());
    let name = OutputFileName::new(1, OutputKind::Stderr).text(alloc)?;
    assert!(rt; name.as_str() == "0000000000000001-stderr");
    let script = ScriptId::new(String::from_str(alloc, "")?).into_string();
    assert!(rt; script.as_str() == "");
    Ok(())
}
