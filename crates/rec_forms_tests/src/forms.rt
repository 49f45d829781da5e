//! Values that stand in no session and in no bundle, as JSON,
//! and items of values that are there already.

use rec_events::{
    Items, NonZeroCount, OutputKind, StressFinalRunStats, TestsNotSeenSummary, Text, TextMap,
};
use rec_forms::{Form, FromValueError, read_text, write_text};
use serde_json::Value;
use std::alloc::Global;
use std::process::Abort;
use std::test::Fail;

// Whether an item is written so. It ends here, since one that is held over another exit is dear to
// prove.
fn is_written<T: Form + Drop>(alloc: Global, item: T, want: &str) -> bool {
    let bytes = write_text(alloc, &item);
    drop(item);
    matches!(&bytes, Ok(bytes) if bytes.as_slice() == want.as_bytes())
}

// Whether a text is written so once it was read, or isn't read where `refused` is wanted.
fn is_rewritten<T: Form + Drop>(alloc: Global, text: &str, want: &str) -> bool {
    match read_text::<T>(alloc, text.as_bytes()) {
        Ok(item) => is_written(alloc, item, want),
        Err(FromValueError::NotAValue) => want == "refused",
        Err(_) => false,
    }
}

// Each text is written as what stands beside it.
fn check<T: Form + Drop>(rt: &impl Abort, alloc: Global, rows: &[(&str, &str)]) {
    for (text, want) in rows {
        assert!(rt; is_rewritten::<T>(alloc, text, want), "{text}");
    }
}

const OUTPUT_KINDS: &[(&str, &str)] = &[
    ("\"stdout\"", "\"stdout\""),
    ("\"stderr\"", "\"stderr\""),
    ("\"combined\"", "\"combined\""),
    ("\"Stdout\"", "refused"),
    ("\"-stdout\"", "refused"),
    ("\"\"", "refused"),
    ("{\"stdout\":null}", "refused"),
    ("[\"stderr\"]", "refused"),
    ("null", "refused"),
    ("0", "refused"),
];

const STRESS_ENDS: &[(&str, &str)] = &[
    (r#""success""#, r#""success""#),
    (r#""no-tests-run""#, r#""no-tests-run""#),
    (r#""failed""#, r#""failed""#),
    (r#""cancelled""#, r#""cancelled""#),
    (r#""no_tests_run""#, "refused"),
    (r#""Failed""#, "refused"),
    (r#""canceled""#, "refused"),
    (r#"{"success":null}"#, "refused"),
    (r#"["failed"]"#, "refused"),
    ("null", "refused"),
    ("false", "refused"),
    ("3", "refused"),
];

// Where a session or a manifest has a count above 0 or tests not seen,
// null says that there is none.
const NULL: &[(&str, &str)] = &[("null", "refused")];

#[test]
fn texts(rt: HostRuntime) {
    let alloc = rt.alloc();
    check::<OutputKind>(&rt, alloc, OUTPUT_KINDS);
    check::<StressFinalRunStats>(&rt, alloc, STRESS_ENDS);
    check::<NonZeroCount>(&rt, alloc, NULL);
    check::<TestsNotSeenSummary>(&rt, alloc, NULL);
}

// The item of the value of a text.
fn item_of<T: Form>(alloc: Global, text: &str) -> Result<T, Fail> {
    let value = Value::from_str(alloc, text)?;
    let item = T::from_value(alloc, &value);
    drop(value);
    Ok(item?)
}

// Whether the value of an item has this text.
fn has_value<T: Form>(alloc: Global, item: &T, want: &str) -> bool {
    let Ok(value) = item.to_value(alloc) else {
        return false;
    };
    let text = value.to_string(alloc);
    drop(value);
    matches!(&text, Ok(text) if text.as_str() == want)
}

// A value that is there already is read as its text is, and the value of an item has the same text.
#[test]
fn values(rt: HostRuntime) -> Result<(), Fail> {
    let alloc = rt.alloc();
    let map = item_of::<TextMap<Items<Text>>>(alloc, r#"{"b":["1","2"],"a":[]}"#)?;
    let want = r#"{"a":[],"b":["1","2"]}"#;
    let has_value = has_value(alloc, &map, want);
    let is_written = is_written(alloc, map, want);
    assert!(rt; has_value && is_written);
    Ok(())
}
