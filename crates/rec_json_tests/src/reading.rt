//! Texts read as nodes.

use rec_json::{Node, ReadError, Scratch};
use serde_json::Value;
use std::alloc::{AllocError, Global};
use std::process::Abort;
use std::test::Fail;

// What a node is, with its content where it is a scalar.
fn shown(alloc: Global, node: &Node<'_>) -> Result<String, AllocError> {
    match node {
        Node::Null => String::from_str(alloc, "null"),
        Node::Bool(value) => format!(in alloc; "bool {value}"),
        Node::Number(number) => format!(in alloc; "number {number}"),
        Node::String(text) => format!(in alloc; "text {text}"),
        Node::Array(items) => format!(in alloc; "list of {}", items.len()),
        Node::Object(members) => format!(in alloc; "object of {}", members.len()),
    }
}

// What the text is read as, or why it isn't.
fn read(alloc: Global, text: &str, scratch: &mut Scratch) -> Result<String, AllocError> {
    match Node::parse(alloc, text, scratch) {
        Ok(node) => shown(alloc, &node),
        Err(ReadError::Invalid) => String::from_str(alloc, "invalid"),
        Err(ReadError::OutOfMemory) => Err(AllocError),
    }
}

// Each text of the table is read as what stands beside it. All reads share their scratch memory.
fn check(rt: &impl Abort, alloc: Global, rows: &[(&str, &str)]) -> Result<(), Fail> {
    let mut scratch = Scratch::new(alloc);
    for (text, want) in rows {
        let got = read(alloc, text, &mut scratch)?;
        assert!(rt; got.as_str() == *want, "{text}: {got}");
    }
    Ok(())
}

const KINDS: &[(&str, &str)] = &[
    ("null", "null"),
    ("true", "bool true"),
    (" false\n", "bool false"),
    ("0", "number 0"),
    ("\"\"", "text "),
    ("\"t1\"", "text t1"),
    ("[]", "list of 0"),
    ("[ [] , {} ,0]", "list of 3"),
    ("{}", "object of 0"),
    ("{\"a\":{\"b\":[]},\"c\":1}", "object of 2"),
    ("{\"a\":1,\"a\":2}", "object of 2"),
];

const STRINGS: &[(&str, &str)] = &[
    ("\"\\\"\\\\\\/\"", "text \"\\/"),
    ("\"\\n\\r\\t\\b\\f\"", "text \n\r\t\u{8}\u{c}"),
    ("\"\\u0041\\u00e9\"", "text A\u{e9}"),
    ("\"\\ud83e\\udd80\"", "text \u{1f980}"),
    ("\"\u{7f}\"", "text \u{7f}"),
    ("\"\\ud83e\"", "invalid"),
    ("\"\\udd80\\ud83e\"", "invalid"),
    ("\"\\x41\"", "invalid"),
    ("\"\\u41\"", "invalid"),
    ("\"\n\"", "invalid"),
    ("\"\u{0}\"", "invalid"),
    ("\"open", "invalid"),
];

const NUMBERS: &[(&str, &str)] = &[
    ("7", "number 7"),
    ("18446744073709551615", "number 18446744073709551615"),
    ("18446744073709551616", "number 1.8446744073709552e+19"),
    ("-1", "number -1"),
    ("-9223372036854775808", "number -9223372036854775808"),
    ("-9223372036854775809", "number -9.223372036854776e+18"),
    ("-0", "number -0.0"),
    ("1.0", "number 1.0"),
    ("1e2", "number 100.0"),
    ("2.5e-1", "number 0.25"),
    ("1e308", "number 1e+308"),
    ("1e309", "invalid"),
    ("-1e309", "invalid"),
    ("01", "invalid"),
    ("+1", "invalid"),
    ("-", "invalid"),
    ("1.", "invalid"),
    (".5", "invalid"),
    ("1e", "invalid"),
    ("0x1", "invalid"),
    ("NaN", "invalid"),
];

const NO_VALUES: &[(&str, &str)] = &[
    ("", "invalid"),
    (" ", "invalid"),
    ("nul", "invalid"),
    ("True", "invalid"),
    ("'a'", "invalid"),
    ("1 2", "invalid"),
    ("[] []", "invalid"),
    ("null,", "invalid"),
    ("\u{a0}1", "invalid"),
    ("\u{feff}1", "invalid"),
    ("[", "invalid"),
    ("]", "invalid"),
    ("[1", "invalid"),
    ("[1,]", "invalid"),
    ("[,1]", "invalid"),
    ("[1 2]", "invalid"),
    ("[1}", "invalid"),
    ("{", "invalid"),
    ("{\"a\"}", "invalid"),
    ("{\"a\":}", "invalid"),
    ("{\"a\" 1}", "invalid"),
    ("{\"a\":1,}", "invalid"),
    ("{\"a\":1 \"b\":2}", "invalid"),
    ("{a:1}", "invalid"),
    ("{1:1}", "invalid"),
    ("{null:1}", "invalid"),
    ("{\"a\":1]", "invalid"),
    ("// a\n1", "invalid"),
    ("[1e309]", "invalid"),
    ("{\"a\":1e309,\"a\":1}", "invalid"),
];

#[test]
fn texts(rt: HostRuntime) -> Result<(), Fail> {
    for rows in [KINDS, STRINGS, NUMBERS, NO_VALUES] {
        check(&rt, rt.alloc(), rows)?;
    }
    Ok(())
}

// What a value that `serde_json` reads is as a node.
fn seen(alloc: Global, text: &str) -> Result<String, AllocError> {
    let Ok(value) = Value::from_str(alloc, text) else {
        return String::from_str(alloc, "invalid");
    };
    let node = Node::of_value(alloc, &value)?;
    shown(alloc, &node)
}

// Each text, read by `serde_json`, is the node that stands beside it.
fn check_values(rt: &impl Abort, alloc: Global, rows: &[(&str, &str)]) -> Result<(), Fail> {
    for (text, want) in rows {
        assert!(rt; seen(alloc, text)?.as_str() == *want, "{text}");
    }
    Ok(())
}

#[test]
fn values(rt: HostRuntime) -> Result<(), Fail> {
    check_values(
        &rt,
        rt.alloc(),
        &[
            ("null", "null"),
            ("true", "bool true"),
            ("-1", "number -1"),
            ("\"t1\"", "text t1"),
            ("[0,[[]],{}]", "list of 3"),
            ("{\"b\":{\"a\":[]},\"a\":1,\"b\":2}", "object of 2"),
            ("[", "invalid"),
        ],
    )
}
