//! Values written token by token, by the calls that no field of a session or a bundle needs.

use rec_json::JsonText;
use std::alloc::{AllocError, Global};

fn list(alloc: Global) -> Result<String, AllocError> {
    let mut text = JsonText::new(alloc);
    text.begin_array()?;
    text.null()?;
    text.boolean(true)?;
    text.integer(-1)?;
    text.end_list()?;
    Ok(text.into_text())
}

fn object(alloc: Global) -> Result<String, AllocError> {
    let mut text = JsonText::new(alloc);
    text.begin_object()?;
    text.key("a")?;
    text.boolean(true)?;
    text.key("a-b")?;
    text.integer(-2)?;
    text.key("a1")?;
    text.natural(3)?;
    text.end_struct()?;
    Ok(text.into_text())
}

// Whether this text was written.
fn is_written(text: Result<String, AllocError>, want: &str) -> bool {
    matches!(&text, Ok(text) if text.as_str() == want)
}

#[test]
fn lists_and_objects(rt: HostRuntime) {
    let alloc = rt.alloc();
    assert!(rt; is_written(Ok(JsonText::new(alloc).into_text()), ""));
    assert!(rt; is_written(list(alloc), "[null,true,-1]"));
    assert!(rt; is_written(object(alloc), r#"{"a":true,"a-b":-2,"a1":3}"#));
}
