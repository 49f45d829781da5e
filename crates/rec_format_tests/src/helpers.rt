//! What the tests of forms share.
use rec_forms::{Form, FromValueError, read_text, write_text};
use std::alloc::Global;
use std::process::Abort;
use std::test::Fail;

/// Whether an item is written so. It ends here, since one that is held over another exit is dear to
/// prove.
fn is_written<T: Form + Drop>(alloc: Global, item: T, want: &str) -> bool {
    let bytes = write_text(alloc, &item);
    drop(item);
    matches!(&bytes, Ok(bytes) if bytes.as_slice() == want.as_bytes())
}

/// Whether a text is written so once it was read, or isn't read where `refused` is wanted.
pub(crate) fn is_rewritten<T: Form + Drop>(alloc: Global, text: &str, want: &str) -> bool {
    match read_text::<T>(alloc, text.as_bytes()) {
        Ok(item) => is_written(alloc, item, want),
        Err(FromValueError::NotAValue) => want == "refused",
        Err(_) => false,
    }
}

/// Each text is written as what stands beside it.
pub(crate) fn check<T: Form + Drop>(rt: &impl Abort, alloc: Global, rows: &[(&str, &str)]) {
    for (text, want) in rows {
        assert!(rt; is_rewritten::<T>(alloc, text, want), "{text}");
    }
}

// A text with another one in the place of a part.
fn changed(alloc: Global, text: &str, part: &str, other: &str) -> Result<String, Fail> {
    let (before, after) = text.split_once(part).ok_or("no such part")?;
    Ok(format!(in alloc; "{before}{other}{after}")?)
}

/// The text with another one in the place of a part is written as what stands beside both.
pub(crate) fn check_changed<T: Form + Drop>(
    rt: &impl Abort,
    alloc: Global,
    text: &str,
    rows: &[(&str, &str, &str)],
) -> Result<(), Fail> {
    for (part, other, want) in rows {
        let text = changed(alloc, text, part, other)?;
        assert!(rt; is_rewritten::<T>(alloc, text.as_str(), want), "{other}");
    }
    Ok(())
}
