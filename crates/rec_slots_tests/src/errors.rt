//! What errors print, which no command shows.

use rec_slots::SlotError;
use rec_spans::ChromeTraceError;
use std::alloc::{AllocError, Global};

/// Whether an error prints this.
fn prints(alloc: Global, error: SlotError, want: &str) -> Result<bool, AllocError> {
    let text = format!(in alloc; "{error}");
    drop(error);
    Ok(text?.as_str() == want)
}

#[test]
fn errors_are_printed(rt: HostRuntime) -> Result<(), AllocError> {
    let alloc = rt.alloc();
    let no_run = "the events aren't those of one run from its start to its end";
    assert!(rt; prints(alloc, SlotError::NotOneRun, no_run)?);
    let outside = "event 1 starts an attempt that isn't inside the run";
    assert!(rt; prints(alloc, SlotError::AttemptOutside { event: 1 }, outside)?);
    let fell = "the instant of event 3 is below that of the event before";
    assert!(rt; prints(alloc, SlotError::StampFell { event: 3 }, fell)?);
    let busy = ChromeTraceError::SlotBusy { event: 6, slot: 3 };
    let on_slot = "event 6 starts on slot 3, on which another is running";
    assert!(rt; prints(alloc, SlotError::Refused(busy), on_slot)?);
    let row = ChromeTraceError::RowOutOfRange {
        event: 2,
        number: 18446744073709541616,
    };
    let no_row =
        "event 2 needs a row or a flow that is out of range, by its number 18446744073709541616";
    assert!(rt; prints(alloc, SlotError::Refused(row), no_row)?);
    Ok(())
}
