//! Lines that are read from sources which give pieces, fail, or give too much.

use rec_live_recording::LineReader;
use rec_memory_streams::FailingSource;
use std::alloc::{AllocError, Global};
use std::str;
use std::test::Fail;

/// A text, how its source gives it, and the lines that are read of it.
#[derive(Clone, Copy)]
struct Case<'c> {
    text: &'c str,
    /// The most bytes that a read gives, or 0 for any number.
    piece: usize,
    limit: u64,
    /// Which read fails, from 1, or none.
    fails: u64,
    /// Each line with its number, and how the reading ended.
    lines: &'c str,
}

/// What is read of a case's text.
fn read(alloc: Global, case: &Case<'_>) -> Result<String, AllocError> {
    let fails = [case.fails];
    let source = FailingSource::new(case.text.as_bytes(), case.piece, &fails);
    let mut reader = LineReader::new(alloc, case.limit, source);
    let mut text = String::new(alloc);
    for _ in 0..5 {
        match reader.read_line() {
            Ok(true) => add_line(&mut text, &reader)?,
            Ok(false) => {
                text.push_str("end")?;
                return Ok(text);
            }
            Err(error) => {
                write!(text, "{error}")?;
                return Ok(text);
            }
        }
    }
    Ok(text)
}

/// Adds the line that was read last, with its number.
fn add_line(text: &mut String, reader: &LineReader<FailingSource<'_>>) -> Result<(), AllocError> {
    let line = reader.line();
    let bytes = str::from_utf8(line.bytes).unwrap_or("no text");
    let number = line.number;
    write!(text, "{number}={bytes}, ")
}

const CASES: &[Case<'static>] = &[
    Case {
        text: "",
        piece: 0,
        limit: 0,
        fails: 0,
        lines: "end",
    },
    Case {
        text: "ab\n\nc",
        piece: 0,
        limit: 5,
        fails: 0,
        lines: "1=ab, 2=, 3=c, end",
    },
    Case {
        text: "ab\nc\n",
        piece: 1,
        limit: 10,
        fails: 0,
        lines: "1=ab, 2=c, end",
    },
    Case {
        text: "ab\ncd\nef",
        piece: 4,
        limit: 10,
        fails: 0,
        lines: "1=ab, 2=cd, 3=ef, end",
    },
    Case {
        text: "ab\ncd",
        piece: 1,
        limit: 4,
        fails: 0,
        lines: "1=ab, the source has more than 4 bytes",
    },
    Case {
        text: "ab\ncd",
        piece: 3,
        limit: 5,
        fails: 2,
        lines: "1=ab, the source failed",
    },
];

#[test]
fn lines_are_read_as_they_stand(rt: HostRuntime) -> Result<(), Fail> {
    for case in CASES {
        let found = read(rt.alloc(), case)?;
        let wanted = case.lines;
        assert!(rt; found.as_str() == wanted, "{found}, and not {wanted}");
    }
    Ok(())
}
