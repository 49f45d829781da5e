//! Faulty words, a sink that failed, and memory that ran out.
ghost use Rattle.std.specs.Prelude.{◌≡◌};
ghost use Rattle.rec_faults.specs.FaultLine.{memory_shown, sink_shown, words_shown};
ghost use Rattle.rec_faults.specs.Status.{words_status};

use crate::line::Line;
use crate::refusal::Refusal;
use crate::status::{FAULTY_WORDS, OUT_OF_MEMORY, OUTPUT_FAILED};
use rec_container::{Sink, SinkFailed};
use rec_errors::WordsError;
use std::alloc::AllocError;

impl Refusal for WordsError {
    ghost shown = { words_shown };

    ghost status_of = { words_status };

    fn write<G: Sink>(&self, line: Line, diag: &mut G) -> Line {
        match self {
            WordsError::NoCommand => line.name("NoCommand", diag),
            WordsError::UnknownCommand { at } => {
                line.number("UnknownCommand at=", *at as u64, diag)
            },
            WordsError::MissingPositional { at } => {
                line.number("MissingPositional at=", *at as u64, diag)
            },
            WordsError::BadNumber { at } => { line.number("BadNumber at=", *at as u64, diag) },
            WordsError::UnknownOption { at } => {
                line.number("UnknownOption at=", *at as u64, diag)
            },
            WordsError::RepeatedOption { at } => {
                line.number("RepeatedOption at=", *at as u64, diag)
            },
            WordsError::MissingValue { at } => {
                line.number("MissingValue at=", *at as u64, diag)
            },
            WordsError::BadValue { at } => { line.number("BadValue at=", *at as u64, diag) },
        }
    }

    fn status(&self) -> u8 {
        FAULTY_WORDS
    }
}

impl Refusal for SinkFailed {
    ghost shown = { λ _. sink_shown };

    ghost status_of = { λ _. 11 };

    fn write<G: Sink>(&self, line: Line, diag: &mut G) -> Line {
        line.name("SinkFailed", diag)
    }

    fn status(&self) -> u8 {
        OUTPUT_FAILED
    }
}

impl Refusal for AllocError {
    ghost shown = { λ _. memory_shown };

    ghost status_of = { λ _. 70 };

    fn write<G: Sink>(&self, line: Line, diag: &mut G) -> Line {
        line.name("AllocError", diag)
    }

    fn status(&self) -> u8 {
        OUT_OF_MEMORY
    }
}
