//! How a test, a script or an attempt ended.
ghost use Rattle.std.specs.Prelude.{◌≡◌, IfOk, option_map, string_bytes};
ghost use Rattle.rec_events.specs.Results.{succeeded, flaky_text};

use crate::{Text, TryClone, clone_both};
use std::alloc::{AllocError, Global};

/// Says what a test counts as that failed at first and passed at last.
#[derive(Clone, Copy, PartialEq, Eq, Drop)]
pub enum FlakyResult {
    /// It counts as passed.
    Pass,
    /// It counts as failed.
    Fail,
}

impl FlakyResult {
    /// Says that a test passed on this attempt and still counts as failed; `None` where it counts
    /// as passed.
    ///
    /// # Errors
    ///
    /// `AllocError` means that there was not enough memory.
    pub fn fail_message(
        &self,
        alloc: Global,
        attempt: u32,
        total_attempts: u32,
    ) -> Result<Option<String>, AllocError>
        ensures { IfOk result
            (λ message. option_map string_bytes message
            ≡ flaky_text self.now attempt total_attempts) }
    {
        match self {
            FlakyResult::Pass => Ok(None),
            FlakyResult::Fail => Ok(Some(format!(in alloc;
                "test passed on attempt {attempt}/{total_attempts} but is configured to fail \
                when flaky"
            )?)),
        }
    }
}

/// Says what a test counts as that passed and left an output open.
#[derive(Clone, Copy, PartialEq, Eq, Drop)]
pub enum LeakTimeoutResult {
    /// It counts as passed.
    Pass,
    /// It counts as failed.
    Fail,
}

/// Says what a test counts as that was stopped for its time.
#[derive(Clone, Copy, PartialEq, Eq, Drop)]
pub enum SlowTimeoutResult {
    /// It counts as passed.
    Pass,
    /// It counts as failed.
    Fail,
}

/// Says how a process failed.
#[derive(Drop)]
pub enum FailureDescription {
    /// It ended by itself, with an exit code that stands for a failure.
    ExitCode { code: i32 },
    /// It was ended by a signal, whose name is there where it is known.
    Abort { signal: i32, name: Option<Text> },
}

/// Says how an attempt ended.
#[derive(Drop)]
pub enum ExecutionResultDescription {
    /// It passed.
    Pass,
    /// It passed and left an output open.
    Leak {
        /// What it counts as.
        result: LeakTimeoutResult,
    },
    /// It failed.
    Fail {
        /// How its process failed.
        failure: FailureDescription,
        /// Whether it left an output open as well.
        leaked: bool,
    },
    /// It could not be started.
    ExecFail,
    /// It was stopped for its time.
    Timeout {
        /// What it counts as.
        result: SlowTimeoutResult,
    },
}

impl ExecutionResultDescription {
    /// Returns whether it counts as a success: a pass, or a leak or timeout that counts as one.
    pub fn is_success(&self) -> bool
        ensures { result ≡ succeeded self.now }
    {
        match self {
            ExecutionResultDescription::Pass => true,
            ExecutionResultDescription::Leak { result } => *result == LeakTimeoutResult::Pass,
            ExecutionResultDescription::Timeout { result } => *result == SlowTimeoutResult::Pass,
            ExecutionResultDescription::Fail { .. } => false,
            ExecutionResultDescription::ExecFail => false,
        }
    }
}

/// Says what an error is, shortly and at length.
#[derive(Drop)]
pub struct ErrorSummary {
    /// The error in a few words.
    pub short_message: Text,
    /// The error at length.
    pub description: Text,
}

/// Holds the piece of an output that shows an error, and at which byte it begins there.
#[derive(Drop)]
pub struct OutputErrorSlice {
    /// The piece that shows the error.
    pub slice: Text,
    /// The byte of the output at which the piece begins, from 0.
    pub start: u64,
}

impl TryClone for FailureDescription {
    fn try_clone(&self, alloc: Global) -> Result<FailureDescription, AllocError> {
        match self {
            FailureDescription::ExitCode { code } => {
                Ok(FailureDescription::ExitCode { code: *code })
            }
            FailureDescription::Abort { signal, name } => {
                let name = name.try_clone(alloc)?;
                Ok(FailureDescription::Abort {
                    signal: *signal,
                    name,
                })
            }
        }
    }
}

impl TryClone for ExecutionResultDescription {
    fn try_clone(&self, alloc: Global) -> Result<ExecutionResultDescription, AllocError> {
        match self {
            ExecutionResultDescription::Pass => Ok(ExecutionResultDescription::Pass),
            ExecutionResultDescription::Leak { result } => {
                Ok(ExecutionResultDescription::Leak { result: *result })
            }
            ExecutionResultDescription::Fail { failure, leaked } => {
                let failure = failure.try_clone(alloc)?;
                Ok(ExecutionResultDescription::Fail {
                    failure,
                    leaked: *leaked,
                })
            }
            ExecutionResultDescription::ExecFail => Ok(ExecutionResultDescription::ExecFail),
            ExecutionResultDescription::Timeout { result } => {
                Ok(ExecutionResultDescription::Timeout { result: *result })
            }
        }
    }
}

impl TryClone for ErrorSummary {
    fn try_clone(&self, alloc: Global) -> Result<ErrorSummary, AllocError> {
        let (short_message, description) = clone_both(
            alloc,
            &self.short_message,
            &self.description,
        )?;
        Ok(ErrorSummary {
            short_message,
            description,
        })
    }
}

impl TryClone for OutputErrorSlice {
    fn try_clone(&self, alloc: Global) -> Result<OutputErrorSlice, AllocError> {
        Ok(OutputErrorSlice {
            slice: self.slice.try_clone(alloc)?,
            start: self.start,
        })
    }
}
