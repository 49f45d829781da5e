//! What an attempt wrote, as it runs and as it is stored.
use crate::{
    ChildSingleOutput, ExecutionResultDescription, Items, OutputFileName, Text, TryClone,
    clone_both,
};
use std::alloc::{AllocError, Global};

/// Says in which form an event has its outputs.
pub trait OutputSpec {
    /// Holds what a process wrote.
    type ChildOutput: Drop;
}

/// Says that outputs are as they are captured.
pub struct LiveSpec;

/// Says that outputs are as they are recorded, by the names of their files.
pub struct RecordingSpec;

impl OutputSpec for LiveSpec {
    type ChildOutput = ChildOutputDescription;
}

impl OutputSpec for RecordingSpec {
    type ChildOutput = ZipStoreOutputDescription;
}

/// Holds what a process wrote. An output that was not captured is None.
#[derive(Drop)]
pub enum ChildOutputDescription {
    /// The two streams apart.
    Split {
        /// What it wrote to its standard output.
        stdout: Option<ChildSingleOutput>,
        /// What it wrote to its standard error.
        stderr: Option<ChildSingleOutput>,
    },
    /// Both streams in one.
    Combined {
        /// What it wrote to either, in one.
        output: ChildSingleOutput,
    },
    /// The output was not loaded. It can't be written.
    NotLoaded,
}

/// Says where an output is in a store.
#[derive(Clone, Copy, Drop)]
pub enum ZipStoreOutput {
    /// No bytes; no file holds it.
    Empty,
    /// A file holds all of it.
    Full {
        /// The name of the file.
        file_name: OutputFileName,
    },
    /// The file holds a cut of it; it had `original_size` bytes.
    Truncated {
        /// The name of the file.
        file_name: OutputFileName,
        /// The length before the cut, in bytes.
        original_size: u64,
    },
}

/// Names the files that hold what a process wrote. An output that was not captured is None.
#[derive(Clone, Copy, Drop)]
pub enum ZipStoreOutputDescription {
    /// The two streams apart.
    Split {
        /// What it wrote to its standard output.
        stdout: Option<ZipStoreOutput>,
        /// What it wrote to its standard error.
        stderr: Option<ZipStoreOutput>,
    },
    /// Both streams in one.
    Combined {
        /// What it wrote to either, in one.
        output: ZipStoreOutput,
    },
}

/// Says what came of starting a process.
#[derive(Drop)]
pub enum ChildExecutionOutputDescription<S: OutputSpec> {
    /// It was started.
    Output {
        /// How it ended, where that is known.
        result: Option<ExecutionResultDescription>,
        /// What it wrote.
        output: S::ChildOutput,
        /// What went wrong while the output was captured.
        errors: Option<Items<Text>>,
    },
    /// It could not be started.
    StartError {
        /// Why it could not.
        message: Text,
    },
}

impl TryClone for ChildOutputDescription {
    fn try_clone(&self, alloc: Global) -> Result<ChildOutputDescription, AllocError> {
        match self {
            ChildOutputDescription::Split { stdout, stderr } => {
                let (stdout, stderr) = clone_both(alloc, stdout, stderr)?;
                Ok(ChildOutputDescription::Split { stdout, stderr })
            }
            ChildOutputDescription::Combined { output } => {
                let output = output.try_clone(alloc)?;
                Ok(ChildOutputDescription::Combined { output })
            }
            ChildOutputDescription::NotLoaded => Ok(ChildOutputDescription::NotLoaded),
        }
    }
}
