//! The outputs of an event, as they are stored.
ghost use Rattle.std.specs.Prelude.{option_map, nat_le, if◌then◌else◌};
ghost use Rattle.std.specs.Prelude.{◌≡◌, ◌∷◌, [], false, true};
ghost use Rattle.rec_container.specs.Writing.{entry_named, has_name_length};
ghost use Rattle.rec_events.specs.declared.outputs.ZipStoreOutput.TheVariants.{Full, Truncated};
ghost use Rattle.rec_store.specs.EventOutputs.{output_entries, captured_entries};
ghost use Rattle.rec_store.specs.EventOutputs.{description_entries, execution_entries, stored_as};
ghost use Rattle.rec_store.specs.EventOutputs.{description_recorded, execution_recorded};
ghost use Rattle.rec_store.specs.OutputPaths as spec;
ghost use Rattle.rec_store.specs.Stopping.{StoresAs};

use crate::cut::truncate_output;
use crate::entries::add_entry;
use crate::error::RunStoreError;
use crate::namer::OutputNamer;
use crate::output_paths::output_path;
use rec_container::{ContainerWriter, Sink};
use rec_events::{
    ChildExecutionOutputDescription, ChildOutputDescription, ChildSingleOutput, LiveSpec,
    OutputFileName, OutputKind, RecordingSpec, ZipStoreOutput, ZipStoreOutputDescription,
};
use std::alloc::Global;

/// Holds the rules by which outputs are stored.
///
/// An output is cut to a limit, and stored under the number of what is kept of it and its kind. One
/// without bytes is not stored, and equal outputs of one kind are stored once.
#[derive(Clone, Copy)]
pub(crate) struct OutputRules<'n, N: OutputNamer> {
    pub(crate) alloc: Global,
    /// Numbers what is kept of an output.
    pub(crate) namer: &'n N,
    /// At how many bytes an output is cut.
    pub(crate) max_size: usize,
}

/// Stores the bytes of an output under its name.
fn put_output<S: Sink>(
    alloc: Global,
    store: &mut ContainerWriter<S>,
    file_name: OutputFileName,
    content: &[u8],
) -> Result<(), RunStoreError>
    requires sound { store.old.failed ≡ false }
    ensures { StoresAs S.taken S.faults store.old store.new
        (entry_named (spec.output_path file_name) content.now ∷ []) tt result }
{
    let path = output_path(alloc, file_name)?;
    add_entry(alloc, store, path.as_str(), content)
}

impl<'n, N: OutputNamer> OutputRules<'n, N> {
    /// Stores an output, and returns how it is recorded.
    fn store_output<S: Sink>(
        &self,
        store: &mut ContainerWriter<S>,
        kind: OutputKind,
        bytes: &[u8],
    ) -> Result<ZipStoreOutput, RunStoreError>
        requires sound { store.old.failed ≡ false }
        ensures { StoresAs S.taken S.faults store.old store.new
            (output_entries (N.number self.now.namer.now) self.now.max_size kind bytes.now)
            (stored_as (N.number self.now.namer.now) self.now.max_size kind bytes.now) result }
    {
        if bytes.is_empty() {
            return Ok(ZipStoreOutput::Empty);
        }
        let cut = truncate_output(self.alloc, bytes, self.max_size)?;
        let file_name = OutputFileName::new(self.namer.name(cut.as_bytes()), kind);
        put_output(self.alloc, store, file_name, cut.as_bytes())?;
        Ok(self.recorded(file_name, bytes.len()))
    }

    /// Returns how an output of so many bytes, which has some, is recorded.
    fn recorded(&self, file_name: OutputFileName, size: usize) -> ZipStoreOutput
        ensures { result
            ≡ (if nat_le size self.now.max_size then Full file_name else Truncated file_name size) }
    {
        if size <= self.max_size {
            ZipStoreOutput::Full { file_name }
        } else {
            ZipStoreOutput::Truncated {
                file_name,
                original_size: size as u64,
            }
        }
    }

    /// Stores an output that may not have been captured.
    fn store_captured<S: Sink>(
        &self,
        store: &mut ContainerWriter<S>,
        kind: OutputKind,
        output: &Option<ChildSingleOutput>,
    ) -> Result<Option<ZipStoreOutput>, RunStoreError>
        requires sound { store.old.failed ≡ false }
        ensures { StoresAs S.taken S.faults store.old store.new
            (captured_entries (N.number self.now.namer.now) self.now.max_size kind output.now)
            (option_map (stored_as (N.number self.now.namer.now) self.now.max_size kind) output.now)
            result }
    {
        match output {
            Some(output) => Ok(Some(self.store_output(store, kind, output.as_bytes())?)),
            None => Ok(None),
        }
    }

    /// Stores what a process wrote.
    fn store_description<S: Sink>(
        &self,
        store: &mut ContainerWriter<S>,
        output: &ChildOutputDescription,
    ) -> Result<ZipStoreOutputDescription, RunStoreError>
        requires sound { store.old.failed ≡ false }
        ensures { StoresAs S.taken S.faults store.old store.new
            (description_entries (N.number self.now.namer.now) self.now.max_size output.now)
            (description_recorded (N.number self.now.namer.now) self.now.max_size output.now)
            result }
    {
        match output {
            ChildOutputDescription::Split { stdout, stderr } => {
                let stdout = self.store_captured(store, OutputKind::Stdout, stdout)?;
                let stderr = self.store_captured(store, OutputKind::Stderr, stderr)?;
                Ok(ZipStoreOutputDescription::Split { stdout, stderr })
            }
            ChildOutputDescription::Combined { output } => {
                let output = self.store_output(store, OutputKind::Combined, output.as_bytes())?;
                Ok(ZipStoreOutputDescription::Combined { output })
            }
            ChildOutputDescription::NotLoaded => Ok(ZipStoreOutputDescription::Split {
                stdout: None,
                stderr: None,
            }),
        }
    }

    /// Stores what came of starting a process.
    pub(crate) fn store_execution<S: Sink>(
        &self,
        store: &mut ContainerWriter<S>,
        output: ChildExecutionOutputDescription<LiveSpec>,
    ) -> Result<ChildExecutionOutputDescription<RecordingSpec>, RunStoreError>
        requires sound { store.old.failed ≡ false }
        ensures { StoresAs S.taken S.faults store.old store.new
            (execution_entries (N.number self.now.namer.now) self.now.max_size output)
            (execution_recorded (N.number self.now.namer.now) self.now.max_size output) result }
    {
        match output {
            ChildExecutionOutputDescription::Output {
                result,
                output,
                errors,
            } => {
                let stored = self.store_description(store, &output);
                // By a call: in place, each form of output would be a case of the proof.
                drop(output);
                let output = match stored {
                    Ok(output) => output,
                    Err(error) => {
                        drop((result, errors));
                        return Err(error);
                    }
                };
                Ok(ChildExecutionOutputDescription::Output {
                    result,
                    output,
                    errors,
                })
            }
            ChildExecutionOutputDescription::StartError { message } => {
                Ok(ChildExecutionOutputDescription::StartError { message })
            }
        }
    }
}
