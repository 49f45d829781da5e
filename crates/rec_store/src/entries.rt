//! Entries of a store, one at a time.
ghost use Rattle.std.specs.Prelude.{◌≡◌, true, false, IfErr, OnOk};
ghost use Rattle.rec_container.specs.Writing.{entry_named, has_name_length};
ghost use Rattle.rec_store.specs.Recording.{RefusesEntry, IsCollisionAt, AddsEntry};

use crate::error::RunStoreError;
use rec_container::{ContainerWriteError, ContainerWriter, Sink};
use rec_events::Text;
use std::alloc::Global;

/// Adds an entry to a store that has not failed.
pub(crate) fn add_entry<S: Sink>(
    alloc: Global,
    store: &mut ContainerWriter<S>,
    path: &str,
    content: &[u8],
) -> Result<(), RunStoreError>
    requires sound { store.old.failed ≡ false }
    requires name { has_name_length path.now ≡ true }
    ensures ok { OnOk result
        (AddsEntry S.taken S.faults store.old store.new (entry_named path.now content.now)) }
    ensures sound { OnOk result (store.new.failed ≡ false) }
    ensures err { IfErr result
        (RefusesEntry S.taken S.faults store.old store.new (entry_named path.now content.now)) }
{
    match store.add(path, content) {
        Ok(()) => Ok(()),
        Err(ContainerWriteError::NameCollision) => Err(collision(alloc, path)),
        Err(ContainerWriteError::CountOutOfRange) => Err(RunStoreError::CountOutOfRange),
        Err(ContainerWriteError::SinkFault) => Err(RunStoreError::StoreWrite),
        Err(ContainerWriteError::OutOfMemory) => Err(RunStoreError::OutOfMemory),
        // The store has not failed, and the name has a length that a container takes.
        Err(ContainerWriteError::Failed | ContainerWriteError::BadName) => unreachable!(),
    }
}

/// Returns the refusal of other bytes under a path.
fn collision(alloc: Global, path: &str) -> RunStoreError
    ensures { IsCollisionAt path.now result }
{
    match Text::from_str(alloc, path) {
        Ok(file_name) => RunStoreError::NameCollision { file_name },
        Err(e) => RunStoreError::from(e),
    }
}
