//! The run of a directory, packed into a bundle.
ghost use Rattle.std.specs.Prelude.{◌≡◌, IfOk, string_bytes};
ghost use Rattle.rec_program.specs.Counts.{packed_line};
ghost use Rattle.rec_program.specs.Running.{RunsPack, TellsPacked};

use crate::counts::counts_line;
use crate::program::print;
use rec_container::{Sink, Source};
use rec_disk::Disk;
use rec_export::Settings;
use rec_faults::refuse;
use rec_packing::{PackError, Packed, pack};
use std::alloc::{AllocError, Global};

/// Writes the bundle of the run in a directory, and prints how much that is.
pub(crate) fn pack_directory<S: Source, D: Disk, T: Sink, G: Sink>(
    alloc: Global,
    directory: &str,
    bundle: &str,
    settings: &Settings,
    source: &mut S,
    disk: &mut D,
    out: &mut T,
    diag: &mut G,
) -> u8
    ensures { RunsPack S.left S.faults D.files D.faults T.taken T.faults G.taken G.faults
        directory.now bundle.now settings.now result source.old source.new disk.old disk.new
        out.old out.new diag.old diag.new }
{
    match pack(
        alloc,
        disk,
        directory,
        bundle,
        source,
        settings.session_limit,
    ) {
        Ok(packed) => tell(alloc, &packed, out, diag),
        Err(error) => refuse(error, diag),
    }
}

/// Prints what was packed.
fn tell<T: Sink, G: Sink>(alloc: Global, packed: &Packed, out: &mut T, diag: &mut G) -> u8
    ensures { TellsPacked T.taken T.faults G.taken G.faults packed.now result out.old out.new
        diag.old diag.new }
{
    match packed_line(alloc, packed) {
        Ok(line) => print(line.as_bytes(), out, diag),
        Err(_) => refuse(PackError::OutOfMemory, diag),
    }
}

/// Makes the line that says how much was packed, and whether the run was stopped.
#[tactic(auto, unfolding(crate::specs::Counts::counts_line))]
fn packed_line(alloc: Global, packed: &Packed) -> Result<String, AllocError>
    ensures { IfOk result (λ line. string_bytes line ≡ packed_line packed.now) }
{
    if packed.stopped {
        let Packed {
            events,
            outputs,
            ..
        } = packed;
        return format!(in alloc; "events={events} outputs={outputs} stopped\n");
    }
    counts_line(alloc, packed.events, packed.outputs)
}
