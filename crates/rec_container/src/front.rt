//! The whole prefix of a container that may be cut off.
ghost use Rattle.std.specs.Option.{option_map};
ghost use Rattle.std.specs.Prelude.{◌≡◌, ◌<◌, ◌+◌, ◌^◌, length, IfOk, IfErr, IfSome};
ghost use Rattle.std.specs.Prelude.{Ok, Err, Some, None, false, MatchOption};
ghost use Rattle.rec_container.specs.declared.front.FrontError.TheVariants.{BadMagic};
ghost use Rattle.rec_container.specs.Placed.{placed_entry, placed_entries};
ghost use Rattle.rec_container.specs.Reading.{has_magic, step_at};
ghost use Rattle.rec_container.specs.WholePrefixes.{IsStuck, IsWholePrefix};

use crate::errors::ContainerError;
use crate::indexed::{IndexedEntries, PlacedEntry};
use crate::reader::{Container, container_of};
use crate::steps::read_step;
use std::alloc::{AllocError, Global};
use thiserror::Error;

/// Says why bytes have no whole prefix.
#[derive(Clone, Copy, Debug, Error)]
pub enum FrontError {
    /// The bytes don't begin with `nxtcont1`.
    #[error("not a container: it doesn't begin with nxtcont1")]
    BadMagic,
    /// Memory ran out.
    #[error("out of memory")]
    OutOfMemory,
}

impl From<AllocError> for FrontError {
    ghost use Rattle.rec_container.specs.declared.front.FrontError.TheVariants.{OutOfMemory};

    ghost from_gives = { λ _ e. e ≡ OutOfMemory };

    fn from(_error: AllocError) -> Self {
        FrontError::OutOfMemory
    }
}

impl<'a> Container<'a> {
    /// Reads whole entries from the left, up to the first place where none of a new name stands:
    /// what a writer that was stopped has left. Names and contents aren't copied.
    /// `docs/FORMATS.md#a-container-that-is-cut-off` says which entries these are.
    ///
    /// # Errors
    ///
    /// - `BadMagic` exactly where the bytes don't begin with `nxtcont1`.
    /// - `OutOfMemory` where memory is short.
    pub fn parse_front(alloc: Global, bytes: &'a [u8]) -> Result<Container<'a>, FrontError>
        ensures prefix { IfOk result
            (λ c. (c.bytes ≡ bytes.now) × IsWholePrefix bytes.now c.entries) }
        // `BadMagic` comes exactly where the magic isn't there.
        ensures fault { IfErr result (λ e. e ≡ BadMagic → has_magic bytes.now ≡ false) }
        ensures magic { has_magic bytes.now ≡ false → result ≡ Err BadMagic }
    {
        let Some(mut rest) = bytes.strip_prefix(b"nxtcont1".as_slice()) else {
            return Err(FrontError::BadMagic);
        };
        let mut at = 8;
        let mut entries = IndexedEntries::new(alloc);
        while let Some((held, after)) = next_entry(rest, at, &entries) {
            at = held.place + held.content.len();
            entries.push(held)?;
            rest = after;
        }
        Ok(container_of(alloc, bytes, entries)?)
    }
}

/// Returns the entry that stands whole at a place, and what follows, or none where none does.
fn next_entry<'a>(
    bytes: &'a [u8],
    at: usize,
    seen: &IndexedEntries<'a>,
) -> Option<(PlacedEntry<'a>, &'a [u8])>
    requires { at + length bytes.now < 2 ^ 64 }
    ensures step { MatchOption result (IsStuck (placed_entries seen.now) bytes.now)
        (λ x. step_at at (placed_entries seen.now) bytes.now
        ≡ Ok (Some (placed_entry x.0, x.1.now))) }
    ensures place { IfSome result
        (λ x. (x.0.place ≡ at + 11 + length x.0.name.now)
        × (x.0.place + length x.0.content.now + length x.1.now ≡ at + length bytes.now)) }
{
    match read_step(bytes, at, seen) {
        Ok(found) => found,
        Err(_) => None,
    }
}
