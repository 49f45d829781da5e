//! Outputs that are cut to a limit.
ghost use Rattle.std.specs.Fmt.{decimal};
ghost use Rattle.std.specs.Prelude.{◌≡◌, ◌<◌, ◌≤◌, ◌-◌, ◌↔◌, ◌++◌, ℕ, length, max, IfOk, Ok};
ghost use Rattle.rec_store.specs.Cut.{IsBorrowed, cut, cut_bytes, marker};
ghost use Rattle.rec_store.specs.declared.cut.CutOutput.TheVariants.{Borrowed};

use itoa::Buffer;
use std::alloc::{AllocError, Global};

/// Holds an output as it is stored: the whole of it, or what is left after a cut.
#[derive(Drop)]
pub enum CutOutput<'a> {
    /// The output itself, which is within the limit.
    Borrowed(&'a [u8]),
    /// The prefix and the suffix of the output, around a marker.
    Owned(Vec<u8>),
}

impl<'a> CutOutput<'a> {
    /// Returns the bytes to be stored.
    pub fn as_bytes(&self) -> &[u8]
        ensures { result.now ≡ cut_bytes self.now }
    {
        match self {
            CutOutput::Borrowed(bytes) => *bytes,
            CutOutput::Owned(bytes) => bytes.as_slice(),
        }
    }
}

const MARKER_START: &[u8] = b"\n\n... [truncated ";

const MARKER_END: &[u8] = b" bytes] ...\n\n";

/// Cuts an output to a limit of `max_size` bytes, as `docs/FORMATS.md#cut-outputs` says.
///
/// An output of at most this many bytes is lent as it is. Of a longer one the prefix and the suffix
/// are kept, and a marker between them that says by how many bytes the output exceeds the limit.
/// What is cut has `max_size` bytes, or is the marker alone where this is longer.
///
/// # Errors
///
/// `AllocError` comes where memory ran out. An output within the limit takes none.
pub fn truncate_output(
    alloc: Global,
    buf: &[u8],
    max_size: usize,
) -> Result<CutOutput<'_>, AllocError>
    ensures bytes { IfOk result (λ c. cut_bytes c ≡ cut buf.now max_size) }
    ensures size { max_size < length buf.now
        → IfOk result
        (λ c. length (cut_bytes c) ≡ max max_size (length (marker (length buf.now - max_size)))) }
    ensures lent { length buf.now ≤ max_size → result ≡ Ok (Borrowed buf.entry) }
    ensures borrowed { IfOk result (λ c. IsBorrowed c ↔ (length buf.now ≤ max_size)) }
{
    if buf.len() <= max_size {
        return Ok(CutOutput::Borrowed(buf));
    }
    let excess = buf.len() - max_size;
    let mut buffer = Buffer::new();
    let digits = buffer.format(excess).as_bytes();
    let marker_len = MARKER_START.len() + digits.len() + MARKER_END.len();
    let space = max_size.saturating_sub(marker_len);
    let prefix_len = space / 2;
    let suffix_len = space - prefix_len;
    let prefix = &buf[..prefix_len];
    let suffix = &buf[buf.len() - suffix_len..];
    let bytes = join_around(alloc, space + marker_len, prefix, digits, suffix)?;
    Ok(CutOutput::Owned(bytes))
}

/// Joins a prefix and a suffix around the marker with these digits.
fn join_around(
    alloc: Global,
    capacity: usize,
    prefix: &[u8],
    digits: &[u8],
    suffix: &[u8],
) -> Result<Vec<u8>, AllocError>
    ensures { (n : ℕ)
        → digits.now ≡ decimal n
        → IfOk result (λ bytes. bytes.items ≡ prefix.now ++ (marker n ++ suffix.now)) }
{
    let mut bytes = Vec::with_capacity(alloc, capacity)?;
    bytes.extend_from_slice(prefix)?;
    bytes.extend_from_slice(MARKER_START)?;
    bytes.extend_from_slice(digits)?;
    bytes.extend_from_slice(MARKER_END)?;
    bytes.extend_from_slice(suffix)?;
    Ok(bytes)
}
