//! The numbers that name outputs, by their bytes.
ghost use Rattle.std.specs.Prelude.{◌≡◌, ◌<◌, ◌^◌, ℕ, List};
ghost use Rattle.rec_store.specs.Namer.{first_word};

use sha2::{Digest, Sha256};

/// Numbers outputs, which are stored under their numbers.
///
/// A number is a function of the bytes, so equal outputs have one number. It takes no memory.
pub trait OutputNamer {
    /// Maps a byte string to its number.
    ghost number: { Self → List ℕ → ℕ };

    /// Returns the number of these bytes.
    fn name(&self, bytes: &[u8]) -> u64
        ensures { result ≡ number self.now bytes.now };

    /// Says that the number of each byte string is a u64.
    ghost in_range: { (namer : Self) (bytes : List ℕ) → number namer bytes < 2 ^ 64 };
}

/// Numbers an output by the first eight bytes of its SHA-256 digest (FIPS 180-4), as a big-endian
/// number.
#[derive(Clone, Copy)]
pub struct Sha256Namer;

impl OutputNamer for Sha256Namer {
    ghost use Rattle.rec_store.specs.Namer.{sha256_number};
    ghost use Rattle.rec_store.specs.NamerLaws.{sha256_number_below};

    ghost number = { λ _. sha256_number };

    ghost in_range = { λ _. sha256_number_below };

    #[tactic(auto, unfolding(crate::specs::Namer::sha256_number))]
    fn name(&self, bytes: &[u8]) -> u64 {
        first_word_of(&Sha256::digest(bytes))
    }
}

/// Numbers every output alike, so that different outputs clash.
#[derive(Clone, Copy)]
pub struct ConstantNamer {
    /// The number of each output.
    pub number: u64,
}

impl OutputNamer for ConstantNamer {
    ghost use Rattle.rec_store.specs.Namer.{as_u64};
    ghost use Rattle.rec_store.specs.NamerLaws.{as_u64_below};

    // A field of a program is below 2^64 by its type.
    ghost number = { λ namer _. as_u64 namer.number };

    ghost in_range = { λ namer _. as_u64_below namer.number };

    fn name(&self, _bytes: &[u8]) -> u64 {
        self.number
    }
}

/// Returns the first eight bytes of a digest, as a big-endian number.
fn first_word_of(digest: &[u8; 32]) -> u64
    ensures { result ≡ first_word digest.now }
{
    u64::from_be_bytes([
        digest[0], digest[1], digest[2], digest[3], digest[4], digest[5], digest[6], digest[7],
    ])
}
