//! The sums of files, made while these are read.

ghost use Rattle.std.specs.Prelude.{◌≡◌, ℕ, List};
ghost use Rattle.hex.specs.Hex.{encode_lower};
ghost use Rattle.sha2.specs.Hashers.{Holds256};
ghost use Rattle.sha2.specs.Sha256.{sha256};

use hex::encode_to_slice;
use sha2::{Digest, Sha256};
use std::sync::{Mutex, Wait};
use vpr_text::{Broken, ByteSource};

/// Returns the sum of a hasher, in hexadecimal digits.
fn digits_of(hasher: Sha256) -> [u8; 64]
    ensures { (bytes : List ℕ) → Holds256 hasher bytes
        → result ≡ encode_lower (sha256 bytes) }
{
    let mut digits = [0; 64];
    let _ = encode_to_slice(&hasher.finalize(), &mut digits);
    digits
}

/// The SHA-256 of the bytes that a source gave.
#[derive(Drop)]
pub struct FileSum {
    hasher: Mutex<Sha256>,
}

impl FileSum {
    /// Returns the sum of no bytes.
    pub fn new() -> FileSum {
        FileSum {
            hasher: Mutex::new(Sha256::new()),
        }
    }

    /// Adds bytes.
    fn add<R: Wait>(&self, rt: &R, bytes: &[u8]) {
        let mut hasher = self.hasher.lock(rt);
        hasher.update(bytes);
    }

    /// Returns the sum of the bytes up to now, in hexadecimal digits.
    pub fn digits<R: Wait>(&self, rt: &R) -> [u8; 64] {
        let hasher = self.hasher.lock(rt);
        digits_of(hasher.clone().unwrap())
    }
}

/// A source that gives the bytes of another one, and adds them to a sum, if there is one.
#[derive(Drop)]
pub struct Summed<'a, R, S> {
    rt: &'a R,
    source: S,
    sum: Option<&'a FileSum>,
}

impl<'a, R: Wait, S: ByteSource> Summed<'a, R, S> {
    /// Returns a source of these bytes, which are added to the sum.
    pub fn new(rt: &'a R, source: S, sum: Option<&'a FileSum>) -> Summed<'a, R, S> {
        Summed { rt, source, sum }
    }
}

impl<R: Wait, S: ByteSource> ByteSource for Summed<'_, R, S> {
    ghost remaining = { λ s. S.remaining s.source };

    ghost failed = { λ s. S.failed s.source };

    fn take(&mut self, buffer: &mut [u8]) -> Result<usize, Broken> {
        let count = self.source.take(buffer)?;
        if let Some(sum) = self.sum {
            sum.add(self.rt, &buffer[..count]);
        }
        Ok(count)
    }
}
