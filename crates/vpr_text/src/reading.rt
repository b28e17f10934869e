//! Reading a source whole.

ghost use Rattle.std.specs.Prelude.{◌≡◌, ◌+◌, ◌^◌, ◌<◌, ◌≤◌, ◌↔◌, length, false, IsTrue, IfOk, OnErr, IsErrOf, vec_len, is_ok};
ghost use Rattle.vpr_text.specs.declared.reading.ReadFault.TheVariants.{Failed, Memory};
ghost use Rattle.vpr_text.specs.Transfer.{ReadsFront};
ghost use Rattle.vpr_text.specs.kept.Transfers.{ReadsMore};

use crate::source::{Broken, ByteSource};
use crate::split::MAX_LEN;
use std::alloc::{AllocError, AllocFailed, Global};
use thiserror::Error;

/// Why a source could not be read.
#[derive(Clone, Copy, Debug, PartialEq, Eq, Error)]
pub enum ReadFault {
    /// The source failed.
    #[error("a reader failed")]
    Failed,
    /// Memory ran out.
    #[error("memory ran out")]
    Memory,
}

impl From<Broken> for ReadFault {
    ghost from_gives = { λ _ e. e ≡ Failed };

    fn from(_e: Broken) -> ReadFault {
        ReadFault::Failed
    }
}

impl From<AllocError> for ReadFault {
    ghost from_gives = { λ _ e. e ≡ Memory };

    fn from(_e: AllocError) -> ReadFault {
        ReadFault::Memory
    }
}

impl<T: Drop> From<AllocFailed<T>> for ReadFault {
    ghost from_gives = { λ _ e. e ≡ Memory };

    fn from(_e: AllocFailed<T>) -> ReadFault {
        ReadFault::Memory
    }
}

/// How many bytes are asked for at a time.
const CHUNK_LEN: usize = 16_384;

/// Appends what one call of the source gives, and says how much that is.
fn read_some<R: ByteSource>(
    source: &mut R,
    bytes: &mut Vec<u8>,
    buffer: &mut [u8],
) -> Result<usize, ReadFault>
    requires { 0 < length buffer.old }
    ensures bytes { IfOk result (ReadsMore (R.remaining source.old)
        (R.remaining source.new) bytes.old.items bytes.new.items) }
    ensures count { IfOk result (λ n. n ≤ length buffer.old) }
    ensures working { IfOk result (λ _. R.failed source.new ≡ false) }
    ensures failed { IsErrOf result ReadFault.Failed ↔ IsTrue (R.failed source.new) }
{
    let count = source.take(buffer)?;
    bytes.extend_from_slice(&buffer[..count])?;
    Ok(count)
}

/// Reads a source to its end, or until 2^24 + 1 bytes are held: one more than a text may have.
pub fn read_all<R: ByteSource>(alloc: Global, source: &mut R) -> Result<Vec<u8>, ReadFault>
    ensures bytes { IfOk result
        (λ v. ReadsFront (2 ^ 24 + 1) (R.remaining source.old) (R.remaining source.new) v.items) }
    ensures most { IfOk result (λ v. vec_len v ≤ 2 ^ 24 + 1) }
    ensures failed { IsErrOf result ReadFault.Failed ↔ IsTrue (R.failed source.new) }
{
    let mut bytes = Vec::new(alloc);
    let mut buffer = [0u8; CHUNK_LEN];
    while bytes.len() <= MAX_LEN {
        let room = (MAX_LEN + 1 - bytes.len()).min(CHUNK_LEN);
        if read_some(source, &mut bytes, &mut buffer[..room])? == 0 {
            break;
        }
    }
    Ok(bytes)
}
