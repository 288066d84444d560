//! The loading of a whole file.
ghost use Rattle.std.specs.Prelude.{◌≡◌, ◌+◌, ◌<◌, ◌≤◌, IfOk, IfErr, OnErr, length};
ghost use Rattle.jul_base.specs.Loading.{IsLoaded, FailedLoading, StoppedLoading};
ghost use Rattle.jul_base.specs.declared.loading.LoadError.TheVariants as errors;

use crate::limits::MAX_BYTES;
use crate::shelves::Shelf;
use crate::sinks::Failed;
use std::alloc::{AllocError, Global};
use thiserror::Error;

/// Why a file was not loaded.
#[derive(Clone, Copy, Debug, PartialEq, Eq, Error)]
pub enum LoadError {
    /// The shelf failed, or no file has the name.
    #[error("Failed")]
    Failed,
    /// Memory ran out.
    #[error("Memory")]
    Memory,
}

impl From<Failed> for LoadError {
    ghost from_gives = { λ _ e. e ≡ errors.Failed };

    fn from(_e: Failed) -> LoadError {
        LoadError::Failed
    }
}

impl From<AllocError> for LoadError {
    ghost from_gives = { λ _ e. e ≡ errors.Memory };

    fn from(_e: AllocError) -> LoadError {
        LoadError::Memory
    }
}

/// How many bytes are asked of a shelf at a time.
const BLOCK: usize = 65_536;

/// The whole file of this name, or its first `limit + 1` bytes where it is longer than `limit`.
///
/// The answer comes once the file was read to its end or `limit + 1` bytes were taken. After an error a part of
/// the file may have been read.
pub fn load_all<F: Shelf>(
    alloc: Global,
    files: &mut F,
    name: &str,
    limit: u64,
) -> Result<Vec<u8>, LoadError>
    requires { limit ≤ MAX_BYTES }
    ensures ok { IfOk result (λ v. IsLoaded (F.state files.old) (F.state files.new) name.now v.items (limit + 1)) }
    ensures short { IfOk result (λ v. length v.items ≤ limit + 1) }
    ensures failed { result ≡ Err errors.Failed → FailedLoading (F.state files.old) (F.state files.new) name.now }
    ensures memory { result ≡ Err errors.Memory → StoppedLoading (F.state files.old) (F.state files.new) name.now }
    ensures faults { (F.state files.old).faults ≤ (F.state files.new).faults }
{
    files.open(name)?;
    let mut bytes = Vec::new(alloc);
    let mut block = [0u8; BLOCK];
    let most = limit as usize + 1;
    while bytes.len() < most {
        let room = BLOCK.min(most - bytes.len());
        let count = files.read(&mut block[..room])?;
        if count == 0 {
            break;
        }
        bytes.extend_from_slice(&block[..count])?;
    }
    Ok(bytes)
}
