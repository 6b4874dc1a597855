//! Why the files of roots weren't read to their end.

ghost use Rattle.std.specs.Prelude.{◌≡◌};
ghost use Rattle.load_files.specs.Causes.{refused_by};

use fault_io::FilesRefusal;
use std::alloc::AllocError;
use thiserror::Error;

/// Why a snapshot was refused: by the first of these causes that was met in the order of reading.
#[derive(Clone, Copy, Debug, PartialEq, Eq, Drop, Error)]
pub enum LoadRefusal {
    /// The store failed, and its count of faults rose.
    #[error("the file store failed")]
    FilesFault,
    /// There are so many paths, more than `MAX_PATHS`.
    #[error("there are {count} paths")]
    TooManyFiles { count: u64 },
    /// A folder stands so many folders below an included path or a package folder, more than
    /// `MAX_DEPTH`.
    #[error("a folder is {depth} folders deep")]
    TooDeep { depth: u64 },
    /// There are so many bytes, more than `MAX_BYTES`.
    #[error("there are {bytes} bytes")]
    TooMuch { bytes: u64 },
    /// Want of memory.
    #[error("out of memory")]
    Memory,
}

impl From<AllocError> for LoadRefusal {
    ghost use Rattle.std.specs.Prelude.{◌≡◌};
    ghost use Rattle.load_files.specs.declared.refusal.LoadRefusal.TheVariants.{Memory};

    ghost from_gives = { λ _ e. e ≡ Memory };

    fn from(_error: AllocError) -> LoadRefusal {
        LoadRefusal::Memory
    }
}

/// The refusal that a refusal of the store comes to.
pub(crate) fn refused_by(refusal: FilesRefusal) -> LoadRefusal
    ensures { result ≡ refused_by refusal }
{
    match refusal {
        FilesRefusal::Failed => LoadRefusal::FilesFault,
        FilesRefusal::Memory => LoadRefusal::Memory,
    }
}
