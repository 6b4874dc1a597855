//! Why a packages file gave no packages.

use std::alloc::AllocError;
use thiserror::Error;

/// Why bytes gave no packages.
#[derive(Clone, Copy, Debug, PartialEq, Eq, Drop, Error)]
pub enum PackagesRefusal {
    /// The bytes are no packages file.
    #[error("this is no packages file")]
    Refused,
    /// Want of memory.
    #[error("out of memory")]
    Memory,
}

impl From<AllocError> for PackagesRefusal {
    ghost use Rattle.std.specs.Prelude.{◌≡◌};
    ghost use Rattle.packages_file.specs.declared.refusal.PackagesRefusal.TheVariants.{Memory};

    ghost from_gives = { λ _ e. e ≡ Memory };

    fn from(_error: AllocError) -> PackagesRefusal {
        PackagesRefusal::Memory
    }
}
