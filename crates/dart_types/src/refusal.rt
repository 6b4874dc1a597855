//! Why a type isn't formed.

use std::alloc::AllocError;
use thiserror::Error;

/// How many types may stand in a type that a rule forms, itself among them.
pub const NODE_LIMIT: u64 = 4096;

/// Why a rule forms no type.
#[derive(Clone, Copy, Debug, PartialEq, Eq, Drop, Error)]
pub enum TypeRefusal {
    /// More than `NODE_LIMIT` types stand in it: so many, or 2^64 - 1 where there are more.
    #[error("{nodes} types would stand in the type")]
    TooLarge { nodes: u64 },
    /// Memory ran out.
    #[error("out of memory")]
    Memory,
}

impl From<AllocError> for TypeRefusal {
    ghost use Rattle.std.specs.Prelude.{◌≡◌};
    ghost use Rattle.dart_types.specs.declared.refusal.TypeRefusal.TheVariants.{Memory};

    ghost from_gives = { λ e r. r ≡ Memory };

    fn from(_refused: AllocError) -> TypeRefusal {
        TypeRefusal::Memory
    }
}
