//! Why classes get no depths.

use dart_types::ClassId;
use std::alloc::AllocError;
use thiserror::Error;

/// Why classes get no depths.
#[derive(Clone, Copy, Debug, PartialEq, Eq, Drop, Error)]
pub enum Unsettled {
    /// The class is a supertype of itself, by one or more steps from a class to a direct supertype.
    #[error("a class is a supertype of itself")]
    Cycle { class: ClassId },
    /// Memory ran out, or a depth would be 2^64, for which as many classes would stand in memory.
    #[error("out of memory")]
    Memory,
}

impl From<AllocError> for Unsettled {
    ghost use Rattle.std.specs.Prelude.{◌≡◌};
    ghost use Rattle.class_depths.specs.declared.unsettled.Unsettled.TheVariants.{Memory};

    ghost from_gives = { λ e r. r ≡ Memory };

    fn from(_refused: AllocError) -> Unsettled {
        Unsettled::Memory
    }
}
