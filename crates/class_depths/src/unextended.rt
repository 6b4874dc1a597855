//! Why declared classes aren't put over rows.

use crate::unsettled::Unsettled;
use dart_types::ClassId;
use std::alloc::AllocError;
use thiserror::Error;

/// Why declared classes aren't put over rows.
#[derive(Clone, Copy, Debug, PartialEq, Eq, Drop, Error)]
pub enum Unextended {
    /// The class is a supertype of itself, by one or more steps from a class to a direct supertype.
    #[error("a class is a supertype of itself")]
    Cycle { class: ClassId },
    /// The classes with their depths, or the type variables, aren't well formed over the rows below.
    #[error("a class or a type variable is not well formed")]
    Unformed,
    /// Memory ran out, or a depth would be 2^64, for which as many classes would stand in memory.
    #[error("out of memory")]
    Memory,
}

impl From<AllocError> for Unextended {
    ghost use Rattle.std.specs.Prelude.{◌≡◌};
    ghost use Rattle.class_depths.specs.declared.unextended.Unextended.TheVariants.{Memory};

    ghost from_gives = { λ e r. r ≡ Memory };

    fn from(_refused: AllocError) -> Unextended {
        Unextended::Memory
    }
}

impl From<Unsettled> for Unextended {
    ghost use Rattle.class_depths.specs.Refusals.{same_refusal};

    ghost from_gives = { λ e r. same_refusal e r };

    fn from(refused: Unsettled) -> Unextended {
        match refused {
            Unsettled::Cycle { class } => Unextended::Cycle { class },
            Unsettled::Memory => Unextended::Memory,
        }
    }
}
