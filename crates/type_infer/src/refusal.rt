//! Why no type arguments are inferred.

ghost use Rattle.std.specs.Prelude.{◌≡◌};
ghost use Rattle.dart_types.specs.declared.refusal.TypeRefusal.{TypeRefusal};
ghost use Rattle.type_infer.specs.declared.refusal.InferRefusal.{InferRefusal};

use dart_types::{TypeRefusal, VarId};
use std::alloc::AllocError;
use thiserror::Error;

/// Why no type arguments are inferred.
#[derive(Clone, Copy, Debug, PartialEq, Eq, Drop, Error)]
pub enum InferRefusal {
    /// The solution of this parameter isn't within its bound; those before it have arguments.
    #[error("a type argument is not within its bound")]
    NoSolution { param: VarId },
    /// Nothing constrains this parameter, and its bound is `Object?`; those before it have arguments.
    #[error("nothing tells a type argument")]
    Unconstrained { param: VarId },
    /// A type on the way has more than `NODE_LIMIT` types in it: so many, or 2^64 - 1 where there
    /// are more.
    #[error("{nodes} types would stand in the type")]
    TooLarge { nodes: u64 },
    /// Memory ran out.
    #[error("out of memory")]
    Memory,
}

impl From<AllocError> for InferRefusal {
    ghost use Rattle.std.specs.Prelude.{◌≡◌};
    ghost use Rattle.type_infer.specs.declared.refusal.InferRefusal.TheVariants.{Memory};

    ghost from_gives = { λ e r. r ≡ Memory };

    fn from(_refused: AllocError) -> InferRefusal {
        InferRefusal::Memory
    }
}

impl From<TypeRefusal> for InferRefusal {
    ghost use Rattle.type_infer.specs.Refusals.{same_refusal};

    ghost from_gives = { λ e r. same_refusal e r };

    fn from(refused: TypeRefusal) -> InferRefusal {
        match refused {
            TypeRefusal::TooLarge { nodes } => InferRefusal::TooLarge { nodes },
            TypeRefusal::Memory => InferRefusal::Memory,
        }
    }
}
