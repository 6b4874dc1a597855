//! What a variable is replaced by, in normal form.

ghost use Rattle.std.specs.Prelude.{◌≡◌};
ghost use Rattle.dart_types.specs.Sizes.{size_of, held};
ghost use Rattle.dart_types.specs.Normal.{normal};

use crate::ids::VarId;
use crate::types::DartType;

/// A variable with the type that it stands for, which is in normal form.
#[derive(Drop)]
pub(crate) struct Replacement {
    /// The variable.
    pub(crate) var: VarId,
    /// What it stands for, in normal form.
    pub(crate) ty: DartType,
    /// How many types stand in that, or 2^64 - 1 where there are more.
    pub(crate) nodes: u64,
    ghost settled: { normal ty ≡ ty },
    ghost counted: { nodes ≡ held (size_of ty) },
}
