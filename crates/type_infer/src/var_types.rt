//! Type variables with the types that stand for them.

ghost use Rattle.std.specs.Prelude.{◌≡◌, ◌++◌, ◌∷◌, [], IfOk, OnOk, map};

use dart_types::{DartType, TypeList, VarId};
use std::alloc::{AllocError, Global};

/// Puts a variable with its type at the end.
pub(crate) fn push_pair(
    pairs: &mut Vec<(VarId, DartType)>,
    var: VarId,
    t: DartType,
) -> Result<(), AllocError>
    ensures { OnOk result (pairs.new.items ≡ pairs.old.items ++ (var, t) ∷ []) }
{
    pairs.push((var, t))?;
    Ok(())
}

/// The types of the pairs, in their order.
pub(crate) fn types_of_pairs(
    alloc: Global,
    pairs: Vec<(VarId, DartType)>,
) -> Result<TypeList, AllocError>
    ensures { IfOk result (λ types. types ≡ map (λ p. p.1) pairs.items) }
{
    let mut types = TypeList::new(alloc);
    for pair in pairs {
        types.push(pair.1)?;
    }
    Ok(types)
}
