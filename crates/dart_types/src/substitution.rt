//! Types with others put in for their variables.

ghost use Rattle.dart_types.specs.Normal.{substituted};
ghost use Rattle.dart_types.specs.Formed.{Forms};

use crate::ids::VarId;
use crate::pairs::replacements_of;
use crate::refusal::{NODE_LIMIT, TypeRefusal};
use crate::types::DartType;
use std::alloc::Global;

/// The normal form of a type in which each variable is replaced by the type of the first pair that
/// has it; other variables stay, and so does the X of an `X & U`. `TooLarge` comes exactly where
/// more than `NODE_LIMIT` types would stand in it, and is found before any of it is formed. Neither
/// the type nor those of the pairs need be in normal form.
pub fn substitute(
    alloc: Global,
    t: &DartType,
    with: &[(VarId, DartType)],
) -> Result<DartType, TypeRefusal>
    ensures { Forms result (substituted with.now t.now) }
{
    let replacements = replacements_of(alloc, with)?;
    let nodes = t.nodes_with(&replacements);
    if nodes > NODE_LIMIT {
        return Err(TypeRefusal::TooLarge { nodes });
    }
    let formed = t.form_with(alloc, &replacements)?;
    Ok(formed)
}
