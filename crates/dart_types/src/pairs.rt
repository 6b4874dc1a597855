//! The replacements of variables, and how one is found.

ghost use Rattle.std.specs.Prelude.{◌≡◌, IfOk, find};
ghost use Rattle.std.specs.Option.{option_copied};
ghost use Rattle.dart_types.specs.Ty.{Ty, types_of};
ghost use Rattle.dart_types.specs.Same.{same_var};
ghost use Rattle.dart_types.specs.Substitution.{put, by_params};
ghost use Rattle.dart_types.specs.Normal.{normal, substituted};
ghost use Rattle.dart_types.specs.Replacements.{replaced};

use crate::ids::VarId;
use crate::replacements::Replacement;
use crate::sizes::size;
use crate::types::DartType;
use std::alloc::{AllocError, Global};

/// The first replacement of a variable, if there is one. It takes no memory.
pub(crate) fn find_replacement(replacements: &[Replacement], var: VarId) -> Option<&Replacement>
    ensures { option_copied result ≡ find (λ r. same_var r.var var) replacements.now }
{
    replacements.iter().find(|r| r.var == var)
}

/// The replacements that pairs of variables and types give, in their order. Each type is brought to
/// its normal form and counted once.
pub(crate) fn replacements_of(
    alloc: Global,
    with: &[(VarId, DartType)],
) -> Result<Vec<Replacement>, AllocError>
    ensures { IfOk result (λ formed. (t : Ty) → replaced formed.items t ≡ substituted with.now t) }
{
    let mut formed = Vec::new(alloc);
    for pair in with {
        formed.push(settled(alloc, pair.0, &pair.1)?)?;
    }
    Ok(formed)
}

/// The replacements of a class's parameters by its arguments, in their order. A parameter without an
/// argument has none.
pub(crate) fn replacements_for(
    alloc: Global,
    params: &[VarId],
    args: &[DartType],
) -> Result<Vec<Replacement>, AllocError>
    ensures { IfOk result (λ formed. (t : Ty) → replaced formed.items t ≡ normal (put (by_params params.now (types_of args.now)) t)) }
{
    let mut formed = Vec::new(alloc);
    for i in 0..params.len() {
        if i >= args.len() {
            return Ok(formed);
        }
        formed.push(settled(alloc, params[i], &args[i])?)?;
    }
    Ok(formed)
}

// The replacement of a variable by a type, which is brought to its normal form and counted.
fn settled(alloc: Global, var: VarId, with: &DartType) -> Result<Replacement, AllocError>
    ensures { IfOk result (λ formed. (formed.var ≡ var) × (formed.ty ≡ normal with.now)) }
{
    let ty = with.form_with(alloc, &[])?;
    let nodes = size(&ty);
    Ok(Replacement { var, ty, nodes })
}
