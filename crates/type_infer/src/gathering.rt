//! The constraints that a call sets on its type parameters.

ghost use Rattle.std.specs.Prelude.{◌≤◌, length, Ok, IfOk, IfErr};
ghost use Rattle.std.specs.Option.{option_copied};
ghost use Rattle.dart_types.specs.Ty.{types_of};
ghost use Rattle.type_infer.specs.Pairs.{paired};
ghost use Rattle.type_infer.specs.Inference.{context_pair, pairs_of, Gathered};
ghost use Rattle.type_infer.specs.Gathers.{EndsGathering, GathersInto};
ghost use Rattle.type_infer.specs.declared.constraints.Side.TheVariants.{AtLeast};

use crate::constraints::{Constraint, Side};
use crate::contexts::Context;
use crate::matching::match_types;
use dart_types::{DartType, Rows, TypeRefusal, VarId};
use std::alloc::Global;

/// The constraints that the context of a call sets, if it has one, then those of the arguments, which
/// have these types. What doesn't match sets those that it has set till then.
pub(crate) fn gather(
    alloc: Global,
    rows: &Rows,
    params: &[VarId],
    returned: &DartType,
    context: Option<&Context>,
    formals: &[DartType],
    actuals: &[DartType],
) -> Result<Vec<Constraint>, TypeRefusal>
    requires { length actuals.now ≤ length formals.now }
    ensures ok { let pairs = pairs_of returned.now (option_copied context.entry) formals.now actuals.now in
        IfOk result (λ found. Gathered rows.now.table params.now pairs (Ok found.items)) }
    ensures err { let pairs = pairs_of returned.now (option_copied context.entry) formals.now actuals.now in
        IfErr result (EndsGathering rows.now.table params.now pairs) }
{
    let mut found = Vec::new(alloc);
    gather_context(alloc, rows, params, returned, context, &mut found)?;
    gather_arguments(alloc, rows, params, formals, actuals, &mut found)?;
    Ok(found)
}

// Puts the constraints that the context sets, if there is one, at the end of the list.
fn gather_context(
    alloc: Global,
    rows: &Rows,
    params: &[VarId],
    returned: &DartType,
    context: Option<&Context>,
    found: &mut Vec<Constraint>,
) -> Result<(), TypeRefusal>
    ensures { let pairs = context_pair returned.now (option_copied context.entry) in
        GathersInto rows.now.table params.now pairs found.old.items found.new.items result }
{
    match context {
        None => Ok(()),
        Some(context) => {
            let side = Side::AtMost;
            match_types(
                alloc,
                rows,
                params,
                side,
                returned,
                context.as_type(),
                found,
            )?;
            Ok(())
        }
    }
}

// Puts the constraints that the arguments set at the end of the list.
fn gather_arguments(
    alloc: Global,
    rows: &Rows,
    params: &[VarId],
    formals: &[DartType],
    actuals: &[DartType],
    found: &mut Vec<Constraint>,
) -> Result<(), TypeRefusal>
    requires { length actuals.now ≤ length formals.now }
    ensures { let pairs = paired AtLeast (types_of formals.now) (types_of actuals.now) in
        GathersInto rows.now.table params.now pairs found.old.items found.new.items result }
{
    for i in 0..actuals.len() {
        let side = Side::AtLeast;
        match_types(alloc, rows, params, side, &formals[i], &actuals[i], found)?;
    }
    Ok(())
}
