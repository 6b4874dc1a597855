//! The type arguments that a call leaves out.

ghost use Rattle.std.specs.Prelude.{◌≡◌, [], length};
ghost use Rattle.std.specs.Option.{option_copied};
ghost use Rattle.type_infer.specs.Gives.{Answers, Gives};
ghost use Rattle.type_infer.specs.Inference.{Argument, Arguments};
ghost use Rattle.type_infer.specs.InferenceOf.{inferred_of};

use crate::bounds::{bound_as_argument, within_bound};
use crate::constraints::Constraint;
use crate::contexts::Context;
use crate::gathering::gather;
use crate::refusal::InferRefusal;
use crate::solving::solution;
use crate::var_types::{push_pair, types_of_pairs};
use dart_types::{DartType, Rows, TypeList, VarId};
use std::alloc::Global;
use type_bounds::bound_table_laws;

/// The arguments for the type parameters of a call with this result, in the order of the parameters;
/// `formals` are the types of the parameters that its arguments are for, and `actuals` the types of
/// these. The call's result is matched against its context, if it has one, and each formal
/// against the type of its argument. A parameter is the upper bound of the types that it is to be at
/// least, else the lower bound of those that it is to be at most, each in the order in which they
/// were found, with X in the place of each `X & U`; with no such types it is its bound, unless that
/// is `Object?`.
///
/// `NoSolution` comes for the first parameter without an argument where it has a solution, but not
/// within its bound, and `Unconstrained` where nothing constrains it; `TooLarge` where a type on the
/// way has too many nodes. `Invalid` constrains as any type does. So an argument, or a refusal, may
/// come of a part that a diagnostic left open, and a refusal is not one to be told then. A type in
/// which `OPEN_PARAMETER` stands constrains nothing.
pub fn infer_arguments(
    alloc: Global,
    rows: &Rows,
    params: &[VarId],
    returned: &DartType,
    context: Option<&Context>,
    formals: &[DartType],
    actuals: &[DartType],
) -> Result<TypeList, InferRefusal>
    requires { length formals.now ≡ length actuals.now }
    ensures { Answers result (inferred_of rows.now.table params.now returned.now (option_copied context.entry) formals.now actuals.now) }
{
    bound_table_laws(rows);
    let found = gather(alloc, rows, params, returned, context, formals, actuals)?;
    arguments_for(alloc, rows, &found, params)
}

// The arguments for the parameters under these constraints.
fn arguments_for(
    alloc: Global,
    rows: &Rows,
    found: &[Constraint],
    params: &[VarId],
) -> Result<TypeList, InferRefusal>
    ensures { Gives (Arguments rows.now.table found.now [] params.now) result }
{
    let mut given = Vec::new(alloc);
    for param in params {
        let argument = argument_for(alloc, rows, found, &given, *param)?;
        push_pair(&mut given, *param, argument)?;
    }
    let types = types_of_pairs(alloc, given)?;
    Ok(types)
}

// The argument for a parameter, where those before it have these.
fn argument_for(
    alloc: Global,
    rows: &Rows,
    found: &[Constraint],
    before: &[(VarId, DartType)],
    param: VarId,
) -> Result<DartType, InferRefusal>
    ensures { Gives (Argument rows.now.table found.now before.now param) result }
{
    match solution(alloc, rows, found, param)? {
        Some(solved) => within_bound(alloc, rows, before, param, &solved),
        None => bound_as_argument(alloc, rows, before, param),
    }
}
