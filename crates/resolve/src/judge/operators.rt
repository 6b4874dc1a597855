//! What operators give, once their sides are judged.

ghost use Rattle.std.specs.Prelude.{◌≡◌, IfOk};
ghost use Rattle.std.specs.Option.{option_copied};
ghost use Rattle.judgement.specs.ExpressionRows as row;
ghost use Rattle.judgement.specs.Given.{fit_faults};
ghost use Rattle.resolve.specs.Judged.{Adds, IfHas, IfRowEvaluates, typed_of};
ghost use Rattle.resolve.specs.Rows.{operated};

use super::models::where_not_null;
use super::receivers::member_type;
use super::types::{fits, invalid_type, is_never, may_operate, may_operate_without_null};
use super::{Context, Typed, of_type, report};
use dart_tree::{BinaryOperator, Place};
use dart_types::{DartType, Rows, is_subtype};
use flow_model::LocalId;
use judgement::{DiagnosticCode, Fault, Operation};
use std::alloc::AllocError;

// An operator of a class, from its sides and what it takes and gives.
pub(super) fn operate(
    context: Context,
    at: Place,
    operator: BinaryOperator,
    operation: &Option<Operation>,
    left: &Typed,
    right: &Typed,
    faults: &mut Vec<Fault>,
) -> Result<Typed, AllocError>
    requires { operation.now ≡ row.operation_of context.rows.now.table left.now.ty operator.kind }
    ensures { IfRowEvaluates faults.old faults.new result at (operated context.entry operator left.now right.now) }
{
    check_receiver(context, operator, &left.ty, faults)?;
    check_argument(context.rows, operation, right, faults)?;
    let ty = result_type(context, &left.ty, operation, &right.ty)?;
    of_type(at, ty, right.after.clone()?)
}

// The type that is wanted of the right side: what the operator takes.
pub(super) fn parameter_of(operation: &Option<Operation>) -> Option<&DartType>
    ensures { option_copied result ≡ row.parameter_of operation.now }
{
    match operation {
        None => None,
        Some(operation) => Some(&operation.parameter),
    }
}

// The type on the left must have the operator, and may not be one that has it without null alone.
fn check_receiver(
    context: Context,
    operator: BinaryOperator,
    ty: &DartType,
    faults: &mut Vec<Fault>,
) -> Result<(), AllocError>
    ensures { Adds faults.old faults.new result (row.receiver_faults context.entry.rows.now.table operator.span ty.now operator.kind) }
{
    if may_operate(context, ty, operator.kind) {
        return Ok(());
    }
    if !is_subtype(context.rows, ty, context.core.object())
        && may_operate_without_null(context, ty, operator.kind)
    {
        return report(operator.span, DiagnosticCode::UncheckedNullableUse, faults);
    }
    report(operator.span, DiagnosticCode::UndefinedOperator, faults)
}

// The right side of an operator must fit what it takes.
fn check_argument(
    rows: &Rows,
    operation: &Option<Operation>,
    argument: &Typed,
    faults: &mut Vec<Fault>,
) -> Result<(), AllocError>
    ensures { Adds faults.old faults.new result (row.argument_faults rows.now.table argument.now.at operation.now argument.now.ty) }
{
    match operation {
        None => Ok(()),
        Some(operation) => check_fit(
            rows,
            DiagnosticCode::ArgumentType,
            argument,
            &operation.parameter,
            faults,
        ),
    }
}

// A value must fit where a type is wanted.
pub(super) fn check_fit(
    rows: &Rows,
    code: DiagnosticCode,
    value: &Typed,
    wanted: &DartType,
    faults: &mut Vec<Fault>,
) -> Result<(), AllocError>
    ensures { Adds faults.old faults.new result (fit_faults rows.now.table code value.now.at value.now.ty wanted.now) }
{
    if fits(rows, &value.ty, wanted) {
        return Ok(());
    }
    report(value.at.span, code, faults)
}

// The type of an operator's result: its own where the right side fits.
fn result_type(
    context: Context,
    receiver: &DartType,
    operation: &Option<Operation>,
    argument: &DartType,
) -> Result<DartType, AllocError>
    ensures { IfOk result (λ ty. ty ≡ row.result_type context.entry.rows.now.table receiver.now operation.now argument.now) }
{
    match operation {
        None => {
            let members = member_type(context.rows, receiver);
            if is_never(members) {
                return members.copy(context.alloc);
            }
            Ok(invalid_type())
        }
        Some(operation) => {
            if is_subtype(context.rows, argument, &operation.parameter) {
                return operation.result.copy(context.alloc);
            }
            Ok(invalid_type())
        }
    }
}

// `!=`: where it compares a local with `null` and is true, the local isn't null.
pub(super) fn differ(
    context: Context,
    at: Place,
    compared: Option<LocalId>,
    right: &Typed,
) -> Result<Typed, AllocError>
    ensures { IfHas result at (row.not_equal_row context.entry.rows.now.table compared (typed_of right.now) (typed_of right.now)) }
{
    let ty = context.core.bool().copy(context.alloc)?;
    let when_true = where_not_null(context, compared, &right.after)?;
    Ok(Typed {
        at,
        ty,
        after: right.after.clone()?,
        when_true,
        when_false: right.after.clone()?,
    })
}
