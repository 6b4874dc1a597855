//! What declarations and assignments do with a local.

ghost use Rattle.std.specs.Prelude.{◌≡◌, if◌then◌else◌, IfOk, IsNone, OnOk};
ghost use Rattle.dart_types.specs.Ty.{invalid};
ghost use Rattle.dart_types.specs.SubTest.{sub};
ghost use Rattle.std.specs.Option.{option_copied};
ghost use Rattle.flow_model.specs.Flow.{facts_of};
ghost use Rattle.judgement.specs.ExpressionRows as row;
ghost use Rattle.judgement.specs.Given.{of_type};
ghost use Rattle.judgement.specs.StatementRows as statement;
ghost use Rattle.resolve.specs.declared.judge.Context.{Context};
ghost use Rattle.resolve.specs.Around.{around};
ghost use Rattle.resolve.specs.Judged.{IfHas, IfRowEvaluates, IfRowGives};
ghost use Rattle.resolve.specs.Points.{known, surroundings};
ghost use Rattle.resolve.specs.Rows.{declared_with, initialized, put, written};

use super::operators::check_fit;
use super::types::invalid_type;
use super::{Context, Point, Typed, of_type, report};
use crate::names::{NamesInScope, declared_local};
use dart_tree::{Name, Place};
use dart_types::{DartType, is_subtype};
use flow_model::{Flow, LocalDecl, LocalId};
use judgement::{DiagnosticCode, Fault, Meaning};
use std::alloc::AllocError;
use std::rc::Rc;

// The type that is wanted of a value that is assigned: that of the local.
pub(super) fn wanted_by(meaning: Meaning, before: &Flow) -> Option<&DartType>
    ensures { option_copied result ≡ row.wanted_by meaning before.now }
{
    match meaning {
        Meaning::Local(var) => before.declared(var),
        Meaning::Nothing => None,
        Meaning::Print => None,
        Meaning::Class(_) => None,
        Meaning::Other => None,
    }
}

// An assignment, which stands at the place, writes the local that the name means.
pub(super) fn assign(
    context: Context,
    at: Place,
    meaning: Meaning,
    target: Place,
    value: &Typed,
    faults: &mut Vec<Fault>,
) -> Result<Typed, AllocError>
    ensures { IfRowEvaluates faults.old faults.new result at (put context.entry meaning target value.now) }
{
    match meaning {
        Meaning::Local(var) => write(context, at, target, var, value, faults),
        Meaning::Nothing => {
            report(target.span, DiagnosticCode::UndefinedName, faults)?;
            unwritten(at, value)
        }
        Meaning::Print => unwritten(at, value),
        Meaning::Class(_) => unwritten(at, value),
        Meaning::Other => unwritten(at, value),
    }
}

// An assignment that writes nothing.
fn unwritten(at: Place, value: &Typed) -> Result<Typed, AllocError>
    ensures { IfHas result at (of_type invalid value.now.after.value) }
{
    of_type(at, invalid_type(), value.after.clone()?)
}

// A local is written, if it is declared before.
fn write(
    context: Context,
    at: Place,
    target: Place,
    var: LocalId,
    value: &Typed,
    faults: &mut Vec<Fault>,
) -> Result<Typed, AllocError>
    ensures { IfRowEvaluates faults.old faults.new result at (written context.entry var target value.now) }
{
    match value.after.declared(var) {
        Some(declared) => {
            check_fit(
                context.rows,
                DiagnosticCode::InvalidAssignment,
                value,
                declared,
                faults,
            )?;
            let ty = assigned_type(context, &value.ty, declared)?;
            let after = Flow::after_write(
                context.alloc,
                context.rows,
                &value.after,
                var,
                &value.ty,
            )?;
            of_type(at, ty, after)
        }
        None => {
            report(
                target.span,
                DiagnosticCode::ReferencedBeforeDeclaration,
                faults,
            )?;
            unwritten(at, value)
        }
    }
}

// The type of an assignment: that of the value, where it fits.
fn assigned_type(
    context: Context,
    value: &DartType,
    declared: &DartType,
) -> Result<DartType, AllocError>
    ensures { IfOk result (λ ty. ty ≡ (if sub context.entry.rows.now.table value.now declared.now then value.now else invalid)) }
{
    if is_subtype(context.rows, value, declared) {
        return value.copy(context.alloc);
    }
    Ok(invalid_type())
}

// Whether the block has declared a name before: its word means another local, or its own is in scope.
fn is_declared_before(names: &NamesInScope, name: Name, before: &Flow) -> bool
    ensures { (context : Context) → result ≡ statement.is_declared_before (around context names.now) name before.now }
{
    let own = declared_local(name);
    match names.local(name.word) {
        Some(var) => var.0 != own.0 || before.is_in_scope(own),
        None => true,
    }
}

// A variable without initializer: the local comes into scope, unless its name was declared before.
pub(super) fn declare(
    point: Point,
    name: Name,
    ty: &DartType,
    faults: &mut Vec<Fault>,
) -> Result<Rc<Flow>, AllocError>
    ensures { IfRowGives faults.old faults.new result (statement.declare_row (surroundings point.entry) name ty.now (known point.entry)) }
{
    let context = point.context;
    if is_declared_before(point.names, name, point.before) {
        report(name.at.span, DiagnosticCode::DuplicateDefinition, faults)?;
        return point.before.clone();
    }
    let mut declared = point.before.copy(context.alloc)?;
    let local = local(context, declared_local(name), ty, false)?;
    declared.declare(context.alloc, &local)?;
    Ok(Rc::new(context.alloc, declared)?)
}

// What follows an initializer, once that is judged: it must have the declared type, and the local
// comes into scope with its value, unless its name was declared before.
pub(super) fn initialize(
    point: Point,
    name: Name,
    ty: &DartType,
    value: &Typed,
    faults: &mut Vec<Fault>,
) -> Result<Rc<Flow>, AllocError>
    ensures { IfRowGives faults.old faults.new result (initialized (surroundings point.entry) name ty.now value.now) }
{
    let context = point.context;
    check_fit(
        context.rows,
        DiagnosticCode::InvalidAssignment,
        value,
        ty,
        faults,
    )?;
    if is_declared_before(point.names, name, &value.after) {
        report(name.at.span, DiagnosticCode::DuplicateDefinition, faults)?;
        return value.after.clone();
    }
    let mut declared = value.after.copy(context.alloc)?;
    let local = local(context, declared_local(name), ty, true)?;
    declare_with_value(context, &local, &value.ty, &mut declared)?;
    Ok(Rc::new(context.alloc, declared)?)
}

// A local comes into scope and is written with a value of the type.
fn declare_with_value(
    context: Context,
    local: &LocalDecl,
    written: &DartType,
    flow: &mut Flow,
) -> Result<(), AllocError>
    requires { IsNone (facts_of flow.old local.now.var) }
    ensures { OnOk result (flow.new ≡ declared_with context.entry local.now written.now flow.old) }
{
    flow.declare(context.alloc, local)?;
    flow.assign(context.alloc, context.rows, local.var, written)
}

// A local as it comes into scope: one that admits null and has no initializer starts as null.
fn local(
    context: Context,
    var: LocalId,
    ty: &DartType,
    initialized: bool,
) -> Result<LocalDecl, AllocError>
    ensures { IfOk result (λ local. local ≡ statement.declared_local context.entry.rows.now.table ty.now var initialized) }
{
    let null = is_subtype(context.rows, context.core.null(), ty) && !initialized;
    Ok(LocalDecl {
        var,
        ty: ty.copy(context.alloc)?,
        assigned: null,
        unassigned: !null,
    })
}
