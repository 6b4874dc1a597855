//! What a shape means by the facts of a point.

ghost use Rattle.std.specs.Prelude.{◌≡◌, All, IfOk};
ghost use Rattle.core_check.specs.Named.{IsSource, IsHow, IsChange};
ghost use Rattle.core_check.specs.Types.{without_null, type_from, held_as, changed, known_on, is_changed};

use crate::context::Context;
use crate::known::{copy_of, is_shared, known_by, type_of};
use crate::parts::{Change, How, TypeSource};
use core_ir::{Facts, Held, Known, Operand};
use dart_types::{DartType, Rows, TypeRefusal};
use std::alloc::{AllocError, Global};
use type_bounds::non_null;

// A type without null, or the type itself where that would be too large.
fn without_null(alloc: Global, rows: &Rows, t: &DartType) -> Result<DartType, AllocError>
    ensures { IfOk result (λ formed. formed ≡ without_null rows.now.table t.now) }
{
    match non_null(alloc, rows, t) {
        Ok(formed) => Ok(formed),
        Err(TypeRefusal::TooLarge { .. }) => {
            let same = t.copy(alloc)?;
            Ok(same)
        }
        Err(TypeRefusal::Memory) => Err(AllocError),
    }
}

/// The type that a shape names.
pub(crate) fn type_from(
    context: Context<'_>,
    facts: &Facts,
    source: TypeSource,
) -> Result<DartType, AllocError>
    requires { IsSource context.function.now source }
    ensures { IfOk result (λ t. t ≡ type_from context.entry.program.now context.entry.function.now facts.now source) }
{
    let alloc = context.alloc;
    let program = context.program;
    match source {
        TypeSource::IntType => {
            let t = context.core.int().copy(alloc)?;
            Ok(t)
        }
        TypeSource::BoolType => {
            let t = context.core.boolean().copy(alloc)?;
            Ok(t)
        }
        TypeSource::OperandType(operand) => {
            let t = type_of(context, facts, operand).copy(alloc)?;
            Ok(t)
        }
        TypeSource::NonNullType(slot) => {
            let t = type_of(context, facts, Operand::Slot(slot));
            let bare = without_null(alloc, &program.rows, t)?;
            Ok(bare)
        }
    }
}

// A slot that was shared stays so, and another has the type.
fn held_as(shared: bool, ty: DartType) -> Held
    ensures { result ≡ held_as shared ty }
{
    if shared {
        return Held::Shared;
    }
    Held::Own(ty)
}

// What a change makes of what is known of its slot.
fn changed(
    context: Context<'_>,
    facts: &Facts,
    how: How,
    known: &Known,
) -> Result<Known, AllocError>
    requires { IsHow context.function.now how }
    ensures { IfOk result (λ k. k ≡ changed context.entry.program.now context.entry.function.now facts.now how known.now) }
{
    match how {
        How::Fresh => Ok(Known {
            assigned: false,
            held: Held::Declared,
        }),
        How::Holds(source) => {
            let ty = type_from(context, facts, source)?;
            Ok(Known {
                assigned: true,
                held: held_as(is_shared(&known.held), ty),
            })
        }
        How::Narrows(source) => {
            let ty = type_from(context, facts, source)?;
            Ok(Known {
                assigned: known.assigned,
                held: held_as(is_shared(&known.held), ty),
            })
        }
    }
}

/// What is known of a slot on a way with these changes.
pub(crate) fn known_on(
    context: Context<'_>,
    facts: &Facts,
    changes: &[Change],
    slot: usize,
) -> Result<Known, AllocError>
    requires { All (IsChange context.function.now) changes.now }
    ensures { IfOk result (λ k. k ≡ known_on context.entry.program.now context.entry.function.now facts.now changes.now slot) }
{
    let mut known = copy_of(context.alloc, known_by(context, facts, slot))?;
    for change in changes {
        if change.slot.0 as usize == slot {
            known = changed(context, facts, change.how, &known)?;
        }
    }
    Ok(known)
}

/// Whether one of the changes is one of this slot.
pub(crate) fn is_changed(changes: &[Change], slot: usize) -> bool
    ensures { result ≡ is_changed changes.now slot }
{
    for change in changes {
        if change.slot.0 as usize == slot {
            return true;
        }
    }
    false
}
