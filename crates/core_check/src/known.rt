//! What is known at a point, read.

ghost use Rattle.std.specs.Prelude.{◌≡◌, ◌<◌, IfOk, IsTrue, length};
ghost use Rattle.core_ir.specs.Values.{declared_at};
ghost use Rattle.core_check.specs.Named.{IsOperand};
ghost use Rattle.core_check.specs.Known.{known_of, held_type, is_shared, is_assigned, operand_type};

use crate::context::Context;
use core_ir::{CoreFunction, Facts, Held, Known, Operand};
use dart_types::DartType;
use std::alloc::{AllocError, Global};

/// The declared type of a slot.
pub(crate) fn declared(function: &CoreFunction, slot: usize) -> &DartType
    requires { slot < length function.now.slots }
    ensures { result.now ≡ declared_at function.now slot }
{
    &function.slots[slot]
}

/// What facts say of a slot.
pub(crate) fn known_by<'a>(context: Context<'a>, facts: &'a Facts, slot: usize) -> &'a Known
    ensures { result.now ≡ known_of facts.now slot }
{
    for place in 0..facts.len() {
        let fact = facts.at(place);
        if fact.slot.0 as usize == slot {
            return &fact.known;
        }
    }
    context.core.unlisted()
}

/// Whether a slot is shared.
pub(crate) fn is_shared(held: &Held) -> bool
    ensures { result ≡ is_shared held.now }
{
    match held {
        Held::Declared => false,
        Held::Own(_) => false,
        Held::Shared => true,
    }
}

/// The type that a slot of this declared type has.
pub(crate) fn type_held<'a>(declared: &'a DartType, held: &'a Held) -> &'a DartType
    ensures { result.now ≡ held_type declared.now held.now }
{
    match held {
        Held::Declared => declared,
        Held::Own(ty) => ty,
        Held::Shared => declared,
    }
}

/// Whether an operand has a value for certain.
pub(crate) fn is_readable(context: Context<'_>, facts: &Facts, operand: Operand) -> bool
    ensures { result ≡ is_assigned facts.now operand }
{
    match operand {
        Operand::Slot(slot) => known_by(context, facts, slot.0 as usize).assigned,
        Operand::Constant(_) => true,
    }
}

/// The type that an operand has.
pub(crate) fn type_of<'a>(context: Context<'a>, facts: &'a Facts, operand: Operand) -> &'a DartType
    requires { IsOperand context.function.now operand }
    ensures { result.now ≡ operand_type context.entry.function.now facts.now operand }
{
    match operand {
        Operand::Slot(slot) => {
            let known = known_by(context, facts, slot.0 as usize);
            type_held(declared(context.function, slot.0 as usize), &known.held)
        }
        Operand::Constant(value) => context.core.of_value(value),
    }
}

/// What is known of a slot, a second time.
pub(crate) fn copy_of(alloc: Global, known: &Known) -> Result<Known, AllocError>
    ensures { IfOk result (λ copied. copied ≡ known.now) }
{
    let held = match &known.held {
        Held::Declared => Held::Declared,
        Held::Own(ty) => Held::Own(ty.copy(alloc)?),
        Held::Shared => Held::Shared,
    };
    Ok(Known {
        assigned: known.assigned,
        held,
    })
}
