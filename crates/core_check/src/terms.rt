//! The clauses on a term, by its shape.

ghost use Rattle.std.specs.Prelude.{◌≡◌, flat_map, All};
ghost use Rattle.core_check.specs.WellFormed.{IsSlot, IsShape, IsWellFormed};
ghost use Rattle.core_check.specs.Named.{IsStored, IsAsked, IsNamed};
ghost use Rattle.core_check.specs.Known.{function_at};
ghost use Rattle.core_check.specs.Faults.{read_faults, stored_faults, asked_faults, shape_faults};
ghost use Rattle.core_check.specs.Checks.{Tells};

use crate::context::Context;
use crate::known::{declared, is_readable};
use crate::misses::{Miss, ask, ask_subtype};
use crate::parts::{Asked, Stored};
use crate::shapes::Shape;
use crate::types::type_from;
use crate::ways::check_ways;
use core_ir::{Facts, Operand};

// Whether what is read has a value.
fn check_reads(context: Context<'_>, facts: &Facts, reads: &[Operand]) -> Result<(), Miss>
    ensures { Tells result (flat_map (read_faults facts.now) reads.now) }
{
    for read in reads {
        ask(is_readable(context, facts, *read))?;
    }
    Ok(())
}

// Whether what is stored to a slot has its declared type.
fn check_store(context: Context<'_>, facts: &Facts, stored: Stored) -> Result<(), Miss>
    requires { IsStored context.function.now stored }
    ensures { Tells result (stored_faults context.entry.program.now context.entry.function.now facts.now stored) }
{
    let found = type_from(context, facts, stored.ty)?;
    let told = ask_subtype(
        context,
        &found,
        declared(context.function, stored.slot.0 as usize),
    );
    told
}

// Whether all that is stored has the declared types.
fn check_stores(context: Context<'_>, facts: &Facts, stores: &[Stored]) -> Result<(), Miss>
    requires { All (IsStored context.function.now) stores.now }
    ensures { Tells result (flat_map (stored_faults context.entry.program.now context.entry.function.now facts.now) stores.now) }
{
    for stored in stores {
        check_store(context, facts, *stored)?;
    }
    Ok(())
}

// Whether a type is a subtype of the one that is asked for.
fn check_ask(context: Context<'_>, facts: &Facts, asked: Asked) -> Result<(), Miss>
    requires { IsAsked context.function.now asked }
    ensures { Tells result (asked_faults context.entry.program.now context.entry.function.now facts.now asked) }
{
    let found = type_from(context, facts, asked.found)?;
    let expected = type_from(context, facts, asked.expected)?;
    let told = ask_subtype(context, &found, &expected);
    told
}

// Whether all types are subtypes of those that are asked for.
fn check_asks(context: Context<'_>, facts: &Facts, asks: &[Asked]) -> Result<(), Miss>
    requires { All (IsAsked context.function.now) asks.now }
    ensures { Tells result (flat_map (asked_faults context.entry.program.now context.entry.function.now facts.now) asks.now) }
{
    for asked in asks {
        check_ask(context, facts, *asked)?;
    }
    Ok(())
}

/// Whether no clause fails at a term of this shape with what is known before it.
pub(crate) fn check_shape(context: Context<'_>, facts: &Facts, shape: &Shape) -> Result<(), Miss>
    requires well_formed { IsWellFormed context.program.now }
    requires function { context.function.now ≡ function_at context.program.now context.number.0 }
    requires listed_in { All (λ fact. IsSlot context.function.now fact.slot) facts.now.listed }
    requires shape_in { IsShape context.program.now context.function.now context.number.0 shape.now }
    requires named_in { IsNamed context.function.now shape.now }
    ensures { Tells result (shape_faults context.entry.program.now context.entry.function.now facts.now shape.now) }
{
    check_reads(context, facts, &shape.reads)?;
    check_stores(context, facts, &shape.stores)?;
    check_asks(context, facts, &shape.asks)?;
    check_ways(context, facts, &shape.ways)
}
