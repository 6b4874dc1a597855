//! Upper and lower bounds of types.
//!
//! These functions go as deep as types are nested, so what isn't in the way stands apart, and isn't
//! inlined: their frames stay small.

ghost use Rattle.std.specs.Prelude.{◌≡◌, true, false, length, IfOk};
ghost use Rattle.dart_types.specs.Ty.{interface, types_of};
ghost use Rattle.dart_types.specs.Named.{named_of, names_of, AreInOrder};
ghost use Rattle.dart_types.specs.Marks.{is_marked};
ghost use Rattle.dart_types.specs.Node.{function_type};
ghost use Rattle.dart_types.specs.Sub.{Sub};
ghost use Rattle.dart_types.specs.Formed.{Forms};
ghost use Rattle.type_bounds.specs.Bounds.{Upper, UpperApart, Uppers, UpperNamed, Lower, LowerApart, LowerParams, LowerNamed, AreApart, is_settled};
ghost use Rattle.type_bounds.specs.Signatures.{have_upper_function, have_lower_function, same_names};
ghost use Rattle.type_bounds.specs.BoundsOf.{upper_of, lower_of};
ghost use Rattle.type_bounds.specs.PartsView.{IsSomePart, AreSomeParts};
ghost use Rattle.type_bounds.specs.KnownView.{AreBounds};
ghost use Rattle.type_bounds.specs.NamedView.{AreSomeNamed};
ghost use Rattle.type_bounds.specs.Valid.{IsValid};

use crate::function_parts::function_part;
use crate::known::{KnownBounds, leads_to_variable};
use crate::meetings::{End, meet};
use crate::named_parts::NamedParts;
use crate::parts::{Part, Parts};
use crate::signatures::{have_lower, have_upper};
use crate::superclasses::upper_of_classes;
use crate::type_forms::{bare, is_marked};
use dart_types::{
    ClassId, DartType, FUNCTION, FunctionType, NamedType, NamedTypes, OBJECT, Rows, TypeList,
    TypeNode, TypeRefusal, is_subtype, named_parameter_laws, row_laws,
};
use std::alloc::{AllocError, Global};

/// The upper bound of two types, by the rows of its table: `Invalid` where the table has no row for
/// them, as for a variable without a bound. Where it holds no `Invalid` it is a supertype of both.
/// `TooLarge` comes exactly where more than `NODE_LIMIT` types would stand in it.
pub fn upper(
    alloc: Global,
    rows: &Rows,
    s: &DartType,
    t: &DartType,
) -> Result<DartType, TypeRefusal>
    ensures forms { Forms result (upper_of rows.now.table s.now t.now) }
    ensures above { IfOk result (λ bound. IsValid bound → Sub rows.now.table s.now bound × Sub rows.now.table t.now bound) }
{
    row_laws(rows);
    let mut known = KnownBounds::new(alloc);
    let part = upper_part(alloc, rows, &mut known, s, t)?;
    part.finish()
}

/// The lower bound of two types, by the rows of its table. Where it holds no `Invalid` it is a subtype
/// of both. `TooLarge` comes exactly where more than `NODE_LIMIT` types would stand in it.
pub fn lower(
    alloc: Global,
    rows: &Rows,
    s: &DartType,
    t: &DartType,
) -> Result<DartType, TypeRefusal>
    ensures forms { Forms result (lower_of rows.now.table s.now t.now) }
    ensures below { IfOk result (λ bound. IsValid bound → Sub rows.now.table bound s.now × Sub rows.now.table bound t.now) }
{
    row_laws(rows);
    let mut known = KnownBounds::new(alloc);
    let part = lower_part(alloc, rows, &mut known, s, t)?;
    part.finish()
}

// The upper bound of two types.
#[cycle(bounds)]
fn upper_part(
    alloc: Global,
    rows: &Rows,
    known: &mut KnownBounds,
    s: &DartType,
    t: &DartType,
) -> Result<Part, AllocError>
    requires known { AreBounds rows.now.table known.old }
    ensures bound { IfOk result (IsSomePart (Upper rows.now.table s.now t.now)) }
    ensures known { AreBounds rows.now.table known.new }
{
    if leads_to_variable(s) | leads_to_variable(t) {
        return upper_once(alloc, rows, known, s, t);
    }
    upper_met(alloc, rows, known, s, t)
}

// The upper bound of two types, which is kept: it is looked for once.
#[cycle(bounds)]
#[inline(never)]
fn upper_once(
    alloc: Global,
    rows: &Rows,
    known: &mut KnownBounds,
    s: &DartType,
    t: &DartType,
) -> Result<Part, AllocError>
    requires known { AreBounds rows.now.table known.old }
    ensures bound { IfOk result (IsSomePart (Upper rows.now.table s.now t.now)) }
    ensures known { AreBounds rows.now.table known.new }
{
    let found = known.find(alloc, s, t)?;
    if let Some(part) = found {
        return Ok(part);
    }
    let bound = upper_met(alloc, rows, known, s, t)?;
    known.keep(alloc, s, t, &bound)?;
    Ok(bound)
}

// The upper bound of two types, which meet first.
#[cycle(bounds)]
fn upper_met(
    alloc: Global,
    rows: &Rows,
    known: &mut KnownBounds,
    s: &DartType,
    t: &DartType,
) -> Result<Part, AllocError>
    requires known { AreBounds rows.now.table known.old }
    ensures bound { IfOk result (IsSomePart (Upper rows.now.table s.now t.now)) }
    ensures known { AreBounds rows.now.table known.new }
{
    let meeting = meet(rows, s, t);
    let part = match meeting.end {
        End::At(bound) => Part::of(alloc, bound)?,
        End::Var(var) => Part::variable(var),
        End::Nowhere => Part::invalid(),
        End::Apart(left, right) => upper_settled(alloc, rows, known, left, right)?,
    };
    part.with_mark(alloc, meeting.marked)
}

// The upper bound of two types that are no variables.
#[cycle(bounds)]
fn upper_settled(
    alloc: Global,
    rows: &Rows,
    known: &mut KnownBounds,
    s: &DartType,
    t: &DartType,
) -> Result<Part, AllocError>
    requires known { AreBounds rows.now.table known.old }
    requires apart { AreApart rows.now.table s.now t.now }
    requires left { is_settled s.now ≡ true }
    requires right { is_settled t.now ≡ true }
    ensures bound { IfOk result (IsSomePart (UpperApart rows.now.table s.now t.now)) }
    ensures known { AreBounds rows.now.table known.new }
{
    match &s.node {
        TypeNode::Interface { class, args } => upper_of_class(alloc, rows, known, *class, args, t),
        TypeNode::Function(function) => upper_of_function(alloc, rows, known, function, t),
        _ => Ok(Part::invalid()),
    }
}

// The upper bound of a class and another type.
#[cycle(bounds)]
fn upper_of_class(
    alloc: Global,
    rows: &Rows,
    known: &mut KnownBounds,
    class: ClassId,
    args: &TypeList,
    t: &DartType,
) -> Result<Part, AllocError>
    requires known { AreBounds rows.now.table known.old }
    requires apart { AreApart rows.now.table (interface class (types_of args.now)) t.now }
    requires right { is_settled t.now ≡ true }
    ensures bound { IfOk result (IsSomePart (UpperApart rows.now.table (interface class (types_of args.now)) t.now)) }
    ensures known { AreBounds rows.now.table known.new }
{
    match &t.node {
        TypeNode::Function(_) => Part::class(alloc, OBJECT),
        TypeNode::Interface {
            class: other,
            args: others,
        } => {
            if class != *other {
                return upper_of_classes(alloc, rows, class, args, *other, others);
            }
            if args.as_slice().len() != others.as_slice().len() {
                return Ok(Part::invalid());
            }
            let uppers = upper_all(alloc, rows, known, args.as_slice(), others.as_slice())?;
            Part::interface(alloc, class, uppers)
        }
        _ => Ok(Part::invalid()),
    }
}

// The upper bound of a function type and another type.
#[cycle(bounds)]
#[inline(never)]
fn upper_of_function(
    alloc: Global,
    rows: &Rows,
    known: &mut KnownBounds,
    function: &FunctionType,
    t: &DartType,
) -> Result<Part, AllocError>
    requires known { AreBounds rows.now.table known.old }
    requires apart { AreApart rows.now.table (function_type function.now) t.now }
    requires right { is_settled t.now ≡ true }
    ensures bound { IfOk result (IsSomePart (UpperApart rows.now.table (function_type function.now) t.now)) }
    ensures known { AreBounds rows.now.table known.new }
{
    match &t.node {
        TypeNode::Function(other) => {
            if !have_upper(function, other) {
                return Part::class(alloc, FUNCTION);
            }
            upper_of_functions(alloc, rows, known, function, other)
        }
        TypeNode::Interface { .. } => Part::class(alloc, OBJECT),
        _ => Ok(Part::invalid()),
    }
}

// The upper bound of two function types that have one that is one.
#[cycle(bounds)]
#[inline(never)]
fn upper_of_functions(
    alloc: Global,
    rows: &Rows,
    known: &mut KnownBounds,
    function: &FunctionType,
    other: &FunctionType,
) -> Result<Part, AllocError>
    requires known { AreBounds rows.now.table known.old }
    requires has { have_upper_function function.now other.now ≡ true }
    ensures bound { IfOk result (IsSomePart (UpperApart rows.now.table (function_type function.now) (function_type other.now))) }
    ensures known { AreBounds rows.now.table known.new }
{
    let required = lower_all(
        alloc,
        rows,
        known,
        function.required.as_slice(),
        other.required.as_slice(),
    )?;
    let optional = lower_all(
        alloc,
        rows,
        known,
        function.optional.as_slice(),
        other.optional.as_slice(),
    )?;
    let named = lower_named(alloc, rows, known, function.named.as_slice(), &other.named)?;
    let result = upper_part(alloc, rows, known, &function.result, &other.result)?;
    function_part(alloc, required, optional, named, result)
}

// The upper bounds of types at the same places of two lists that are as long.
#[cycle(bounds)]
fn upper_all(
    alloc: Global,
    rows: &Rows,
    known: &mut KnownBounds,
    types: &[DartType],
    others: &[DartType],
) -> Result<Parts, AllocError>
    requires known { AreBounds rows.now.table known.old }
    requires same { length types.now ≡ length others.now }
    ensures bound { IfOk result (AreSomeParts (Uppers rows.now.table (types_of types.now) (types_of others.now))) }
    ensures known { AreBounds rows.now.table known.new }
{
    let mut uppers = Parts::new(alloc);
    for i in 0..types.len() {
        let part = upper_part(alloc, rows, known, &types[i], &others[i])?;
        uppers = uppers.with(part)?;
    }
    Ok(uppers)
}

// The lower bounds of types at the same places of two lists, as far as both go.
#[cycle(bounds)]
fn lower_all(
    alloc: Global,
    rows: &Rows,
    known: &mut KnownBounds,
    types: &[DartType],
    others: &[DartType],
) -> Result<Parts, AllocError>
    requires known { AreBounds rows.now.table known.old }
    ensures bound { IfOk result (AreSomeParts (LowerParams rows.now.table (types_of types.now) (types_of others.now))) }
    ensures known { AreBounds rows.now.table known.new }
{
    let mut lowers = Parts::new(alloc);
    for i in 0..types.len() {
        if i >= others.len() {
            return Ok(lowers);
        }
        let part = lower_part(alloc, rows, known, &types[i], &others[i])?;
        lowers = lowers.with(part)?;
    }
    Ok(lowers)
}

// The named parameters that both lists have, with lower bounds.
#[cycle(bounds)]
fn lower_named(
    alloc: Global,
    rows: &Rows,
    known: &mut KnownBounds,
    named: &[NamedType],
    others: &NamedTypes,
) -> Result<NamedParts, AllocError>
    requires known { AreBounds rows.now.table known.old }
    requires in_order { AreInOrder (names_of named.now) }
    ensures bound { IfOk result (AreSomeNamed (LowerNamed rows.now.table (named_of named.now) (named_of others.now))) }
    ensures known { AreBounds rows.now.table known.new }
{
    named_parameter_laws();
    let mut lowers = NamedParts::new(alloc);
    for i in 0..named.len() {
        let own = &named[i];
        if let Some(other) = others.get(&own.name) {
            let required = own.required | other.required;
            let part = lower_part(alloc, rows, known, &own.ty, &other.ty)?;
            lowers = lowers.with(&own.name, required, part)?;
        }
    }
    Ok(lowers)
}

// The named parameters of two lists with the same names, with upper bounds.
#[cycle(bounds)]
fn upper_named(
    alloc: Global,
    rows: &Rows,
    known: &mut KnownBounds,
    named: &[NamedType],
    others: &[NamedType],
) -> Result<NamedParts, AllocError>
    requires known { AreBounds rows.now.table known.old }
    requires in_order { AreInOrder (names_of named.now) }
    requires same { same_names (named_of named.now) (named_of others.now) ≡ true }
    ensures bound { IfOk result (AreSomeNamed (UpperNamed rows.now.table (named_of named.now) (named_of others.now))) }
    ensures known { AreBounds rows.now.table known.new }
{
    let mut uppers = NamedParts::new(alloc);
    for i in 0..named.len() {
        let own = &named[i];
        let other = &others[i];
        let required = own.required & other.required;
        let part = upper_part(alloc, rows, known, &own.ty, &other.ty)?;
        uppers = uppers.with(&own.name, required, part)?;
    }
    Ok(uppers)
}

// The lower bound of two types.
#[cycle(bounds)]
fn lower_part(
    alloc: Global,
    rows: &Rows,
    known: &mut KnownBounds,
    s: &DartType,
    t: &DartType,
) -> Result<Part, AllocError>
    requires known { AreBounds rows.now.table known.old }
    ensures bound { IfOk result (IsSomePart (Lower rows.now.table s.now t.now)) }
    ensures known { AreBounds rows.now.table known.new }
{
    if is_subtype(rows, s, t) {
        return Part::of(alloc, s);
    }
    if is_subtype(rows, t, s) {
        return Part::of(alloc, t);
    }
    lower_apart(alloc, rows, known, s, t)
}

// The lower bound of two types that aren't subtypes of each other.
#[cycle(bounds)]
fn lower_apart(
    alloc: Global,
    rows: &Rows,
    known: &mut KnownBounds,
    s: &DartType,
    t: &DartType,
) -> Result<Part, AllocError>
    requires known { AreBounds rows.now.table known.old }
    requires apart { AreApart rows.now.table s.now t.now }
    ensures bound { IfOk result (IsSomePart (LowerApart rows.now.table s.now t.now)) }
    ensures known { AreBounds rows.now.table known.new }
{
    if is_marked(s) & is_marked(t) {
        return lower_part(alloc, rows, known, bare(s), bare(t))?.nullable(alloc);
    }
    if is_marked(s) | is_marked(t) {
        return lower_part(alloc, rows, known, bare(s), bare(t));
    }
    match &s.node {
        TypeNode::Function(function) => lower_of_function(alloc, rows, known, function, t),
        _ => Ok(Part::never()),
    }
}

// The lower bound of a function type and another type without `?`.
#[cycle(bounds)]
#[inline(never)]
fn lower_of_function(
    alloc: Global,
    rows: &Rows,
    known: &mut KnownBounds,
    function: &FunctionType,
    t: &DartType,
) -> Result<Part, AllocError>
    requires known { AreBounds rows.now.table known.old }
    requires bare { is_marked t.now ≡ false }
    ensures bound { IfOk result (IsSomePart (LowerApart rows.now.table (function_type function.now) t.now)) }
    ensures known { AreBounds rows.now.table known.new }
{
    match &t.node {
        TypeNode::Function(other) => {
            if !have_lower(function, other) {
                return Ok(Part::never());
            }
            lower_of_functions(alloc, rows, known, function, other)
        }
        _ => Ok(Part::never()),
    }
}

// The lower bound of two function types that have one that is one.
#[cycle(bounds)]
#[inline(never)]
fn lower_of_functions(
    alloc: Global,
    rows: &Rows,
    known: &mut KnownBounds,
    function: &FunctionType,
    other: &FunctionType,
) -> Result<Part, AllocError>
    requires known { AreBounds rows.now.table known.old }
    requires has { have_lower_function function.now other.now ≡ true }
    ensures bound { IfOk result (IsSomePart (LowerApart rows.now.table (function_type function.now) (function_type other.now))) }
    ensures known { AreBounds rows.now.table known.new }
{
    let required = upper_all(
        alloc,
        rows,
        known,
        function.required.as_slice(),
        other.required.as_slice(),
    )?;
    let optional = upper_all(
        alloc,
        rows,
        known,
        function.optional.as_slice(),
        other.optional.as_slice(),
    )?;
    let named = upper_named(
        alloc,
        rows,
        known,
        function.named.as_slice(),
        other.named.as_slice(),
    )?;
    let result = lower_part(alloc, rows, known, &function.result, &other.result)?;
    function_part(alloc, required, optional, named, result)
}
