//! Whether a program is well formed, as `accept` requires.

ghost use Rattle.std.specs.Prelude.{◌≡◌, ◌≢◌, ◌↔◌, ◌<◌, ◌≤◌, ◌^◌, ℕ, All, IfOk, IsTrue, IsFalse, Some, slice_get, length};
ghost use Rattle.dart_types.specs.SubTest.{sub};
ghost use Rattle.core_ir.specs.Program.{Function};
ghost use Rattle.core_ir.specs.Values.{int, bool};
ghost use Rattle.core_ir.specs.declared.points.Point.{Point as CorePoint};
ghost use Rattle.core_check.specs.Known.{function_at, point_at};
ghost use Rattle.core_check.specs.WellFormed.{HasPointParts, IsSlot, IsWay, IsShape, IsPointOf, IsFunctionOf, IsWellFormed};

use crate::context::CoreTypes;
use crate::shapes::{Shape, Way, shape_of};
use core_ir::{CoreFunction, CoreProgram, Facts, FunctionId, Point, PointId, SlotId};
use dart_types::is_subtype;
use std::alloc::{AllocError, Global};

/// The most points of a program: a point's number has 32 bits.
const MOST_POINTS: usize = 1 << 32;

// Whether the function has this slot.
fn is_slot(function: &CoreFunction, slot: SlotId) -> bool
    ensures { IsTrue result ↔ IsSlot function.now slot }
{
    (slot.0 as usize) < function.slots.len()
}

// Whether the function has all of these slots.
fn are_slots(function: &CoreFunction, slots: &[SlotId]) -> bool
    ensures { IsTrue result ↔ All (IsSlot function.now) slots.now }
{
    for slot in slots {
        if !is_slot(function, *slot) {
            return false;
        }
    }
    true
}

// A point of the program.
fn point_in(program: &CoreProgram, number: usize) -> &Point
    requires { number < length program.now.points }
    ensures read { result.now ≡ point_at program.now number }
    ensures stands { slice_get program.now.points number ≡ Some result.now }
{
    &program.points[number]
}

// A function of the program.
fn function_in(program: &CoreProgram, number: usize) -> &CoreFunction
    requires { number < length program.now.functions }
    ensures read { result.now ≡ function_at program.now number }
    ensures stands { slice_get program.now.functions number ≡ Some result.now }
{
    &program.functions[number]
}

// Whether the program has so many points.
fn has_point(program: &CoreProgram, number: usize) -> bool
    ensures { IsTrue result ↔ (number < length program.now.points) }
{
    number < program.points.len()
}

// Whether the program has so many functions.
fn has_function(program: &CoreProgram, number: usize) -> bool
    ensures { IsTrue result ↔ (number < length program.now.functions) }
{
    number < program.functions.len()
}

// Whether the program has no more points than there are numbers for them.
fn is_numbered(program: &CoreProgram) -> bool
    ensures { IsTrue result ↔ (length program.now.points ≤ 2 ^ 32) }
{
    program.points.len() <= MOST_POINTS
}

// The point that a way leads to.
fn next_of(way: &Way) -> PointId
    ensures { result ≡ way.now.next }
{
    way.next
}

// Whether a way leads to a point of the function with this number.
fn is_way(program: &CoreProgram, number: FunctionId, way: &Way) -> bool
    ensures { IsTrue result ↔ IsWay program.now number.0 way.now }
{
    let next = next_of(way).0 as usize;
    if !has_point(program, next) {
        return false;
    }
    point_in(program, next).function.0 == number.0
}

// Whether all ways do.
fn are_ways(program: &CoreProgram, number: FunctionId, ways: &[Way]) -> bool
    ensures { IsTrue result ↔ All (IsWay program.now number.0) ways.now }
{
    for way in ways {
        if !is_way(program, number, way) {
            return false;
        }
    }
    true
}

// Whether the function has the slots of a shape.
fn slots_are_in(function: &CoreFunction, shape: &Shape) -> bool
    ensures { IsTrue result ↔ All (IsSlot function.now) shape.now.slots }
{
    are_slots(function, &shape.slots)
}

// Whether the ways of a shape lead to points of the function with this number.
fn ways_are_in(program: &CoreProgram, number: FunctionId, shape: &Shape) -> bool
    ensures { IsTrue result ↔ All (IsWay program.now number.0) shape.now.ways }
{
    are_ways(program, number, &shape.ways)
}

// Whether what a shape names is there: slots of a function, whose number this is, and points of it.
fn is_shape(
    program: &CoreProgram,
    function: &CoreFunction,
    number: FunctionId,
    shape: &Shape,
) -> bool
    ensures { IsTrue result ↔ IsShape program.now function.now number.0 shape.now }
{
    slots_are_in(function, shape) && ways_are_in(program, number, shape)
}

// Whether no way leads back to the point with this number.
fn moves_on(ways: &[Way], number: usize) -> bool
    ensures { IsTrue result ↔ All (λ way. way.next.0 ≢ number) ways.now }
{
    for way in ways {
        if way.next.0 as usize == number {
            return false;
        }
    }
    true
}

// Whether no way of a shape does.
fn shape_moves_on(shape: &Shape, number: usize) -> bool
    ensures { IsTrue result ↔ All (λ way. way.next.0 ≢ number) shape.now.ways }
{
    moves_on(&shape.ways, number)
}

// Whether the function has the slots that facts list.
fn listed_are_in(function: &CoreFunction, facts: &Facts) -> bool
    ensures { IsTrue result ↔ All (λ fact. IsSlot function.now fact.slot) facts.now.listed }
{
    for place in 0..facts.len() {
        if !is_slot(function, facts.at(place).slot) {
            return false;
        }
    }
    true
}

// Whether a function has what a point names, whose term has this shape, and the point moves on.
fn has_point_parts(
    program: &CoreProgram,
    function: &CoreFunction,
    number: usize,
    point: &Point,
    shape: &Shape,
) -> bool
    ensures { IsTrue result ↔ HasPointParts program.now number point.now function.now shape.now }
{
    if !listed_are_in(function, &point.facts) {
        return false;
    }
    if !is_shape(program, function, point.function, shape) {
        return false;
    }
    shape_moves_on(shape, number)
}

// Whether a point is of a function that has what it names, and moves on.
fn is_point_of(
    alloc: Global,
    program: &CoreProgram,
    number: usize,
    point: &Point,
) -> Result<bool, AllocError>
    ensures { IfOk result (λ yes. IsTrue yes ↔ IsPointOf program.now number point.now) }
{
    let id = point.function.0 as usize;
    if !has_function(program, id) {
        return Ok(false);
    }
    let function = function_in(program, id);
    let shape = shape_of(alloc, point.term)?;
    let inside = has_point_parts(program, function, number, point, &shape);
    Ok(inside)
}

// Whether all points are.
fn points_are_in(alloc: Global, program: &CoreProgram) -> Result<bool, AllocError>
    ensures { IfOk result (λ yes. IsTrue yes ↔ ((k : ℕ) (point : CorePoint) → slice_get program.now.points k ≡ Some point → IsPointOf program.now k point)) }
{
    for number in 0..program.points.len() {
        let inside = is_point_of(alloc, program, number, point_in(program, number))?;
        if !inside {
            return Ok(false);
        }
    }
    Ok(true)
}

// The point at which a call of a function begins.
fn entry_of(function: &CoreFunction) -> PointId
    ensures { result ≡ function.now.entry }
{
    function.entry
}

// Whether the entry of a function is a point of it.
fn is_function_of(program: &CoreProgram, number: usize, function: &CoreFunction) -> bool
    ensures { IsTrue result ↔ IsFunctionOf program.now number function.now }
{
    let entry = entry_of(function).0 as usize;
    if !has_point(program, entry) {
        return false;
    }
    point_in(program, entry).function.0 as usize == number
}

// Whether the entries of all functions are.
fn functions_are_in(program: &CoreProgram) -> bool
    ensures { IsTrue result ↔ ((n : ℕ) (g : Function) → slice_get program.now.functions n ≡ Some g → IsFunctionOf program.now n g) }
{
    for number in 0..program.functions.len() {
        if !is_function_of(program, number, function_in(program, number)) {
            return false;
        }
    }
    true
}

// Whether no integer is a bool, and no bool an integer.
fn are_apart(core: &CoreTypes, program: &CoreProgram) -> bool
    ensures { IsTrue result ↔ (IsFalse (sub program.now.rows.table int bool) × IsFalse (sub program.now.rows.table bool int)) }
{
    let rows = &program.rows;
    !is_subtype(rows, core.int(), core.boolean()) && !is_subtype(rows, core.boolean(), core.int())
}

// Whether the program has the function with which a run begins.
fn has_main(program: &CoreProgram) -> bool
    ensures { IsTrue result ↔ (program.now.main.0 < length program.now.functions) }
{
    (program.main.0 as usize) < program.functions.len()
}

/// Whether a program is well formed: it has its `main` and at most 2^32 points, functions whose entries
/// are points of theirs, and all that its points name; no term names its own point as next; and by its
/// rows no integer is a bool and no bool an integer.
pub fn is_well_formed(alloc: Global, program: &CoreProgram) -> Result<bool, AllocError>
    ensures { IfOk result (λ yes. IsTrue yes ↔ IsWellFormed program.now) }
{
    if !has_main(program) {
        return Ok(false);
    }
    if !is_numbered(program) {
        return Ok(false);
    }
    if !functions_are_in(program) {
        return Ok(false);
    }
    let core = CoreTypes::new(alloc)?;
    if !are_apart(&core, program) {
        return Ok(false);
    }
    let inside = points_are_in(alloc, program)?;
    Ok(inside)
}
