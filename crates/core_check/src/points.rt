//! The clauses on a point, and on all of them.

ghost use Rattle.std.specs.Prelude.{◌≡◌, ◌<◌, [], ◌++◌, nat_eq, if◌then◌else◌, All, OnOk, IfErr, length};
ghost use Rattle.core_check.specs.WellFormed.{IsSlot, IsPointOf, IsShape, IsWellFormed};
ghost use Rattle.core_check.specs.Known.{function_at, point_at};
ghost use Rattle.core_check.specs.Shapes.{shape};
ghost use Rattle.core_check.specs.Accepted.{IsAccepted};
ghost use Rattle.core_check.specs.Faults.{entry_faults, shape_faults, faults_at};
ghost use Rattle.core_check.specs.Checks.{Tells};
ghost use Rattle.core_check.specs.Refusals.{IsCause};

use crate::acceptance::AcceptRefusal;
use crate::context::{Context, CoreTypes};
use crate::entries::check_entry;
use crate::misses::Miss;
use crate::shapes::shape_of;
use crate::terms::check_shape;
use core_ir::{CoreFunction, CoreProgram, Facts, FunctionId, Point, PointId, Term};
use dart_types::equality_laws;
use std::alloc::Global;

// Whether no clause fails at a term, if a run may come to it.
fn check_reached(context: Context<'_>, facts: &Facts, term: Term) -> Result<(), Miss>
    requires well_formed { IsWellFormed context.program.now }
    requires function { context.function.now ≡ function_at context.program.now context.number.0 }
    requires listed_in { All (λ fact. IsSlot context.function.now fact.slot) facts.now.listed }
    requires shape_in { IsShape context.program.now context.function.now context.number.0 (shape term) }
    ensures { Tells result (if facts.now.reachable then shape_faults context.entry.program.now context.entry.function.now facts.now (shape term) else []) }
{
    if facts.is_reachable() {
        let shape = shape_of(context.alloc, term)?;
        let told = check_shape(context, facts, &shape);
        return told;
    }
    Ok(())
}

// Whether the facts are those of an entry, at the entry of the function.
fn check_first(context: Context<'_>, facts: &Facts, number: usize) -> Result<(), Miss>
    requires { All (λ fact. IsSlot context.function.now fact.slot) facts.now.listed }
    ensures { let g = context.entry.function.now in
        Tells result (if nat_eq g.entry.0 number then entry_faults g facts.now else []) }
{
    let function = context.function;
    if function.entry.0 as usize == number {
        return check_entry(context, facts);
    }
    Ok(())
}

// What is known and done at a point, and whether it is the entry of its function.
fn check_parts(context: Context<'_>, point: &Point, number: usize) -> Result<(), Miss>
    requires well_formed { IsWellFormed context.program.now }
    requires function { context.function.now ≡ function_at context.program.now context.number.0 }
    requires listed_in { All (λ fact. IsSlot context.function.now fact.slot) point.now.facts.listed }
    requires shape_in { IsShape context.program.now context.function.now context.number.0 (shape point.now.term) }
    ensures { let p = context.entry.program.now in let g = context.entry.function.now in
        Tells result ((if point.now.facts.reachable then shape_faults p g point.now.facts (shape point.now.term) else [])
        ++ (if nat_eq g.entry.0 number then entry_faults g point.now.facts else [])) }
{
    check_reached(context, &point.facts, point.term)?;
    check_first(context, &point.facts, number)
}

// A point of the program.
fn point_of(program: &CoreProgram, number: usize) -> &Point
    requires well_formed { IsWellFormed program.now }
    requires in_program { number < length program.now.points }
    ensures point { result.now ≡ point_at program.now number }
    ensures well_formed { IsPointOf program.now number result.now }
{
    &program.points[number]
}

// A function of the program.
fn function_of(program: &CoreProgram, number: FunctionId) -> &CoreFunction
    requires { number.0 < length program.now.functions }
    ensures { result.now ≡ function_at program.now number.0 }
{
    &program.functions[number.0 as usize]
}

// Whether no clause fails at a point.
fn check_point(
    alloc: Global,
    program: &CoreProgram,
    core: &CoreTypes,
    number: usize,
) -> Result<(), Miss>
    requires well_formed { IsWellFormed program.now }
    requires in_program { number < length program.now.points }
    ensures { Tells result (faults_at program.now number) }
{
    let point = point_of(program, number);
    let function = function_of(program, point.function);
    let context = Context {
        alloc,
        program,
        function,
        number: point.function,
        core,
    };
    let told = check_parts(context, point, number);
    told
}

/// Whether no clause fails at any point; else what fails first at the least point.
pub(crate) fn check_points(
    alloc: Global,
    program: &CoreProgram,
    core: &CoreTypes,
) -> Result<(), AcceptRefusal>
    requires { IsWellFormed program.now }
    ensures accepted { OnOk result (IsAccepted program.now) }
    ensures refused { IfErr result (λ refusal. IsCause program.now refusal) }
{
    equality_laws();
    for number in 0..program.points.len() {
        match check_point(alloc, program, core, number) {
            Ok(()) => (),
            Err(Miss::Fails { expected, found }) => {
                return Err(AcceptRefusal::Rejected {
                    point: PointId(number as u32),
                    expected,
                    found,
                });
            }
            Err(Miss::Memory) => return Err(AcceptRefusal::Memory),
        }
    }
    Ok(())
}
