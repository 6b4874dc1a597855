//! The core program of a body.

ghost use Rattle.std.specs.Prelude.{◌≡◌, ◌+◌, ◌*◌, ◌<◌, ◌≤◌, ◌^◌, [], All, IfOk, OnOk, length};
ghost use Rattle.dart_tree.specs.Tree.{block, trees_of};
ghost use Rattle.dart_tree.specs.Numbers.{nodes_in};
ghost use Rattle.core_emit.specs.Emitted.{made};
ghost use Rattle.elaborate.specs.Elaborated as elaborated;
ghost use Rattle.elaborate.specs.Elaborated.{program_of};
ghost use Rattle.judgement.specs.NodeFacts.{NodeFacts};

use crate::builder::Builder;
use crate::said::Said;
use crate::slots::{slot_count, slot_types};
use crate::statements::statements_code;
use core_emit::{Code, Step, add_point, emit};
use core_ir::{CoreFunction, CoreProgram, Facts, FunctionId, Point, PointId, Term};
use dart_tree::{Place, Stmt};
use dart_types::Rows;
use judgement::TypedNode;
use plain_text::PlainText;
use std::alloc::{AllocError, Global};

/// The core program of a block, in a library with these classes, from what the rules said of its nodes. It
/// has no more than two points for each node and two more. A point at which the same is known of the locals
/// as where code was made before it costs some pointers; another a pointer for each page of locals of which
/// something is known, and the pages of which something else is known than before. Each node costs a look
/// at what was said of it. The error is want of memory.
pub(crate) fn build_program(
    alloc: Global,
    rows: Rows,
    words: &[PlainText],
    typed: &[TypedNode],
    at: Place,
    statements: &[Stmt],
) -> Result<CoreProgram, AllocError>
    requires from { All (λ (said : NodeFacts). at.node.0 ≤ said.node.0) typed.now }
    requires fits { nodes_in (block at (trees_of statements.now)) < 2 ^ 30 }
    ensures program { IfOk result (λ p. p ≡ program_of rows (record { words = words.now; first = at.node.0; typed = typed.now }) (block at (trees_of statements.now))) }
    ensures few { IfOk result (λ p. length p.points ≤ 2 * nodes_in (block at (trees_of statements.now)) + 2) }
{
    let count = slot_count(typed, at.node.0);
    let said = Said::new(alloc, words, typed, at.node.0, count)?;
    let slots = slot_types(alloc, &said, count)?;
    let mut points = Vec::new(alloc);
    let entry = points_of(alloc, &said, at, statements, count, &mut points)?;
    let mut functions = Vec::new(alloc);
    functions.push(CoreFunction { slots, entry })?;
    Ok(CoreProgram {
        rows,
        functions,
        points,
        main: FunctionId(0),
    })
}

// The points of a body with so many slots, and the one at which it begins.
fn points_of(
    alloc: Global,
    said: &Said,
    at: Place,
    statements: &[Stmt],
    slots: usize,
    points: &mut Vec<Point>,
) -> Result<PointId, AllocError>
    requires none { points.old.items ≡ [] }
    requires fits { nodes_in (block at (trees_of statements.now)) < 2 ^ 30 }
    ensures points { IfOk result (λ entry. made points.new.items entry ≡ elaborated.points_of said.now (block at (trees_of statements.now))) }
    ensures few { OnOk result (length points.new.items ≤ 2 * nodes_in (block at (trees_of statements.now)) + 2) }
{
    let mut build = Builder::new(alloc, slots)?;
    let code = function_code(said, &mut build, at, statements)?;
    let facts = build.facts(said, said.known_behind(at), &[])?;
    let end = add_point(points, FunctionId(0), None, facts, Term::End)?;
    emit(FunctionId(0), code, end, points)
}

// The code of a function with this body: where it begins, and its statements.
fn function_code(
    said: &Said,
    build: &mut Builder,
    _at: Place,
    statements: &[Stmt],
) -> Result<Code, AllocError>
    ensures { IfOk result (λ code. code ≡ elaborated.function_code said.now (block _at (trees_of statements.now))) }
{
    let none = Facts::new(build.alloc(), true)?;
    let first = Code::leaf(None, none, Step::GoOn);
    let rest = statements_code(said, build, statements)?;
    Code::pair(build.alloc(), first, rest)
}
