//! The points of code, from its end to its start.

ghost use Rattle.std.specs.Prelude.{◌≡◌, ◌+◌, ◌<◌, ◌≤◌, ◌^◌, IfOk, OnOk, length};
ghost use Rattle.core_ir.specs.declared.points.Term.TheVariants.{Goto};
ghost use Rattle.core_emit.specs.Code as form;
ghost use Rattle.core_emit.specs.Emitted as emitted;

use crate::code::{Choice, Code, CodeNode, Loop, Pair};
use core_ir::{Facts, FunctionId, Point, PointId, Span, Term};
use std::alloc::AllocError;

/// Makes one more point of a function. The error is want of memory.
pub fn add_point(
    points: &mut Vec<Point>,
    function: FunctionId,
    site: Option<Span>,
    facts: Facts,
    term: Term,
) -> Result<PointId, AllocError>
    requires { length points.old.items < 2 ^ 32 }
    ensures { IfOk result (λ entry. emitted.made points.new.items entry ≡ emitted.with_point function site facts term points.old.items) }
{
    let entry = PointId(points.len() as u32);
    points.push(Point {
        function,
        site,
        facts,
        term,
    })?;
    Ok(entry)
}

// Tells a point its term.
fn tell(points: &mut Vec<Point>, at: PointId, term: Term)
    requires { at.0 < length points.old.items }
    ensures { points.new.items ≡ emitted.with_term points.old.items at term }
{
    points[at.0 as usize].term = term;
}

/// Makes the points of code of a function, which goes on at a point, behind those that there are. The
/// answer is where it begins. What is known at its points moves into them. The error is want of memory.
#[cycle(emit)]
pub fn emit(
    function: FunctionId,
    code: Code,
    next: PointId,
    points: &mut Vec<Point>,
) -> Result<PointId, AllocError>
    requires { length points.old.items + emitted.size_of code ≤ 2 ^ 32 }
    ensures made { IfOk result (λ entry. emitted.made points.new.items entry ≡ emitted.emit function code next points.old.items) }
    ensures long { OnOk result (length points.new.items ≡ length points.old.items + emitted.size_of code) }
{
    match code.node {
        CodeNode::Nothing => Ok(next),
        CodeNode::Leaf { site, facts, step } => {
            add_point(points, function, site, facts, step.to(next))
        }
        CodeNode::Pair(pair) => emit_pair(function, Box::into_inner(pair), next, points),
        CodeNode::InOrder(parts) => emit_parts(function, parts, next, points),
        CodeNode::Choice(choice) => emit_choice(function, Box::into_inner(choice), next, points),
        CodeNode::Loop(repeated) => emit_loop(function, Box::into_inner(repeated), next, points),
    }
}

// Two parts: the second goes on behind them, and the first at the second.
#[cycle(emit)]
fn emit_pair(
    function: FunctionId,
    pair: Pair,
    next: PointId,
    points: &mut Vec<Point>,
) -> Result<PointId, AllocError>
    requires { length points.old.items + (emitted.size_of pair.first + emitted.size_of pair.second) ≤ 2 ^ 32 }
    ensures made { IfOk result (λ entry. emitted.made points.new.items entry ≡ emitted.emit function (form.sequence pair.first pair.second) next points.old.items) }
    ensures long { OnOk result (length points.new.items ≡ length points.old.items + (emitted.size_of pair.first + emitted.size_of pair.second)) }
{
    let Pair { first, second } = pair;
    let after = emit(function, second, next, points)?;
    emit(function, first, after, points)
}

// Any number of parts: each goes on at the one behind it.
#[cycle(emit)]
fn emit_parts(
    function: FunctionId,
    parts: Vec<Code>,
    next: PointId,
    points: &mut Vec<Point>,
) -> Result<PointId, AllocError>
    requires { length points.old.items + emitted.size_of (form.in_order parts.items) ≤ 2 ^ 32 }
    ensures made { IfOk result (λ entry. emitted.made points.new.items entry ≡ emitted.emit function (form.in_order parts.items) next points.old.items) }
    ensures long { OnOk result (length points.new.items ≡ length points.old.items + emitted.size_of (form.in_order parts.items)) }
{
    let mut left = parts;
    let mut entry = next;
    while let Some(part) = left.pop() {
        entry = emit(function, part, entry, points)?;
    }
    Ok(entry)
}

// A choice: both ways go on behind it, and its test at each of them.
#[cycle(emit)]
fn emit_choice(
    function: FunctionId,
    choice: Choice,
    next: PointId,
    points: &mut Vec<Point>,
) -> Result<PointId, AllocError>
    requires { length points.old.items + (1 + emitted.size_of choice.first + emitted.size_of choice.second) ≤ 2 ^ 32 }
    ensures made { IfOk result (λ entry. emitted.made points.new.items entry ≡ emitted.emit function (form.choice choice.site choice.facts choice.test choice.first choice.second) next points.old.items) }
    ensures long { OnOk result (length points.new.items ≡ length points.old.items + (1 + emitted.size_of choice.first + emitted.size_of choice.second)) }
{
    let Choice {
        site,
        facts,
        test,
        first,
        second,
    } = choice;
    let other = emit(function, second, next, points)?;
    let one = emit(function, first, next, points)?;
    add_point(points, function, site, facts, test.to(one, other))
}

// A loop: its head comes first among its points, so that the body can go back to it, and is told where it
// goes on when the condition is made.
#[cycle(emit)]
fn emit_loop(
    function: FunctionId,
    repeated: Loop,
    next: PointId,
    points: &mut Vec<Point>,
) -> Result<PointId, AllocError>
    requires { length points.old.items + (2 + emitted.size_of repeated.condition + emitted.size_of repeated.body) ≤ 2 ^ 32 }
    ensures made { IfOk result (λ entry. emitted.made points.new.items entry ≡ emitted.emit function (form.loop repeated.site repeated.head repeated.facts repeated.condition repeated.test repeated.body) next points.old.items) }
    ensures long { OnOk result (length points.new.items ≡ length points.old.items + (2 + emitted.size_of repeated.condition + emitted.size_of repeated.body)) }
{
    let Loop {
        site,
        head,
        facts,
        condition,
        test,
        body,
    } = repeated;
    let start = add_point(points, function, site, head, Term::End)?;
    let passes = emit(function, body, start, points)?;
    let tests = add_point(points, function, site, facts, test.to(passes, next))?;
    let asks = emit(function, condition, tests, points)?;
    tell(points, start, Term::Goto { next: asks });
    Ok(start)
}
