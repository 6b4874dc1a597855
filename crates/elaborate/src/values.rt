//! The code of expressions.

ghost use Rattle.std.specs.Prelude.{◌≡◌, IfOk, if◌then◌else◌};
ghost use Rattle.dart_tree.specs.Tree.{trees_of};
ghost use Rattle.dart_tree.specs.Places.{place_of};
ghost use Rattle.core_emit.specs.Code.{nothing, sequence};
ghost use Rattle.elaborate.specs.Known as known;
ghost use Rattle.elaborate.specs.Rows.{assignment_row, code_of, name_row, one_printed, operand_of, operator_row, print_code, print_row, printed};
ghost use Rattle.elaborate.specs.Sources as sources;

use crate::builder::Builder;
use crate::operands::{operand_of, operator_step};
use crate::said::{Said, is_print};
use core_emit::{Code, Step};
use core_ir::{Operand, SlotId};
use dart_tree::{Argument, ArgumentList, BinaryOperatorKind, Expr, ExprNode, Place};
use flow_model::Flow;
use std::alloc::{AllocError, Global};

/// The code of an expression, where these values are held.
#[cycle(value)]
pub(crate) fn code_of(
    said: &Said,
    build: &mut Builder,
    values: &[SlotId],
    tree: &Expr,
) -> Result<Code, AllocError>
    ensures { IfOk result (λ code. code ≡ code_of said.now values.now tree.now) }
{
    match &*tree.node {
        ExprNode::Identifier { at, .. } => name_row(said, build, values, *at),
        ExprNode::Parenthesis { inner, .. } => code_of(said, build, values, inner),
        ExprNode::Binary {
            at,
            operator,
            left,
            right,
        } => operator_code(said, build, values, *at, operator.kind, left, right),
        ExprNode::Assignment { at, value, .. } => assignment_code(said, build, values, *at, value),
        ExprNode::Call { at, arguments, .. } => call_code(said, build, values, *at, arguments),
        _ => Ok(Code::nothing()),
    }
}

// An operator: its left side, its right side, where the left one's value is held, and then what it does.
#[cycle(value)]
fn operator_code(
    said: &Said,
    build: &mut Builder,
    values: &[SlotId],
    at: Place,
    kind: BinaryOperatorKind,
    left: &Expr,
    right: &Expr,
) -> Result<Code, AllocError>
    ensures { IfOk result (λ code. code ≡ sequence (code_of said.now values.now left.now) (sequence (code_of said.now (known.holding values.now (operand_of said.now left.now)) right.now) (operator_row said.now at (sources.known_behind said.now (place_of right.now)) values.now kind (operand_of said.now left.now) (operand_of said.now right.now)))) }
{
    let one = operand_of(said, left);
    let other = operand_of(said, right);
    let held = holding(build.alloc(), values, one)?;
    let flow = said.known_behind(right.place());
    let first = code_of(said, build, values, left)?;
    let second = code_of(said, build, &held, right)?;
    let own = operator_row(said, build, at, flow, values, kind, one, other)?;
    let rest = Code::pair(build.alloc(), second, own)?;
    Code::pair(build.alloc(), first, rest)
}

// An assignment: its value, and then the write.
#[cycle(value)]
fn assignment_code(
    said: &Said,
    build: &mut Builder,
    values: &[SlotId],
    at: Place,
    value: &Expr,
) -> Result<Code, AllocError>
    ensures { IfOk result (λ code. code ≡ sequence (code_of said.now values.now value.now) (assignment_row said.now at (sources.known_behind said.now (place_of value.now)) values.now (sources.local_meant (sources.named_at said.now at)) (operand_of said.now value.now))) }
{
    let operand = operand_of(said, value);
    let flow = said.known_behind(value.place());
    let first = code_of(said, build, values, value)?;
    let own = assignment_row(said, build, at, flow, values, operand)?;
    Code::pair(build.alloc(), first, own)
}

// A call, of which only those of `print` have code so far.
#[cycle(value)]
fn call_code(
    said: &Said,
    build: &mut Builder,
    values: &[SlotId],
    at: Place,
    arguments: &ArgumentList,
) -> Result<Code, AllocError>
    ensures { IfOk result (λ code. code ≡ (if sources.is_print (sources.named_at said.now at) then print_code said.now at values.now arguments.now else nothing)) }
{
    if is_print(said.named_at(at)) {
        return one_printed(said, build, values, at, &arguments.node.arguments);
    }
    Ok(Code::nothing())
}

// A call of `print` with these arguments: one.
#[cycle(value)]
fn one_printed(
    said: &Said,
    build: &mut Builder,
    values: &[SlotId],
    at: Place,
    arguments: &[Argument],
) -> Result<Code, AllocError>
    ensures { IfOk result (λ code. code ≡ one_printed said.now at values.now (trees_of arguments.now)) }
{
    if arguments.len() == 1 {
        return printed(said, build, values, at, &arguments[0]);
    }
    Ok(Code::nothing())
}

// A call of `print` with this argument.
#[cycle(value)]
fn printed(
    said: &Said,
    build: &mut Builder,
    values: &[SlotId],
    at: Place,
    argument: &Argument,
) -> Result<Code, AllocError>
    ensures { IfOk result (λ code. code ≡ printed said.now at values.now argument.now) }
{
    value_printed(said, build, values, at, &argument.value)
}

// A call of `print`: the value that it prints, and then the output.
#[cycle(value)]
fn value_printed(
    said: &Said,
    build: &mut Builder,
    values: &[SlotId],
    at: Place,
    value: &Expr,
) -> Result<Code, AllocError>
    ensures { IfOk result (λ code. code ≡ sequence (code_of said.now values.now value.now) (print_row said.now at (sources.known_behind said.now (place_of value.now)) values.now (operand_of said.now value.now))) }
{
    let from = operand_of(said, value);
    let held = holding(build.alloc(), values, from)?;
    let flow = said.known_behind(value.place());
    let first = code_of(said, build, values, value)?;
    let own = build.step_at(said, at, flow, &held, Step::Output { from })?;
    Code::pair(build.alloc(), first, own)
}

// A name: the value of the local that it means, if it means one.
fn name_row(
    said: &Said,
    build: &mut Builder,
    values: &[SlotId],
    at: Place,
) -> Result<Code, AllocError>
    ensures { IfOk result (λ code. code ≡ name_row said.now at values.now (sources.local_meant (sources.named_at said.now at))) }
{
    match said.local_at(at) {
        Some(var) => {
            let step = Step::Store {
                to: said.slot_at(at),
                from: Operand::Slot(said.slot_of_local(var)),
            };
            build.step_at(said, at, said.known_before(at), values, step)
        }
        None => Ok(Code::nothing()),
    }
}

// What an operator does, where the values of both its sides are held.
fn operator_row(
    said: &Said,
    build: &mut Builder,
    at: Place,
    flow: &Flow,
    values: &[SlotId],
    kind: BinaryOperatorKind,
    left: Operand,
    right: Operand,
) -> Result<Code, AllocError>
    ensures { IfOk result (λ code. code ≡ operator_row said.now at flow.now values.now kind left right) }
{
    match operator_step(kind, said.slot_at(at), left, right) {
        Some(step) => {
            let one = holding(build.alloc(), values, left)?;
            let both = holding(build.alloc(), &one, right)?;
            build.step_at(said, at, flow, &both, step)
        }
        None => Ok(Code::nothing()),
    }
}

// The write of a value to the local that a node names, if it names one.
fn assignment_row(
    said: &Said,
    build: &mut Builder,
    at: Place,
    flow: &Flow,
    values: &[SlotId],
    value: Operand,
) -> Result<Code, AllocError>
    ensures { IfOk result (λ code. code ≡ assignment_row said.now at flow.now values.now (sources.local_meant (sources.named_at said.now at)) value) }
{
    match said.local_at(at) {
        Some(var) => {
            let held = holding(build.alloc(), values, value)?;
            let step = Step::Store {
                to: said.slot_of_local(var),
                from: value,
            };
            build.step_at(said, at, flow, &held, step)
        }
        None => Ok(Code::nothing()),
    }
}

/// The values that are held, with that of an operand, which a constant needn't be.
pub(crate) fn holding(
    alloc: Global,
    values: &[SlotId],
    operand: Operand,
) -> Result<Vec<SlotId>, AllocError>
    ensures { IfOk result (λ held. held.items ≡ known.holding values.now operand) }
{
    let mut held = Vec::new(alloc);
    held.extend_from_slice(values)?;
    if let Operand::Slot(slot) = operand {
        held.push(slot)?;
    }
    Ok(held)
}
