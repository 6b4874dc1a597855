//! What statements give.

#![tactic(auto, using(std::proofs::lemmas::Grind::common_steps, crate::proofs::Saying::said_no_more, crate::proofs::Saying::said_twice))]

ghost use Rattle.std.specs.Prelude.{◌≡◌, ◌∷◌, [], IfOk, OnOk};
ghost use Rattle.dart_tree.specs.Tree.{block, expression_statement, part_of, trees_of, variable_statement, while_statement};
ghost use Rattle.judgement.specs.Given.{said_of_statement};
ghost use Rattle.judgement.specs.Judgement.{declare, declare_all, declare_list, evaluate_part};
ghost use Rattle.judgement.specs.Judgement.{run_all, run_branch, type_of, type_row, written_type};
ghost use Rattle.resolve.specs.Around.{around};
ghost use Rattle.resolve.specs.Judged.{IfGives, IfRuns, Says};
ghost use Rattle.resolve.specs.Points.{branching, known, run_scope, surroundings};
ghost use Rattle.resolve.specs.WrittenIn.{known_at_head};

use super::expressions::{judge_condition, judge_expression, meaning_of};
use super::models::{behind_scope, head_of_loop};
use super::types::invalid_type;
use super::writes::{declare, initialize};
use super::written::written_in_loop;
use super::{Context, Found, Point};
use crate::names::{NamesInScope, declared_local, names_declared, names_in};
use dart_tree::{
    Expr, Place, Stmt, StmtNode, Variable, VariableList, WrittenType, WrittenTypeNode,
};
use dart_types::DartType;
use flow_model::Flow;
use judgement::{Meaning, TypedNode};
use std::alloc::AllocError;
use std::rc::Rc;

// What a statement gives. As with each of these functions, the names are afterwards what they were.
#[cycle(judge)]
fn judge_statement(
    context: Context,
    names: &mut NamesInScope,
    statement: &Stmt,
    before: &Rc<Flow>,
    found: &mut Found,
) -> Result<Rc<Flow>, AllocError>
    ensures gives { IfRuns found.old found.new result (around context.entry names.old) statement.now before.now.value }
    ensures names { OnOk result (names.new ≡ names.old) }
{
    match &*statement.node {
        StmtNode::Variables { at, variables } => {
            judge_variables(context, names, *at, variables, before, found)
        }
        StmtNode::Expression { at, value } => {
            judge_effect(context, names, *at, value, before, found)
        }
        StmtNode::If {
            at,
            condition,
            then_branch,
            else_branch,
        } => {
            let branches = Branches {
                then_branch,
                else_branch,
            };
            judge_if(context, names, *at, condition, branches, before, found)
        }
        StmtNode::While {
            at,
            condition,
            body,
        } => judge_while(context, names, *at, condition, body, before, found),
        StmtNode::Block { at, statements } => {
            judge_block(context, names, *at, statements, before, found)
        }
        _ => before.clone(),
    }
}

// A block: a scope of what its statements declare.
#[cycle(judge)]
pub(super) fn judge_block(
    context: Context,
    names: &mut NamesInScope,
    at: Place,
    statements: &[Stmt],
    before: &Rc<Flow>,
    found: &mut Found,
) -> Result<Rc<Flow>, AllocError>
    ensures gives { IfRuns found.old found.new result (around context.entry names.old) (block at (trees_of statements.now)) before.now.value }
    ensures names { OnOk result (names.new ≡ names.old) }
{
    let declared = names_in(context.alloc, statements)?;
    let shadowed = names.enter(context.alloc, &declared)?;
    let inside = judge_statements(context, names, statements, before, found)?;
    names.leave(shadowed)?;
    let after = behind_scope(context.alloc, &declared, before, &inside)?;
    say(at, None, before, &after, found)?;
    Ok(after)
}

// Statements, one after another.
#[cycle(judge)]
fn judge_statements(
    context: Context,
    names: &mut NamesInScope,
    statements: &[Stmt],
    before: &Rc<Flow>,
    found: &mut Found,
) -> Result<Rc<Flow>, AllocError>
    ensures gives { IfGives found.old found.new result (run_all (around context.entry names.old) (trees_of statements.now) before.now.value) }
    ensures names { OnOk result (names.new ≡ names.old) }
{
    let mut after = before.clone()?;
    for statement in statements {
        after = judge_statement(context, names, statement, &after, found)?;
    }
    Ok(after)
}

// A statement that is a branch or the body of a loop, and so a scope of what it declares.
#[cycle(judge)]
fn judge_scope(
    context: Context,
    names: &mut NamesInScope,
    statement: &Stmt,
    before: &Rc<Flow>,
    found: &mut Found,
) -> Result<Rc<Flow>, AllocError>
    ensures gives { IfGives found.old found.new result (run_scope (around context.entry names.old) statement.now before.now.value) }
    ensures names { OnOk result (names.new ≡ names.old) }
{
    let declared = names_declared(context.alloc, statement)?;
    let shadowed = names.enter(context.alloc, &declared)?;
    let inside = judge_statement(context, names, statement, before, found)?;
    names.leave(shadowed)?;
    behind_scope(context.alloc, &declared, before, &inside)
}

/// What stands behind the condition of an `if`: a statement, and another behind an `else`, if there is
/// one.
#[derive(Clone, Copy)]
struct Branches<'a> {
    then_branch: &'a Stmt,
    else_branch: &'a Option<Stmt>,
}

// A branch: one statement from where the condition is true, the other, or nothing, from where it is
// false.
#[cycle(judge)]
fn judge_if(
    context: Context,
    names: &mut NamesInScope,
    at: Place,
    condition: &Expr,
    branches: Branches,
    before: &Rc<Flow>,
    found: &mut Found,
) -> Result<Rc<Flow>, AllocError>
    ensures gives { IfRuns found.old found.new result (around context.entry names.old) (branching at condition.now branches.entry) before.now.value }
    ensures names { OnOk result (names.new ≡ names.old) }
{
    let point = Point {
        context,
        names,
        before,
    };
    let tested = judge_condition(point, condition, found)?;
    let one = judge_scope(
        context,
        names,
        branches.then_branch,
        &tested.when_true,
        found,
    )?;
    let other = judge_else(
        context,
        names,
        branches.else_branch,
        &tested.when_false,
        found,
    )?;
    let after = Flow::meeting(context.alloc, context.rows, &one, &other)?;
    say(at, None, before, &after, found)?;
    Ok(after)
}

// What stands behind an `else`, if there is one.
#[cycle(judge)]
fn judge_else(
    context: Context,
    names: &mut NamesInScope,
    else_branch: &Option<Stmt>,
    before: &Rc<Flow>,
    found: &mut Found,
) -> Result<Rc<Flow>, AllocError>
    ensures gives { IfGives found.old found.new result (run_branch (around context.entry names.old) (part_of else_branch.now) before.now.value) }
    ensures names { OnOk result (names.new ≡ names.old) }
{
    match else_branch {
        None => before.clone(),
        Some(branch) => judge_scope(context, names, branch, before, found),
    }
}

// A loop: the condition is judged from what is known each time that it is come to, the body from where
// it is true, and the loop ends where it is false.
#[cycle(judge)]
fn judge_while(
    context: Context,
    names: &mut NamesInScope,
    at: Place,
    condition: &Expr,
    body: &Stmt,
    before: &Rc<Flow>,
    found: &mut Found,
) -> Result<Rc<Flow>, AllocError>
    ensures gives { IfRuns found.old found.new result (around context.entry names.old) (while_statement at condition.now body.now) before.now.value }
    ensures names { OnOk result (names.new ≡ names.old) }
{
    let head = head_of(context, names, condition, body, before)?;
    let point = Point {
        context,
        names,
        before: &head,
    };
    let tested = judge_condition(point, condition, found)?;
    judge_scope(context, names, body, &tested.when_true, found)?;
    let after = tested.when_false.clone()?;
    say(at, None, before, &after, found)?;
    Ok(after)
}

// What is known at the head of a loop, each time that its condition is come to. The list of what the
// loop writes is let go here, before the loop is judged.
fn head_of(
    context: Context,
    names: &mut NamesInScope,
    condition: &Expr,
    body: &Stmt,
    before: &Rc<Flow>,
) -> Result<Rc<Flow>, AllocError>
    ensures head { IfOk result (λ head. head.value ≡ known_at_head (around context.entry names.old) condition.now body.now before.now.value) }
    ensures names { OnOk result (names.new ≡ names.old) }
{
    let written = written_in_loop(context, names, condition, body)?;
    let head = head_of_loop(context.alloc, &written, before)?;
    Ok(head)
}

// Variables that are declared together, as a statement.
fn judge_variables(
    context: Context,
    names: &NamesInScope,
    at: Place,
    list: &VariableList,
    before: &Rc<Flow>,
    found: &mut Found,
) -> Result<Rc<Flow>, AllocError>
    ensures { IfRuns found.old found.new result (around context.entry names.now) (variable_statement at list.now) before.now.value }
{
    let point = Point {
        context,
        names,
        before,
    };
    let after = declare_list(point, list, found)?;
    say(at, None, before, &after, found)?;
    Ok(after)
}

// Variables that are declared together.
fn declare_list(
    point: Point,
    list: &VariableList,
    found: &mut Found,
) -> Result<Rc<Flow>, AllocError>
    ensures { IfGives found.old found.new result (declare_list (surroundings point.entry) list.now (known point.entry)) }
{
    let ty = written_type(point.context, point.names, &list.written)?;
    declare_variables(point, &ty, &list.variables, found)
}

// Variables of a type, one after another.
fn declare_variables(
    point: Point,
    ty: &DartType,
    variables: &[Variable],
    found: &mut Found,
) -> Result<Rc<Flow>, AllocError>
    ensures { IfGives found.old found.new result (declare_all (surroundings point.entry) ty.now (trees_of variables.now) (known point.entry)) }
{
    let mut after = point.before.clone()?;
    for variable in variables {
        let behind = Point {
            before: &after,
            ..point
        };
        after = declare_variable(behind, ty, variable, found)?;
    }
    Ok(after)
}

// A variable: its initializer is judged before the local comes into scope.
fn declare_variable(
    point: Point,
    ty: &DartType,
    variable: &Variable,
    found: &mut Found,
) -> Result<Rc<Flow>, AllocError>
    ensures { IfGives found.old found.new result (declare (surroundings point.entry) ty.now variable.now (known point.entry)) }
{
    let element = Some(Meaning::Local(declared_local(variable.name)));
    match &variable.initializer {
        None => {
            let after = declare(point, variable.name, ty, &mut found.faults)?;
            say(variable.at, element, point.before, &after, found)?;
            Ok(after)
        }
        Some(value) => {
            let value = judge_expression(point, value, Some(ty), found)?;
            let after = initialize(point, variable.name, ty, &value, &mut found.faults)?;
            say(variable.at, element, point.before, &after, found)?;
            Ok(after)
        }
    }
}

// An expression that stands as a statement.
fn judge_effect(
    context: Context,
    names: &NamesInScope,
    at: Place,
    value: &Option<Expr>,
    before: &Rc<Flow>,
    found: &mut Found,
) -> Result<Rc<Flow>, AllocError>
    ensures { IfRuns found.old found.new result (around context.entry names.now) (expression_statement at (part_of value.now)) before.now.value }
{
    let point = Point {
        context,
        names,
        before,
    };
    let after = judge_value(point, value, found)?;
    say(at, None, before, &after, found)?;
    Ok(after)
}

// An expression that stands as a statement, or nothing.
fn judge_value(
    point: Point,
    value: &Option<Expr>,
    found: &mut Found,
) -> Result<Rc<Flow>, AllocError>
    ensures { IfGives found.old found.new result (evaluate_part (surroundings point.entry) (part_of value.now) (known point.entry)) }
{
    match value {
        None => point.before.clone(),
        Some(value) => {
            let typed = judge_expression(point, value, None, found)?;
            Ok(typed.after)
        }
    }
}

// Adds what is said of a statement, or of a variable that is declared, if that is kept.
#[tactic(auto, using(crate::proofs::Saying::said_unkept))]
fn say(
    at: Place,
    element: Option<Meaning>,
    before: &Rc<Flow>,
    after: &Rc<Flow>,
    found: &mut Found,
) -> Result<(), AllocError>
    ensures faults { OnOk result (found.new.faults.items ≡ found.old.faults.items) }
    ensures nodes { Says found.old.nodes found.new.nodes result (said_of_statement at.node element before.now.value after.now.value ∷ []) }
{
    if !found.nodes.is_kept() {
        return Ok(());
    }
    found.nodes.add(TypedNode {
        node: at.node,
        ty: None,
        element,
        before: before.clone()?,
        after: after.clone()?,
        when_true: after.clone()?,
        when_false: after.clone()?,
    })?;
    Ok(())
}

// The type that is written.
fn written_type(
    context: Context,
    names: &NamesInScope,
    written: &Option<WrittenType>,
) -> Result<DartType, AllocError>
    ensures { IfOk result (λ ty. ty ≡ written_type (around context.entry names.now) (part_of written.now)) }
{
    match written {
        None => Ok(invalid_type()),
        Some(written) => type_of(context, names, written),
    }
}

// The type that a written type is.
fn type_of(
    context: Context,
    names: &NamesInScope,
    written: &WrittenType,
) -> Result<DartType, AllocError>
    ensures { IfOk result (λ ty. ty ≡ type_of (around context.entry names.now) written.now) }
{
    match &*written.node {
        WrittenTypeNode::Named {
            prefix,
            name,
            arguments,
            nullable,
            ..
        } => {
            if prefix.is_some() || arguments.is_some() {
                return Ok(invalid_type());
            }
            named_type(context, meaning_of(context, names, name.word), *nullable)
        }
        _ => Ok(invalid_type()),
    }
}

// The type that a name is, with `?` behind it or without.
fn named_type(context: Context, meaning: Meaning, nullable: bool) -> Result<DartType, AllocError>
    ensures { IfOk result (λ ty. ty ≡ type_row meaning nullable) }
{
    match meaning {
        Meaning::Class(class) => {
            let ty = DartType::class(context.alloc, class)?;
            if nullable {
                return DartType::nullable(context.alloc, ty);
            }
            Ok(ty)
        }
        Meaning::Nothing => Ok(invalid_type()),
        Meaning::Local(_) => Ok(invalid_type()),
        Meaning::Print => Ok(invalid_type()),
        Meaning::Other => Ok(invalid_type()),
    }
}
