//! The locals that trees write.

ghost use Rattle.std.specs.Prelude.{◌≡◌, IfOk, OnOk};
ghost use Rattle.dart_tree.specs.Tree.{part_of, trees_of};
ghost use Rattle.judgement.specs.Written.{local_meant, written_in, written_in_all, written_in_branch, written_in_part};
ghost use Rattle.resolve.specs.Around.{around};
ghost use Rattle.resolve.specs.Judged.{Adds};
ghost use Rattle.resolve.specs.WrittenIn.{written_in_block, written_in_loop, written_in_scope};

use super::Context;
use super::expressions::named_by;
use crate::names::{NamesInScope, names_declared, names_in};
use dart_tree::{Argument, Expr, ExprNode, Stmt, StmtNode, Variable};
use flow_model::LocalId;
use judgement::Meaning;
use std::alloc::AllocError;

// The locals that a loop's condition and body write. The names are afterwards what they were.
pub(super) fn written_in_loop(
    context: Context,
    names: &mut NamesInScope,
    condition: &Expr,
    body: &Stmt,
) -> Result<Vec<LocalId>, AllocError>
    ensures locals { IfOk result (λ locals. locals.items ≡ written_in_loop (around context.entry names.old) condition.now body.now) }
    ensures names { OnOk result (names.new ≡ names.old) }
{
    let mut written = Vec::new(context.alloc);
    add_written_in_value(context, names, condition, &mut written)?;
    add_written_in_scope(context, names, body, &mut written)?;
    Ok(written)
}

// Puts the locals that an expression writes behind those that are written already.
#[cycle(values)]
fn add_written_in_value(
    context: Context,
    names: &NamesInScope,
    expression: &Expr,
    written: &mut Vec<LocalId>,
) -> Result<(), AllocError>
    ensures { Adds written.old written.new result (written_in (around context.entry names.now) expression.now) }
{
    match &*expression.node {
        ExprNode::Parenthesis { inner, .. } => add_written_in_value(context, names, inner, written),
        ExprNode::Binary { left, right, .. } => {
            add_written_in_value(context, names, left, written)?;
            add_written_in_value(context, names, right, written)
        }
        ExprNode::Assignment { target, value, .. } => {
            add_written_in_value(context, names, value, written)?;
            add_local(named_by(context, names, target), written)
        }
        ExprNode::Call { arguments, .. } => {
            add_written_in_arguments(context, names, &arguments.node.arguments, written)
        }
        _ => Ok(()),
    }
}

// Puts the locals that arguments write behind them.
#[cycle(values)]
fn add_written_in_arguments(
    context: Context,
    names: &NamesInScope,
    arguments: &[Argument],
    written: &mut Vec<LocalId>,
) -> Result<(), AllocError>
    ensures { Adds written.old written.new result (written_in_all (around context.entry names.now) (trees_of arguments.now)) }
{
    for argument in arguments {
        add_written_in_argument(context, names, argument, written)?;
    }
    Ok(())
}

// Puts the locals that an argument writes behind them.
#[cycle(values)]
fn add_written_in_argument(
    context: Context,
    names: &NamesInScope,
    argument: &Argument,
    written: &mut Vec<LocalId>,
) -> Result<(), AllocError>
    ensures { Adds written.old written.new result (written_in (around context.entry names.now) argument.now) }
{
    add_written_in_value(context, names, &argument.value, written)
}

// Puts the locals that a part writes behind them: none where it is left out.
fn add_written_in_part(
    context: Context,
    names: &NamesInScope,
    value: &Option<Expr>,
    written: &mut Vec<LocalId>,
) -> Result<(), AllocError>
    ensures { Adds written.old written.new result (written_in_part (around context.entry names.now) (part_of value.now)) }
{
    match value {
        None => Ok(()),
        Some(value) => add_written_in_value(context, names, value, written),
    }
}

// Puts the locals that initializers write behind them.
fn add_written_in_variables(
    context: Context,
    names: &NamesInScope,
    variables: &[Variable],
    written: &mut Vec<LocalId>,
) -> Result<(), AllocError>
    ensures { Adds written.old written.new result (written_in_all (around context.entry names.now) (trees_of variables.now)) }
{
    for variable in variables {
        add_written_in_variable(context, names, variable, written)?;
    }
    Ok(())
}

// Puts the locals that an initializer writes behind them.
fn add_written_in_variable(
    context: Context,
    names: &NamesInScope,
    variable: &Variable,
    written: &mut Vec<LocalId>,
) -> Result<(), AllocError>
    ensures { Adds written.old written.new result (written_in (around context.entry names.now) variable.now) }
{
    add_written_in_part(context, names, &variable.initializer, written)
}

// Puts the local that a name means behind them, if it means one.
fn add_local(meaning: Meaning, written: &mut Vec<LocalId>) -> Result<(), AllocError>
    ensures { Adds written.old written.new result (local_meant meaning) }
{
    match meaning {
        Meaning::Local(var) => {
            written.push(var)?;
            Ok(())
        }
        Meaning::Nothing => Ok(()),
        Meaning::Print => Ok(()),
        Meaning::Class(_) => Ok(()),
        Meaning::Other => Ok(()),
    }
}

// Puts the locals that a statement writes that is a branch or a body, and so a scope, behind them.
#[cycle(written)]
fn add_written_in_scope(
    context: Context,
    names: &mut NamesInScope,
    statement: &Stmt,
    written: &mut Vec<LocalId>,
) -> Result<(), AllocError>
    ensures locals { Adds written.old written.new result (written_in_scope (around context.entry names.old) statement.now) }
    ensures names { OnOk result (names.new ≡ names.old) }
{
    let declared = names_declared(context.alloc, statement)?;
    let shadowed = names.enter(context.alloc, &declared)?;
    add_written(context, names, statement, written)?;
    names.leave(shadowed)
}

// Puts the locals that the statements of a block write behind them.
#[cycle(written)]
fn add_written_in_block(
    context: Context,
    names: &mut NamesInScope,
    statements: &[Stmt],
    written: &mut Vec<LocalId>,
) -> Result<(), AllocError>
    ensures locals { Adds written.old written.new result (written_in_block (around context.entry names.old) (trees_of statements.now)) }
    ensures names { OnOk result (names.new ≡ names.old) }
{
    let declared = names_in(context.alloc, statements)?;
    let shadowed = names.enter(context.alloc, &declared)?;
    add_written_in_all(context, names, statements, written)?;
    names.leave(shadowed)
}

// Puts the locals that statements write, one after another, behind them.
#[cycle(written)]
fn add_written_in_all(
    context: Context,
    names: &mut NamesInScope,
    statements: &[Stmt],
    written: &mut Vec<LocalId>,
) -> Result<(), AllocError>
    ensures locals { Adds written.old written.new result (written_in_all (around context.entry names.old) (trees_of statements.now)) }
    ensures names { OnOk result (names.new ≡ names.old) }
{
    for statement in statements {
        add_written(context, names, statement, written)?;
    }
    Ok(())
}

// Puts the locals that the other branch writes behind them, if there is one.
#[cycle(written)]
fn add_written_in_else(
    context: Context,
    names: &mut NamesInScope,
    branch: &Option<Stmt>,
    written: &mut Vec<LocalId>,
) -> Result<(), AllocError>
    ensures locals { Adds written.old written.new result (written_in_branch (around context.entry names.old) (part_of branch.now)) }
    ensures names { OnOk result (names.new ≡ names.old) }
{
    match branch {
        None => Ok(()),
        Some(statement) => add_written_in_scope(context, names, statement, written),
    }
}

// Puts the locals that a statement writes behind those that are written already.
#[cycle(written)]
fn add_written(
    context: Context,
    names: &mut NamesInScope,
    statement: &Stmt,
    written: &mut Vec<LocalId>,
) -> Result<(), AllocError>
    ensures locals { Adds written.old written.new result (written_in (around context.entry names.old) statement.now) }
    ensures names { OnOk result (names.new ≡ names.old) }
{
    match &*statement.node {
        StmtNode::Variables { variables, .. } => {
            add_written_in_variables(context, names, &variables.variables, written)
        }
        StmtNode::Expression { value, .. } => add_written_in_part(context, names, value, written),
        StmtNode::If {
            condition,
            then_branch,
            else_branch,
            ..
        } => {
            add_written_in_value(context, names, condition, written)?;
            add_written_in_scope(context, names, then_branch, written)?;
            add_written_in_else(context, names, else_branch, written)
        }
        StmtNode::While {
            condition,
            body,
            ..
        } => {
            add_written_in_value(context, names, condition, written)?;
            add_written_in_scope(context, names, body, written)
        }
        StmtNode::Block { statements, .. } => {
            add_written_in_block(context, names, statements, written)
        }
        _ => Ok(()),
    }
}
