//! The errors in statements and their parts.

ghost use Rattle.std.specs.Prelude.{◌≡◌, ◌++◌, OnOk};
ghost use Rattle.dart_tree.specs.Tree.{trees_of, part_of};
ghost use Rattle.dart_tree.specs.View.{for_initializer_of};
ghost use Rattle.error_nodes.specs.Errors.{errors_of, errors_of_all, errors_of_part};

use crate::expressions::{add_from_expr, add_from_exprs, add_from_optional_expr};
use crate::functions::{add_from_function, add_from_variable_list};
use crate::types::add_from_optional_written_type;
use dart_tree::{Block, CatchClause, ForInitializer, Place, Stmt, StmtNode, SwitchCase};
use std::alloc::AllocError;

/// Adds the errors in a statement.
#[cycle(parts)]
pub(crate) fn add_from_stmt(stmt: &Stmt, errors: &mut Vec<Place>) -> Result<(), AllocError>
    ensures { OnOk result (errors.new.items ≡ errors.old.items ++ errors_of stmt.now) }
{
    match &*stmt.node {
        StmtNode::Block { statements, .. } => return add_from_stmts(statements.as_slice(), errors),
        StmtNode::Variables { variables, .. } => return add_from_variable_list(variables, errors),
        StmtNode::Function { function, .. } => return add_from_function(function, errors),
        StmtNode::Expression { value, .. } => return add_from_optional_expr(value, errors),
        StmtNode::If {
            condition,
            then_branch,
            else_branch,
            ..
        } => {
            add_from_expr(condition, errors)?;
            add_from_stmt(then_branch, errors)?;
            return add_from_optional_stmt(else_branch, errors);
        }
        StmtNode::While {
            condition,
            body,
            ..
        } => {
            add_from_expr(condition, errors)?;
            return add_from_stmt(body, errors);
        }
        StmtNode::Do {
            body,
            condition,
            ..
        } => {
            add_from_stmt(body, errors)?;
            return add_from_expr(condition, errors);
        }
        StmtNode::For {
            initializer,
            condition,
            updates,
            body,
            ..
        } => {
            add_from_for_initializer(initializer, errors)?;
            add_from_optional_expr(condition, errors)?;
            add_from_exprs(updates.as_slice(), errors)?;
            return add_from_stmt(body, errors);
        }
        StmtNode::ForIn {
            written,
            iterable,
            body,
            ..
        } => {
            add_from_optional_written_type(written, errors)?;
            add_from_expr(iterable, errors)?;
            return add_from_stmt(body, errors);
        }
        StmtNode::ForInAssignment { iterable, body, .. } => {
            add_from_expr(iterable, errors)?;
            return add_from_stmt(body, errors);
        }
        StmtNode::Switch { value, cases, .. } => {
            add_from_expr(value, errors)?;
            return add_from_cases(cases.as_slice(), errors);
        }
        StmtNode::Try { parts, .. } => {
            add_from_block(&parts.body, errors)?;
            add_from_handlers(parts.handlers.as_slice(), errors)?;
            return add_from_optional_block(&parts.finally_block, errors);
        }
        StmtNode::Return { value, .. } => return add_from_optional_expr(value, errors),
        StmtNode::Break { .. } => return Ok(()),
        StmtNode::Continue { .. } => return Ok(()),
        StmtNode::Rethrow { .. } => return Ok(()),
        StmtNode::Labeled { body, .. } => return add_from_stmt(body, errors),
        StmtNode::Error { at } => {
            errors.push(*at)?;
            return Ok(());
        }
    }
}

/// Adds the errors in what a `for` begins with.
#[cycle(parts)]
pub(crate) fn add_from_for_initializer(
    initializer: &ForInitializer,
    errors: &mut Vec<Place>,
) -> Result<(), AllocError>
    ensures { OnOk result (errors.new.items ≡ errors.old.items ++ errors_of_part (for_initializer_of initializer.now)) }
{
    match initializer {
        ForInitializer::Absent => Ok(()),
        ForInitializer::Variables(variables) => add_from_variable_list(variables, errors),
        ForInitializer::Expression(value) => add_from_expr(value, errors),
    }
}

/// Adds the errors in statements, one after the other.
#[cycle(parts)]
pub(crate) fn add_from_stmts(stmts: &[Stmt], errors: &mut Vec<Place>) -> Result<(), AllocError>
    ensures { OnOk result (errors.new.items ≡ errors.old.items ++ errors_of_all (trees_of stmts.now)) }
{
    for item in stmts {
        add_from_stmt(item, errors)?;
    }
    Ok(())
}

/// Adds those in one that may be left out.
#[cycle(parts)]
pub(crate) fn add_from_optional_stmt(
    stmt: &Option<Stmt>,
    errors: &mut Vec<Place>,
) -> Result<(), AllocError>
    ensures { OnOk result (errors.new.items ≡ errors.old.items ++ errors_of_part (part_of stmt.now)) }
{
    match stmt {
        None => Ok(()),
        Some(tree) => add_from_stmt(tree, errors),
    }
}

/// Adds the errors in a block.
#[cycle(parts)]
pub(crate) fn add_from_block(block: &Block, errors: &mut Vec<Place>) -> Result<(), AllocError>
    ensures { OnOk result (errors.new.items ≡ errors.old.items ++ errors_of block.now) }
{
    add_from_stmts(block.statements.as_slice(), errors)
}

/// Adds those in one that may be left out.
#[cycle(parts)]
pub(crate) fn add_from_optional_block(
    block: &Option<Block>,
    errors: &mut Vec<Place>,
) -> Result<(), AllocError>
    ensures { OnOk result (errors.new.items ≡ errors.old.items ++ errors_of_part (part_of block.now)) }
{
    match block {
        None => Ok(()),
        Some(tree) => add_from_block(tree, errors),
    }
}

/// Adds the errors in a case.
#[cycle(parts)]
pub(crate) fn add_from_case(case: &SwitchCase, errors: &mut Vec<Place>) -> Result<(), AllocError>
    ensures { OnOk result (errors.new.items ≡ errors.old.items ++ errors_of case.now) }
{
    add_from_exprs(case.labels.as_slice(), errors)?;
    add_from_stmts(case.statements.as_slice(), errors)
}

/// Adds the errors in cases, one after the other.
#[cycle(parts)]
pub(crate) fn add_from_cases(
    cases: &[SwitchCase],
    errors: &mut Vec<Place>,
) -> Result<(), AllocError>
    ensures { OnOk result (errors.new.items ≡ errors.old.items ++ errors_of_all (trees_of cases.now)) }
{
    for item in cases {
        add_from_case(item, errors)?;
    }
    Ok(())
}

/// Adds the errors in a clause.
#[cycle(parts)]
pub(crate) fn add_from_handler(
    handler: &CatchClause,
    errors: &mut Vec<Place>,
) -> Result<(), AllocError>
    ensures { OnOk result (errors.new.items ≡ errors.old.items ++ errors_of handler.now) }
{
    add_from_optional_written_type(&handler.written, errors)?;
    add_from_block(&handler.body, errors)
}

/// Adds the errors in clauses of a `try`, one after the other.
#[cycle(parts)]
pub(crate) fn add_from_handlers(
    handlers: &[CatchClause],
    errors: &mut Vec<Place>,
) -> Result<(), AllocError>
    ensures { OnOk result (errors.new.items ≡ errors.old.items ++ errors_of_all (trees_of handlers.now)) }
{
    for item in handlers {
        add_from_handler(item, errors)?;
    }
    Ok(())
}
