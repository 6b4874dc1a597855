//! Statements of the forms that are built.

ghost use Rattle.std.specs.Prelude.{◌≡◌};
ghost use Rattle.dart_tree.specs.Tree.{part_of, trees_of};
ghost use Rattle.built_forms.specs.Forms.{has_effect, is_error, is_statement, is_block, may_be_block, are_statements};

use crate::expressions::{is_effect, is_value};
use crate::locals::is_declaration;
use dart_tree::{Expr, Stmt, StmtNode};
use judgement::Meaning;

/// Whether an expression stands as a statement, and is built.
fn has_effect(outside: &[Meaning], value: &Option<Expr>) -> bool
    ensures { result ≡ has_effect outside.now (part_of value.now) }
{
    match value {
        None => false,
        Some(effect) => is_effect(outside, effect),
    }
}

/// Whether a statement is an error: it derives nothing.
fn is_error(statement: &Stmt) -> bool
    ensures { result ≡ is_error statement.now }
{
    match &*statement.node {
        StmtNode::Error { .. } => true,
        _ => false,
    }
}

/// Whether a statement is built.
#[cycle(statements)]
fn is_statement(outside: &[Meaning], statement: &Stmt) -> bool
    ensures { result ≡ is_statement outside.now statement.now }
{
    match &*statement.node {
        StmtNode::Block { statements, .. } => are_statements(outside, statements),
        StmtNode::Variables { variables, .. } => is_declaration(outside, variables),
        StmtNode::Expression { value, .. } => has_effect(outside, value),
        StmtNode::If {
            condition,
            then_branch,
            else_branch,
            ..
        } => {
            is_value(outside, condition)
                && is_block(outside, then_branch)
                && may_be_block(outside, else_branch)
        }
        StmtNode::While {
            condition,
            body,
            ..
        } => is_value(outside, condition) && is_block(outside, body),
        _ => false,
    }
}

/// Whether a branch or the body of a loop is a block that is built.
#[cycle(statements)]
fn is_block(outside: &[Meaning], statement: &Stmt) -> bool
    ensures { result ≡ is_block outside.now statement.now }
{
    match &*statement.node {
        StmtNode::Block { statements, .. } => are_statements(outside, statements),
        _ => false,
    }
}

/// Whether what stands behind `else` is built, or left out.
#[cycle(statements)]
fn may_be_block(outside: &[Meaning], branch: &Option<Stmt>) -> bool
    ensures { result ≡ may_be_block outside.now (part_of branch.now) }
{
    match branch {
        None => true,
        Some(statement) => is_block(outside, statement),
    }
}

/// Whether statements are built, but for those that derive nothing.
#[cycle(statements)]
pub(crate) fn are_statements(outside: &[Meaning], statements: &[Stmt]) -> bool
    ensures { result ≡ are_statements outside.now (trees_of statements.now) }
{
    for statement in statements {
        if !is_error(statement) && !is_statement(outside, statement) {
            return false;
        }
    }
    true
}
