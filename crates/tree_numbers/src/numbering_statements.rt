//! The numbers of the nodes of statements.

ghost use Rattle.std.specs.Prelude.{◌≡◌, ◌+◌, ◌<◌, ◌^◌};
ghost use Rattle.dart_tree.specs.Tree.{trees_of, part_of};
ghost use Rattle.dart_tree.specs.Numbers.{nodes_in, nodes_in_all, nodes_in_part, numbered, all_numbered, part_numbered};
ghost use Rattle.dart_tree.specs.View.{for_initializer_of};

use crate::numbering_names::{number_name, number_optional_listed_name, number_place};
use crate::numbering_parts::{
    number_expr, number_exprs, number_function, number_optional_expr, number_optional_written_type,
    number_variable_list,
};
use dart_tree::{
    Block, CatchClause, ForInitializer, Function, Stmt, StmtNode, SwitchCase, TryParts,
};

/// Numbers a statement's nodes from `first` on, and answers the number after the last.
#[cycle(number)]
fn number_stmt(stmt: &mut Stmt, first: u32) -> u32
    requires { first + nodes_in stmt.old < 2 ^ 32 }
    ensures tree { stmt.new ≡ numbered first stmt.old }
    ensures next { result ≡ first + nodes_in stmt.old }
{
    match &mut *stmt.node {
        StmtNode::Block { at, statements } => {
            let next = number_place(at, first);
            number_stmts(statements.as_mut_slice(), next)
        }
        StmtNode::Variables { at, variables } => {
            let next = number_place(at, first);
            number_variable_list(variables, next)
        }
        StmtNode::Function { at, function } => {
            let next = number_place(at, first);
            number_function(function, next)
        }
        StmtNode::Expression { at, value } => {
            let next = number_place(at, first);
            number_optional_expr(value, next)
        }
        StmtNode::If {
            at,
            condition,
            then_branch,
            else_branch,
        } => {
            let next = number_place(at, first);
            let next = number_expr(condition, next);
            let next = number_stmt(then_branch, next);
            number_optional_stmt(else_branch, next)
        }
        StmtNode::While {
            at,
            condition,
            body,
        } => {
            let next = number_place(at, first);
            let next = number_expr(condition, next);
            number_stmt(body, next)
        }
        StmtNode::Do {
            at,
            body,
            condition,
        } => {
            let next = number_place(at, first);
            let next = number_stmt(body, next);
            number_expr(condition, next)
        }
        StmtNode::For {
            at,
            initializer,
            condition,
            updates,
            body,
        } => {
            let next = number_place(at, first);
            let next = number_for_initializer(initializer, next);
            let next = number_optional_expr(condition, next);
            let next = number_exprs(updates.as_mut_slice(), next);
            number_stmt(body, next)
        }
        StmtNode::ForIn {
            at,
            written,
            name,
            iterable,
            body,
            ..
        } => {
            let next = number_place(at, first);
            let next = number_optional_written_type(written, next);
            let next = number_name(name, next);
            let next = number_expr(iterable, next);
            number_stmt(body, next)
        }
        StmtNode::ForInAssignment {
            at,
            name,
            iterable,
            body,
        } => {
            let next = number_place(at, first);
            let next = number_name(name, next);
            let next = number_expr(iterable, next);
            number_stmt(body, next)
        }
        StmtNode::Switch { at, value, cases } => {
            let next = number_place(at, first);
            let next = number_expr(value, next);
            number_cases(cases.as_mut_slice(), next)
        }
        StmtNode::Try { at, parts } => {
            let next = number_place(at, first);
            let TryParts {
                body,
                handlers,
                finally_block,
            } = &mut **parts;
            let next = number_block(body, next);
            let next = number_handlers(handlers.as_mut_slice(), next);
            number_optional_block(finally_block, next)
        }
        StmtNode::Return { at, value } => {
            let next = number_place(at, first);
            number_optional_expr(value, next)
        }
        StmtNode::Break { at, .. } => number_place(at, first),
        StmtNode::Continue { at, .. } => number_place(at, first),
        StmtNode::Rethrow { at } => number_place(at, first),
        StmtNode::Labeled { at, label, body } => {
            let next = number_place(at, first);
            let next = number_name(label, next);
            number_stmt(body, next)
        }
        StmtNode::Error { at } => number_place(at, first),
    }
}

/// Numbers what a `for` begins with.
#[cycle(number)]
fn number_for_initializer(initializer: &mut ForInitializer, first: u32) -> u32
    requires { first + nodes_in_part (for_initializer_of initializer.old) < 2 ^ 32 }
    ensures part { for_initializer_of initializer.new ≡ part_numbered first (for_initializer_of initializer.old) }
    ensures next { result ≡ first + nodes_in_part (for_initializer_of initializer.old) }
{
    match initializer {
        ForInitializer::Absent => first,
        ForInitializer::Variables(variables) => number_variable_list(variables, first),
        ForInitializer::Expression(value) => number_expr(value, first),
    }
}

/// Numbers the nodes of statements, one after the other.
#[cycle(number)]
pub(crate) fn number_stmts(stmts: &mut [Stmt], first: u32) -> u32
    requires { first + nodes_in_all (trees_of stmts.old) < 2 ^ 32 }
    ensures trees { trees_of stmts.new ≡ all_numbered first (trees_of stmts.old) }
    ensures next { result ≡ first + nodes_in_all (trees_of stmts.old) }
{
    let mut next = first;
    for item in stmts.iter_mut() {
        next = number_stmt(item, next);
    }
    next
}

/// So of one that may be left out.
#[cycle(number)]
fn number_optional_stmt(stmt: &mut Option<Stmt>, first: u32) -> u32
    requires { first + nodes_in_part (part_of stmt.old) < 2 ^ 32 }
    ensures part { part_of stmt.new ≡ part_numbered first (part_of stmt.old) }
    ensures next { result ≡ first + nodes_in_part (part_of stmt.old) }
{
    match stmt {
        None => first,
        Some(tree) => number_stmt(tree, first),
    }
}

/// Numbers a block's nodes from `first` on, and answers the number after the last.
#[cycle(number)]
fn number_block(block: &mut Block, first: u32) -> u32
    requires { first + nodes_in block.old < 2 ^ 32 }
    ensures tree { block.new ≡ numbered first block.old }
    ensures next { result ≡ first + nodes_in block.old }
{
    let next = number_place(&mut block.at, first);
    number_stmts(block.statements.as_mut_slice(), next)
}

/// So of one that may be left out.
#[cycle(number)]
fn number_optional_block(block: &mut Option<Block>, first: u32) -> u32
    requires { first + nodes_in_part (part_of block.old) < 2 ^ 32 }
    ensures part { part_of block.new ≡ part_numbered first (part_of block.old) }
    ensures next { result ≡ first + nodes_in_part (part_of block.old) }
{
    match block {
        None => first,
        Some(tree) => number_block(tree, first),
    }
}

/// Numbers a case's nodes from `first` on, and answers the number after the last.
#[cycle(number)]
fn number_case(case: &mut SwitchCase, first: u32) -> u32
    requires { first + nodes_in case.old < 2 ^ 32 }
    ensures tree { case.new ≡ numbered first case.old }
    ensures next { result ≡ first + nodes_in case.old }
{
    let next = number_place(&mut case.at, first);
    let next = number_exprs(case.labels.as_mut_slice(), next);
    number_stmts(case.statements.as_mut_slice(), next)
}

/// Numbers the nodes of cases, one after the other.
#[cycle(number)]
fn number_cases(cases: &mut [SwitchCase], first: u32) -> u32
    requires { first + nodes_in_all (trees_of cases.old) < 2 ^ 32 }
    ensures trees { trees_of cases.new ≡ all_numbered first (trees_of cases.old) }
    ensures next { result ≡ first + nodes_in_all (trees_of cases.old) }
{
    let mut next = first;
    for item in cases.iter_mut() {
        next = number_case(item, next);
    }
    next
}

/// Numbers a clause's nodes from `first` on, and answers the number after the last.
#[cycle(number)]
fn number_handler(handler: &mut CatchClause, first: u32) -> u32
    requires { first + nodes_in handler.old < 2 ^ 32 }
    ensures tree { handler.new ≡ numbered first handler.old }
    ensures next { result ≡ first + nodes_in handler.old }
{
    let next = number_place(&mut handler.at, first);
    let next = number_optional_written_type(&mut handler.written, next);
    let next = number_optional_listed_name(&mut handler.exception, next);
    let next = number_optional_listed_name(&mut handler.stack_trace, next);
    number_block(&mut handler.body, next)
}

/// Numbers the nodes of clauses of a `try`, one after the other.
#[cycle(number)]
fn number_handlers(handlers: &mut [CatchClause], first: u32) -> u32
    requires { first + nodes_in_all (trees_of handlers.old) < 2 ^ 32 }
    ensures trees { trees_of handlers.new ≡ all_numbered first (trees_of handlers.old) }
    ensures next { result ≡ first + nodes_in_all (trees_of handlers.old) }
{
    let mut next = first;
    for item in handlers.iter_mut() {
        next = number_handler(item, next);
    }
    next
}
