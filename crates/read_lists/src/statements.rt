//! Reading the lists of statements in statements and their parts.

ghost use Rattle.std.specs.Prelude.{◌≡◌, ◌≤◌, OnOk};
ghost use Rattle.dart_tree.specs.Tree.{trees_of, part_of};
ghost use Rattle.dart_tree.specs.View.{for_initializer_of};
ghost use Rattle.unread_lists.specs.WithLists.{with_lists, all_with_lists, part_with_lists};

use crate::expressions::{read_expr, read_exprs, read_optional_expr};
use crate::functions::{read_function, read_variable_list};
use crate::lists::{ReadsLists, read_list};
use crate::types::read_optional_written_type;
use dart_tree::{Block, CatchClause, ForInitializer, Stmt, StmtNode, SwitchCase, TryParts};
use std::alloc::{AllocError, Global};

/// Reads the lists of statements in a statement, where `room` nodes may lie on a way down from it.
#[cycle(branches)]
pub fn read_stmt<R: ReadsLists>(
    reader: &R,
    alloc: Global,
    room: u32,
    stmt: &mut Stmt,
) -> Result<(), AllocError>
    requires limit { room ≤ 201 }
    requires sound { R.sound reader.now }
    ensures { OnOk result (stmt.new ≡ with_lists (R.lists reader.now) room stmt.old) }
{
    let inside = room.saturating_sub(1);
    match &mut *stmt.node {
        StmtNode::Block { statements, .. } => return read_list(reader, alloc, inside, statements),
        StmtNode::Variables { variables, .. } => return read_variable_list(
            reader, alloc, inside, variables,
        ),
        StmtNode::Function { function, .. } => return read_function(
            reader, alloc, inside, function,
        ),
        StmtNode::Expression { value, .. } => return read_optional_expr(
            reader, alloc, inside, value,
        ),
        StmtNode::If {
            condition,
            then_branch,
            else_branch,
            ..
        } => {
            read_expr(reader, alloc, inside, condition)?;
            read_stmt(reader, alloc, inside, then_branch)?;
            return read_optional_stmt(reader, alloc, inside, else_branch);
        }
        StmtNode::While {
            condition,
            body,
            ..
        } => {
            read_expr(reader, alloc, inside, condition)?;
            return read_stmt(reader, alloc, inside, body);
        }
        StmtNode::Do {
            body,
            condition,
            ..
        } => {
            read_stmt(reader, alloc, inside, body)?;
            return read_expr(reader, alloc, inside, condition);
        }
        StmtNode::For {
            initializer,
            condition,
            updates,
            body,
            ..
        } => {
            read_for_initializer(reader, alloc, inside, initializer)?;
            read_optional_expr(reader, alloc, inside, condition)?;
            read_exprs(reader, alloc, inside, updates.as_mut_slice())?;
            return read_stmt(reader, alloc, inside, body);
        }
        StmtNode::ForIn {
            written,
            iterable,
            body,
            ..
        } => {
            read_optional_written_type(reader, alloc, inside, written)?;
            read_expr(reader, alloc, inside, iterable)?;
            return read_stmt(reader, alloc, inside, body);
        }
        StmtNode::ForInAssignment { iterable, body, .. } => {
            read_expr(reader, alloc, inside, iterable)?;
            return read_stmt(reader, alloc, inside, body);
        }
        StmtNode::Switch { value, cases, .. } => {
            read_expr(reader, alloc, inside, value)?;
            return read_cases(reader, alloc, inside, cases.as_mut_slice());
        }
        StmtNode::Try { parts, .. } => {
            let TryParts {
                body,
                handlers,
                finally_block,
            } = &mut **parts;
            read_block(reader, alloc, inside, body)?;
            read_handlers(reader, alloc, inside, handlers.as_mut_slice())?;
            return read_optional_block(reader, alloc, inside, finally_block);
        }
        StmtNode::Return { value, .. } => return read_optional_expr(reader, alloc, inside, value),
        StmtNode::Break { .. } => return Ok(()),
        StmtNode::Continue { .. } => return Ok(()),
        StmtNode::Rethrow { .. } => return Ok(()),
        StmtNode::Labeled { body, .. } => return read_stmt(reader, alloc, inside, body),
        StmtNode::Error { .. } => return Ok(()),
    }
}

/// Reads the lists of statements in what a `for` begins with.
pub(crate) fn read_for_initializer<R: ReadsLists>(
    reader: &R,
    alloc: Global,
    room: u32,
    initializer: &mut ForInitializer,
) -> Result<(), AllocError>
    requires limit { room ≤ 201 }
    requires sound { R.sound reader.now }
    ensures { OnOk result (for_initializer_of initializer.new ≡ part_with_lists (R.lists reader.now) room (for_initializer_of initializer.old)) }
{
    match initializer {
        ForInitializer::Absent => Ok(()),
        ForInitializer::Variables(variables) => read_variable_list(reader, alloc, room, variables),
        ForInitializer::Expression(value) => read_expr(reader, alloc, room, value),
    }
}

/// So of one that may be left out.
#[cycle(branches)]
pub(crate) fn read_optional_stmt<R: ReadsLists>(
    reader: &R,
    alloc: Global,
    room: u32,
    stmt: &mut Option<Stmt>,
) -> Result<(), AllocError>
    requires limit { room ≤ 201 }
    requires sound { R.sound reader.now }
    ensures { OnOk result (part_of stmt.new
        ≡ part_with_lists (R.lists reader.now) room (part_of stmt.old)) }
{
    match stmt {
        None => Ok(()),
        Some(tree) => read_stmt(reader, alloc, room, tree),
    }
}

/// Reads the lists of statements in statements, where `room` nodes may lie on a way down from each.
pub fn read_stmts<R: ReadsLists>(
    reader: &R,
    alloc: Global,
    room: u32,
    stmts: &mut [Stmt],
) -> Result<(), AllocError>
    requires limit { room ≤ 201 }
    requires sound { R.sound reader.now }
    ensures { OnOk result (trees_of stmts.new ≡ all_with_lists (R.lists reader.now) room (trees_of stmts.old)) }
{
    for item in stmts.iter_mut() {
        read_stmt(reader, alloc, room, item)?;
    }
    Ok(())
}

/// Reads the lists of statements in a block, where `room` nodes may lie on a way down from it.
pub fn read_block<R: ReadsLists>(
    reader: &R,
    alloc: Global,
    room: u32,
    block: &mut Block,
) -> Result<(), AllocError>
    requires limit { room ≤ 201 }
    requires sound { R.sound reader.now }
    ensures { OnOk result (block.new ≡ with_lists (R.lists reader.now) room block.old) }
{
    let inside = room.saturating_sub(1);
    read_list(reader, alloc, inside, &mut block.statements)
}

/// So of one that may be left out.
pub(crate) fn read_optional_block<R: ReadsLists>(
    reader: &R,
    alloc: Global,
    room: u32,
    block: &mut Option<Block>,
) -> Result<(), AllocError>
    requires limit { room ≤ 201 }
    requires sound { R.sound reader.now }
    ensures { OnOk result (part_of block.new ≡ part_with_lists (R.lists reader.now) room (part_of block.old)) }
{
    match block {
        None => Ok(()),
        Some(tree) => read_block(reader, alloc, room, tree),
    }
}

/// Reads the lists of statements in a case, where `room` nodes may lie on a way down from it.
pub(crate) fn read_case<R: ReadsLists>(
    reader: &R,
    alloc: Global,
    room: u32,
    case: &mut SwitchCase,
) -> Result<(), AllocError>
    requires limit { room ≤ 201 }
    requires sound { R.sound reader.now }
    ensures { OnOk result (case.new ≡ with_lists (R.lists reader.now) room case.old) }
{
    read_exprs(reader, alloc, room, case.labels.as_mut_slice())?;
    read_list(reader, alloc, room, &mut case.statements)
}

/// Reads the lists of statements in cases, where `room` nodes may lie on a way down from each.
pub(crate) fn read_cases<R: ReadsLists>(
    reader: &R,
    alloc: Global,
    room: u32,
    cases: &mut [SwitchCase],
) -> Result<(), AllocError>
    requires limit { room ≤ 201 }
    requires sound { R.sound reader.now }
    ensures { OnOk result (trees_of cases.new ≡ all_with_lists (R.lists reader.now) room (trees_of cases.old)) }
{
    for item in cases.iter_mut() {
        read_case(reader, alloc, room, item)?;
    }
    Ok(())
}

/// Reads the lists of statements in a clause, where `room` nodes may lie on a way down from it.
pub(crate) fn read_handler<R: ReadsLists>(
    reader: &R,
    alloc: Global,
    room: u32,
    handler: &mut CatchClause,
) -> Result<(), AllocError>
    requires limit { room ≤ 201 }
    requires sound { R.sound reader.now }
    ensures { OnOk result (handler.new ≡ with_lists (R.lists reader.now) room handler.old) }
{
    read_optional_written_type(reader, alloc, room, &mut handler.written)?;
    read_block(reader, alloc, room, &mut handler.body)
}

/// Reads the lists of statements in clauses of a `try`, where `room` nodes may lie on a way down from each.
pub(crate) fn read_handlers<R: ReadsLists>(
    reader: &R,
    alloc: Global,
    room: u32,
    handlers: &mut [CatchClause],
) -> Result<(), AllocError>
    requires limit { room ≤ 201 }
    requires sound { R.sound reader.now }
    ensures { OnOk result (trees_of handlers.new ≡ all_with_lists (R.lists reader.now) room (trees_of handlers.old)) }
{
    for item in handlers.iter_mut() {
        read_handler(reader, alloc, room, item)?;
    }
    Ok(())
}
