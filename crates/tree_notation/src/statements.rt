//! Statements: an expression and its `;`, or `(WORD PART ..)`.

use crate::functions::{function, variables};
use crate::pieces::Pieces;
use dart_tree::{Block, CatchClause, Expr, ForInitializer, ListedName, Stmt, StmtNode, SwitchCase};
use std::alloc::AllocError;

/// Writes a statement.
pub fn statement<'t>(out: &mut Pieces<'t>, stmt: &'t Stmt) -> Result<(), AllocError> {
    match &*stmt.node {
        StmtNode::Block { statements, .. } => {
            out.text("(block ")?;
            out.block(statements.as_slice())?;
            out.text(")")
        }
        StmtNode::Variables {
            variables: list,
            ..
        } => variables(out, list),
        StmtNode::Function {
            function: local,
            ..
        } => function(out, local),
        StmtNode::Expression { value, .. } => expression_statement(out, value),
        StmtNode::Error { .. } => out.text("(error)"),
        other => compound(out, other),
    }
}

/// Writes a statement that holds others, or one of the forms that are left.
fn compound<'t>(out: &mut Pieces<'t>, node: &'t StmtNode) -> Result<(), AllocError> {
    match node {
        StmtNode::If { .. } => branch(out, node),
        StmtNode::While { .. } => while_loop(out, node),
        StmtNode::Do { .. } => do_loop(out, node),
        StmtNode::For { .. } => for_loop(out, node),
        StmtNode::ForIn { .. } => for_in(out, node),
        StmtNode::ForInAssignment { .. } => for_in_assignment(out, node),
        StmtNode::Switch { .. } => switch(out, node),
        StmtNode::Try { .. } => try_statement(out, node),
        StmtNode::Labeled { .. } => labeled(out, node),
        other => jump(out, other),
    }
}

/// Writes a jump: the last forms that a statement may have.
fn jump<'t>(out: &mut Pieces<'t>, node: &'t StmtNode) -> Result<(), AllocError> {
    match node {
        StmtNode::Return { value, .. } => {
            out.text("(return")?;
            out.optional_expression(value)?;
            out.text(")")
        }
        StmtNode::Break { label, .. } => {
            out.text("(break")?;
            out.optional_name(label)?;
            out.text(")")
        }
        StmtNode::Continue { label, .. } => {
            out.text("(continue")?;
            out.optional_name(label)?;
            out.text(")")
        }
        StmtNode::Rethrow { .. } => out.text("(rethrow)"),
        _ => out.text("<unknown>"),
    }
}

/// Writes an expression and its `;`, or the `;` alone.
fn expression_statement<'t>(
    out: &mut Pieces<'t>,
    value: &'t Option<Expr>,
) -> Result<(), AllocError> {
    if let Some(value) = value {
        out.expression(value)?;
    }
    out.text(";")
}

/// Writes a branch.
fn branch<'t>(out: &mut Pieces<'t>, node: &'t StmtNode) -> Result<(), AllocError> {
    let StmtNode::If {
        condition,
        then_branch,
        else_branch,
        ..
    } = node
    else {
        return Ok(());
    };
    out.text("(if")?;
    out.spaced_expression(condition)?;
    out.spaced_statement(then_branch)?;
    if let Some(branch) = else_branch {
        out.text(" else")?;
        out.spaced_statement(branch)?;
    }
    out.text(")")
}

/// Writes a loop that tests before each turn.
fn while_loop<'t>(out: &mut Pieces<'t>, node: &'t StmtNode) -> Result<(), AllocError> {
    let StmtNode::While {
        condition,
        body,
        ..
    } = node
    else {
        return Ok(());
    };
    out.text("(while")?;
    out.spaced_expression(condition)?;
    out.spaced_statement(body)?;
    out.text(")")
}

/// Writes a loop that tests after each turn.
fn do_loop<'t>(out: &mut Pieces<'t>, node: &'t StmtNode) -> Result<(), AllocError> {
    let StmtNode::Do {
        body,
        condition,
        ..
    } = node
    else {
        return Ok(());
    };
    out.text("(do")?;
    out.spaced_statement(body)?;
    out.spaced_expression(condition)?;
    out.text(")")
}

/// Writes a loop that counts.
fn for_loop<'t>(out: &mut Pieces<'t>, node: &'t StmtNode) -> Result<(), AllocError> {
    let StmtNode::For {
        initializer: start,
        condition,
        updates,
        body,
        ..
    } = node
    else {
        return Ok(());
    };
    out.text("(for")?;
    initializer(out, start)?;
    out.text(" ;")?;
    out.optional_expression(condition)?;
    out.text(" ;")?;
    out.expressions(updates.as_slice())?;
    out.spaced_statement(body)?;
    out.text(")")
}

/// Writes what a loop begins with, behind a blank.
fn initializer<'t>(
    out: &mut Pieces<'t>,
    initializer: &'t ForInitializer,
) -> Result<(), AllocError> {
    match initializer {
        ForInitializer::Absent => Ok(()),
        ForInitializer::Variables(list) => {
            out.text(" ")?;
            variables(out, list)
        }
        ForInitializer::Expression(value) => out.spaced_expression(value),
    }
}

/// Writes a loop over elements, whose variable it declares.
fn for_in<'t>(out: &mut Pieces<'t>, node: &'t StmtNode) -> Result<(), AllocError> {
    let StmtNode::ForIn {
        is_final,
        written,
        name,
        iterable,
        body,
        ..
    } = node
    else {
        return Ok(());
    };
    out.text(if *is_final { "(for final" } else { "(for var" })?;
    out.optional_type(written)?;
    out.spaced_word(name.word)?;
    out.text(" in")?;
    out.spaced_expression(iterable)?;
    out.spaced_statement(body)?;
    out.text(")")
}

/// Writes a loop over elements, whose variable is declared elsewhere.
fn for_in_assignment<'t>(out: &mut Pieces<'t>, node: &'t StmtNode) -> Result<(), AllocError> {
    let StmtNode::ForInAssignment {
        name,
        iterable,
        body,
        ..
    } = node
    else {
        return Ok(());
    };
    out.text("(for")?;
    out.spaced_word(name.word)?;
    out.text(" in")?;
    out.spaced_expression(iterable)?;
    out.spaced_statement(body)?;
    out.text(")")
}

/// Writes a switch.
fn switch<'t>(out: &mut Pieces<'t>, node: &'t StmtNode) -> Result<(), AllocError> {
    let StmtNode::Switch { value, cases, .. } = node else {
        return Ok(());
    };
    out.text("(switch")?;
    out.spaced_expression(value)?;
    for each in cases.iter() {
        case(out, each)?;
    }
    out.text(")")
}

/// Writes a case behind a blank.
fn case<'t>(out: &mut Pieces<'t>, case: &'t SwitchCase) -> Result<(), AllocError> {
    out.text(" ")?;
    out.range(case.at)?;
    out.text("(case")?;
    out.expressions(case.labels.as_slice())?;
    out.text_if(case.is_default, " default")?;
    out.text(" ")?;
    out.block(case.statements.as_slice())?;
    out.text(")")
}

/// Writes a statement that catches.
fn try_statement<'t>(out: &mut Pieces<'t>, node: &'t StmtNode) -> Result<(), AllocError> {
    let StmtNode::Try { parts, .. } = node else {
        return Ok(());
    };
    out.text("(try")?;
    block(out, &parts.body)?;
    for each in parts.handlers.iter() {
        handler(out, each)?;
    }
    if let Some(last) = &parts.finally_block {
        out.text(" finally")?;
        block(out, last)?;
    }
    out.text(")")
}

/// Writes statements in braces behind a blank.
fn block<'t>(out: &mut Pieces<'t>, block: &'t Block) -> Result<(), AllocError> {
    out.text(" ")?;
    out.range(block.at)?;
    out.block(block.statements.as_slice())
}

/// Writes a clause that catches, behind a blank: `on` before its type, then the names.
fn handler<'t>(out: &mut Pieces<'t>, handler: &'t CatchClause) -> Result<(), AllocError> {
    out.text(" ")?;
    out.range(handler.at)?;
    out.text("(catch")?;
    out.text_if(handler.written.is_some(), " on")?;
    out.optional_type(&handler.written)?;
    listed_name(out, &handler.exception)?;
    listed_name(out, &handler.stack_trace)?;
    block(out, &handler.body)?;
    out.text(")")
}

/// Writes a name behind a blank, where there is one.
fn listed_name(out: &mut Pieces<'_>, name: &Option<ListedName>) -> Result<(), AllocError> {
    match name {
        Some(name) => out.spaced_word(name.word),
        None => Ok(()),
    }
}

/// Writes a statement with its label.
fn labeled<'t>(out: &mut Pieces<'t>, node: &'t StmtNode) -> Result<(), AllocError> {
    let StmtNode::Labeled { label, body, .. } = node else {
        return Ok(());
    };
    out.text("(label")?;
    out.spaced_word(label.word)?;
    out.spaced_statement(body)?;
    out.text(")")
}
