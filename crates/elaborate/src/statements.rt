//! The code of statements.

ghost use Rattle.std.specs.Prelude.{◌≡◌, [], IfOk};
ghost use Rattle.dart_tree.specs.Tree.{part_of, trees_of};
ghost use Rattle.elaborate.specs.Rows.{branch_code, condition_of, effect_code, if_row, statement_code, statements_code, while_row};

use crate::builder::{Builder, site_of};
use crate::conditions::condition_of;
use crate::declarations::list_code;
use crate::said::Said;
use crate::values::code_of;
use core_emit::Code;
use dart_tree::{Expr, Place, Stmt, StmtNode};
use std::alloc::AllocError;

// The code of a statement.
#[cycle(statement)]
fn statement_code(said: &Said, build: &mut Builder, statement: &Stmt) -> Result<Code, AllocError>
    ensures { IfOk result (λ code. code ≡ statement_code said.now statement.now) }
{
    match &*statement.node {
        StmtNode::Variables { variables, .. } => list_code(said, build, variables),
        StmtNode::Expression { value, .. } => effect_code(said, build, value),
        StmtNode::If {
            condition,
            then_branch,
            else_branch,
            ..
        } => if_code(said, build, condition, then_branch, else_branch),
        StmtNode::While {
            at,
            condition,
            body,
        } => while_code(said, build, *at, condition, body),
        StmtNode::Block { statements, .. } => statements_code(said, build, statements),
        _ => Ok(Code::nothing()),
    }
}

/// The code of statements, one after another.
#[cycle(statement)]
pub(crate) fn statements_code(
    said: &Said,
    build: &mut Builder,
    statements: &[Stmt],
) -> Result<Code, AllocError>
    ensures { IfOk result (λ code. code ≡ statements_code said.now (trees_of statements.now)) }
{
    let mut parts = Vec::new(build.alloc());
    for statement in statements {
        parts.push(statement_code(said, build, statement)?)?;
    }
    Ok(Code::in_order(parts))
}

// A branch, or one that is left out.
#[cycle(statement)]
fn if_code(
    said: &Said,
    build: &mut Builder,
    condition: &Expr,
    then_branch: &Stmt,
    else_branch: &Option<Stmt>,
) -> Result<Code, AllocError>
    ensures { IfOk result (λ code. code ≡ if_row said.now condition.now (condition_of said.now [] condition.now) (statement_code said.now then_branch.now) (branch_code said.now (part_of else_branch.now))) }
{
    let asked = condition_of(said, build, condition)?;
    let one = statement_code(said, build, then_branch)?;
    let other = branch_code(said, build, else_branch)?;
    let site = site_of(condition.place());
    let choice = Code::choice(build.alloc(), site, asked.facts, asked.test, one, other)?;
    Code::pair(build.alloc(), asked.code, choice)
}

// What stands behind an `else`, if there is one.
#[cycle(statement)]
fn branch_code(said: &Said, build: &mut Builder, branch: &Option<Stmt>) -> Result<Code, AllocError>
    ensures { IfOk result (λ code. code ≡ branch_code said.now (part_of branch.now)) }
{
    match branch {
        None => Ok(Code::nothing()),
        Some(branch) => statement_code(said, build, branch),
    }
}

// A loop, at whose head the condition is judged.
#[cycle(statement)]
fn while_code(
    said: &Said,
    build: &mut Builder,
    at: Place,
    condition: &Expr,
    body: &Stmt,
) -> Result<Code, AllocError>
    ensures { IfOk result (λ code. code ≡ while_row said.now at condition.now (condition_of said.now [] condition.now) (statement_code said.now body.now)) }
{
    let head = build.facts(said, said.known_before(condition.place()), &[])?;
    let asked = condition_of(said, build, condition)?;
    let pass = statement_code(said, build, body)?;
    Code::repeat(
        build.alloc(),
        site_of(at),
        head,
        asked.facts,
        asked.code,
        asked.test,
        pass,
    )
}

// An expression that stands as a statement, or none.
fn effect_code(said: &Said, build: &mut Builder, value: &Option<Expr>) -> Result<Code, AllocError>
    ensures { IfOk result (λ code. code ≡ effect_code said.now (part_of value.now)) }
{
    match value {
        None => Ok(Code::nothing()),
        Some(value) => code_of(said, build, &[], value),
    }
}
