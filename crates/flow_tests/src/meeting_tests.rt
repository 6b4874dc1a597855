//! Models that meet, locals that come into scope, are written and leave it, and types that are too large.

use crate::sample::{letter, local, of, or_null, rows};
use dart_types::{CORE, ClassId, DartType, NODE_LIMIT, Rows, TypeList, TypeNode};
use flow_model::{Flow, LocalDecl, LocalId};
use std::alloc::Global;
use std::test::Fail;

// Two locals, of the types `int?` and `Object?`.
const X: LocalId = LocalId(1);

const Y: LocalId = LocalId(2);

// The type of a letter.
fn type_of(alloc: Global, mark: u8) -> Result<DartType, Fail> {
    match letter(alloc, mark)? {
        Some(t) => Ok(t),
        None => Err("no letter of a type".into()),
    }
}

// Puts a local in scope.
fn declare(alloc: Global, flow: &mut Flow, declared: &LocalDecl) -> Result<(), Fail> {
    if flow.is_in_scope(declared.var) {
        return Err("a local that is in scope".into());
    }
    flow.declare(alloc, declared)?;
    Ok(())
}

// The model of both locals.
fn both(alloc: Global) -> Result<Flow, Fail> {
    let int = type_of(alloc, b'i')?;
    let object = type_of(alloc, b'o')?;
    let mut flow = Flow::start(alloc, &[])?;
    declare(alloc, &mut flow, &local(2, or_null(alloc, object)?))?;
    declare(alloc, &mut flow, &local(1, or_null(alloc, int)?))?;
    Ok(flow)
}

// The model where X isn't null and Y has the type of a letter.
fn tested(alloc: Global, rows: &Rows, mark: u8) -> Result<Flow, Fail> {
    let to = type_of(alloc, mark)?;
    let mut flow = both(alloc)?;
    flow.non_null(alloc, rows, X)?;
    flow.promote(alloc, rows, Y, &to)?;
    Ok(flow)
}

// Whether a local has the type of a letter, with `?` or without.
fn has(alloc: Global, flow: &Flow, var: LocalId, mark: u8, null: bool) -> Result<bool, Fail> {
    let mut t = type_of(alloc, mark)?;
    if null {
        t = or_null(alloc, t)?;
    }
    match flow.current(var) {
        Some(current) => Ok(current.is_same(&t)),
        None => Ok(false),
    }
}

// A type of so many nodes.
fn of_nodes(alloc: Global, nodes: u64) -> Result<DartType, Fail> {
    let mut args = TypeList::new(alloc);
    for _ in 1..nodes {
        args.push(of(TypeNode::Void))?;
    }
    let class = ClassId {
        lib: CORE,
        index: 8,
    };
    let t = DartType::interface(alloc, class, args)?;
    Ok(t)
}

// Whether a local of the type X is promoted by a test for a type of so many nodes.
fn is_promoted(alloc: Global, rows: &Rows, nodes: u64) -> Result<bool, Fail> {
    let to = of_nodes(alloc, nodes)?;
    let mut flow = Flow::start(alloc, &[])?;
    declare(alloc, &mut flow, &local(1, type_of(alloc, b'X')?))?;
    flow.promote(alloc, rows, X, &to)?;
    Ok(!has(alloc, &flow, X, b'X', false)?)
}

#[test]
fn models_meet_as_the_rules_say(rt: HostRuntime) -> Result<(), Fail> {
    let alloc = rt.alloc();
    let rows = rows(alloc)?;
    let one = tested(alloc, &rows, b'n')?;
    let other = tested(alloc, &rows, b's')?;
    let joined = Flow::join(alloc, &rows, &one, &other)?;
    assert!(rt; has(alloc, &joined, X, b'i', false)?);
    assert!(rt; has(alloc, &joined, Y, b'o', true)?);
    assert!(rt; joined.is_assigned(X) && !joined.is_unassigned(X) && joined.reachable());
    Ok(())
}

#[test]
fn a_path_that_is_not_reached_adds_nothing(rt: HostRuntime) -> Result<(), Fail> {
    let alloc = rt.alloc();
    let rows = rows(alloc)?;
    let one = tested(alloc, &rows, b'n')?;
    let mut other = tested(alloc, &rows, b's')?;
    other.exit();
    assert!(rt; !other.reachable());
    assert!(rt; Flow::join(alloc, &rows, &other, &one)?.is_same(&one));
    assert!(rt; Flow::join(alloc, &rows, &one, &other)?.is_same(&one));
    Ok(())
}

#[test]
fn a_path_meets_itself_and_the_one_before_it(rt: HostRuntime) -> Result<(), Fail> {
    let alloc = rt.alloc();
    let rows = rows(alloc)?;
    let one = tested(alloc, &rows, b'n')?;
    assert!(rt; Flow::join(alloc, &rows, &one, &one)?.is_same(&one.copy(alloc)?));
    let before = both(alloc)?;
    let met = Flow::join(alloc, &rows, &before, &one)?;
    assert!(rt; has(alloc, &met, X, b'i', true)? && has(alloc, &met, Y, b'o', true)?);
    Ok(())
}

// The model of X alone, of the type `int?`, which has no value yet.
fn unwritten(alloc: Global) -> Result<Flow, Fail> {
    let int = type_of(alloc, b'i')?;
    let mut empty = local(1, or_null(alloc, int)?);
    empty.assigned = false;
    empty.unassigned = true;
    let flow = Flow::start(alloc, &[empty])?;
    Ok(flow)
}

// The model where an int was written to X, and Y has come into scope with a value, a String.
fn written(alloc: Global, rows: &Rows) -> Result<Flow, Fail> {
    let mut flow = unwritten(alloc)?;
    flow.assign(alloc, rows, X, &type_of(alloc, b'i')?)?;
    declare(alloc, &mut flow, &local(2, type_of(alloc, b's')?))?;
    Ok(flow)
}

// A local that has no value yet.
#[test]
fn a_local_has_a_value_where_it_is_written(rt: HostRuntime) -> Result<(), Fail> {
    let alloc = rt.alloc();
    let rows = rows(alloc)?;
    let mut flow = unwritten(alloc)?;
    assert!(rt; flow.reachable() && flow.is_in_scope(X) && !flow.is_in_scope(Y));
    assert!(rt; flow.is_unassigned(X) && !flow.is_assigned(X));
    flow.assign(alloc, &rows, X, &type_of(alloc, b'i')?)?;
    assert!(rt; flow.is_assigned(X) && !flow.is_unassigned(X));
    Ok(())
}

// Beside another that has one.
#[test]
fn a_copy_is_written_by_itself(rt: HostRuntime) -> Result<(), Fail> {
    let alloc = rt.alloc();
    let rows = rows(alloc)?;
    let flow = written(alloc, &rows)?;
    let mut after = flow.copy(alloc)?;
    assert!(rt; after.is_same(&flow) && after.is_in_scope(X));
    after.assign(alloc, &rows, X, &type_of(alloc, b'N')?)?;
    assert!(rt; !after.is_same(&flow));
    assert!(rt; has(alloc, &after, X, b'i', true)? && has(alloc, &flow, X, b'i', false)?);
    Ok(())
}

#[test]
fn locals_leave_their_scope(rt: HostRuntime) -> Result<(), Fail> {
    let alloc = rt.alloc();
    let rows = rows(alloc)?;
    let mut after = written(alloc, &rows)?;
    after.assign(alloc, &rows, X, &type_of(alloc, b'N')?)?;
    after.end(alloc, &[Y, LocalId(9), X])?;
    assert!(rt; !after.is_in_scope(X) && !after.is_in_scope(Y));
    Ok(())
}

// Code that may run any number of times writes the one local, and captures the other.
#[test]
fn code_that_may_run_forgets_what_it_changes(rt: HostRuntime) -> Result<(), Fail> {
    let alloc = rt.alloc();
    let rows = rows(alloc)?;
    let mut around = tested(alloc, &rows, b'n')?;
    around.conservative_join(alloc, &[X], &[Y])?;
    assert!(rt; has(alloc, &around, X, b'i', true)? && has(alloc, &around, Y, b'o', true)?);
    assert!(rt; around.is_captured(Y) && !around.is_captured(X));
    assert!(rt; around.is_assigned(Y) && !around.is_unassigned(Y));
    Ok(())
}

// The model behind a `finally` block in which Y was tested for int.
fn block_with_test(alloc: Global, rows: &Rows) -> Result<Flow, Fail> {
    let mut block = both(alloc)?;
    block.promote(alloc, rows, Y, &type_of(alloc, b'i')?)?;
    Ok(block)
}

// The model behind a `try` whose `finally` block writes X and captures Y.
fn behind_capture(alloc: Global, rows: &Rows) -> Result<Flow, Fail> {
    let body = tested(alloc, rows, b'n')?;
    let mut block = block_with_test(alloc, rows)?;
    block.capture(alloc, &[Y])?;
    let captured = Flow::restrict(alloc, rows, &body, &block, &[X], &[Y])?;
    Ok(captured)
}

#[test]
fn a_finally_block_is_met(rt: HostRuntime) -> Result<(), Fail> {
    let alloc = rt.alloc();
    let rows = rows(alloc)?;
    let body = tested(alloc, &rows, b'n')?;
    let block = block_with_test(alloc, &rows)?;
    let behind = Flow::restrict(alloc, &rows, &body, &block, &[X], &[])?;
    assert!(rt; has(alloc, &behind, X, b'i', true)?);
    assert!(rt; has(alloc, &behind, Y, b'i', false)?);
    Ok(())
}

#[test]
fn a_finally_block_captures(rt: HostRuntime) -> Result<(), Fail> {
    let alloc = rt.alloc();
    let rows = rows(alloc)?;
    let mut captured = behind_capture(alloc, &rows)?;
    assert!(rt; captured.is_captured(Y) && !captured.is_captured(X));
    assert!(rt; has(alloc, &captured, Y, b'o', true)?);
    captured.end(alloc, &[Y])?;
    assert!(rt; captured.declared(Y).is_none() && captured.declared(X).is_some());
    Ok(())
}

#[test]
fn no_type_that_is_too_large_is_appended(rt: HostRuntime) -> Result<(), Fail> {
    let alloc = rt.alloc();
    let rows = rows(alloc)?;
    assert!(rt; is_promoted(alloc, &rows, NODE_LIMIT - 1)?);
    assert!(rt; !is_promoted(alloc, &rows, NODE_LIMIT)?);
    Ok(())
}
