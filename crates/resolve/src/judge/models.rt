//! Models that are shared where nothing changed.

ghost use Rattle.std.specs.Prelude.{◌≡◌, [], IfOk, OnOk};
ghost use Rattle.flow_model.specs.Flow.{end_of};
ghost use Rattle.judgement.specs.DeclaredNames.{locals_of};
ghost use Rattle.judgement.specs.ExpressionRows.{where_not_null};
ghost use Rattle.judgement.specs.StatementRows.{loop_head};

use super::Context;
use crate::names::locals_of;
use dart_tree::Name;
use flow_model::{Flow, LocalId};
use std::alloc::{AllocError, Global};
use std::rc::Rc;

// The model where a local isn't null, if there is one.
pub(super) fn where_not_null(
    context: Context,
    compared: Option<LocalId>,
    before: &Rc<Flow>,
) -> Result<Rc<Flow>, AllocError>
    ensures { IfOk result (λ model. model.value ≡ where_not_null context.entry.rows.now.table compared before.now.value) }
{
    match compared {
        None => before.clone(),
        Some(var) => Flow::where_not_null(context.alloc, context.rows, before, var),
    }
}

// The model at the head of a loop that writes these locals, from the one before the loop.
pub(super) fn head_of_loop(
    alloc: Global,
    written: &[LocalId],
    before: &Rc<Flow>,
) -> Result<Rc<Flow>, AllocError>
    ensures { IfOk result (λ model. model.value ≡ loop_head before.now.value written.now []) }
{
    Flow::around_writes(alloc, before, written)
}

// The model behind a scope that declares these names, from the one at its end: their locals end with
// it. Where it declares none it is the same model, and where nothing else changed in it the one before
// it.
pub(super) fn behind_scope(
    alloc: Global,
    declared: &[Name],
    before: &Rc<Flow>,
    inside: &Rc<Flow>,
) -> Result<Rc<Flow>, AllocError>
    ensures { IfOk result (λ model. model.value ≡ end_of inside.now.value (locals_of declared.now)) }
{
    let locals = locals_of(alloc, declared)?;
    if locals.is_empty() {
        return inside.clone();
    }
    let mut behind = inside.copy(alloc)?;
    behind.end(alloc, &locals)?;
    shared(alloc, before, behind)
}

// The model after, which is the one before where both are the same.
fn shared(alloc: Global, before: &Rc<Flow>, after: Flow) -> Result<Rc<Flow>, AllocError>
    ensures { IfOk result (λ model. model.value ≡ after) }
{
    if after.is_same(before) {
        return before.clone();
    }
    Ok(Rc::new(alloc, after)?)
}
