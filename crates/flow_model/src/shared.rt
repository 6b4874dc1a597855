//! Steps from a shared model to a shared model: it is the same one where the step changes nothing.
//! Whether it does is asked of the locals that the step is about, and of no other; where two paths
//! meet these are all, and they are gone over without making any.

ghost use Rattle.std.specs.Prelude.{◌≡◌, ◌<◌, [], IfOk, length, slice_index_or};
ghost use Rattle.flow_model.specs.Flow.{at_local};
ghost use Rattle.flow_model.specs.Assign.{assign_facts};
ghost use Rattle.flow_model.specs.Join.{join_of};
ghost use Rattle.flow_model.specs.Place.{with_facts};
ghost use Rattle.flow_model.specs.Promote.{non_null_facts};
ghost use Rattle.flow_model.specs.Steps.{conservative_of, exit_of};
ghost use Rattle.flow_model.specs.declared.locals.Facts.{Facts};

use crate::join::Path;
use crate::locals::{Facts, LocalId};
use crate::model::Flow;
use dart_types::{DartType, Rows};
use std::alloc::{AllocError, Global};
use std::rc::Rc;

impl Flow {
    /// The model after a write of a local with a value of the type `written`, as `assign` makes it.
    pub fn after_write(
        alloc: Global,
        rows: &Rows,
        before: &Rc<Flow>,
        var: LocalId,
        written: &DartType,
    ) -> Result<Rc<Flow>, AllocError>
        ensures { IfOk result (λ model. model.value ≡ at_local before.now.value var (assign_facts rows.now.table written.now)) }
    {
        let known: &Flow = before;
        known.locals_are_in_order();
        match known.search(var) {
            Ok(place) => {
                let facts = known.local(place).assign(alloc, rows, written)?;
                let model = with(alloc, before, place, facts)?;
                Ok(model)
            }
            Err(_) => before.clone(),
        }
    }

    /// The model where a local isn't null, as `non_null` makes it.
    pub fn where_not_null(
        alloc: Global,
        rows: &Rows,
        before: &Rc<Flow>,
        var: LocalId,
    ) -> Result<Rc<Flow>, AllocError>
        ensures { IfOk result (λ model. model.value ≡ at_local before.now.value var (non_null_facts rows.now.table)) }
    {
        let known: &Flow = before;
        known.locals_are_in_order();
        match known.search(var) {
            Ok(place) => {
                let facts = known.local(place).non_null(alloc, rows)?;
                let model = with(alloc, before, place, facts)?;
                Ok(model)
            }
            Err(_) => before.clone(),
        }
    }

    /// The model behind an exit, as `exit` makes it.
    pub fn behind_exit(alloc: Global, before: &Rc<Flow>) -> Result<Rc<Flow>, AllocError>
        ensures { IfOk result (λ model. model.value ≡ exit_of before.now.value) }
    {
        if !before.reachable() {
            return before.clone();
        }
        let mut behind = before.copy(alloc)?;
        behind.exit();
        Ok(Rc::new(alloc, behind)?)
    }

    /// The model around code that writes these locals and may run any number of times, as
    /// `conservative_join` makes it.
    pub fn around_writes(
        alloc: Global,
        before: &Rc<Flow>,
        written: &[LocalId],
    ) -> Result<Rc<Flow>, AllocError>
        ensures { IfOk result (λ model. model.value ≡ conservative_of before.now.value written.now []) }
    {
        if before.is_kept_by_writes(written) {
            return before.clone();
        }
        let mut around = before.copy(alloc)?;
        around.conservative_join(alloc, written, &[])?;
        Ok(Rc::new(alloc, around)?)
    }

    /// The model where two paths meet, as `join` makes it. It is that of one of the paths where it is
    /// seen without a join that both know what that one knows.
    pub fn meeting(
        alloc: Global,
        rows: &Rows,
        a: &Rc<Flow>,
        b: &Rc<Flow>,
    ) -> Result<Rc<Flow>, AllocError>
        ensures { IfOk result (λ model. model.value ≡ join_of a.now.value b.now.value) }
    {
        if a.joins_to(Path::First, b) {
            return a.clone();
        }
        if a.joins_to(Path::Second, b) {
            return b.clone();
        }
        let joined = Flow::join(alloc, rows, a, b)?;
        Ok(Rc::new(alloc, joined)?)
    }
}

// The model with other facts of the local at a place, which is the one before where they are as before.
fn with(
    alloc: Global,
    before: &Rc<Flow>,
    place: usize,
    facts: Facts,
) -> Result<Rc<Flow>, AllocError>
    requires in_range { place < length before.now.value.locals }
    requires same_local { (d : Facts) → facts.var.0 ≡ (slice_index_or before.now.value.locals place d).var.0 }
    ensures { IfOk result (λ model. model.value ≡ with_facts before.now.value place facts) }
{
    if facts.is_same(before.local(place).facts()) {
        return before.clone();
    }
    let changed = before.with(alloc, place, facts)?;
    Ok(Rc::new(alloc, changed)?)
}
