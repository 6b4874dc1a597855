//! What is known behind a `try` with a `finally` block.

ghost use Rattle.std.specs.Prelude.{◌≡◌, ◌||◌, [], IfOk, if◌then◌else◌};
ghost use Rattle.flow_model.specs.Steps.{is_changed};
ghost use Rattle.flow_model.specs.Flow.{is_listed};
ghost use Rattle.flow_model.specs.TypeTests.{union_of};
ghost use Rattle.flow_model.specs.Restrict.{further_of, restrict_facts, restrict_locals};

use crate::locals::{Facts, LocalId};
use crate::pages::Locals;
use crate::types::{is_proper_subtype, union};
use dart_types::{DartType, Rows, TypeList};
use std::alloc::{AllocError, Global};

/// What the `finally` block of a `try` writes, and what a function in it captures.
#[derive(Clone, Copy)]
pub(crate) struct Changes<'a> {
    /// The locals that the block writes.
    pub(crate) written: &'a [LocalId],
    /// The locals that it captures.
    pub(crate) captured: &'a [LocalId],
}

/// What is known of each local behind the body and behind the block, where the lists pair them by
/// their places. What one has beyond the other's end is passed over.
pub(crate) fn restrict_locals(
    alloc: Global,
    rows: &Rows,
    body: &Locals,
    block: &Locals,
    changes: &Changes,
) -> Result<Locals, AllocError>
    ensures { IfOk result (λ locals. locals ≡ restrict_locals rows.now.table changes.now.written.now changes.now.captured.now body.now block.now) }
{
    let mut restricted = body.front(alloc, block.len())?;
    for i in 0..restricted.len() {
        let local = body.at(i);
        let other = block.at(i);
        let met = local.restrict(alloc, rows, other, changes)?;
        restricted.put(alloc, i, met)?;
    }
    Ok(restricted)
}

/// What is known of a local behind both.
pub(crate) fn restrict_facts(
    alloc: Global,
    rows: &Rows,
    a: &Facts,
    b: &Facts,
    changes: &Changes,
) -> Result<Facts, AllocError>
    ensures { IfOk result (λ facts. facts ≡ restrict_facts rows.now.table changes.now.written.now changes.now.captured.now a.now b.now) }
{
    let changed = changes.have(a.var);
    Ok(Facts {
        var: a.var,
        ty: a.ty.copy(alloc)?,
        chain: chain_behind(alloc, rows, a, b, changed)?,
        tested: tested_behind(alloc, a, b, changed)?,
        assigned: a.assigned || b.assigned,
        unassigned: a.unassigned && b.unassigned,
        captured: a.captured || b.captured,
    })
}

impl Changes<'_> {
    // Whether the block writes or captures a local.
    fn have(&self, var: LocalId) -> bool
        ensures { result ≡ is_changed self.now.written.now self.now.captured.now var }
    {
        is_listed(self.written, var) || is_listed(self.captured, var)
    }
}

// Whether a local is in a list.
fn is_listed(vars: &[LocalId], var: LocalId) -> bool
    ensures { result ≡ is_listed vars.now var }
{
    vars.iter().any(|listed| listed.0 == var.0)
}

// The chain of a local behind both.
fn chain_behind(
    alloc: Global,
    rows: &Rows,
    a: &Facts,
    b: &Facts,
    changed: bool,
) -> Result<TypeList, AllocError>
    ensures { IfOk result (λ chain. chain ≡ (if a.now.captured || b.now.captured then [] else
        if changed then b.now.chain else further_of rows.now.table a.now.ty a.now.chain b.now.chain)) }
{
    if a.captured || b.captured {
        return Ok(TypeList::new(alloc));
    }
    if changed {
        return b.chain.copy(alloc);
    }
    further(alloc, rows, a, b.chain.as_slice())
}

// The types that a local was promoted to by the body, and those of the block that are proper
// subtypes of the last of them.
fn further(
    alloc: Global,
    rows: &Rows,
    body: &Facts,
    block: &[DartType],
) -> Result<TypeList, AllocError>
    ensures { IfOk result (λ chain. chain ≡ further_of rows.now.table body.now.ty body.now.chain block.now) }
{
    let current = body.current();
    let mut chain = body.chain.copy(alloc)?;
    for t in block {
        if is_proper_subtype(rows, t, current) {
            chain.push(t.copy(alloc)?)?;
        }
    }
    Ok(chain)
}

// The types that a local was tested for behind both.
fn tested_behind(alloc: Global, a: &Facts, b: &Facts, changed: bool) -> Result<TypeList, AllocError>
    ensures { IfOk result (λ tested. tested ≡ (if changed then b.now.tested else union_of a.now.tested b.now.tested)) }
{
    if changed {
        return b.tested.copy(alloc);
    }
    union(alloc, &a.tested, b.tested.as_slice())
}
