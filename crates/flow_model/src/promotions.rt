//! What tests of a local tell of it.

ghost use Rattle.std.specs.Prelude.{◌≡◌, IfOk};
ghost use Rattle.std.specs.Option.{option_to_list};
ghost use Rattle.dart_types.specs.Ty.{promoted};
ghost use Rattle.flow_model.specs.Promote.{append_facts, by_variable, below_current, narrowed_variable, non_null_facts, promote_facts, promoted_facts, tested_as, without_null_of};

use crate::locals::Facts;
use crate::types::{formed_non_null, is_in, is_proper_subtype};
use dart_types::{DartType, NODE_LIMIT, Rows, TypeNode, VarId, size};
use std::alloc::{AllocError, Global};

impl Facts {
    /// The facts of the local where a test has told that it has the type `to`.
    pub(crate) fn promote(
        &self,
        alloc: Global,
        rows: &Rows,
        to: &DartType,
    ) -> Result<Facts, AllocError>
        ensures { IfOk result (λ facts. facts ≡ promote_facts rows.now.table to.now self.now) }
    {
        let more = tested_as(alloc, rows, to, self.current())?;
        let mut facts = self.copy(alloc)?;
        if !is_in(self.tested.as_slice(), to) {
            facts.tested.push(to.copy(alloc)?)?;
        }
        facts.promoted(more)
    }

    /// The facts of the local where it isn't null.
    pub(crate) fn non_null(&self, alloc: Global, rows: &Rows) -> Result<Facts, AllocError>
        ensures { IfOk result (λ facts. facts ≡ non_null_facts rows.now.table self.now) }
    {
        let more = without_null(alloc, rows, self.current())?;
        self.copy(alloc)?.promoted(more)
    }

    /// The facts of the local where it is known to have the type `to`, without a test.
    pub(crate) fn append(
        &self,
        alloc: Global,
        rows: &Rows,
        to: &DartType,
    ) -> Result<Facts, AllocError>
        ensures { IfOk result (λ facts. facts ≡ append_facts rows.now.table to.now self.now) }
    {
        let more = below_current(alloc, rows, to, self.current())?;
        self.copy(alloc)?.promoted(more)
    }

    // The facts with a type more at the end of the chain, unless the local is captured.
    fn promoted(self, more: Option<DartType>) -> Result<Facts, AllocError>
        ensures { IfOk result (λ facts. facts ≡ promoted_facts (option_to_list more) self) }
    {
        let mut facts = self;
        if facts.captured {
            return Ok(facts);
        }
        match more {
            None => Ok(facts),
            Some(t) => {
                facts.chain.push(t)?;
                Ok(facts)
            }
        }
    }
}

// What a test for the type promotes a local of the current type to.
fn tested_as(
    alloc: Global,
    rows: &Rows,
    to: &DartType,
    current: &DartType,
) -> Result<Option<DartType>, AllocError>
    ensures { IfOk result (λ more. option_to_list more ≡ tested_as rows.now.table to.now current.now) }
{
    if is_proper_subtype(rows, to, current) {
        let tested = to.copy(alloc)?;
        return Ok(Some(tested));
    }
    by_variable(alloc, rows, to, current)
}

// What it promotes a local to of which the current type is a variable X, or an `X & U`.
fn by_variable(
    alloc: Global,
    rows: &Rows,
    to: &DartType,
    current: &DartType,
) -> Result<Option<DartType>, AllocError>
    ensures { IfOk result (λ more. option_to_list more ≡ by_variable rows.now.table to.now current.now) }
{
    match &current.node {
        TypeNode::Var(var) => match rows.bound(*var) {
            Some(bound) => narrowed_variable(alloc, rows, *var, to, bound),
            None => Ok(None),
        },
        TypeNode::Promoted { var, to: known } => narrowed_variable(alloc, rows, *var, to, known),
        TypeNode::Invalid => Ok(None),
        TypeNode::Never => Ok(None),
        TypeNode::Void => Ok(None),
        TypeNode::Null => Ok(None),
        TypeNode::Interface { .. } => Ok(None),
        TypeNode::Function(_) => Ok(None),
        TypeNode::Nullable(_) => Ok(None),
    }
}

// `X & T`, where T is a proper subtype of what a value of X is known to be.
fn narrowed_variable(
    alloc: Global,
    rows: &Rows,
    var: VarId,
    to: &DartType,
    known: &DartType,
) -> Result<Option<DartType>, AllocError>
    ensures { IfOk result (λ more. option_to_list more ≡ narrowed_variable rows.now.table (promoted var to.now) to.now known.now) }
{
    if !is_proper_subtype(rows, to, known) {
        return Ok(None);
    }
    if size(to) >= NODE_LIMIT {
        return Ok(None);
    }
    let tested = to.copy(alloc)?;
    let narrowed = DartType::promoted(alloc, var, tested)?;
    Ok(Some(narrowed))
}

// A type without null, where it is another type.
fn without_null(alloc: Global, rows: &Rows, t: &DartType) -> Result<Option<DartType>, AllocError>
    ensures { IfOk result (λ more. option_to_list more ≡ without_null_of rows.now.table t.now) }
{
    match formed_non_null(alloc, rows, t)? {
        None => Ok(None),
        Some(formed) => {
            if formed.is_same(t) {
                return Ok(None);
            }
            Ok(Some(formed))
        }
    }
}

// A type where it is a proper subtype of the current one.
fn below_current(
    alloc: Global,
    rows: &Rows,
    to: &DartType,
    current: &DartType,
) -> Result<Option<DartType>, AllocError>
    ensures { IfOk result (λ more. option_to_list more ≡ below_current rows.now.table to.now current.now) }
{
    if !is_proper_subtype(rows, to, current) {
        return Ok(None);
    }
    let known = to.copy(alloc)?;
    Ok(Some(known))
}
