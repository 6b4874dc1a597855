//! What is known of one local, as models share it.

ghost use Rattle.std.specs.Prelude.{◌≡◌, [], true, false, IfOk, IsTrue, ◌↔◌};
ghost use Rattle.flow_model.specs.Flow.{fresh_facts};
ghost use Rattle.flow_model.specs.Promote.{append_facts, non_null_facts, promote_facts};
ghost use Rattle.flow_model.specs.Assign.{assign_facts};
ghost use Rattle.flow_model.specs.Restrict.{restrict_facts};

use crate::locals::{Facts, LocalDecl};
use crate::restrict::{Changes, restrict_facts};
use dart_types::{DartType, Rows};
use std::alloc::{AllocError, Global};
use std::marker::Model;
use std::rc::Rc;

/// What is known of one local, shared by the models in which it is the same. Contracts see it as
/// the facts.
#[derive(Drop)]
pub struct Local {
    facts: Rc<Facts>,
}

impl Model for Local {
    ghost use Rattle.flow_model.specs.declared.locals.Facts.{Facts};
    ghost use Rattle.flow_model.specs.Flow.{facts_code};

    ghost Value = { Facts };

    ghost coded = { facts_code };

    ghost view = { λ a. a.facts.value };
}

impl Local {
    /// A local of which this is known.
    pub(crate) fn new(alloc: Global, facts: Facts) -> Result<Local, AllocError>
        ensures { IfOk result (λ local. local ≡ facts) }
    {
        Ok(Local {
            facts: Rc::new(alloc, facts)?,
        })
    }

    /// A local that has just come into scope.
    pub(crate) fn fresh(alloc: Global, local: &LocalDecl) -> Result<Local, AllocError>
        ensures { IfOk result (λ fresh. fresh ≡ fresh_facts local.now) }
    {
        let facts = Facts::fresh(alloc, local)?;
        Local::new(alloc, facts)
    }

    /// The same facts once more.
    pub(crate) fn share(&self) -> Result<Local, AllocError>
        ensures { IfOk result (λ shared. shared ≡ self.now) }
    {
        Ok(Local {
            facts: self.facts.clone()?,
        })
    }

    /// What is known of the local.
    pub fn facts(&self) -> &Facts
        ensures { result.now ≡ self.now }
    {
        &self.facts
    }

    /// Whether the same is known of both.
    pub(crate) fn is_same(&self, other: &Local) -> bool
        ensures { IsTrue result ↔ (self.now ≡ other.now) }
    {
        self.facts().is_same(other.facts())
    }

    /// What is known of the local where a test has told that it has the type `to`.
    pub(crate) fn promote(
        &self,
        alloc: Global,
        rows: &Rows,
        to: &DartType,
    ) -> Result<Facts, AllocError>
        ensures { IfOk result (λ facts. facts ≡ promote_facts rows.now.table to.now self.now) }
    {
        self.facts().promote(alloc, rows, to)
    }

    /// What is known of the local where it isn't null.
    pub(crate) fn non_null(&self, alloc: Global, rows: &Rows) -> Result<Facts, AllocError>
        ensures { IfOk result (λ facts. facts ≡ non_null_facts rows.now.table self.now) }
    {
        self.facts().non_null(alloc, rows)
    }

    /// What is known of the local where it is known to have the type `to`, without a test.
    pub(crate) fn append(
        &self,
        alloc: Global,
        rows: &Rows,
        to: &DartType,
    ) -> Result<Facts, AllocError>
        ensures { IfOk result (λ facts. facts ≡ append_facts rows.now.table to.now self.now) }
    {
        self.facts().append(alloc, rows, to)
    }

    /// What is known of the local after a write of a value of the type `written`.
    pub(crate) fn assign(
        &self,
        alloc: Global,
        rows: &Rows,
        written: &DartType,
    ) -> Result<Facts, AllocError>
        ensures { IfOk result (λ facts. facts ≡ assign_facts rows.now.table written.now self.now) }
    {
        self.facts().assign(alloc, rows, written)
    }

    /// What is known of the local without what code that writes it could change.
    pub(crate) fn forget(&self, alloc: Global) -> Result<Facts, AllocError>
        ensures { IfOk result (λ facts. facts ≡ record self.now { chain = []; unassigned = false }) }
    {
        let mut facts = self.facts().copy(alloc)?;
        facts.forget(alloc);
        Ok(facts)
    }

    /// What is known of the local without what code that captures it could change; it is captured from now on.
    pub(crate) fn capture(&self, alloc: Global) -> Result<Facts, AllocError>
        ensures { IfOk result (λ facts. facts ≡ record self.now { chain = []; unassigned = false; captured = true }) }
    {
        let mut facts = self.facts().copy(alloc)?;
        facts.forget(alloc);
        facts.captured = true;
        Ok(facts)
    }

    /// What is known of the local behind a `try` with a `finally` block, where this is what is known
    /// behind the body.
    pub(crate) fn restrict(
        &self,
        alloc: Global,
        rows: &Rows,
        block: &Local,
        changes: &Changes,
    ) -> Result<Facts, AllocError>
        ensures { IfOk result (λ facts. facts ≡ restrict_facts rows.now.table changes.now.written.now changes.now.captured.now self.now block.now) }
    {
        restrict_facts(alloc, rows, self.facts(), block.facts(), changes)
    }
}
