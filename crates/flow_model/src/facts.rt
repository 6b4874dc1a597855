//! What is read of the facts of one local.

ghost use Rattle.std.specs.Prelude.{◌≡◌, [], false, IfOk, IsTrue, ◌↔◌};
ghost use Rattle.flow_model.specs.Flow.{current_of, fresh_facts};

use crate::locals::{Facts, LocalDecl};
use crate::types::last_or;
use dart_types::{DartType, TypeList};
use std::alloc::{AllocError, Global};

impl Facts {
    /// The facts of a local that has just come into scope.
    pub(crate) fn fresh(alloc: Global, local: &LocalDecl) -> Result<Facts, AllocError>
        ensures { IfOk result (λ facts. facts ≡ fresh_facts local.now) }
    {
        Ok(Facts {
            var: local.var,
            ty: local.ty.copy(alloc)?,
            chain: TypeList::new(alloc),
            tested: TypeList::new(alloc),
            assigned: local.assigned,
            unassigned: local.unassigned,
            captured: false,
        })
    }

    /// A second value of the same facts.
    pub(crate) fn copy(&self, alloc: Global) -> Result<Facts, AllocError>
        ensures { IfOk result (λ copied. copied ≡ self.now) }
    {
        Ok(Facts {
            var: self.var,
            ty: self.ty.copy(alloc)?,
            chain: self.chain.copy(alloc)?,
            tested: self.tested.copy(alloc)?,
            assigned: self.assigned,
            unassigned: self.unassigned,
            captured: self.captured,
        })
    }

    /// Whether both are the same facts. What differs most often is compared first.
    pub(crate) fn is_same(&self, other: &Facts) -> bool
        ensures { IsTrue result ↔ (self.now ≡ other.now) }
    {
        self.var == other.var
            && self.assigned == other.assigned
            && self.unassigned == other.unassigned
            && self.captured == other.captured
            && self.chain.is_same(&other.chain)
            && self.tested.is_same(&other.tested)
            && self.ty.is_same(&other.ty)
    }

    /// The current type: the last that the local was promoted to, else the declared one.
    pub fn current(&self) -> &DartType
        ensures { result.now ≡ current_of self.now }
    {
        last_or(&self.ty, self.chain.as_slice())
    }

    /// Forgets what code that writes the local could change.
    pub(crate) fn forget(&mut self, alloc: Global)
        ensures { self.new ≡ record self.old { chain = []; unassigned = false } }
    {
        self.chain = TypeList::new(alloc);
        self.unassigned = false;
    }
}
