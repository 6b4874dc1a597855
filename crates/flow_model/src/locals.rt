//! Locals, and what is known of one.

ghost use Rattle.std.specs.Prelude.{◌≡◌, IfOk};

use dart_types::{DartType, TypeList};
use std::alloc::{AllocError, Global};

/// A local, by the number of the node of its declaring name in its tree.
#[derive(Clone, Copy, Debug, PartialEq, Eq)]
pub struct LocalId(pub u32);

/// A local as it comes into scope.
#[derive(Drop)]
pub struct LocalDecl {
    /// The local.
    pub var: LocalId,
    /// Its declared type.
    pub ty: DartType,
    /// Whether it has a value for certain.
    pub assigned: bool,
    /// Whether it has no value for certain.
    pub unassigned: bool,
}

/// What is known of one local at a point.
#[derive(Drop)]
pub struct Facts {
    /// The local.
    pub var: LocalId,
    /// Its declared type.
    pub ty: DartType,
    /// The types that it was promoted to, the current one last.
    pub chain: TypeList,
    /// The types that it was tested for.
    pub tested: TypeList,
    /// Whether it has a value for certain.
    pub assigned: bool,
    /// Whether it has no value for certain.
    pub unassigned: bool,
    /// Whether a function that writes it may have been made.
    pub captured: bool,
}

impl LocalDecl {
    /// A second value of the same declaration.
    pub fn copy(&self, alloc: Global) -> Result<LocalDecl, AllocError>
        ensures { IfOk result (λ copied. copied ≡ self.now) }
    {
        Ok(LocalDecl {
            var: self.var,
            ty: self.ty.copy(alloc)?,
            assigned: self.assigned,
            unassigned: self.unassigned,
        })
    }
}
