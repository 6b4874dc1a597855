//! Classes as they are declared, and their rows.

ghost use Rattle.std.specs.Prelude.{◌≡◌, ◌↔◌, true, AllPairs, IfOk, IsTrue};
ghost use Rattle.dart_types.specs.WellFormed.{class_before};
ghost use Rattle.class_depths.specs.Settled.{row_of};

use dart_types::{ClassId, ClassRow, TypeList, VarList};
use std::alloc::{AllocError, Global};

/// A class as it is declared: its row without the depth.
#[derive(Drop)]
pub struct DeclaredClass {
    /// The class.
    pub id: ClassId,
    /// Its type parameters, in the order of the text.
    pub params: VarList,
    /// Its direct supertypes: the superclass, the mixins and the interfaces.
    pub supers: TypeList,
}

impl DeclaredClass {
    /// The row of the class with this depth.
    pub(crate) fn row(&self, alloc: Global, depth: u64) -> Result<ClassRow, AllocError>
        ensures { IfOk result (λ row. row ≡ row_of self.now depth) }
    {
        let params = self.params.copy()?;
        let supers = self.supers.copy(alloc)?;
        Ok(ClassRow {
            id: self.id,
            params,
            supers,
            depth,
        })
    }
}

/// Whether the ids of declared classes rise, as `settle` wants it. It takes no memory.
pub fn are_in_order(declared: &[DeclaredClass]) -> bool
    ensures { IsTrue result ↔ AllPairs (λ a b. class_before a.id b.id ≡ true) declared.now }
{
    for i in 1..declared.len() {
        if !is_before(declared[i - 1].id, declared[i].id) {
            return false;
        }
    }
    true
}

// Whether the first class stands before the second.
fn is_before(c: ClassId, d: ClassId) -> bool
    ensures { result ≡ class_before c d }
{
    c < d
}
