//! What the rules read of one class and of one type variable.

ghost use Rattle.std.specs.Prelude.{◌≡◌, ◌++◌, ◌∷◌, [], IfOk, OnOk, OnErr};

use crate::ids::{ClassId, VarId};
use crate::types::{DartType, TypeList};
use std::alloc::{AllocError, Global};
use std::marker::Model;

/// A list of type variables. Contracts see it as the list of them.
#[derive(Drop)]
pub struct VarList {
    items: Vec<VarId>,
}

impl Model for VarList {
    ghost use Rattle.std.specs.Prelude.{List};
    ghost use Rattle.dart_types.specs.declared.ids.VarId.{VarId};

    ghost Value = { List VarId };

    ghost view = { λ a. a.items.items };
}

/// A class: its type parameters, and its direct supertypes over them.
#[derive(Drop)]
pub struct ClassRow {
    /// The class.
    pub id: ClassId,
    /// Its type parameters, in the order of the text.
    pub params: VarList,
    /// Its direct supertypes: the superclass, the mixins and the interfaces.
    pub supers: TypeList,
    /// The longest way from it up to `Object`, in steps from a class to a direct supertype. The crate
    /// `class_depths` finds it: who declares the class doesn't count it.
    pub depth: u64,
}

/// A type variable with its bound.
#[derive(Drop)]
pub struct VarRow {
    /// The variable.
    pub var: VarId,
    /// Its bound: `Object?` where none is written.
    pub bound: DartType,
}

impl VarList {
    /// The list of no variables. It takes no memory.
    pub fn new(alloc: Global) -> VarList
        ensures { result ≡ [] }
    {
        VarList {
            items: Vec::new(alloc),
        }
    }

    /// The variables in their order.
    pub fn as_slice(&self) -> &[VarId]
        ensures { result.now ≡ self.now }
    {
        &self.items
    }

    /// Puts a variable at the end. After an `Err` the list is as before.
    pub fn push(&mut self, var: VarId) -> Result<(), AllocError>
        ensures ok { OnOk result (self.new ≡ self.old ++ var ∷ []) }
        ensures err { OnErr result (self.new ≡ self.old) }
    {
        self.items.push(var)?;
        Ok(())
    }

    /// A second list of the same variables.
    pub fn copy(&self) -> Result<VarList, AllocError>
        ensures { IfOk result (λ copied. copied ≡ self.now) }
    {
        let items = self.items.clone()?;
        Ok(VarList { items })
    }
}

impl ClassRow {
    /// A second value of the same row.
    pub fn copy(&self, alloc: Global) -> Result<ClassRow, AllocError>
        ensures { IfOk result (λ copied. copied ≡ self.now) }
    {
        let params = self.params.copy()?;
        let supers = self.supers.copy(alloc)?;
        Ok(ClassRow {
            id: self.id,
            params,
            supers,
            depth: self.depth,
        })
    }
}

impl VarRow {
    /// A second value of the same row.
    pub fn copy(&self, alloc: Global) -> Result<VarRow, AllocError>
        ensures { IfOk result (λ copied. copied ≡ self.now) }
    {
        let bound = self.bound.copy(alloc)?;
        Ok(VarRow {
            var: self.var,
            bound,
        })
    }
}
