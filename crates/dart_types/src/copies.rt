//! Second values of types. The parts of a type are shared, so a copy clones pointers to them.

ghost use Rattle.std.specs.Prelude.{◌≡◌, IfOk};

use crate::types::{DartType, FunctionType, NamedType, NamedTypes, TypeList, TypeNode};
use std::alloc::{AllocError, Global};

impl DartType {
    /// A second value of the same type, which shares its parts. No part is gone into.
    pub fn copy(&self, _alloc: Global) -> Result<DartType, AllocError>
        ensures { IfOk result (λ copied. copied ≡ self.now) }
    {
        let node = match &self.node {
            TypeNode::Invalid => TypeNode::Invalid,
            TypeNode::Never => TypeNode::Never,
            TypeNode::Void => TypeNode::Void,
            TypeNode::Null => TypeNode::Null,
            TypeNode::Interface { class, args } => TypeNode::Interface {
                class: *class,
                args: args.clone()?,
            },
            TypeNode::Function(function) => TypeNode::Function(function.clone()?),
            TypeNode::Var(var) => TypeNode::Var(*var),
            TypeNode::Promoted { var, to } => TypeNode::Promoted {
                var: *var,
                to: to.clone()?,
            },
            TypeNode::Nullable(bare) => TypeNode::Nullable(bare.clone()?),
        };
        Ok(DartType { node })
    }
}

impl FunctionType {
    /// A second value of the same parameters and result, whose parts are shared.
    pub fn copy(&self, alloc: Global) -> Result<FunctionType, AllocError>
        ensures { IfOk result (λ copied. copied ≡ self.now) }
    {
        let required = self.required.copy(alloc)?;
        let optional = self.optional.copy(alloc)?;
        let named = self.named.copy(alloc)?;
        let result = self.result.copy(alloc)?;
        Ok(FunctionType {
            required,
            optional,
            named,
            result,
        })
    }
}

impl TypeList {
    /// A second list of the same types, whose parts are shared.
    pub fn copy(&self, alloc: Global) -> Result<TypeList, AllocError>
        ensures { IfOk result (λ copied. copied ≡ self.now) }
    {
        let mut copies = TypeList::new(alloc);
        for item in &self.items {
            copies.push(item.copy(alloc)?)?;
        }
        Ok(copies)
    }
}

impl NamedType {
    /// A second value of the same parameter, whose type shares its parts.
    pub fn copy(&self, alloc: Global) -> Result<NamedType, AllocError>
        ensures { IfOk result (λ copied. copied ≡ self.now) }
    {
        let name = self.name.copy()?;
        let ty = self.ty.copy(alloc)?;
        Ok(NamedType {
            name,
            required: self.required,
            ty,
        })
    }
}

impl NamedTypes {
    /// A second list of the same parameters, whose types share their parts.
    pub fn copy(&self, alloc: Global) -> Result<NamedTypes, AllocError>
        ensures { IfOk result (λ copied. copied ≡ self.now) }
    {
        let mut copies = Vec::new(alloc);
        for item in &self.items {
            copies.push(item.copy(alloc)?)?;
        }
        Ok(NamedTypes { items: copies })
    }
}
