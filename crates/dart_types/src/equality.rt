//! Whether types are the same.

ghost use Rattle.std.specs.Prelude.{◌≡◌, IsTrue, ◌↔◌};
ghost use Rattle.dart_types.specs.Ty.{types_of};
ghost use Rattle.dart_types.specs.Named.{named_of};
ghost use Rattle.dart_types.specs.Node.{function_type};
ghost use Rattle.dart_types.specs.Same.{same_type, same_types, same_named};
ghost use Rattle.dart_types.specs.SameNamed.{same_param};

use crate::types::{DartType, FunctionType, NamedType, NamedTypes, TypeList, TypeNode};

impl DartType {
    /// Whether both are the same type. It takes no memory.
    pub fn is_same(&self, other: &DartType) -> bool
        ensures test { result ≡ same_type self.now other.now }
        ensures equal { IsTrue result ↔ (self.now ≡ other.now) }
    {
        self.has_parts_of(other)
    }

    // Whether both are the same type, by their forms and parts.
    #[cycle(same)]
    fn has_parts_of(&self, other: &DartType) -> bool
        ensures { result ≡ same_type self.now other.now }
    {
        match &self.node {
            TypeNode::Invalid => matches!(&other.node, TypeNode::Invalid),
            TypeNode::Never => matches!(&other.node, TypeNode::Never),
            TypeNode::Void => matches!(&other.node, TypeNode::Void),
            TypeNode::Null => matches!(&other.node, TypeNode::Null),
            TypeNode::Interface { class, args } => match &other.node {
                TypeNode::Interface {
                    class: other_class,
                    args: other_args,
                } => *class == *other_class && args.has_types_of(other_args),
                _ => false,
            },
            TypeNode::Function(function) => match &other.node {
                TypeNode::Function(other_function) => function.has_parts_of(other_function),
                _ => false,
            },
            TypeNode::Var(var) => match &other.node {
                TypeNode::Var(other_var) => *var == *other_var,
                _ => false,
            },
            TypeNode::Promoted { var, to } => match &other.node {
                TypeNode::Promoted {
                    var: other_var,
                    to: other_to,
                } => *var == *other_var && to.has_parts_of(other_to),
                _ => false,
            },
            TypeNode::Nullable(bare) => match &other.node {
                TypeNode::Nullable(other_bare) => bare.has_parts_of(other_bare),
                _ => false,
            },
        }
    }
}

impl FunctionType {
    // Whether both have the same parameters and result.
    #[cycle(same)]
    fn has_parts_of(&self, other: &FunctionType) -> bool
        ensures { result ≡ same_type (function_type self.now) (function_type other.now) }
    {
        self.required.has_types_of(&other.required)
            && self.optional.has_types_of(&other.optional)
            && self.named.has_parts_of(&other.named)
            && self.result.has_parts_of(&other.result)
    }
}

impl TypeList {
    /// Whether both are lists of the same types, in the same order. It takes no memory.
    pub fn is_same(&self, other: &TypeList) -> bool
        ensures { IsTrue result ↔ (self.now ≡ other.now) }
    {
        self.has_types_of(other)
    }

    // Whether both are lists of the same types, in the same order.
    #[cycle(same)]
    fn has_types_of(&self, other: &TypeList) -> bool
        ensures { result ≡ same_types (types_of self.now) (types_of other.now) }
    {
        if self.items.len() != other.items.len() {
            return false;
        }
        for i in 0..self.items.len() {
            if !self.items[i].has_parts_of(&other.items[i]) {
                return false;
            }
        }
        true
    }
}

impl NamedTypes {
    // Whether both are lists of the same parameters, in the same order.
    #[cycle(same)]
    fn has_parts_of(&self, other: &NamedTypes) -> bool
        ensures { result ≡ same_named (named_of self.now) (named_of other.now) }
    {
        if self.items.len() != other.items.len() {
            return false;
        }
        for i in 0..self.items.len() {
            if !self.items[i].has_parts_of(&other.items[i]) {
                return false;
            }
        }
        true
    }
}

impl NamedType {
    // Whether both are the same parameter.
    #[cycle(same)]
    fn has_parts_of(&self, other: &NamedType) -> bool
        ensures { result ≡ same_param self.now other.now }
    {
        self.name.as_str() == other.name.as_str()
            && self.required == other.required
            && self.ty.has_parts_of(&other.ty)
    }
}
