//! Types in which the invalid type stands.

ghost use Rattle.std.specs.Prelude.{◌≡◌};
ghost use Rattle.dart_types.specs.Ty.{types_of};
ghost use Rattle.dart_types.specs.Named.{named_of};
ghost use Rattle.dart_types.specs.Node.{function_type};
ghost use Rattle.dart_types.specs.Invalid.{holds_invalid, hold_invalid, hold_invalid_named};

use crate::types::{DartType, FunctionType, NamedTypes, TypeList, TypeNode};

impl DartType {
    /// Whether the invalid type is the type or stands in it, at any depth. It takes no memory.
    #[cycle(holds_invalid)]
    pub fn holds_invalid(&self) -> bool
        ensures { result ≡ holds_invalid self.now }
    {
        match &self.node {
            TypeNode::Invalid => true,
            TypeNode::Never | TypeNode::Void | TypeNode::Null | TypeNode::Var(_) => false,
            TypeNode::Interface { args, .. } => args.hold_invalid(),
            TypeNode::Function(function) => function.holds_invalid(),
            TypeNode::Promoted { to, .. } => to.holds_invalid(),
            TypeNode::Nullable(bare) => bare.holds_invalid(),
        }
    }
}

impl FunctionType {
    // Whether it stands in the function type.
    #[cycle(holds_invalid)]
    fn holds_invalid(&self) -> bool
        ensures { result ≡ holds_invalid (function_type self.now) }
    {
        self.required.hold_invalid()
            || self.optional.hold_invalid()
            || self.named.hold_invalid()
            || self.result.holds_invalid()
    }
}

impl TypeList {
    // Whether it stands in one of the types.
    #[cycle(holds_invalid)]
    fn hold_invalid(&self) -> bool
        ensures { result ≡ hold_invalid (types_of self.now) }
    {
        for item in &self.items {
            if item.holds_invalid() {
                return true;
            }
        }
        false
    }
}

impl NamedTypes {
    // Whether it stands in the type of one of the parameters.
    #[cycle(holds_invalid)]
    fn hold_invalid(&self) -> bool
        ensures { result ≡ hold_invalid_named (named_of self.now) }
    {
        for item in &self.items {
            if item.ty.holds_invalid() {
                return true;
            }
        }
        false
    }
}
