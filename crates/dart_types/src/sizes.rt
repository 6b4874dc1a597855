//! The size of a type.

ghost use Rattle.std.specs.Prelude.{◌≡◌};
ghost use Rattle.dart_types.specs.Ty.{types_of};
ghost use Rattle.dart_types.specs.Named.{named_of};
ghost use Rattle.dart_types.specs.Node.{function_type};
ghost use Rattle.dart_types.specs.Sizes.{size_of, sizes_of, sizes_of_named, held};

use crate::types::{DartType, FunctionType, NamedTypes, TypeList, TypeNode};

/// How many types stand in a type, itself among them, or 2^64 - 1 where there are more. It takes no
/// memory.
pub fn size(t: &DartType) -> u64
    ensures { result ≡ held (size_of t.now) }
{
    t.nodes()
}

impl DartType {
    // How many types stand in the type.
    #[cycle(nodes)]
    fn nodes(&self) -> u64
        ensures { result ≡ held (size_of self.now) }
    {
        match &self.node {
            TypeNode::Invalid
            | TypeNode::Never
            | TypeNode::Void
            | TypeNode::Null
            | TypeNode::Var(_) => 1,
            TypeNode::Interface { args, .. } => args.nodes().saturating_add(1),
            TypeNode::Function(function) => function.nodes(),
            TypeNode::Promoted { to, .. } => to.nodes().saturating_add(1),
            TypeNode::Nullable(bare) => bare.nodes().saturating_add(1),
        }
    }
}

impl FunctionType {
    // How many types stand in the function type, itself among them.
    #[cycle(nodes)]
    fn nodes(&self) -> u64
        ensures { result ≡ held (size_of (function_type self.now)) }
    {
        let positional = self.required.nodes().saturating_add(self.optional.nodes());
        let params = positional.saturating_add(self.named.nodes());
        params.saturating_add(self.result.nodes()).saturating_add(1)
    }
}

impl TypeList {
    // How many types stand in those of the list.
    #[cycle(nodes)]
    fn nodes(&self) -> u64
        ensures { result ≡ held (sizes_of (types_of self.now)) }
    {
        let mut total: u64 = 0;
        for item in &self.items {
            total = total.saturating_add(item.nodes());
        }
        total
    }
}

impl NamedTypes {
    // How many types stand in those of the parameters.
    #[cycle(nodes)]
    fn nodes(&self) -> u64
        ensures { result ≡ held (sizes_of_named (named_of self.now)) }
    {
        let mut total: u64 = 0;
        for item in &self.items {
            total = total.saturating_add(item.ty.nodes());
        }
        total
    }
}
