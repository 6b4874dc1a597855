//! The size of a type's normal form with replacements put in, which isn't formed for it.

ghost use Rattle.std.specs.Prelude.{◌≡◌};
ghost use Rattle.dart_types.specs.Ty.{variable, types_of};
ghost use Rattle.dart_types.specs.Named.{named_of};
ghost use Rattle.dart_types.specs.Node.{function_type};
ghost use Rattle.dart_types.specs.Sizes.{size_of, sizes_of, sizes_of_named, held};
ghost use Rattle.dart_types.specs.Marks.{takes_mark};
ghost use Rattle.dart_types.specs.Replacements.{replaced, replaced_all, replaced_named};

use crate::ids::VarId;
use crate::pairs::find_replacement;
use crate::replacements::Replacement;
use crate::types::{DartType, FunctionType, NamedTypes, TypeList, TypeNode};

impl DartType {
    /// How many types stand in the normal form of the type with the replacements put in, itself
    /// among them, or 2^64 - 1 where there are more. It takes no memory.
    #[cycle(normal_nodes)]
    pub(crate) fn nodes_with(&self, replacements: &[Replacement]) -> u64
        ensures { result ≡ held (size_of (replaced replacements.now self.now)) }
    {
        match &self.node {
            TypeNode::Invalid | TypeNode::Never | TypeNode::Void | TypeNode::Null => 1,
            TypeNode::Interface { args, .. } => args.nodes_with(replacements).saturating_add(1),
            TypeNode::Function(function) => function.nodes_with(replacements),
            TypeNode::Var(var) => nodes_of_var(*var, replacements),
            TypeNode::Promoted { to, .. } => to.nodes_with(replacements).saturating_add(1),
            TypeNode::Nullable(bare) => {
                let nodes = bare.nodes_with(replacements);
                if bare.takes_mark_with(replacements) {
                    nodes.saturating_add(1)
                } else {
                    nodes
                }
            }
        }
    }
}

impl DartType {
    // Whether a `?` stays after the normal form of the type with the replacements put in.
    fn takes_mark_with(&self, replacements: &[Replacement]) -> bool
        ensures { result ≡ takes_mark (replaced replacements.now self.now) }
    {
        match &self.node {
            TypeNode::Var(var) => var_takes_mark(*var, replacements),
            TypeNode::Never | TypeNode::Void | TypeNode::Null | TypeNode::Nullable(_) => false,
            TypeNode::Invalid
            | TypeNode::Interface { .. }
            | TypeNode::Function(_)
            | TypeNode::Promoted { .. } => true,
        }
    }

    /// Whether a `?` after the type, which is in normal form, stays in the normal form: not after
    /// `Never`, `Null`, `void` or another `?`.
    pub fn takes_mark(&self) -> bool
        ensures { result ≡ takes_mark self.now }
    {
        match &self.node {
            TypeNode::Never | TypeNode::Void | TypeNode::Null | TypeNode::Nullable(_) => false,
            TypeNode::Invalid
            | TypeNode::Interface { .. }
            | TypeNode::Function(_)
            | TypeNode::Var(_)
            | TypeNode::Promoted { .. } => true,
        }
    }
}

// How many types stand in what a variable stands for.
fn nodes_of_var(var: VarId, replacements: &[Replacement]) -> u64
    ensures { result ≡ held (size_of (replaced replacements.now (variable var))) }
{
    match find_replacement(replacements, var) {
        None => 1,
        Some(found) => found.nodes,
    }
}

// Whether a `?` stays after what a variable stands for.
fn var_takes_mark(var: VarId, replacements: &[Replacement]) -> bool
    ensures { result ≡ takes_mark (replaced replacements.now (variable var)) }
{
    match find_replacement(replacements, var) {
        None => true,
        Some(found) => found.ty.takes_mark(),
    }
}

impl FunctionType {
    // How many types stand in the normal form of the function type, itself among them.
    #[cycle(normal_nodes)]
    fn nodes_with(&self, replacements: &[Replacement]) -> u64
        ensures { result ≡ held (size_of (replaced replacements.now (function_type self.now))) }
    {
        let required = self.required.nodes_with(replacements);
        let positional = required.saturating_add(self.optional.nodes_with(replacements));
        let params = positional.saturating_add(self.named.nodes_with(replacements));
        let parts = params.saturating_add(self.result.nodes_with(replacements));
        parts.saturating_add(1)
    }
}

impl TypeList {
    /// How many types stand in the normal forms of those of the list, or 2^64 - 1 where there are
    /// more. It takes no memory.
    #[cycle(normal_nodes)]
    pub(crate) fn nodes_with(&self, replacements: &[Replacement]) -> u64
        ensures { result ≡ held (sizes_of (replaced_all replacements.now (types_of self.now))) }
    {
        let mut total: u64 = 0;
        for item in &self.items {
            total = total.saturating_add(item.nodes_with(replacements));
        }
        total
    }
}

impl NamedTypes {
    // How many types stand in the normal forms of those of the parameters.
    #[cycle(normal_nodes)]
    fn nodes_with(&self, replacements: &[Replacement]) -> u64
        ensures { result ≡ held (sizes_of_named (replaced_named replacements.now (named_of self.now))) }
    {
        let mut total: u64 = 0;
        for item in &self.items {
            total = total.saturating_add(item.ty.nodes_with(replacements));
        }
        total
    }
}
