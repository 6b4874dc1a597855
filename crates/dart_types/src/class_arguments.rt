//! Superinterfaces of a class that has arguments for its parameters.

ghost use Rattle.std.specs.Prelude.{◌≡◌, ◌↔◌, IsTrue};
ghost use Rattle.dart_types.specs.Formed.{Forms};
ghost use Rattle.dart_types.specs.Superinterfaces.{interface_with};

use crate::ids::VarId;
use crate::pairs::replacements_for;
use crate::refusal::{NODE_LIMIT, TypeRefusal};
use crate::scopes::{Scope, SeenList};
use crate::seen_equality::are_lists_same;
use crate::superinterfaces::Superinterface;
use crate::types::{DartType, TypeList};
use std::alloc::Global;

/// The type parameters of a class, and the arguments that it has for them. A parameter without an
/// argument stands for itself.
#[derive(Clone, Copy)]
pub struct Arguments<'a> {
    /// The parameters, in the order of the text.
    pub params: &'a [VarId],
    /// The arguments, in the order of the parameters.
    pub args: &'a TypeList,
}

impl Superinterface {
    /// The superinterface where the class that it is of has these arguments, in normal form.
    /// `TooLarge` comes exactly where more than `NODE_LIMIT` types would stand in it, and is found
    /// before any of it is formed.
    pub fn with_arguments(
        &self,
        alloc: Global,
        arguments: &Arguments,
    ) -> Result<DartType, TypeRefusal>
        ensures { Forms result (interface_with arguments.now self.now) }
    {
        let replacements = replacements_for(alloc, arguments.params, arguments.args.as_slice())?;
        let nodes = self.args.nodes_with(&replacements).saturating_add(1);
        if nodes > NODE_LIMIT {
            return Err(TypeRefusal::TooLarge { nodes });
        }
        let args = self.args.form_with(alloc, &replacements)?;
        let formed = DartType::interface(alloc, self.class, args)?;
        Ok(formed)
    }

    /// Whether this superinterface and another are the same type where the classes that they are of
    /// have these arguments. It takes no memory and forms no type.
    pub fn is_same_with(
        &self,
        arguments: &Arguments,
        other: &Superinterface,
        other_arguments: &Arguments,
    ) -> bool
        ensures { IsTrue result ↔ (interface_with arguments.now self.now ≡ interface_with other_arguments.now other.now) }
    {
        if self.class != other.class {
            return false;
        }
        let root = Scope::root();
        let scope = Scope::frame(arguments.params, arguments.args.as_slice(), &root);
        let other_scope = Scope::frame(
            other_arguments.params,
            other_arguments.args.as_slice(),
            &root,
        );
        let args = SeenList {
            types: self.args.as_slice(),
            scope: &scope,
        };
        let other_args = SeenList {
            types: other.args.as_slice(),
            scope: &other_scope,
        };
        are_lists_same(&args, &other_args)
    }
}
