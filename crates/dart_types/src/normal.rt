//! Normal forms.

ghost use Rattle.std.specs.Prelude.{◌≡◌, IfOk};
ghost use Rattle.dart_types.specs.Ty.{variable, interface, promoted, no_more, types_of};
ghost use Rattle.dart_types.specs.Named.{named_of};
ghost use Rattle.dart_types.specs.Node.{function_type};
ghost use Rattle.dart_types.specs.Normal.{nullable_of};
ghost use Rattle.dart_types.specs.Replacements.{replaced, replaced_all, replaced_named};

use crate::ids::{ClassId, VarId};
use crate::pairs::find_replacement;
use crate::replacements::Replacement;
use crate::types::{DartType, FunctionType, NamedType, NamedTypes, TypeList, TypeNode};
use std::alloc::{AllocError, Global};
use std::rc::Rc;

impl DartType {
    /// A class without arguments, as `Object`.
    pub fn class(alloc: Global, class: ClassId) -> Result<DartType, AllocError>
        ensures { IfOk result (λ t. t ≡ interface class no_more) }
    {
        DartType::interface(alloc, class, TypeList::new(alloc))
    }

    /// A class with these arguments.
    pub fn interface(alloc: Global, class: ClassId, args: TypeList) -> Result<DartType, AllocError>
        ensures { IfOk result (λ t. t ≡ interface class (types_of args)) }
    {
        Ok(DartType {
            node: TypeNode::Interface {
                class,
                args: Rc::new(alloc, args)?,
            },
        })
    }

    /// A function type.
    pub fn function(alloc: Global, function: FunctionType) -> Result<DartType, AllocError>
        ensures { IfOk result (λ t. t ≡ function_type function) }
    {
        Ok(DartType {
            node: TypeNode::Function(Rc::new(alloc, function)?),
        })
    }

    /// `X & U`.
    pub fn promoted(alloc: Global, var: VarId, to: DartType) -> Result<DartType, AllocError>
        ensures { IfOk result (λ t. t ≡ promoted var to) }
    {
        Ok(DartType {
            node: TypeNode::Promoted {
                var,
                to: Rc::new(alloc, to)?,
            },
        })
    }

    /// The normal form of `bare?`, of a type in normal form: a second `?` adds nothing, neither does
    /// one after `void`, and `Null?` and `Never?` are `Null`.
    pub fn nullable(alloc: Global, bare: DartType) -> Result<DartType, AllocError>
        ensures { IfOk result (λ t. t ≡ nullable_of bare) }
    {
        match &bare.node {
            TypeNode::Never | TypeNode::Null => Ok(DartType {
                node: TypeNode::Null,
            }),
            TypeNode::Void | TypeNode::Nullable(_) => Ok(bare),
            TypeNode::Invalid
            | TypeNode::Interface { .. }
            | TypeNode::Function(_)
            | TypeNode::Var(_)
            | TypeNode::Promoted { .. } => Ok(DartType {
                node: TypeNode::Nullable(Rc::new(alloc, bare)?),
            }),
        }
    }
}

impl DartType {
    /// The normal form of the type with the replacements put in.
    #[cycle(normal_form)]
    pub(crate) fn form_with(
        &self,
        alloc: Global,
        replacements: &[Replacement],
    ) -> Result<DartType, AllocError>
        ensures { IfOk result (λ formed. formed ≡ replaced replacements.now self.now) }
    {
        let node = match &self.node {
            TypeNode::Invalid => TypeNode::Invalid,
            TypeNode::Never => TypeNode::Never,
            TypeNode::Void => TypeNode::Void,
            TypeNode::Null => TypeNode::Null,
            TypeNode::Interface { class, args } => {
                if args.items.is_empty() {
                    return self.copy(alloc);
                }
                let formed = args.form_with(alloc, replacements)?;
                TypeNode::Interface {
                    class: *class,
                    args: Rc::new(alloc, formed)?,
                }
            }
            TypeNode::Function(function) => {
                let formed = function.form_with(alloc, replacements)?;
                TypeNode::Function(Rc::new(alloc, formed)?)
            }
            TypeNode::Var(var) => return form_var(alloc, *var, replacements),
            TypeNode::Promoted { var, to } => {
                let formed = to.form_with(alloc, replacements)?;
                TypeNode::Promoted {
                    var: *var,
                    to: Rc::new(alloc, formed)?,
                }
            }
            TypeNode::Nullable(bare) => {
                let formed = bare.form_with(alloc, replacements)?;
                return DartType::nullable(alloc, formed);
            }
        };
        Ok(DartType { node })
    }
}

// What a variable stands for.
fn form_var(alloc: Global, var: VarId, replacements: &[Replacement]) -> Result<DartType, AllocError>
    ensures { IfOk result (λ formed. formed ≡ replaced replacements.now (variable var)) }
{
    match find_replacement(replacements, var) {
        None => Ok(DartType {
            node: TypeNode::Var(var),
        }),
        Some(found) => found.ty.copy(alloc),
    }
}

impl FunctionType {
    // The parameters and the result in normal form, with the replacements put in.
    #[cycle(normal_form)]
    fn form_with(
        &self,
        alloc: Global,
        replacements: &[Replacement],
    ) -> Result<FunctionType, AllocError>
        ensures { IfOk result (λ formed. function_type formed ≡ replaced replacements.now (function_type self.now)) }
    {
        let required = self.required.form_with(alloc, replacements)?;
        let optional = self.optional.form_with(alloc, replacements)?;
        let named = self.named.form_with(alloc, replacements)?;
        let result = self.result.form_with(alloc, replacements)?;
        Ok(FunctionType {
            required,
            optional,
            named,
            result,
        })
    }
}

impl TypeList {
    /// The types of the list in normal form, with the replacements put in.
    #[cycle(normal_form)]
    pub(crate) fn form_with(
        &self,
        alloc: Global,
        replacements: &[Replacement],
    ) -> Result<TypeList, AllocError>
        ensures { IfOk result (λ formed. types_of formed ≡ replaced_all replacements.now (types_of self.now)) }
    {
        let mut formed = TypeList::new(alloc);
        for item in &self.items {
            formed.push(item.form_with(alloc, replacements)?)?;
        }
        Ok(formed)
    }
}

impl NamedTypes {
    // The parameters with their types in normal form and the replacements put in.
    #[cycle(normal_form)]
    fn form_with(
        &self,
        alloc: Global,
        replacements: &[Replacement],
    ) -> Result<NamedTypes, AllocError>
        ensures { IfOk result (λ formed. named_of formed ≡ replaced_named replacements.now (named_of self.now)) }
    {
        let mut formed = Vec::new(alloc);
        for item in &self.items {
            let ty = item.ty.form_with(alloc, replacements)?;
            formed.push(NamedType {
                name: item.name.copy()?,
                required: item.required,
                ty,
            })?;
        }
        Ok(NamedTypes { items: formed })
    }
}
