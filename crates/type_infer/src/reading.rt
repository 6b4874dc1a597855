//! Types in which `X & U` is read as X.

ghost use Rattle.std.specs.Prelude.{◌≡◌, IfOk};
ghost use Rattle.dart_types.specs.Ty.{types_of};
ghost use Rattle.dart_types.specs.Named.{named_of};
ghost use Rattle.dart_types.specs.Node.{function_type};
ghost use Rattle.type_infer.specs.Promotions.{unpromoted, unpromoted_all, unpromoted_named};

use dart_types::{DartType, FunctionType, NamedType, NamedTypes, TypeList, TypeNode};
use std::alloc::{AllocError, Global};
use std::rc::Rc;

/// A copy of the type with X in the place of each `X & U`.
#[cycle(reading)]
pub(crate) fn read_type(alloc: Global, t: &DartType) -> Result<DartType, AllocError>
    ensures { IfOk result (λ read. read ≡ unpromoted t.now) }
{
    let node = match &t.node {
        TypeNode::Invalid => TypeNode::Invalid,
        TypeNode::Never => TypeNode::Never,
        TypeNode::Void => TypeNode::Void,
        TypeNode::Null => TypeNode::Null,
        TypeNode::Interface { class, args } => {
            let read = read_list(alloc, args)?;
            TypeNode::Interface {
                class: *class,
                args: Rc::new(alloc, read)?,
            }
        }
        TypeNode::Function(function) => {
            let read = read_function(alloc, function)?;
            TypeNode::Function(Rc::new(alloc, read)?)
        }
        TypeNode::Var(var) => TypeNode::Var(*var),
        TypeNode::Promoted { var, .. } => TypeNode::Var(*var),
        TypeNode::Nullable(bare) => {
            let read = read_type(alloc, bare)?;
            TypeNode::Nullable(Rc::new(alloc, read)?)
        }
    };
    Ok(DartType { node })
}

// Likewise a function type.
#[cycle(reading)]
fn read_function(alloc: Global, function: &FunctionType) -> Result<FunctionType, AllocError>
    ensures { IfOk result (λ read. function_type read ≡ unpromoted (function_type function.now)) }
{
    let required = read_list(alloc, &function.required)?;
    let optional = read_list(alloc, &function.optional)?;
    let named = read_named(alloc, &function.named)?;
    let result = read_type(alloc, &function.result)?;
    Ok(FunctionType {
        required,
        optional,
        named,
        result,
    })
}

// Likewise the types of a list.
#[cycle(reading)]
fn read_list(alloc: Global, types: &TypeList) -> Result<TypeList, AllocError>
    ensures { IfOk result (λ read. types_of read ≡ unpromoted_all (types_of types.now)) }
{
    let mut read = TypeList::new(alloc);
    for item in types.as_slice() {
        read.push(read_type(alloc, item)?)?;
    }
    Ok(read)
}

// Likewise the types of named parameters.
#[cycle(reading)]
fn read_named(alloc: Global, named: &NamedTypes) -> Result<NamedTypes, AllocError>
    ensures { IfOk result (λ read. named_of read ≡ unpromoted_named (named_of named.now)) }
{
    let mut read = NamedTypes::new(alloc);
    for item in named.as_slice() {
        let ty = read_type(alloc, &item.ty)?;
        let name = item.name.copy()?;
        read.push(NamedType {
            name,
            required: item.required,
            ty,
        })?;
    }
    Ok(read)
}
