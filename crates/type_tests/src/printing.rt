//! Types in the notation of `notation.rt`.

use crate::letters::{letter_of_class, letter_of_var};
use dart_types::{ClassId, DartType, FunctionType, NamedTypes, TypeList, TypeNode, VarId, size};
use std::alloc::Global;
use std::test::Fail;
use type_infer::OPEN_PARAMETER;

// Types of more types than these are printed as the number of these.
const LONGEST: u64 = 100;

/// A type: without blanks, or how many types stand in it where these are many.
pub(crate) fn shown(alloc: Global, t: &DartType) -> Result<String, Fail> {
    let nodes = size(t);
    if nodes > LONGEST {
        return Ok(format!(in alloc; "{nodes} types")?);
    }
    let mut text = String::new(alloc);
    // No type is deeper than it is large.
    print_type(alloc, t, LONGEST, &mut text)?;
    Ok(text)
}

/// Types, with blanks between them.
pub(crate) fn shown_all(alloc: Global, types: &[DartType]) -> Result<String, Fail> {
    let mut text = String::new(alloc);
    for t in types {
        if !text.is_empty() {
            text.push_str(" ")?;
        }
        text.push_str(shown(alloc, t)?.as_str())?;
    }
    Ok(text)
}

// A type that is at most so deep.
#[cycle(printing)]
fn print_type(alloc: Global, t: &DartType, depth: u64, text: &mut String) -> Result<(), Fail> {
    if depth == 0 {
        return Err("a type that is too deep".into());
    }
    let below = depth - 1;
    match &t.node {
        TypeNode::Invalid => text.push('!')?,
        TypeNode::Never => text.push('E')?,
        TypeNode::Void => text.push('V')?,
        TypeNode::Null => text.push('N')?,
        TypeNode::Interface { class, args } => {
            print_list(alloc, args, "", below, text)?;
            print_class(alloc, *class, args.as_slice().len(), text)?;
        }
        TypeNode::Function(function) => print_function(alloc, function, below, text)?,
        TypeNode::Var(var) => print_var(alloc, *var, text)?,
        TypeNode::Promoted { var, to } => {
            print_var(alloc, *var, text)?;
            print_type(alloc, to, below, text)?;
            text.push('&')?;
        }
        TypeNode::Nullable(bare) => {
            print_type(alloc, bare, below, text)?;
            text.push('?')?;
        }
    }
    Ok(())
}

// Types, each with this sign behind it.
#[cycle(printing)]
fn print_list(
    alloc: Global,
    types: &TypeList,
    sign: &str,
    depth: u64,
    text: &mut String,
) -> Result<(), Fail> {
    for t in types.as_slice() {
        print_type(alloc, t, depth, text)?;
        text.push_str(sign)?;
    }
    Ok(())
}

#[cycle(printing)]
fn print_function(
    alloc: Global,
    function: &FunctionType,
    depth: u64,
    text: &mut String,
) -> Result<(), Fail> {
    text.push('(')?;
    print_list(alloc, &function.required, "r", depth, text)?;
    print_list(alloc, &function.optional, "p", depth, text)?;
    print_named(alloc, &function.named, depth, text)?;
    print_type(alloc, &function.result, depth, text)?;
    text.push(')')?;
    Ok(())
}

#[cycle(printing)]
fn print_named(
    alloc: Global,
    named: &NamedTypes,
    depth: u64,
    text: &mut String,
) -> Result<(), Fail> {
    for item in named.as_slice() {
        print_type(alloc, &item.ty, depth, text)?;
        text.push_str(sign_of(item.name.as_str(), item.required)?)?;
    }
    Ok(())
}

// The sign of a named parameter.
fn sign_of(name: &str, required: bool) -> Result<&'static str, Fail> {
    match (name, required) {
        ("a", false) => Ok("a"),
        ("a", true) => Ok("A"),
        ("b", false) => Ok("b"),
        ("b", true) => Ok("B"),
        _ => Err("a parameter without a sign".into()),
    }
}

fn print_class(alloc: Global, class: ClassId, count: usize, text: &mut String) -> Result<(), Fail> {
    match letter_of_class(class, count)? {
        Some(letter) => text.push_str(letter)?,
        None => text.push_str(format!(in alloc; "[{}]", class.index)?.as_str())?,
    }
    Ok(())
}

fn print_var(alloc: Global, var: VarId, text: &mut String) -> Result<(), Fail> {
    if var == OPEN_PARAMETER {
        text.push('*')?;
        return Ok(());
    }
    match letter_of_var(var) {
        Some(letter) => text.push(letter)?,
        None => text.push_str(format!(in alloc; "<{}>", var.index)?.as_str())?,
    }
    Ok(())
}
