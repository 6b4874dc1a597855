//! What is asked of types.

use crate::cells::{cell, yes_or_no};
use crate::letters::var;
use crate::notation::{list_in, type_in, types_in, vars_in};
use crate::printing::shown;
use dart_types::{
    Arguments, DartType, Rows, Superinterface, TypeNode, TypeRefusal, VarId, is_subtype,
    is_subtype_of_object, size, substitute,
};
use std::alloc::Global;
use std::test::Fail;
use type_bounds::{factor, lower, non_null, upper};

/// What a call that forms a type answers.
pub(crate) fn formed(alloc: Global, answer: Result<DartType, TypeRefusal>) -> Result<String, Fail> {
    match answer {
        Ok(t) => shown(alloc, &t),
        Err(TypeRefusal::TooLarge { nodes }) => Ok(format!(in alloc; "too large: {nodes} types")?),
        Err(TypeRefusal::Memory) => Err("out of memory".into()),
    }
}

// Type variables, each with the type that is put in for it.
fn replacements(alloc: Global, vars: &str, types: &str) -> Result<Vec<(VarId, DartType)>, Fail> {
    let mut with = Vec::new(alloc);
    let types = types_in(alloc, types)?;
    let vars = vars_in(alloc, vars)?;
    for (var, t) in vars.into_iter().zip(types) {
        with.push((var, t))?;
    }
    Ok(with)
}

/// A type with others put in, and how many types stand in it.
pub(crate) fn put(alloc: Global, text: &str) -> Result<String, Fail> {
    let (t, text) = cell(text)?;
    let (vars, types) = cell(text)?;
    let with = replacements(alloc, vars, types)?;
    match substitute(alloc, &type_in(alloc, t)?, &with) {
        Ok(t) => {
            let nodes = size(&t);
            let text = shown(alloc, &t)?;
            Ok(format!(in alloc; "{text}, {nodes}")?)
        }
        refused => formed(alloc, refused),
    }
}

// The superinterface of a text.
fn superinterface(alloc: Global, text: &str) -> Result<Superinterface, Fail> {
    match type_in(alloc, text)?.node {
        TypeNode::Interface { class, args } => {
            let args = args.copy(alloc)?;
            Ok(Superinterface { class, args })
        }
        _ => Err("no interface".into()),
    }
}

/// A superinterface of a class with arguments.
pub(crate) fn with(alloc: Global, text: &str) -> Result<String, Fail> {
    let (of, text) = cell(text)?;
    let (params, args) = cell(text)?;
    let params = vars_in(alloc, params)?;
    let args = list_in(alloc, args)?;
    let arguments = Arguments {
        params: &params,
        args: &args,
    };
    formed(
        alloc,
        superinterface(alloc, of)?.with_arguments(alloc, &arguments),
    )
}

/// Whether two superinterfaces of classes with arguments are the same.
pub(crate) fn same(alloc: Global, text: &str) -> Result<&'static str, Fail> {
    let (left, text) = cell(text)?;
    let (left_args, text) = cell(text)?;
    let (right, right_args) = cell(text)?;
    let params = [var(0), var(1)];
    let args = list_in(alloc, left_args)?;
    let other_args = list_in(alloc, right_args)?;
    let arguments = Arguments {
        params: &params,
        args: &args,
    };
    let other_arguments = Arguments {
        params: &params,
        args: &other_args,
    };
    let own = superinterface(alloc, left)?;
    let other = superinterface(alloc, right)?;
    Ok(yes_or_no(own.is_same_with(&arguments, &other, &other_arguments)))
}

/// Whether a type is a subtype of another, and once more where that is `Object`.
pub(crate) fn sub(alloc: Global, rows: &Rows, text: &str) -> Result<String, Fail> {
    let (s, t) = cell(text)?;
    let s = type_in(alloc, s)?;
    let t = type_in(alloc, t)?;
    let answer = yes_or_no(is_subtype(rows, &s, &t));
    if t.is_object() {
        let again = yes_or_no(is_subtype_of_object(rows, &s));
        return Ok(format!(in alloc; "{answer} {again}")?);
    }
    Ok(String::from_str(alloc, answer)?)
}

/// Whether the invalid type stands in each type.
pub(crate) fn invalid(alloc: Global, text: &str) -> Result<String, Fail> {
    let mut answers = String::new(alloc);
    for t in &types_in(alloc, text)? {
        answers.push_str(if answers.is_empty() { "" } else { " " })?;
        answers.push_str(yes_or_no(t.holds_invalid()))?;
    }
    Ok(answers)
}

// A bound of two types, or what is left of the first without the second.
#[derive(Clone, Copy)]
pub(crate) enum Bound {
    Upper,
    Lower,
    Without,
}

/// A bound of two types, or what is left of one without the other.
pub(crate) fn bound_of_types(
    alloc: Global,
    rows: &Rows,
    asked: Bound,
    text: &str,
) -> Result<String, Fail> {
    let (s, t) = cell(text)?;
    let s = type_in(alloc, s)?;
    let t = type_in(alloc, t)?;
    let answer = match asked {
        Bound::Upper => upper(alloc, rows, &s, &t),
        Bound::Lower => lower(alloc, rows, &s, &t),
        Bound::Without => factor(alloc, rows, &s, &t),
    };
    formed(alloc, answer)
}

/// A type without null.
pub(crate) fn without_null(alloc: Global, rows: &Rows, text: &str) -> Result<String, Fail> {
    let t = type_in(alloc, text)?;
    formed(alloc, non_null(alloc, rows, &t))
}
