//! The type arguments that calls leave out, and the contexts of their arguments.

use crate::cells::cell;
use crate::letters::letter_of_var;
use crate::notation::{type_in, types_in, vars_in};
use crate::printing::{shown, shown_all};
use dart_types::{DartType, Rows, VarId};
use std::alloc::Global;
use std::test::Fail;
use type_infer::{Context, InferRefusal, context_of, infer_arguments};

// A call.
#[derive(Drop)]
struct Call {
    params: Vec<VarId>,
    returned: DartType,
    context: Option<Context>,
    formals: Vec<DartType>,
    actuals: Vec<DartType>,
}

// The context of a text, if it has a type.
fn context_in(alloc: Global, text: &str) -> Result<Option<Context>, Fail> {
    if text.is_empty() {
        return Ok(None);
    }
    let context = Context::of(alloc, &type_in(alloc, text)?)?;
    Ok(Some(context))
}

// The call of a text.
fn call_in(alloc: Global, text: &str) -> Result<Call, Fail> {
    let (params, text) = cell(text)?;
    let (returned, text) = cell(text)?;
    let (context, text) = cell(text)?;
    let (formals, actuals) = cell(text)?;
    Ok(Call {
        params: vars_in(alloc, params)?,
        returned: type_in(alloc, returned)?,
        context: context_in(alloc, context)?,
        formals: types_in(alloc, formals)?,
        actuals: types_in(alloc, actuals)?,
    })
}

// A refusal that is about a parameter.
fn about(alloc: Global, word: &str, param: VarId) -> Result<String, Fail> {
    match letter_of_var(param) {
        Some(letter) => Ok(format!(in alloc; "{word} {letter}")?),
        None => Err("a parameter without a letter".into()),
    }
}

/// The type arguments of the call, or why there are none: `no X` where X has no solution within its
/// bound, and `free X` where nothing tells X. A parameter without a row, as u, has the bound `Object?`.
pub(crate) fn infer(alloc: Global, rows: &Rows, text: &str) -> Result<String, Fail> {
    let Call {
        params,
        returned,
        context,
        formals,
        actuals,
    } = call_in(alloc, text)?;
    if actuals.len() != formals.len() {
        return Err("a formal for each argument".into());
    }
    match infer_arguments(
        alloc,
        rows,
        &params,
        &returned,
        context.as_ref(),
        &formals,
        &actuals,
    ) {
        Ok(types) => shown_all(alloc, types.as_slice()),
        Err(InferRefusal::NoSolution { param }) => about(alloc, "no", param),
        Err(InferRefusal::Unconstrained { param }) => about(alloc, "free", param),
        Err(InferRefusal::TooLarge { nodes }) => Ok(format!(in alloc; "too large: {nodes} types")?),
        Err(why) => Err(why.into()),
    }
}

/// The context of the argument after those of the call.
pub(crate) fn context(alloc: Global, rows: &Rows, text: &str) -> Result<String, Fail> {
    let Call {
        params,
        returned,
        context,
        formals,
        actuals,
    } = call_in(alloc, text)?;
    if actuals.len() >= formals.len() {
        return Err("a formal more than arguments".into());
    }
    let next = context_of(
        alloc,
        rows,
        &params,
        &returned,
        context.as_ref(),
        &formals,
        &actuals,
    )?;
    shown(alloc, next.as_type())
}
