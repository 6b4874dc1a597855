//! The code of declarations of locals.

ghost use Rattle.std.specs.Prelude.{◌≡◌, [], IfOk};
ghost use Rattle.dart_tree.specs.Tree.{trees_of};
ghost use Rattle.dart_tree.specs.Places.{place_of};
ghost use Rattle.core_emit.specs.Code.{sequence};
ghost use Rattle.judgement.specs.DeclaredNames.{local_of};
ghost use Rattle.elaborate.specs.Rows.{all_declared, code_of, declared_code, declared_row, initialized_row, list_code, operand_of};
ghost use Rattle.elaborate.specs.Sources as sources;

use crate::builder::Builder;
use crate::operands::operand_of;
use crate::said::Said;
use crate::values::{code_of, holding};
use core_emit::{Code, Step};
use core_ir::{Operand, Value};
use dart_tree::{Expr, Name, Place, Variable, VariableList};
use flow_model::LocalId;
use std::alloc::AllocError;

/// The code of variables that are declared together.
pub(crate) fn list_code(
    said: &Said,
    build: &mut Builder,
    list: &VariableList,
) -> Result<Code, AllocError>
    ensures { IfOk result (λ code. code ≡ list_code said.now list.now) }
{
    all_declared(said, build, &list.variables)
}

// That of variables, one after another.
fn all_declared(
    said: &Said,
    build: &mut Builder,
    variables: &[Variable],
) -> Result<Code, AllocError>
    ensures { IfOk result (λ code. code ≡ all_declared said.now (trees_of variables.now)) }
{
    let mut parts = Vec::new(build.alloc());
    for variable in variables {
        parts.push(declared_code(said, build, variable)?)?;
    }
    Ok(Code::in_order(parts))
}

// That of a variable.
fn declared_code(said: &Said, build: &mut Builder, variable: &Variable) -> Result<Code, AllocError>
    ensures { IfOk result (λ code. code ≡ declared_code said.now variable.now) }
{
    match &variable.initializer {
        None => declared_row(said, build, variable.at, variable.name),
        Some(value) => initialized_code(said, build, variable.at, variable.name, value),
    }
}

// A variable without initializer: one that has a value afterwards has null.
fn declared_row(said: &Said, build: &mut Builder, at: Place, name: Name) -> Result<Code, AllocError>
    ensures { IfOk result (λ code. code ≡ declared_row said.now at name) }
{
    let var = local_of(name);
    let slot = said.slot_of_local(var);
    let step = if said.known_behind(at).is_assigned(var) {
        Step::Initialize {
            slot,
            from: Operand::Constant(Value::Null),
        }
    } else {
        Step::Declare { slot }
    };
    build.step_at(said, at, said.known_before(at), &[], step)
}

// A variable with its initializer: that, and then the variable gets its value.
fn initialized_code(
    said: &Said,
    build: &mut Builder,
    at: Place,
    name: Name,
    value: &Expr,
) -> Result<Code, AllocError>
    ensures { IfOk result (λ code. code ≡ sequence (code_of said.now [] value.now) (initialized_row said.now at name (sources.known_behind said.now (place_of value.now)) (operand_of said.now value.now))) }
{
    let first = code_of(said, build, &[], value)?;
    let from = operand_of(said, value);
    let values = holding(build.alloc(), &[], from)?;
    let slot = said.slot_of_local(local_of(name));
    let flow = said.known_behind(value.place());
    let own = build.step_at(said, at, flow, &values, Step::Initialize { slot, from })?;
    Code::pair(build.alloc(), first, own)
}

// The local that a name declares.
fn local_of(name: Name) -> LocalId
    ensures { result ≡ local_of name }
{
    LocalId(name.at.node.0)
}
