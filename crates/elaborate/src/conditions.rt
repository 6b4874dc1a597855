//! The code of conditions.

ghost use Rattle.std.specs.Prelude.{◌≡◌, [], IfOk};
ghost use Rattle.dart_tree.specs.Places.{place_of};
ghost use Rattle.elaborate.specs.Known as known;
ghost use Rattle.elaborate.specs.Rows.{condition_of, condition_row};
ghost use Rattle.elaborate.specs.Sources as sources;

use crate::builder::Builder;
use crate::operands::{operand_of, test_of_null};
use crate::said::Said;
use crate::values::{code_of, holding};
use core_emit::{Code, Test};
use core_ir::Facts;
use dart_tree::Expr;
use std::alloc::AllocError;

/// A condition: its code, and the test behind it, with what is known there.
#[derive(Drop)]
pub(crate) struct Condition {
    /// The code before the test.
    pub(crate) code: Code,
    /// What is known where it is tested.
    pub(crate) facts: Facts,
    /// The test.
    pub(crate) test: Test,
}

/// The code of a condition, and its test. A comparison of a local with `null` is tested by itself; of any
/// other the value is.
pub(crate) fn condition_of(
    said: &Said,
    build: &mut Builder,
    condition: &Expr,
) -> Result<Condition, AllocError>
    ensures code { IfOk result (λ made. made.code ≡ (condition_of said.now [] condition.now).code) }
    ensures facts { IfOk result (λ made. made.facts ≡ known.facts said.now (sources.known_behind said.now (place_of condition.now)) (condition_of said.now [] condition.now).values) }
    ensures test { IfOk result (λ made. made.test ≡ (condition_of said.now [] condition.now).test) }
{
    match test_of_null(said, condition) {
        Some(test) => null_condition(said, build, condition, test),
        None => value_condition(said, build, condition),
    }
}

// A condition that tests a local for not being null.
fn null_condition(
    said: &Said,
    build: &mut Builder,
    condition: &Expr,
    test: Test,
) -> Result<Condition, AllocError>
    ensures code { IfOk result (λ made. made.code ≡ (condition_row said.now [] condition.now (Some test)).code) }
    ensures facts { IfOk result (λ made. made.facts ≡ known.facts said.now (sources.known_behind said.now (place_of condition.now)) (condition_row said.now [] condition.now (Some test)).values) }
    ensures test { IfOk result (λ made. made.test ≡ (condition_row said.now [] condition.now (Some test)).test) }
{
    let facts = build.facts(said, said.known_behind(condition.place()), &[])?;
    Ok(Condition {
        code: Code::nothing(),
        facts,
        test,
    })
}

// Any other condition, whose value is tested.
fn value_condition(
    said: &Said,
    build: &mut Builder,
    condition: &Expr,
) -> Result<Condition, AllocError>
    ensures code { IfOk result (λ made. made.code ≡ (condition_row said.now [] condition.now None).code) }
    ensures facts { IfOk result (λ made. made.facts ≡ known.facts said.now (sources.known_behind said.now (place_of condition.now)) (condition_row said.now [] condition.now None).values) }
    ensures test { IfOk result (λ made. made.test ≡ (condition_row said.now [] condition.now None).test) }
{
    let code = code_of(said, build, &[], condition)?;
    let on = operand_of(said, condition);
    let values = holding(build.alloc(), &[], on)?;
    let facts = build.facts(said, said.known_behind(condition.place()), &values)?;
    Ok(Condition {
        code,
        facts,
        test: Test::OnTruth { on },
    })
}
