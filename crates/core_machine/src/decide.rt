//! What the row of a term does. No test of it is one for a way to go wrong.

ghost use Rattle.std.specs.Prelude.{◌≡◌, ◌<◌, IsSome, Some, IsTrue, ◌↔◌, length};
ghost use Rattle.core_check.specs.Known.{point_at};
ghost use Rattle.core_machine.specs.Values.{sum_of, less_of, same_value, IsInteger, IsBoolean};
ghost use Rattle.core_machine.specs.Steps.{value_of, Does, IsDoing};
ghost use Rattle.core_machine.specs.State.{row_at};

use crate::effect::{Effect, RunEnd};
use crate::frame::Frame;
use core_ir::{CoreProgram, Operand, PointId, SlotId, Term, Value};

/// What the row of the term that a frame stands at does.
pub(crate) fn decide(program: &CoreProgram, frame: &Frame) -> Effect
    requires inside { frame.now.point.0 < length program.now.points }
    requires doing { IsDoing (row_at program.now frame.now) }
    ensures { row_at program.now frame.now ≡ Does result }
{
    let slots = frame.slots();
    match term_at(program, frame.point()) {
        Term::Store { to, from, next } => write(to, read(slots, from), next),
        Term::Declare { slot, next } => Effect::Write {
            to: slot,
            value: None,
            next,
        },
        Term::Initialize { slot, from, next } => write(slot, read(slots, from), next),
        Term::Add {
            to,
            left,
            right,
            next,
        } => {
            let sum = integer(read(slots, left)).wrapping_add(integer(read(slots, right)));
            write(to, Value::Integer(sum), next)
        }
        Term::Less {
            to,
            left,
            right,
            next,
        } => {
            let is_less = integer(read(slots, left)) < integer(read(slots, right));
            write(to, Value::Boolean(is_less), next)
        }
        Term::NotEqual {
            to,
            left,
            right,
            next,
        } => {
            let differs = !is_same(read(slots, left), read(slots, right));
            write(to, Value::Boolean(differs), next)
        }
        Term::Branch {
            on,
            when_true,
            when_false,
        } => {
            let next = if boolean(read(slots, on)) {
                when_true
            } else {
                when_false
            };
            Effect::Go { next }
        }
        Term::TestNull { slot, null, other } => {
            let next = if is_null(read(slots, Operand::Slot(slot))) {
                null
            } else {
                other
            };
            Effect::Go { next }
        }
        Term::Goto { next } => Effect::Go { next },
        Term::Output { from, next } => Effect::Print {
            value: read(slots, from),
            next,
        },
        Term::End => Effect::Stop { end: RunEnd::Done },
    }
}

// The term of a point.
fn term_at(program: &CoreProgram, at: PointId) -> Term
    requires { at.0 < length program.now.points }
    ensures { result ≡ (point_at program.now at.0).term }
{
    program.points[at.0 as usize].term
}

// A slot is given a value.
fn write(to: SlotId, value: Value, next: PointId) -> Effect
    ensures { result ≡ Effect.Write to (Some value) next }
{
    Effect::Write {
        to,
        value: Some(value),
        next,
    }
}

// The value of an operand, which has one.
fn read(slots: &[Option<Value>], from: Operand) -> Value
    requires { IsSome (value_of slots.now from) }
    ensures { value_of slots.now from ≡ Some result }
{
    match from {
        Operand::Constant(value) => value,
        Operand::Slot(slot) => match slots[slot.0 as usize] {
            Some(value) => value,
            None => unreachable!(),
        },
    }
}

// The integer that a value is.
fn integer(value: Value) -> i64
    requires { IsInteger value }
    ensures { value ≡ Value.Integer result }
{
    match value {
        Value::Integer(number) => number,
        Value::Null | Value::Boolean(_) => unreachable!(),
    }
}

// The truth that a value is.
fn boolean(value: Value) -> bool
    requires { IsBoolean value }
    ensures { value ≡ Value.Boolean result }
{
    match value {
        Value::Boolean(truth) => truth,
        Value::Null | Value::Integer(_) => unreachable!(),
    }
}

// Whether a value is null.
fn is_null(value: Value) -> bool
    ensures { IsTrue result ↔ (value ≡ Value.Null) }
{
    matches!(value, Value::Null)
}

// Whether two values are the same.
fn is_same(left: Value, right: Value) -> bool
    ensures { result ≡ same_value left right }
{
    match (left, right) {
        (Value::Null, Value::Null) => true,
        (Value::Integer(left), Value::Integer(right)) => left == right,
        (Value::Boolean(left), Value::Boolean(right)) => left == right,
        _ => false,
    }
}
