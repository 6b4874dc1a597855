//! What all of a check is done with.

ghost use Rattle.std.specs.Prelude.{◌≡◌, IfOk};
ghost use Rattle.dart_types.specs.Ty.{null};
ghost use Rattle.dart_types.specs.Laws.{RowLaws};
ghost use Rattle.core_ir.specs.Values.{int, bool, no_objects, type_of};
ghost use Rattle.core_check.specs.Known.{unlisted};

use core_ir::{CoreFunction, CoreProgram, FunctionId, Held, Known, Value};
use dart_types::{BOOL, DartType, INT, TypeNode, row_laws};
use std::alloc::{AllocError, Global};

/// What a check lends: the types of values, and what is known of a slot that isn't listed.
#[derive(Drop)]
pub(crate) struct CoreTypes {
    null_type: DartType,
    int_type: DartType,
    bool_type: DartType,
    nothing_known: Known,
    ghost is_null: { null_type ≡ null },
    ghost is_int: { int_type ≡ int },
    ghost is_bool: { bool_type ≡ bool },
    ghost is_nothing: { nothing_known ≡ unlisted },
}

impl CoreTypes {
    /// Each of them.
    pub(crate) fn new(alloc: Global) -> Result<CoreTypes, AllocError> {
        let int_type = DartType::class(alloc, INT)?;
        let bool_type = DartType::class(alloc, BOOL)?;
        Ok(CoreTypes {
            null_type: DartType {
                node: TypeNode::Null,
            },
            int_type,
            bool_type,
            nothing_known: Known {
                assigned: false,
                held: Held::Declared,
            },
        })
    }

    /// `int`
    pub(crate) fn int(&self) -> &DartType
        ensures { result.now ≡ int }
    {
        &self.int_type
    }

    /// `bool`
    pub(crate) fn boolean(&self) -> &DartType
        ensures { result.now ≡ bool }
    {
        &self.bool_type
    }

    /// The run-time type of a value.
    pub(crate) fn of_value(&self, value: Value) -> &DartType
        ensures { result.now ≡ type_of no_objects value }
    {
        match value {
            Value::Null => &self.null_type,
            Value::Integer(_) => &self.int_type,
            Value::Boolean(_) => &self.bool_type,
        }
    }

    /// What is known of a slot that isn't listed.
    pub(crate) fn unlisted(&self) -> &Known
        ensures { result.now ≡ unlisted }
    {
        &self.nothing_known
    }
}

/// What all of a check is done with: the allocator, the program, a function of it with its place in the
/// program's list, and what is lent.
#[derive(Clone, Copy)]
pub(crate) struct Context<'a> {
    pub(crate) alloc: Global,
    pub(crate) program: &'a CoreProgram,
    pub(crate) function: &'a CoreFunction,
    pub(crate) number: FunctionId,
    pub(crate) core: &'a CoreTypes,
}

/// The laws of the rows of a program, for proofs that go by them.
pub(crate) fn know_rows(program: &CoreProgram)
    ensures { RowLaws program.now.rows.table }
{
    row_laws(&program.rows);
}
