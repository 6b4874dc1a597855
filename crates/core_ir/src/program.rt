//! Programs.

use crate::points::{FunctionId, Point, PointId};
use dart_types::{DartType, Rows};
use std::marker::Model;

/// A function of a program. Contracts see it as its value `Function`.
#[derive(Drop)]
pub struct CoreFunction {
    /// The declared type of each slot.
    pub slots: Vec<DartType>,
    /// The point at which a call begins.
    pub entry: PointId,
}

impl Model for CoreFunction {
    ghost use Rattle.core_ir.specs.Program.{Function, function_code};

    ghost Value = { Function };

    ghost coded = { function_code };

    ghost view = { λ f. record { slots = f.slots.items; entry = f.entry } };
}

/// A core program. Contracts see it as its value `Program`, so that programs with equal parts are equal.
#[derive(Drop)]
pub struct CoreProgram {
    /// The rows of the classes that its types may name.
    pub rows: Rows,
    /// The functions.
    pub functions: Vec<CoreFunction>,
    /// The points of all functions.
    pub points: Vec<Point>,
    /// The function with which a run begins.
    pub main: FunctionId,
}

impl Model for CoreProgram {
    ghost use Rattle.core_ir.specs.Program.{Program, program_code};

    ghost Value = { Program };

    ghost coded = { program_code };

    ghost view = { λ p. record { rows = p.rows; functions = p.functions.items; points = p.points.items; main = p.main } };
}
