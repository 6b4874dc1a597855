//! The laws of emission.

ghost use Rattle.std.specs.Prelude.{◌≡◌, ◌+◌, List, length};
ghost use Rattle.core_ir.specs.PointFacts.{PointFacts};
ghost use Rattle.core_ir.specs.Program.{Function};
ghost use Rattle.core_ir.specs.declared.points.FunctionId.{FunctionId};
ghost use Rattle.core_ir.specs.declared.points.Point.{Point};
ghost use Rattle.core_ir.specs.declared.points.PointId.{PointId};
ghost use Rattle.core_emit.specs.Code.{Code};
ghost use Rattle.core_emit.specs.Emitted.{EmitsFinePoints, EmitsFormedPoints, emit, size_of};

use core_ir::CoreProgram;

/// Code each part of which leads from what is known before it to what is known behind it is made into
/// points at which no clause of acceptance fails, beside points at which none does; the first of them has
/// what is known before the code, and the facts of the points that there were stay as they are.
pub fn points_of_code_are_fine(_program: &CoreProgram)
    ensures { (g : Function) (id : FunctionId) (code : Code) (after : PointFacts) (next : PointId) (old : List Point)
        → EmitsFinePoints _program.now g id code after next old }
{}

/// Code that names what its function has is made into points that are well formed, beside points that
/// are.
pub fn points_of_code_are_well_formed(_program: &CoreProgram)
    ensures { (g : Function) (id : FunctionId) (code : Code) (next : PointId) (old : List Point)
        → EmitsFormedPoints _program.now g id code next old }
{}

/// Code is made into as many points as it has.
pub fn code_has_its_points()
    ensures { (id : FunctionId) (code : Code) (next : PointId) (old : List Point)
        → length (emit id code next old).points ≡ length old + size_of code }
{}
