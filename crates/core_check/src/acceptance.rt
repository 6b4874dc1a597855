//! The check of a whole program.

ghost use Rattle.std.specs.Prelude.{◌≡◌, IfOk, IfErr};
ghost use Rattle.dart_types.specs.Superinterfaces.{LeavesNothingOut};
ghost use Rattle.dart_types.specs.Laws.{RowLaws};
ghost use Rattle.core_check.specs.WellFormed.{IsWellFormed};
ghost use Rattle.core_check.specs.Accepted.{IsAccepted};
ghost use Rattle.core_check.specs.Refusals.{IsCause};

use crate::context::{CoreTypes, know_rows};
use crate::points::check_points;
use core_ir::{CoreProgram, PointId};
use dart_types::DartType;
use std::alloc::{AllocError, Global};
use std::marker::Model;

/// A program that was accepted. Contracts see it as the value of that program.
#[derive(Drop)]
pub struct Accepted {
    program: CoreProgram,
}

impl Model for Accepted {
    ghost use Rattle.core_ir.specs.Program.{Program, program_code};
    ghost use Rattle.dart_types.specs.Superinterfaces.{LeavesNothingOut};
    ghost use Rattle.core_check.specs.WellFormed.{IsWellFormed};
    ghost use Rattle.core_check.specs.Accepted.{IsAccepted};

    ghost Value = { Program };

    ghost coded = { program_code };

    ghost view = { λ a. a.program };

    ghost invariant = { λ a. IsWellFormed a.program × IsAccepted a.program × LeavesNothingOut a.program.rows.table };
}

impl Accepted {
    /// The program.
    pub fn program(&self) -> &CoreProgram
        ensures program { result.now ≡ self.now }
        ensures well_formed { IsWellFormed self.now }
        ensures accepted { IsAccepted self.now }
        ensures nothing_out { LeavesNothingOut self.now.rows.table }
        ensures laws { RowLaws self.now.rows.table }
    {
        know_rows(&self.program);
        &self.program
    }
}

/// Why a program isn't accepted.
#[derive(Drop)]
pub enum AcceptRefusal {
    /// A clause fails at this point, and none at a lesser one.
    Rejected {
        /// The point.
        point: PointId,
        /// The type that was asked for; invalid where no type was.
        expected: DartType,
        /// The type that was found, which isn't a subtype of it; invalid where no type was asked for.
        found: DartType,
    },
    /// Want of memory.
    Memory,
}

impl From<AllocError> for AcceptRefusal {
    ghost use Rattle.std.specs.Prelude.{◌≡◌};
    ghost use Rattle.core_check.specs.declared.acceptance.AcceptRefusal.TheVariants.{Memory};

    ghost from_gives = { λ _ e. e ≡ Memory };

    fn from(_e: AllocError) -> AcceptRefusal {
        AcceptRefusal::Memory
    }
}

/// Accepts a program exactly where no clause fails at its entry, nor at any of its points that a run may
/// come to. The condition on the rows holds where no class forms a superinterface that is too large.
pub fn accept(alloc: Global, program: CoreProgram) -> Result<Accepted, AcceptRefusal>
    requires well_formed { IsWellFormed program }
    requires nothing_out { LeavesNothingOut program.rows.table }
    ensures accepted { IfOk result (λ a. (a ≡ program) × IsAccepted program) }
    ensures refused { IfErr result (λ refusal. IsCause program refusal) }
{
    let core = CoreTypes::new(alloc)?;
    check_points(alloc, &program, &core)?;
    Ok(Accepted { program })
}
