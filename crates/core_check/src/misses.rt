//! The parts that a clause asks for, and why a check doesn't pass.

ghost use Rattle.core_check.specs.Faults.{unless, unless_below};
ghost use Rattle.core_check.specs.Checks.{Tells};

use crate::context::Context;
use dart_types::{DartType, TypeNode, is_subtype};
use std::alloc::AllocError;

/// Why a check doesn't pass.
#[derive(Drop)]
pub(crate) enum Miss {
    /// The first part that fails asks for the one type and finds the other.
    Fails { expected: DartType, found: DartType },
    /// Want of memory.
    Memory,
}

impl From<AllocError> for Miss {
    ghost use Rattle.std.specs.Prelude.{◌≡◌};
    ghost use Rattle.core_check.specs.declared.misses.Miss.TheVariants.{Memory};

    ghost from_gives = { λ _ e. e ≡ Memory };

    fn from(_e: AllocError) -> Miss {
        Miss::Memory
    }
}

/// Passes where something holds. It takes no memory.
pub(crate) fn ask(holds: bool) -> Result<(), Miss>
    ensures { Tells result (unless holds) }
{
    if holds {
        return Ok(());
    }
    Err(Miss::Fails {
        expected: DartType {
            node: TypeNode::Invalid,
        },
        found: DartType {
            node: TypeNode::Invalid,
        },
    })
}

/// Passes where the found type is a subtype of the expected one.
pub(crate) fn ask_subtype(
    context: Context<'_>,
    found: &DartType,
    expected: &DartType,
) -> Result<(), Miss>
    ensures { Tells result (unless_below context.entry.program.now.rows.table found.now expected.now) }
{
    let program = context.program;
    if is_subtype(&program.rows, found, expected) {
        return Ok(());
    }
    Err(Miss::Fails {
        expected: expected.copy(context.alloc)?,
        found: found.copy(context.alloc)?,
    })
}
