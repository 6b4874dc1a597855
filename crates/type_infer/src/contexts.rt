//! The context in which an argument is typed.

ghost use Rattle.std.specs.Prelude.{◌≡◌, ◌<◌, false, length, Ok, IfOk, IfErr};
ghost use Rattle.std.specs.Option.{option_copied};
ghost use Rattle.dart_types.specs.FormedTable.{FormedTable};
ghost use Rattle.dart_types.specs.WellFormed.{IsOver};
ghost use Rattle.type_infer.specs.Gives.{AnswersContext};
ghost use Rattle.type_infer.specs.InferenceOf.{context_of_argument};
ghost use Rattle.type_infer.specs.Contexts.{Known};
ghost use Rattle.type_infer.specs.Knows.{EndsKnown, KnowsOne};
ghost use Rattle.type_infer.specs.Open.{is_open};

use crate::constraints::Constraint;
use crate::gathering::gather;
use crate::reading::read_type;
use crate::refusal::InferRefusal;
use crate::solving::solution;
use crate::var_types::push_pair;
use dart_types::{DartType, NO_LIBRARY, Rows, TypeNode, TypeRefusal, VarId, substitute};
use std::alloc::{AllocError, Global};
use std::marker::Model;
use type_bounds::bound_table_laws;

/// What stands in a context for each type parameter that is open. Well-formed rows have no type
/// variable of no library, so it stands in no type of a program.
pub const OPEN_PARAMETER: VarId = VarId {
    lib: NO_LIBRARY,
    index: 4_294_967_295,
};

/// The type that is asked of an expression by what stands around it. `OPEN_PARAMETER` stands in it for
/// each type parameter that is still open, with `?` where that has one. A part in which it stands
/// counts as none.
#[derive(Drop)]
pub struct Context {
    ty: DartType,
}

impl Model for Context {
    ghost use Rattle.dart_types.specs.Ty.{Ty};
    ghost use Rattle.dart_types.specs.TyCode.{type_code};

    ghost Value = { Ty };

    ghost coded = { type_code };

    ghost view = { λ c. c.ty };
}

impl Context {
    /// The context of a type of a program: that type. Nothing is open in it, since `OPEN_PARAMETER`
    /// stands in no type over well-formed rows.
    pub fn of(alloc: Global, t: &DartType) -> Result<Context, AllocError>
        ensures same { IfOk result (λ context. context ≡ t.now) }
        ensures closed { IfOk result (λ context. (rows : FormedTable) → IsOver rows.table context → is_open context ≡ false) }
    {
        let ty = t.copy(alloc)?;
        Ok(Context { ty })
    }

    /// The type, with `OPEN_PARAMETER` for each type parameter that is open.
    pub fn as_type(&self) -> &DartType
        ensures { result.now ≡ self.now }
    {
        &self.ty
    }
}

/// The context of the argument after `done`, the types of those before it: its formal, in which each
/// type parameter that the call's context and the arguments before constrain is replaced by its
/// solution, and each other one is open. Constraints and solutions are those of `infer_arguments`,
/// but no solution is held against its bound: `NoSolution` and `Unconstrained` never come, and
/// `TooLarge` comes where a type on the way has too many nodes, also one that isn't in the formal.
pub fn context_of(
    alloc: Global,
    rows: &Rows,
    params: &[VarId],
    returned: &DartType,
    context: Option<&Context>,
    formals: &[DartType],
    done: &[DartType],
) -> Result<Context, InferRefusal>
    requires { length done.now < length formals.now }
    ensures { AnswersContext result (context_of_argument rows.now.table params.now returned.now (option_copied context.entry) formals.now done.now) }
{
    bound_table_laws(rows);
    let found = gather(alloc, rows, params, returned, context, formals, done)?;
    let known = known_types(alloc, rows, &found, params)?;
    let ty = substitute(alloc, &formals[done.len()], &known)?;
    Ok(Context { ty })
}

// What stands for each parameter in a context.
fn known_types(
    alloc: Global,
    rows: &Rows,
    found: &[Constraint],
    params: &[VarId],
) -> Result<Vec<(VarId, DartType)>, TypeRefusal>
    ensures ok { IfOk result (λ known. Known rows.now.table found.now params.now (Ok known.items)) }
    ensures err { IfErr result (EndsKnown rows.now.table found.now params.now) }
{
    let mut known = Vec::new(alloc);
    for param in params {
        let ty = known_type(alloc, rows, found, *param)?;
        push_pair(&mut known, *param, ty)?;
    }
    Ok(known)
}

// What stands for a parameter in a context: its solution, if it has one, else `OPEN_PARAMETER`.
fn known_type(
    alloc: Global,
    rows: &Rows,
    found: &[Constraint],
    param: VarId,
) -> Result<DartType, TypeRefusal>
    ensures { KnowsOne rows.now.table found.now param result }
{
    match solution(alloc, rows, found, param)? {
        Some(solved) => {
            let read = read_type(alloc, &solved)?;
            Ok(read)
        }
        None => Ok(DartType {
            node: TypeNode::Var(OPEN_PARAMETER),
        }),
    }
}
