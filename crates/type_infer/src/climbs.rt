//! Superinterfaces of classes with arguments.

ghost use Rattle.std.specs.Prelude.{◌≡◌, MatchOption};
ghost use Rattle.dart_types.specs.Ty.{types_of};
ghost use Rattle.dart_types.specs.Superinterfaces.{AreOrdered};
ghost use Rattle.type_infer.specs.Above.{FormsAbove, HasNoOnlyEntry, IsOnlyEntry, arguments_of};

use dart_types::{
    Arguments, ClassId, DartType, Rows, Superinterface, TypeList, TypeNode, TypeRefusal, row_laws,
    superinterfaces_of_class,
};
use std::alloc::Global;

/// The superinterface of a class with these arguments that is of another class, if it has one, and one
/// only. `TooLarge` comes where it has too many nodes.
pub(crate) fn form_above(
    alloc: Global,
    rows: &Rows,
    class: ClassId,
    args: &TypeList,
    target: ClassId,
) -> Result<Option<DartType>, TypeRefusal>
    ensures { FormsAbove rows.now.table class (types_of args.now) target result }
{
    row_laws(rows);
    let row = match rows.class(class) {
        None => return Ok(None),
        Some(row) => row,
    };
    let params = row.params.as_slice();
    if params.len() != args.as_slice().len() {
        return Ok(None);
    }
    let arguments = Arguments { params, args };
    match only_entry(rows.superinterfaces(class), target, arguments) {
        None => Ok(None),
        Some(superinterface) => {
            let formed = superinterface.with_arguments(alloc, &arguments)?;
            Ok(Some(formed))
        }
    }
}

// The first superinterface that is of the class, if all that are of it are one type where their class
// has these arguments.
fn only_entry<'a>(
    superinterfaces: &'a [Superinterface],
    class: ClassId,
    arguments: Arguments,
) -> Option<&'a Superinterface>
    requires { AreOrdered superinterfaces.now }
    ensures { MatchOption result (HasNoOnlyEntry superinterfaces.now class arguments.entry) (λ s. IsOnlyEntry superinterfaces.now class arguments.entry s.now) }
{
    let of_class = superinterfaces_of_class(superinterfaces, class);
    let (first, others) = of_class.split_first()?;
    for other in others {
        if !other.is_same_with(&arguments, first, &arguments) {
            return None;
        }
    }
    Some(first)
}

/// The arguments of a class; none of another type.
pub(crate) fn arguments_of(t: &DartType) -> &[DartType]
    ensures { types_of result.now ≡ arguments_of t.now }
{
    match &t.node {
        TypeNode::Interface { args, .. } => args.as_slice(),
        TypeNode::Invalid => &[],
        TypeNode::Never => &[],
        TypeNode::Void => &[],
        TypeNode::Null => &[],
        TypeNode::Function(_) => &[],
        TypeNode::Var(_) => &[],
        TypeNode::Promoted { .. } => &[],
        TypeNode::Nullable(_) => &[],
    }
}
