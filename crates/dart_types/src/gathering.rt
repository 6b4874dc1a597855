//! Superinterfaces that are gathered in a list, in the order of their classes.

ghost use Rattle.std.specs.Prelude.{◌≡◌, ◌≤◌, ◌↔◌, IfOk, OnOk, IsTrue, Contains};
ghost use Rattle.dart_types.specs.Ty.{interface, types_of};
ghost use Rattle.dart_types.specs.Sizes.{size_of};
ghost use Rattle.dart_types.specs.Superinterfaces.{interface_of, AreOrdered};
ghost use Rattle.dart_types.specs.Replacements.{replaced};
ghost use Rattle.dart_types.specs.Gathering.{Adds, IsFormedWithin, IsReplaced};
ghost use Rattle.dart_types.specs.declared.refusal.TheConstants.{NODE_LIMIT};

use crate::ids::ClassId;
use crate::refusal::NODE_LIMIT;
use crate::replacements::Replacement;
use crate::superinterfaces::{Superinterface, end_of_class, superinterfaces_of_class};
use crate::types::TypeList;
use std::alloc::{AllocError, Global};

// A class with these arguments where the replacements are put in, unless it has too many nodes then,
// which is found before it is formed.
fn form(
    alloc: Global,
    class: ClassId,
    args: &TypeList,
    replacements: &[Replacement],
) -> Result<Option<Superinterface>, AllocError>
    ensures { IfOk result (IsFormedWithin (replaced replacements.now (interface class (types_of args.now)))) }
{
    let nodes = args.nodes_with(replacements).saturating_add(1);
    if nodes > NODE_LIMIT {
        return Ok(None);
    }
    let formed = args.form_with(alloc, replacements)?;
    Ok(Some(Superinterface {
        class,
        args: formed,
    }))
}

// Puts a superinterface into the list, unless it stands there.
fn add(list: &mut Vec<Superinterface>, found: Superinterface) -> Result<(), AllocError>
    requires in_order { AreOrdered list.old.items }
    ensures { OnOk result (Adds (λ t. t ≡ interface_of found) list.old.items list.new.items) }
{
    if stands_in(list, &found) {
        return Ok(());
    }
    let at = end_of_class(list, found.class);
    list.insert(at, found)?;
    Ok(())
}

// Whether a superinterface stands in the list.
fn stands_in(list: &[Superinterface], found: &Superinterface) -> bool
    requires { AreOrdered list.now }
    ensures { IsTrue result ↔ Contains list.now found.now }
{
    for known in superinterfaces_of_class(list, found.class) {
        if known.args.is_same(&found.args) {
            return true;
        }
    }
    false
}

/// Puts a class with these arguments into the list, with the replacements put in, unless it has too
/// many nodes then.
pub(crate) fn put_one(
    alloc: Global,
    class: ClassId,
    args: &TypeList,
    replacements: &[Replacement],
    list: &mut Vec<Superinterface>,
) -> Result<(), AllocError>
    requires { AreOrdered list.old.items }
    ensures { let formed = replaced replacements.now (interface class (types_of args.now)) in
        OnOk result (Adds (λ t. (t ≡ formed) × (size_of t ≤ NODE_LIMIT)) list.old.items list.new.items) }
{
    match form(alloc, class, args, replacements)? {
        None => Ok(()),
        Some(found) => add(list, found),
    }
}

/// Puts superinterfaces of a superinterface into the list of a class, with the replacements put in,
/// but those that have too many nodes then.
pub(crate) fn gather(
    alloc: Global,
    above: &[Superinterface],
    replacements: &[Replacement],
    list: &mut Vec<Superinterface>,
) -> Result<(), AllocError>
    requires { AreOrdered list.old.items }
    ensures { OnOk result (Adds (IsReplaced replacements.now above.now) list.old.items list.new.items) }
{
    for known in above {
        put_one(alloc, known.class, &known.args, replacements, list)?;
    }
    Ok(())
}
