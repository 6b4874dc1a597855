//! A superinterface of a class, as its row keeps it.

ghost use Rattle.std.specs.Prelude.{◌≡◌, ◌≤◌, true, false, length, filter};
ghost use Rattle.std.specs.List.Sorted.{IsPartitionPoint};
ghost use Rattle.dart_types.specs.Same.{same_class};
ghost use Rattle.dart_types.specs.WellFormed.{class_before};
ghost use Rattle.dart_types.specs.Superinterfaces.{AreOrdered};

use crate::ids::ClassId;
use crate::types::TypeList;

/// A class that another class reaches by its direct supertypes, with its type arguments over the
/// parameters of that other class, in normal form.
#[derive(Drop)]
pub struct Superinterface {
    /// The class that is reached.
    pub class: ClassId,
    /// Its type arguments.
    pub args: TypeList,
}

/// Of superinterfaces in the order of their classes those of one class, by binary searches.
pub fn superinterfaces_of_class(
    superinterfaces: &[Superinterface],
    class: ClassId,
) -> &[Superinterface]
    requires { AreOrdered superinterfaces.now }
    ensures { result.now ≡ filter (λ s. same_class s.class class) superinterfaces.now }
{
    let from = first_of_class(superinterfaces, class);
    let to = end_of_class(superinterfaces, class);
    &superinterfaces[from..to]
}

// How many superinterfaces are of classes with smaller ids.
fn first_of_class(superinterfaces: &[Superinterface], class: ClassId) -> usize
    requires { AreOrdered superinterfaces.now }
    ensures bound { result ≤ length superinterfaces.now }
    ensures parts { IsPartitionPoint (λ s. class_before s.class class ≡ true) (λ s. class_before s.class class ≡ false) superinterfaces.now result }
{
    superinterfaces.partition_point(|superinterface| superinterface.class < class)
}

// How many superinterfaces are of classes with smaller ids or of the class itself.
pub(crate) fn end_of_class(superinterfaces: &[Superinterface], class: ClassId) -> usize
    requires { AreOrdered superinterfaces.now }
    ensures bound { result ≤ length superinterfaces.now }
    ensures parts { IsPartitionPoint (λ s. class_before class s.class ≡ false) (λ s. class_before class s.class ≡ true) superinterfaces.now result }
{
    superinterfaces.partition_point(|superinterface| !(class < superinterface.class))
}
