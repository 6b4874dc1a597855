//! What the rules of flow models ask of types and lists of types.

ghost use Rattle.std.specs.Prelude.{◌≡◌, ◌∷◌, [], IfOk, filter};
ghost use Rattle.std.specs.Option.{option_to_list};
ghost use Rattle.type_bounds.specs.NonNull.{non_null_of};
ghost use Rattle.flow_model.specs.Flow.{last_or};
ghost use Rattle.flow_model.specs.TypeTests.{common_of, is_formed, is_in, proper_sub, union_of};

use dart_types::{DartType, Rows, TypeList, TypeRefusal, is_subtype};
use std::alloc::{AllocError, Global};
use type_bounds::non_null;

/// Whether s is a subtype of t and another type.
pub(crate) fn is_proper_subtype(rows: &Rows, s: &DartType, t: &DartType) -> bool
    ensures { result ≡ proper_sub rows.now.table s.now t.now }
{
    is_subtype(rows, s, t) && !s.is_same(t)
}

/// Whether a type is one of these.
pub(crate) fn is_in(types: &[DartType], t: &DartType) -> bool
    ensures { result ≡ is_in types.now t.now }
{
    for item in types {
        if t.is_same(item) {
            return true;
        }
    }
    false
}

/// The last of the types, or `t` where there is none.
pub(crate) fn last_or<'a>(t: &'a DartType, types: &'a [DartType]) -> &'a DartType
    ensures { result.now ≡ last_or t.now types.now }
{
    match types {
        [.., last] => last,
        [] => t,
    }
}

/// The types of the first list that are in the second.
pub(crate) fn common(alloc: Global, a: &TypeList, b: &TypeList) -> Result<TypeList, AllocError>
    ensures { IfOk result (λ types. types ≡ common_of a.now b.now) }
{
    let mut kept = TypeList::new(alloc);
    for t in a.as_slice() {
        if is_in(b.as_slice(), t) {
            kept.push(t.copy(alloc)?)?;
        }
    }
    Ok(kept)
}

/// The first list, and then what the second has beside it.
pub(crate) fn union(alloc: Global, a: &TypeList, b: &[DartType]) -> Result<TypeList, AllocError>
    ensures { IfOk result (λ types. types ≡ union_of a.now b.now) }
{
    let mut types = a.copy(alloc)?;
    for t in b {
        if !is_in(a.as_slice(), t) {
            types.push(t.copy(alloc)?)?;
        }
    }
    Ok(types)
}

/// A type without null: None exactly where more types would stand in it than may stand in a type.
pub(crate) fn formed_non_null(
    alloc: Global,
    rows: &Rows,
    t: &DartType,
) -> Result<Option<DartType>, AllocError>
    ensures { IfOk result (λ formed. option_to_list formed ≡ filter is_formed (non_null_of rows.now.table t.now ∷ [])) }
{
    match non_null(alloc, rows, t) {
        Ok(formed) => Ok(Some(formed)),
        Err(TypeRefusal::TooLarge { .. }) => Ok(None),
        Err(TypeRefusal::Memory) => Err(AllocError),
    }
}
