//! Which files are libraries, and which libraries parts claim.

ghost use Rattle.std.specs.Prelude.{◌≡◌, find, map, IfOk};
ghost use Rattle.std.specs.List.{list_any};
ghost use Rattle.std.specs.Option.{option_copied};
ghost use Rattle.libraries.specs.Heads.{claims, head_at, head_of, is_library_at, is_part_of, same_place};

use crate::aims::{Aim, AimKind, Aims};
use std::alloc::{AllocError, Global};

/// What a file is for others.
#[derive(Clone, Copy)]
pub struct Head {
    /// Whether it is a library: it has no `part of`.
    pub is_library: bool,
    /// The place of the file that its first `part of` names.
    pub claim: Option<usize>,
}

/// Whether a directive is a `part of`.
fn is_part_of(aim: &Aim) -> bool
    ensures { result ≡ is_part_of aim.now }
{
    match aim.kind {
        AimKind::Library => false,
        AimKind::Import => false,
        AimKind::Export => false,
        AimKind::Part => false,
        AimKind::PartOf => true,
        AimKind::PartOfName => true,
    }
}

/// The first `part of`.
fn first_part_of(aims: &[Aim]) -> Option<&Aim>
    ensures { option_copied result ≡ find is_part_of aims.now }
{
    aims.iter().find(|aim| is_part_of(aim))
}

/// What a file with these directives is for others.
fn head_of(aims: &[Aim]) -> Head
    ensures { result ≡ head_of aims.now }
{
    match first_part_of(aims) {
        None => Head {
            is_library: true,
            claim: None,
        },
        Some(aim) => Head {
            is_library: false,
            claim: aim.target,
        },
    }
}

/// What each of the files is for others. The error is want of memory.
pub fn heads_of(alloc: Global, all: &[Aims]) -> Result<Vec<Head>, AllocError>
    ensures { IfOk result (λ heads. heads.items ≡ map head_of all.now) }
{
    let mut heads = Vec::new(alloc);
    for aims in all {
        heads.push(head_of(aims.as_slice()))?;
    }
    Ok(heads)
}

/// What the file at a place is for others.
pub(crate) fn head_at(heads: &[Head], place: usize) -> Head
    ensures { result ≡ head_at heads.now place }
{
    match heads.get(place) {
        Some(head) => *head,
        None => Head {
            is_library: false,
            claim: None,
        },
    }
}

/// Whether the file at a place is a library.
pub(crate) fn is_library_at(heads: &[Head], place: usize) -> bool
    ensures { result ≡ is_library_at heads.now place }
{
    head_at(heads, place).is_library
}

/// Whether the first `part of` of the file at a place names the file at another.
pub(crate) fn claims(heads: &[Head], library: usize, place: usize) -> bool
    ensures { result ≡ claims heads.now library place }
{
    match head_at(heads, place).claim {
        None => false,
        Some(claim) => claim == library,
    }
}
