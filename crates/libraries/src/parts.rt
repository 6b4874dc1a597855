//! The parts of libraries.

ghost use Rattle.std.specs.Prelude.{◌≡◌, [], ◌∷◌, ◌++◌, IfOk, OnOk};
ghost use Rattle.std.specs.List.{list_any};
ghost use Rattle.libraries.specs.Parts.{home_of, is_part_to, listed_by, lists, part_at, units_of, with_part, with_place};

use crate::aims::{Aim, AimKind, Aims};
use crate::heads::{Head, claims, head_at, is_library_at};
use indexmap::IndexSet;
use std::alloc::{AllocError, Global};
use std::marker::Model;

/// What a file is among the libraries.
#[derive(Clone, Copy, PartialEq, Eq)]
pub enum Home {
    /// A library.
    Library,
    /// A part of the library at a place.
    PartOf { library: usize },
    /// A part that belongs to no library.
    Homeless,
}

/// Places, each once.
#[derive(Drop)]
pub struct Units {
    set: IndexSet<usize>,
}

impl Model for Units {
    ghost use Rattle.std.specs.Prelude.{ℕ, List};

    ghost Value = { List ℕ };

    ghost view = { λ u. u.set.keys };
}

impl Units {
    /// One place.
    fn of(alloc: Global, place: usize) -> Result<Units, AllocError>
        ensures { IfOk result (λ units. units ≡ place ∷ []) }
    {
        let mut set = IndexSet::new(alloc);
        set.insert_full(place)?;
        Ok(Units { set })
    }

    /// Puts a place behind the others, unless it is among them.
    fn add(&mut self, place: usize) -> Result<(), AllocError>
        ensures { OnOk result (self.new ≡ with_place self.old place) }
    {
        self.set.insert_full(place)?;
        Ok(())
    }

    /// The places.
    pub fn as_slice(&self) -> &[usize]
        ensures { result.now ≡ self.now }
    {
        self.set.as_slice()
    }
}

/// The place that a `part` of a library names, if the file there claims that library.
fn part_at(heads: &[Head], library: usize, aim: &Aim) -> Option<usize>
    ensures { result ≡ part_at heads.now library aim.now }
{
    if aim.kind != AimKind::Part {
        return None;
    }
    let place = aim.target?;
    if claims(heads, library, place) {
        Some(place)
    } else {
        None
    }
}

/// Adds the part that a directive of a library names, if it names one.
fn add_part(heads: &[Head], library: usize, aim: &Aim, units: &mut Units) -> Result<(), AllocError>
    ensures { OnOk result (units.new ≡ with_part heads.now library units.old aim.now) }
{
    match part_at(heads, library, aim) {
        None => Ok(()),
        Some(place) => units.add(place),
    }
}

/// The files of a library: its own, and its parts in the order in which it first lists them. The error
/// is want of memory.
pub fn units_of(
    alloc: Global,
    heads: &[Head],
    library: usize,
    aims: &[Aim],
) -> Result<Units, AllocError>
    ensures { IfOk result (λ units. units ≡ units_of heads.now library aims.now) }
{
    let mut units = Units::of(alloc, library)?;
    for aim in aims {
        add_part(heads, library, aim, &mut units)?;
    }
    Ok(units)
}

/// Whether a directive lists the file at a place as a part.
fn lists_it(place: usize, aim: &Aim) -> bool
    ensures { result ≡ is_part_to place aim.now }
{
    if aim.kind != AimKind::Part {
        return false;
    }
    match aim.target {
        None => false,
        Some(target) => target == place,
    }
}

/// Whether one of the directives lists the file at a place as a part.
fn lists(place: usize, aims: &[Aim]) -> bool
    ensures { result ≡ lists place aims.now }
{
    aims.iter().any(|aim| lists_it(place, aim))
}

/// Whether the library at a place lists the file at another as a part.
fn listed_by(heads: &[Head], all: &[Aims], library: usize, place: usize) -> bool
    ensures { result ≡ listed_by heads.now all.now library place }
{
    if !is_library_at(heads, library) {
        return false;
    }
    match all.get(library) {
        None => false,
        Some(aims) => lists(place, aims.as_slice()),
    }
}

/// What the file at a place is among the libraries.
pub fn home_of(heads: &[Head], all: &[Aims], place: usize) -> Home
    ensures { result ≡ home_of heads.now all.now place }
{
    let head = head_at(heads, place);
    if head.is_library {
        return Home::Library;
    }
    match head.claim {
        None => Home::Homeless,
        Some(library) => {
            if listed_by(heads, all, library, place) {
                Home::PartOf { library }
            } else {
                Home::Homeless
            }
        }
    }
}
