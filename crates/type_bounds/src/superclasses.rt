//! The deepest superinterface that two classes have in common.

ghost use Rattle.std.specs.Prelude.{◌≡◌, ◌≤◌, ◌<◌, ◌↔◌, true, false, IfOk, IsTrue, MatchOption};
ghost use Rattle.dart_types.specs.Ty.{Ty, interface, types_of};
ghost use Rattle.dart_types.specs.Same.{same_class};
ghost use Rattle.dart_types.specs.Formed.{Forms};
ghost use Rattle.dart_types.specs.Marks.{takes_mark};
ghost use Rattle.dart_types.specs.Superinterfaces.{AreOrdered};
ghost use Rattle.dart_types.specs.Tables.{class_of};
ghost use Rattle.dart_types.specs.WellFormed.{HasArguments};
ghost use Rattle.type_bounds.specs.Above.{type_above, depth_in, AgreesWith, AreOf, IsIn, IsShared, IsUnder, HasNoneUnder, IsTopUnder, IsAloneIn, HasNoneAlone, IsDeepestIn};
ghost use Rattle.type_bounds.specs.Bounds.{UpperApart, AreApart};
ghost use Rattle.type_bounds.specs.PartsView.{IsPart, IsSomePart};

use crate::counts::Count;
use crate::parts::Part;
use dart_types::{
    Arguments, ClassId, DartType, Rows, Superinterface, TypeList, TypeRefusal, row_laws,
    superinterfaces_of_class,
};
use std::alloc::{AllocError, Global};

// What is above a class with arguments: its superinterfaces, over its parameters.
#[derive(Clone, Copy)]
struct Above<'a> {
    arguments: Arguments<'a>,
    superinterfaces: &'a [Superinterface],
}

// Two classes with arguments, whose superinterfaces are compared.
#[derive(Clone, Copy)]
struct Pair<'a> {
    rows: &'a Rows,
    left: Above<'a>,
    right: Above<'a>,
}

/// The upper bound of two classes with these arguments, of which neither is a subtype of the other.
#[inline(never)]
pub(crate) fn upper_of_classes(
    alloc: Global,
    rows: &Rows,
    class: ClassId,
    args: &TypeList,
    other: ClassId,
    others: &TypeList,
) -> Result<Part, AllocError>
    requires differ { same_class class other ≡ false }
    requires apart { AreApart rows.now.table (interface class (types_of args.now)) (interface other (types_of others.now)) }
    ensures { IfOk result (IsSomePart (UpperApart rows.now.table (interface class (types_of args.now)) (interface other (types_of others.now)))) }
{
    row_laws(rows);
    let left = match above_class(rows, class, args) {
        None => return Ok(Part::invalid()),
        Some(left) => left,
    };
    let right = match above_class(rows, other, others) {
        None => return Ok(Part::invalid()),
        Some(right) => right,
    };
    let pair = Pair { rows, left, right };
    match pair.deepest() {
        None => unreachable!(),
        Some(deepest) => part_of(deepest.with_arguments(alloc, &left.arguments)),
    }
}

// A class that was formed, unless it is too large.
fn part_of(formed: Result<DartType, TypeRefusal>) -> Result<Part, AllocError>
    ensures { IfOk result (λ part. (t : Ty) → Forms formed t → takes_mark t ≡ true → IsPart part t) }
{
    match formed {
        Ok(formed) => Ok(Part {
            count: Count::of(&formed),
            formed: Some(formed),
        }),
        Err(TypeRefusal::TooLarge { nodes }) => Ok(Part {
            count: Count {
                nodes,
                takes_mark: true,
            },
            formed: None,
        }),
        Err(TypeRefusal::Memory) => Err(AllocError),
    }
}

// What is above a class, which has a row with as many parameters as there are arguments.
fn above_class<'a>(rows: &'a Rows, class: ClassId, args: &'a TypeList) -> Option<Above<'a>>
    ensures { MatchOption result (HasArguments (class_of rows.now.table class) (types_of args.now) → ⊥) (AreOf rows.now.table class args.now) }
{
    let row = match rows.class(class) {
        None => return None,
        Some(row) => row,
    };
    let params = row.params.as_slice();
    if params.len() != args.as_slice().len() {
        return None;
    }
    Some(Above {
        arguments: Arguments { params, args },
        superinterfaces: rows.superinterfaces(class),
    })
}

impl<'a> Above<'a> {
    // Whether a superinterface of another class is one of this class too.
    fn has(&self, s: &Superinterface, of: &Above) -> bool
        requires { AreOrdered self.now.superinterfaces.now }
        ensures { IsTrue result ↔ IsIn self.now (type_above of.now s.now) }
    {
        for own in superinterfaces_of_class(self.superinterfaces, s.class) {
            if own.is_same_with(&self.arguments, s, &of.arguments) {
                return true;
            }
        }
        false
    }
}

impl<'a> Pair<'a> {
    // The superinterface of both that is farthest from Object among those that are alone so far from
    // it.
    fn deepest(&self) -> Option<&'a Superinterface>
        requires { AreOrdered self.now.right.superinterfaces.now }
        ensures { MatchOption result (HasNoneAlone self.now) (λ s. IsDeepestIn self.now s.now) }
    {
        let mut top = match self.top_under(None) {
            None => return None,
            Some(top) => top,
        };
        while !self.is_alone(top) {
            let limit = self.depth(top);
            top = match self.top_under(Some(limit)) {
                None => return None,
                Some(next) => next,
            };
        }
        Some(top)
    }

    // The superinterface of both that is farthest from Object among those that are less far than the
    // limit; the first one where several are.
    fn top_under(&self, limit: Option<u64>) -> Option<&'a Superinterface>
        requires { AreOrdered self.now.right.superinterfaces.now }
        ensures { MatchOption result (HasNoneUnder self.now limit) (λ s. IsTopUnder self.now limit s.now) }
    {
        let mut top = None;
        let mut floor: u128 = 0;
        for s in self.superinterfaces() {
            if self.is_between(s, floor, limit) {
                top = Some(s);
                floor = u128::from(self.depth(s)) + 1;
            }
        }
        top
    }

    // The superinterfaces of the left class.
    fn superinterfaces(&self) -> &'a [Superinterface]
        ensures { result.now ≡ self.now.left.superinterfaces.now }
    {
        self.left.superinterfaces
    }

    // Whether a superinterface of the left class is one of both that is at least so far from Object,
    // and less far than the limit.
    fn is_between(&self, s: &Superinterface, floor: u128, limit: Option<u64>) -> bool
        requires { AreOrdered self.now.right.superinterfaces.now }
        ensures { IsTrue result ↔ ((floor ≤ depth_in self.now s.now) × IsUnder limit (depth_in self.now s.now) × IsShared self.now s.now) }
    {
        let depth = self.depth(s);
        if u128::from(depth) < floor {
            return false;
        }
        if !is_under(depth, limit) {
            return false;
        }
        self.right.has(s, &self.left)
    }

    // Whether the superinterfaces of both that are as far from Object are the same type.
    fn is_alone(&self, top: &Superinterface) -> bool
        requires { AreOrdered self.now.right.superinterfaces.now }
        ensures { IsTrue result ↔ IsAloneIn self.now top.now }
    {
        for s in self.superinterfaces() {
            if !self.agrees(s, top) {
                return false;
            }
        }
        true
    }

    // Whether a superinterface of the left class is the same type as another, if it is one of both and
    // as far from Object.
    fn agrees(&self, s: &Superinterface, top: &Superinterface) -> bool
        requires { AreOrdered self.now.right.superinterfaces.now }
        ensures { IsTrue result ↔ AgreesWith self.now top.now s.now }
    {
        if self.depth(s) != self.depth(top) {
            return true;
        }
        let arguments = self.left.arguments;
        if s.is_same_with(&arguments, top, &arguments) {
            return true;
        }
        !self.right.has(s, &self.left)
    }

    // The longest way from a superinterface up to Object.
    fn depth(&self, s: &Superinterface) -> u64
        ensures { result ≡ depth_in self.now s.now }
    {
        match self.rows.class(s.class) {
            None => 0,
            Some(row) => row.depth,
        }
    }
}

// Whether the depth is less than the limit, if there is one.
fn is_under(depth: u64, limit: Option<u64>) -> bool
    ensures { IsTrue result ↔ IsUnder limit depth }
{
    match limit {
        None => true,
        Some(limit) => depth < limit,
    }
}
