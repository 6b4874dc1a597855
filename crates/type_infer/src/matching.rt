//! What types set on the type parameters in formals.

ghost use Rattle.std.specs.Prelude.{◌≡◌, true, [], ◌∷◌, ◌++◌, OnOk};
ghost use Rattle.dart_types.specs.Ty.{types_of, variable, nullable, interface};
ghost use Rattle.dart_types.specs.Named.{named_of};
ghost use Rattle.dart_types.specs.Node.{function_type};
ghost use Rattle.dart_types.specs.Forms.{params_of};
ghost use Rattle.dart_types.specs.Heads.{is_plain};
ghost use Rattle.type_infer.specs.Pairs.{pair, paired, paired_by_name};
ghost use Rattle.type_infer.specs.Holding.{holds_param};
ghost use Rattle.type_infer.specs.Matching.{is_on_side, is_as_it_stands, Match, Face};
ghost use Rattle.type_infer.specs.Finds.{Finds, FindsAll};

use crate::climbs::{arguments_of, form_above};
use crate::constraints::{Constraint, Side};
use crate::holding::holds_param;
use crate::openness::is_open;
use crate::signatures::{count_params, param_at, signatures_fit};
use crate::ways::{standing, standing_at_mark};
use dart_types::{
    ClassId, DartType, FunctionType, NamedType, NamedTypes, Rows, TypeList, TypeNode, TypeRefusal,
    VarId, is_subtype, row_laws,
};
use std::alloc::{AllocError, Global};

/// Matches a formal, in which these type parameters stand, with another type, of which it is to be a
/// supertype or a subtype, and puts the constraints that this sets on them at the end of the list.
/// Whether the types fit. `TooLarge` comes where a superinterface on the way has too many nodes.
pub(crate) fn match_types(
    alloc: Global,
    rows: &Rows,
    params: &[VarId],
    side: Side,
    formal: &DartType,
    other: &DartType,
    found: &mut Vec<Constraint>,
) -> Result<bool, TypeRefusal>
    ensures { Finds (Match rows.now.table params.now side formal.now other.now) found.old.items found.new.items result }
{
    let matcher = Matcher {
        alloc,
        rows,
        params,
    };
    matcher.match_types(side, formal, other, found)
}

// What a formal is matched by.
#[derive(Clone, Copy)]
struct Matcher<'a> {
    alloc: Global,
    rows: &'a Rows,
    params: &'a [VarId],
}

impl<'a> Matcher<'a> {
    // Matches a formal with another type: one in which no parameter stands fits as it stands.
    #[cycle(matching)]
    fn match_types(
        &self,
        side: Side,
        formal: &DartType,
        other: &DartType,
        found: &mut Vec<Constraint>,
    ) -> Result<bool, TypeRefusal>
        ensures { Finds (Match self.now.rows.now.table self.now.params.now side formal.now other.now) found.old.items found.new.items result }
    {
        if !holds_param(self.params, formal) {
            return Ok(fits(self.rows, side, formal, other));
        }
        self.face(side, formal, other, found)
    }

    // Matches a formal in which a parameter stands by what it faces.
    #[cycle(matching)]
    fn face(
        &self,
        side: Side,
        formal: &DartType,
        other: &DartType,
        found: &mut Vec<Constraint>,
    ) -> Result<bool, TypeRefusal>
        requires { holds_param self.now.params.now formal.now ≡ true }
        ensures { Finds (Face self.now.rows.now.table self.now.params.now side formal.now other.now) found.old.items found.new.items result }
    {
        match &formal.node {
            TypeNode::Var(var) => self.constrain(side, *var, other, found),
            TypeNode::Nullable(bare) => self.face_marked(side, bare, other, found),
            TypeNode::Interface { .. } => self.face_built(side, formal, other, found),
            TypeNode::Function(_) => self.face_built(side, formal, other, found),
            TypeNode::Promoted { .. } => Ok(fits(self.rows, side, formal, other)),
            TypeNode::Invalid => unreachable!(),
            TypeNode::Never => unreachable!(),
            TypeNode::Void => unreachable!(),
            TypeNode::Null => unreachable!(),
        }
    }

    // Constrains a parameter by the other type, unless that is open.
    fn constrain(
        &self,
        side: Side,
        param: VarId,
        other: &DartType,
        found: &mut Vec<Constraint>,
    ) -> Result<bool, TypeRefusal>
        ensures { Finds (Face self.now.rows.now.table self.now.params.now side (variable param) other.now) found.old.items found.new.items result }
    {
        if is_open(other) {
            return Ok(true);
        }
        let ty = other.copy(self.alloc)?;
        let constraint = Constraint { param, side, ty };
        add(found, constraint)?;
        Ok(true)
    }

    // Matches a formal that is this type with `?`: the other type may give way first; then `Null`
    // gives nothing, and a `?` on the other side goes with that of the formal.
    #[cycle(matching)]
    fn face_marked(
        &self,
        side: Side,
        bare: &DartType,
        other: &DartType,
        found: &mut Vec<Constraint>,
    ) -> Result<bool, TypeRefusal>
        requires { holds_param self.now.params.now bare.now ≡ true }
        ensures { Finds (Face self.now.rows.now.table self.now.params.now side (nullable bare.now) other.now) found.old.items found.new.items result }
    {
        row_laws(self.rows);
        let last = match standing_at_mark(self.rows, side, bare, other) {
            None => return Ok(false),
            Some(last) => last,
        };
        match &last.node {
            TypeNode::Null => Ok(true),
            TypeNode::Nullable(other_bare) => self.face(side, bare, other_bare, found),
            _ => self.face(side, bare, last, found),
        }
    }

    // Matches a formal that is a class or a function type: the other type may give way to a further
    // one.
    #[cycle(matching)]
    fn face_built(
        &self,
        side: Side,
        formal: &DartType,
        other: &DartType,
        found: &mut Vec<Constraint>,
    ) -> Result<bool, TypeRefusal>
        requires { is_plain formal.now ≡ true }
        ensures { Finds (Face self.now.rows.now.table self.now.params.now side formal.now other.now) found.old.items found.new.items result }
    {
        row_laws(self.rows);
        match standing(self.rows, side, other) {
            None => Ok(false),
            Some(last) => self.face_standing(side, formal, last, found),
        }
    }

    // Matches it with a type that stands: a class with a class, and a function type with a function
    // type.
    #[cycle(matching)]
    fn face_standing(
        &self,
        side: Side,
        formal: &DartType,
        other: &DartType,
        found: &mut Vec<Constraint>,
    ) -> Result<bool, TypeRefusal>
        requires built { is_plain formal.now ≡ true }
        requires stands { is_as_it_stands side other.now ≡ true }
        ensures { Finds (Face self.now.rows.now.table self.now.params.now side formal.now other.now) found.old.items found.new.items result }
    {
        match &formal.node {
            TypeNode::Interface { class, args } => {
                self.face_classes(side, formal, *class, args, other, found)
            }
            TypeNode::Function(function) => match &other.node {
                TypeNode::Function(other_function) => {
                    self.face_functions(side, function, other_function, found)
                }
                _ => Ok(fits(self.rows, side, formal, other)),
            },
            _ => unreachable!(),
        }
    }

    // Matches a formal that is this class with these arguments with a class, argument by argument:
    // those of two classes by the superinterface of the subtype that is of the class of the supertype.
    #[cycle(matching)]
    fn face_classes(
        &self,
        side: Side,
        formal: &DartType,
        class: ClassId,
        args: &TypeList,
        other: &DartType,
        found: &mut Vec<Constraint>,
    ) -> Result<bool, TypeRefusal>
        requires class { formal.now ≡ interface class (types_of args.now) }
        requires stands { is_as_it_stands side other.now ≡ true }
        ensures { Finds (Face self.now.rows.now.table self.now.params.now side formal.now other.now) found.old.items found.new.items result }
    {
        row_laws(self.rows);
        let TypeNode::Interface {
            class: other_class,
            args: other_args,
        } = &other.node
        else {
            return Ok(fits(self.rows, side, formal, other));
        };
        let others: &TypeList = other_args;
        if class == *other_class {
            return self.match_lists(side, args.as_slice(), others.as_slice(), found);
        }
        match side {
            Side::AtLeast => {
                match form_above(self.alloc, self.rows, *other_class, others, class)? {
                    None => Ok(fits(self.rows, side, formal, other)),
                    Some(above) => {
                        self.match_lists(side, args.as_slice(), arguments_of(&above), found)
                    }
                }
            }
            Side::AtMost => match form_above(self.alloc, self.rows, class, args, *other_class)? {
                None => Ok(fits(self.rows, side, formal, other)),
                Some(above) => {
                    self.match_lists(side, arguments_of(&above), others.as_slice(), found)
                }
            },
        }
    }

    // Matches a function type with a function type, part by part, if their signatures fit.
    #[cycle(matching)]
    fn face_functions(
        &self,
        side: Side,
        formal: &FunctionType,
        other: &FunctionType,
        found: &mut Vec<Constraint>,
    ) -> Result<bool, TypeRefusal>
        ensures { let faced = Face self.now.rows.now.table self.now.params.now side (function_type formal.now) (function_type other.now) in
            Finds faced found.old.items found.new.items result }
    {
        row_laws(self.rows);
        if !signatures_fit(side, formal, other) {
            return Ok(false);
        }
        let inner = side.opposite();
        if !self.match_params(inner, formal, other, found)? {
            return Ok(false);
        }
        let named = formal.named.as_slice();
        if !self.match_named(inner, named, &other.named, found)? {
            return Ok(false);
        }
        self.match_part(side, &formal.result, &other.result, found)
    }

    // Matches the types at the same places of two lists, as far as both go.
    #[cycle(matching)]
    fn match_lists(
        &self,
        side: Side,
        formals: &[DartType],
        others: &[DartType],
        found: &mut Vec<Constraint>,
    ) -> Result<bool, TypeRefusal>
        ensures { let pairs = paired side (types_of formals.now) (types_of others.now) in
            FindsAll self.now.rows.now.table self.now.params.now pairs found.old.items found.new.items result }
    {
        let count = formals.len().min(others.len());
        for i in 0..count {
            if !self.match_part(side, &formals[i], &others[i], found)? {
                return Ok(false);
            }
        }
        Ok(true)
    }

    // Likewise the positional parameters of two function types.
    #[cycle(matching)]
    fn match_params(
        &self,
        side: Side,
        formal: &FunctionType,
        other: &FunctionType,
        found: &mut Vec<Constraint>,
    ) -> Result<bool, TypeRefusal>
        ensures { let pairs = paired side (types_of (params_of formal.now)) (types_of (params_of other.now)) in
            FindsAll self.now.rows.now.table self.now.params.now pairs found.old.items found.new.items result }
    {
        let count = count_params(formal).min(count_params(other));
        for i in 0..count {
            let param = param_at(formal, i);
            let other_param = param_at(other, i);
            if !self.match_part(side, param, other_param, found)? {
                return Ok(false);
            }
        }
        Ok(true)
    }

    // Matches the named parameters of the first list with those of their names in the second.
    #[cycle(matching)]
    fn match_named(
        &self,
        side: Side,
        formals: &[NamedType],
        others: &NamedTypes,
        found: &mut Vec<Constraint>,
    ) -> Result<bool, TypeRefusal>
        ensures { let pairs = paired_by_name side (named_of formals.now) (named_of others.now) in
            FindsAll self.now.rows.now.table self.now.params.now pairs found.old.items found.new.items result }
    {
        for formal in formals {
            let other = match others.get(&formal.name) {
                None => continue,
                Some(other) => other,
            };
            if !self.match_part(side, &formal.ty, &other.ty, found)? {
                return Ok(false);
            }
        }
        Ok(true)
    }

    // Matches two parts, unless that of the other type is open.
    #[cycle(matching)]
    fn match_part(
        &self,
        side: Side,
        formal: &DartType,
        other: &DartType,
        found: &mut Vec<Constraint>,
    ) -> Result<bool, TypeRefusal>
        ensures { FindsAll self.now.rows.now.table self.now.params.now (pair side formal.now other.now ∷ []) found.old.items found.new.items result }
    {
        if is_open(other) {
            return Ok(true);
        }
        self.match_types(side, formal, other, found)
    }
}

// Puts a constraint at the end of the list.
fn add(found: &mut Vec<Constraint>, constraint: Constraint) -> Result<(), AllocError>
    ensures { OnOk result (found.new.items ≡ found.old.items ++ constraint ∷ []) }
{
    found.push(constraint)?;
    Ok(())
}

// Whether a formal, as it stands, is a supertype, or a subtype, of another type.
fn fits(rows: &Rows, side: Side, formal: &DartType, other: &DartType) -> bool
    ensures { result ≡ is_on_side rows.now.table side formal.now other.now }
{
    match side {
        Side::AtLeast => is_subtype(rows, other, formal),
        Side::AtMost => is_subtype(rows, formal, other),
    }
}
