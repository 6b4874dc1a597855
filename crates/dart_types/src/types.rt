//! Types as values: a type, a function type, and lists of them. A type shares its parts with its
//! copies.

ghost use Rattle.std.specs.Prelude.{◌≡◌, ◌++◌, ◌∷◌, [], OnOk, OnErr, All, IsTrue, ◌↔◌};
ghost use Rattle.dart_types.specs.Named.{IsNameBefore, AreInOrder, names_of};

use crate::ids::{ClassId, VarId};
use plain_text::PlainText;
use std::alloc::{AllocError, Global};
use std::cmp::Ordering;
use std::marker::Model;
use std::rc::Rc;

/// The form of a type.
#[cycle(dart_type)]
#[derive(Drop)]
pub enum TypeNode {
    /// The type of an expression that a diagnostic leaves open.
    Invalid,
    /// `Never`, which has no value.
    Never,
    /// `void`
    Void,
    /// `Null`, which has the value null alone.
    Null,
    /// A class with its type arguments, as `Map<int, String>`.
    Interface { class: ClassId, args: Rc<TypeList> },
    /// A function type, as `int Function(String, {bool b})`.
    Function(Rc<FunctionType>),
    /// A type variable.
    Var(VarId),
    /// `X & U`, of the values of the type variable X that have the type U too.
    Promoted { var: VarId, to: Rc<DartType> },
    /// `U?`, of the values of U and null.
    Nullable(Rc<DartType>),
}

/// A type. Contracts see it as its value `Ty`, so that types with equal parts are equal.
#[cycle(dart_type)]
#[derive(Drop)]
pub struct DartType {
    /// The form of the type, with its parts.
    pub node: TypeNode,
}

impl Model for DartType {
    ghost use Rattle.dart_types.specs.Ty.{Ty, height_of};
    ghost use Rattle.dart_types.specs.TyCode.{type_code};

    ghost Value = { Ty };

    ghost coded = { type_code };

    ghost use Rattle.dart_types.specs.Node.{type_of};

    ghost view = { λ a. type_of a.node };

    ghost size = { height_of };

    ghost use Rattle.dart_types.specs.NodeFalls.{node_falls};

    ghost size_decreases = { λ a h. node_falls a.node };
}

/// The parameters and the result of a function type.
#[cycle(dart_type)]
#[derive(Drop)]
pub struct FunctionType {
    /// The types of the positional parameters that a call has to give.
    pub required: TypeList,
    /// The types of the positional parameters after these, which a call may leave out.
    pub optional: TypeList,
    /// The named parameters.
    pub named: NamedTypes,
    /// The type of the result.
    pub result: DartType,
}

/// A named parameter of a function type.
#[cycle(dart_type)]
#[derive(Drop)]
pub struct NamedType {
    /// Its name.
    pub name: PlainText,
    /// Whether a call has to give it.
    pub required: bool,
    /// Its type.
    pub ty: DartType,
}

/// A list of types. A type holds it shared. Contracts see it as the list of their values.
#[cycle(dart_type)]
#[derive(Drop)]
pub struct TypeList {
    pub(crate) items: Vec<DartType>,
}

impl Model for TypeList {
    ghost use Rattle.std.specs.Prelude.{List};
    ghost use Rattle.std.specs.Coded.{coded_list};
    ghost use Rattle.dart_types.specs.Ty.{Ty, types_of, heights_of};
    ghost use Rattle.dart_types.specs.TyCode.{type_code};

    ghost Value = { List Ty };

    ghost coded = { coded_list type_code };

    ghost view = { λ a. a.items.items };

    ghost size = { λ types. heights_of (types_of types) };

    ghost use Rattle.std.proofs.Common.{arith};
    ghost use Rattle.dart_types.specs.ListFalls.{list_falls};

    ghost size_decreases = { λ a h. omega (arith, list_falls a.items.items) };
}

/// The named parameters of a function type, in the order of the bytes of their names in UTF-8; no
/// two have one name. Contracts see it as the list of them.
#[cycle(dart_type)]
#[derive(Drop)]
pub struct NamedTypes {
    pub(crate) items: Vec<NamedType>,
}

impl Model for NamedTypes {
    ghost use Rattle.std.specs.Prelude.{List};
    ghost use Rattle.std.specs.Coded.{coded_list};
    ghost use Rattle.dart_types.specs.Ty.{heights_of_named};
    ghost use Rattle.dart_types.specs.declared.types.NamedType.{NamedType};
    ghost use Rattle.dart_types.specs.Named.{named_code, named_of, names_of, AreInOrder};

    ghost Value = { List NamedType };

    ghost coded = { coded_list named_code };

    ghost view = { λ a. a.items.items };

    ghost invariant = { λ a. AreInOrder (names_of a.items.items) };

    ghost size = { λ named. heights_of_named (named_of named) };

    ghost use Rattle.std.proofs.Common.{arith};
    ghost use Rattle.dart_types.specs.NamedFalls.{named_falls};

    ghost size_decreases = { λ a h. omega (arith, named_falls a.items.items) };
}

impl TypeList {
    /// The list of no types. It takes no memory.
    pub fn new(alloc: Global) -> TypeList
        ensures { result ≡ [] }
    {
        TypeList {
            items: Vec::new(alloc),
        }
    }

    /// The types in their order.
    pub fn as_slice(&self) -> &[DartType]
        ensures { result.now ≡ self.now }
    {
        &self.items
    }

    /// Puts a type at the end. After an `Err` the list is as before.
    pub fn push(&mut self, t: DartType) -> Result<(), AllocError>
        ensures ok { OnOk result (self.new ≡ self.old ++ t ∷ []) }
        ensures err { OnErr result (self.new ≡ self.old) }
    {
        self.items.push(t)?;
        Ok(())
    }
}

impl NamedTypes {
    /// No named parameters. It takes no memory.
    pub fn new(alloc: Global) -> NamedTypes
        ensures { result ≡ [] }
    {
        NamedTypes {
            items: Vec::new(alloc),
        }
    }

    /// The named parameters in the order of their names.
    pub fn as_slice(&self) -> &[NamedType]
        ensures same { result.now ≡ self.now }
        ensures in_order { AreInOrder (names_of result.now) }
    {
        &self.items
    }

    /// Whether a parameter of this name may be put at the end: its name comes behind those that are
    /// there. It takes no memory.
    pub fn takes(&self, name: &PlainText) -> bool
        ensures { IsTrue result ↔ All (λ before. IsNameBefore before name.now) (names_of self.now) }
    {
        for item in &self.items {
            if !is_name_before(item.name.as_str(), name.as_str()) {
                return false;
            }
        }
        true
    }

    /// Puts a named parameter at the end. After an `Err` the list is as before.
    pub fn push(&mut self, named: NamedType) -> Result<(), AllocError>
        requires { All (λ before. IsNameBefore before named.name) (names_of self.old) }
        ensures ok { OnOk result (self.new ≡ self.old ++ named ∷ []) }
        ensures err { OnErr result (self.new ≡ self.old) }
    {
        self.items.push(named)?;
        Ok(())
    }
}

// Whether a name comes before another.
fn is_name_before(name: &str, other: &str) -> bool
    ensures { IsTrue result ↔ IsNameBefore name.now other.now }
{
    match name.cmp(other) {
        Ordering::Less => true,
        Ordering::Equal => false,
        Ordering::Greater => false,
    }
}
