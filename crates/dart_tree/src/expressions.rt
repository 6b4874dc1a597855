//! Expressions and their parts.

use crate::functions::{Body, ParameterList};
use crate::names::Identifier;
use crate::operators::{AssignmentOperator, BinaryOperator, PostfixOperator, UnaryOperator};
use crate::places::{Place, Span};
use crate::types::{TypeArguments, WrittenType};
use dart_tokens::Kind;
use std::marker::Model;

/// An expression.
#[cycle(tree)]
pub struct Expr {
    /// Its form, with its parts.
    pub node: Box<ExprNode>,
}

impl Drop for Expr {
    #[cycle(release)]
    fn drop(self) {
        let Expr { node } = self;
        drop(node);
    }
}

/// The forms of an expression.
#[cycle(tree)]
#[derive(Drop)]
pub enum ExprNode {
    /// `12`, `0x1F`.
    Integer {
        at: Place,
        word: u32,
    },
    /// `'a' "b"`: one string or more, side by side.
    Text {
        at: Place,
        strings: Vec<StringLiteral>,
    },
    /// `true`, `false`.
    Boolean {
        at: Place,
        value: bool,
    },
    /// `null`.
    Null {
        at: Place,
    },
    /// `this`.
    This {
        at: Place,
    },
    /// `super`.
    Super {
        at: Place,
    },
    /// `x`.
    Identifier {
        at: Place,
        word: u32,
    },
    /// `(e)`.
    Parenthesis {
        at: Place,
        inner: Expr,
    },
    /// `new T(a)`, `new T.n(a)`.
    New {
        at: Place,
        written: WrittenType,
        name: Option<Identifier>,
        arguments: ArgumentList,
    },
    /// `[a, b]`, `<T>[a, b]`.
    List {
        at: Place,
        type_arguments: Option<TypeArguments>,
        elements: Vec<Expr>,
    },
    /// `{k: v}`, `<K, V>{k: v}`.
    SetOrMap {
        at: Place,
        type_arguments: Option<TypeArguments>,
        entries: Vec<MapEntry>,
    },
    /// `(x) => e`, `(x) { .. }`.
    Function {
        at: Place,
        parameters: Box<ParameterList>,
        body: Box<Body>,
    },
    /// `f<T>` before `(` or `.`.
    GenericIdentifier {
        at: Place,
        name: Identifier,
        type_arguments: TypeArguments,
    },
    /// `r.m`, `r?.m`.
    Property {
        at: Place,
        receiver: Expr,
        null_aware: bool,
        name: Identifier,
    },
    /// `r[i]`, `r?[i]`; the range is that of the opening bracket.
    Index {
        at: Place,
        receiver: Expr,
        null_aware: bool,
        bracket: Span,
        index: Expr,
    },
    /// `e!`.
    NullCheck {
        at: Place,
        operand: Expr,
    },
    /// `f(a)`, `f<T>(a)`.
    Call {
        at: Place,
        callee: Expr,
        type_arguments: Option<TypeArguments>,
        arguments: ArgumentList,
    },
    /// `-e`, `++e`.
    Unary {
        at: Place,
        operator: UnaryOperator,
        operand: Expr,
    },
    /// `e++`.
    Postfix {
        at: Place,
        operator: PostfixOperator,
        operand: Expr,
    },
    /// `a + b`, `a && b`.
    Binary {
        at: Place,
        operator: BinaryOperator,
        left: Expr,
        right: Expr,
    },
    /// `e is T`, `e is! T`.
    TypeTest {
        at: Place,
        operand: Expr,
        negated: bool,
        written: WrittenType,
    },
    /// `e as T`.
    TypeCast {
        at: Place,
        operand: Expr,
        written: WrittenType,
    },
    /// `c ? a : b`.
    Conditional {
        at: Place,
        condition: Expr,
        then_value: Expr,
        else_value: Expr,
    },
    /// `t = e`, `t += e`.
    Assignment {
        at: Place,
        operator: AssignmentOperator,
        target: Expr,
        value: Expr,
    },
    /// `throw e`.
    Throw {
        at: Place,
        value: Expr,
    },
    /// `r..s`, `r?..s`: one section over what stands before it.
    Cascade {
        at: Place,
        receiver: Expr,
        null_aware: bool,
        section: Expr,
    },
    /// The `m` of `r..m`, with which a section begins: no node of its own depth.
    CascadedName {
        at: Place,
        name: Identifier,
    },
    /// The `[i]` of `r..[i]`, with which a section begins.
    CascadedIndex {
        at: Place,
        bracket: Span,
        index: Expr,
    },
}

/// One string of a string literal.
#[cycle(tree)]
pub struct StringLiteral {
    /// Its form, with its parts.
    pub node: StringLiteralNode,
}

impl Drop for StringLiteral {
    #[cycle(release)]
    fn drop(self) {
        let StringLiteral { node } = self;
        drop(node);
    }
}

/// The forms of a string.
#[cycle(tree)]
#[derive(Drop)]
pub enum StringLiteralNode {
    /// `'a'`: a string without interpolations, or one that never ends.
    Simple {
        at: Place,
        kind: Kind,
        word: u32,
    },
    /// `'a$b${c}d'`: texts, and the interpolations between them.
    Interpolated {
        at: Place,
        elements: Vec<StringElement>,
    },
}

/// A part of a string with interpolations.
#[cycle(tree)]
pub struct StringElement {
    /// Its form, with its parts.
    pub node: StringElementNode,
}

impl Drop for StringElement {
    #[cycle(release)]
    fn drop(self) {
        let StringElement { node } = self;
        drop(node);
    }
}

/// The forms of a part of a string.
#[cycle(tree)]
#[derive(Drop)]
pub enum StringElementNode {
    /// `'a`, or what else of a string stands before, between or behind its interpolations.
    Text { at: Place, kind: Kind, word: u32 },
    /// `$b`, `${c}`.
    Interpolation { at: Place, value: Expr },
}

/// An entry of a map or set literal.
#[cycle(tree)]
pub struct MapEntry {
    /// Its number and its range of text.
    pub at: Place,
    /// The key, or the element of a set.
    pub key: Expr,
    /// The value; None for the element of a set.
    pub value: Option<Expr>,
}

impl Drop for MapEntry {
    #[cycle(release)]
    fn drop(self) {
        let MapEntry {
            at: _,
            key: _,
            value: _,
        } = self;
    }
}

/// Arguments with their parentheses.
#[cycle(tree)]
pub struct ArgumentList {
    /// Its parts.
    pub node: Box<ArgumentListNode>,
}

impl Drop for ArgumentList {
    #[cycle(release)]
    fn drop(self) {
        let ArgumentList { node } = self;
        drop(node);
    }
}

/// The parts of arguments with their parentheses.
#[cycle(tree)]
#[derive(Drop)]
pub struct ArgumentListNode {
    /// Its number and its range of text.
    pub at: Place,
    /// The arguments, in their order.
    pub arguments: Vec<Argument>,
}

/// An argument.
#[cycle(tree)]
pub struct Argument {
    /// Its number and its range of text.
    pub at: Place,
    /// The name of the parameter that it is for; None where it is for the next one.
    pub name: Option<Identifier>,
    /// What is handed over.
    pub value: Expr,
}

impl Drop for Argument {
    #[cycle(release)]
    fn drop(self) {
        let Argument {
            at: _,
            name: _,
            value: _,
        } = self;
    }
}

impl Model for Expr {
    ghost use Rattle.dart_tree.specs.Tree.{Tree};
    ghost use Rattle.dart_tree.specs.TreeCode.{tree_code};
    ghost use Rattle.dart_tree.specs.Numbers.{nodes_in};

    ghost Value = { Tree };

    ghost coded = { tree_code };

    ghost use Rattle.dart_tree.specs.View.{expr_of};

    ghost view = { λ a. expr_of a.node.value };

    ghost size = { nodes_in };

    ghost use Rattle.dart_tree.specs.Falls.{expr_falls};

    ghost size_decreases = { λ a h. expr_falls a.node.value };
}

impl Model for StringLiteral {
    ghost use Rattle.dart_tree.specs.Tree.{Tree};
    ghost use Rattle.dart_tree.specs.TreeCode.{tree_code};
    ghost use Rattle.dart_tree.specs.Numbers.{nodes_in};

    ghost Value = { Tree };

    ghost coded = { tree_code };

    ghost use Rattle.dart_tree.specs.View.{string_literal_of};

    ghost view = { λ a. string_literal_of a.node };

    ghost size = { nodes_in };

    ghost use Rattle.dart_tree.specs.Falls.{string_literal_falls};

    ghost size_decreases = { λ a h. string_literal_falls a.node };
}

impl Model for StringElement {
    ghost use Rattle.dart_tree.specs.Tree.{Tree};
    ghost use Rattle.dart_tree.specs.TreeCode.{tree_code};
    ghost use Rattle.dart_tree.specs.Numbers.{nodes_in};

    ghost Value = { Tree };

    ghost coded = { tree_code };

    ghost use Rattle.dart_tree.specs.View.{string_element_of};

    ghost view = { λ a. string_element_of a.node };

    ghost size = { nodes_in };

    ghost use Rattle.dart_tree.specs.Falls.{string_element_falls};

    ghost size_decreases = { λ a h. string_element_falls a.node };
}

impl Model for MapEntry {
    ghost use Rattle.dart_tree.specs.Tree.{Tree};
    ghost use Rattle.dart_tree.specs.TreeCode.{tree_code};
    ghost use Rattle.dart_tree.specs.Numbers.{nodes_in};

    ghost Value = { Tree };

    ghost coded = { tree_code };

    ghost use Rattle.dart_tree.specs.Parts.{map_entry_of};

    ghost view = { λ a. map_entry_of a };

    ghost size = { nodes_in };

    ghost use Rattle.dart_tree.specs.Falls.{map_entry_falls};

    ghost size_decreases = { λ a h. map_entry_falls a };
}

impl Model for ArgumentList {
    ghost use Rattle.dart_tree.specs.Tree.{Tree};
    ghost use Rattle.dart_tree.specs.TreeCode.{tree_code};
    ghost use Rattle.dart_tree.specs.Numbers.{nodes_in};

    ghost Value = { Tree };

    ghost coded = { tree_code };

    ghost use Rattle.dart_tree.specs.Parts.{argument_list_of};

    ghost view = { λ a. argument_list_of a.node.value };

    ghost size = { nodes_in };

    ghost use Rattle.dart_tree.specs.Falls.{argument_list_falls};

    ghost size_decreases = { λ a h. argument_list_falls a.node.value };
}

impl Model for Argument {
    ghost use Rattle.dart_tree.specs.Tree.{Tree};
    ghost use Rattle.dart_tree.specs.TreeCode.{tree_code};
    ghost use Rattle.dart_tree.specs.Numbers.{nodes_in};

    ghost Value = { Tree };

    ghost coded = { tree_code };

    ghost use Rattle.dart_tree.specs.Parts.{argument_of};

    ghost view = { λ a. argument_of a };

    ghost size = { nodes_in };

    ghost use Rattle.dart_tree.specs.Falls.{argument_falls};

    ghost size_decreases = { λ a h. argument_falls a };
}
