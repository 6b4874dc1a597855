//! Members of classes and mixins.

use crate::expressions::{ArgumentList, Expr};
use crate::functions::{Body, Function, ParameterList, VariableList};
use crate::names::{Annotation, ConstructorName, Identifier};
use crate::operators::OperatorName;
use crate::places::Place;
use crate::types::WrittenType;
use std::marker::Model;

/// A member of a class or a mixin.
#[derive(Drop)]
pub struct Member {
    /// Its form, with its parts.
    pub node: MemberNode,
}

/// What is read where a member may stand: what derives nothing takes no box.
#[derive(Drop)]
pub enum MemberNode {
    /// A member.
    Read(Box<ReadMember>),
    /// What derives nothing.
    Error { at: Place },
}

/// The forms of a member.
#[derive(Drop)]
pub enum ReadMember {
    /// `C.n(a) : x = e, super(b) { .. }`.
    Constructor {
        at: Place,
        metadata: Vec<Annotation>,
        name: ConstructorName,
        parameters: ParameterList,
        initializers: Vec<Initializer>,
        body: Body,
    },
    /// `factory C.n(a) { .. }`.
    Factory {
        at: Place,
        metadata: Vec<Annotation>,
        name: ConstructorName,
        parameters: ParameterList,
        body: Body,
    },
    /// A function of a class, `static` or not.
    Method {
        at: Place,
        metadata: Vec<Annotation>,
        is_static: bool,
        function: Function,
    },
    /// `static final int x = e, y;`.
    Fields {
        at: Place,
        metadata: Vec<Annotation>,
        is_static: bool,
        variables: VariableList,
    },
    /// `T operator +(a)` and a body.
    Operator {
        at: Place,
        metadata: Vec<Annotation>,
        result: Option<WrittenType>,
        name: OperatorName,
        parameters: ParameterList,
        body: Body,
    },
}

/// An entry of a constructor's initializer list.
#[derive(Drop)]
pub struct Initializer {
    /// Its form, with its parts.
    pub node: InitializerNode,
}

/// The forms of an initializer.
#[derive(Drop)]
pub enum InitializerNode {
    /// `x = e`, `this.x = e`.
    Field {
        at: Place,
        name: Identifier,
        value: Expr,
    },
    /// `super(a)`, `super.n(a)`.
    Super {
        at: Place,
        name: Option<Identifier>,
        arguments: ArgumentList,
    },
    /// `this(a)`, `this.n(a)`.
    Redirection {
        at: Place,
        name: Option<Identifier>,
        arguments: ArgumentList,
    },
}

impl Model for Member {
    ghost use Rattle.dart_tree.specs.Tree.{Tree};
    ghost use Rattle.dart_tree.specs.TreeCode.{tree_code};

    ghost Value = { Tree };

    ghost coded = { tree_code };

    ghost use Rattle.dart_tree.specs.View.{member_of};

    ghost view = { λ a. member_of a.node };
}

impl Model for Initializer {
    ghost use Rattle.dart_tree.specs.Tree.{Tree};
    ghost use Rattle.dart_tree.specs.TreeCode.{tree_code};

    ghost Value = { Tree };

    ghost coded = { tree_code };

    ghost use Rattle.dart_tree.specs.View.{initializer_of};

    ghost view = { λ a. initializer_of a.node };
}
