//! Types as they are written.

use crate::functions::Parameter;
use crate::names::{Identifier, Name};
use crate::places::Place;
use std::marker::Model;

/// A type as it is written.
#[cycle(tree)]
pub struct WrittenType {
    /// Its form, with its parts.
    pub node: Box<WrittenTypeNode>,
}

impl Drop for WrittenType {
    #[cycle(release)]
    fn drop(self) {
        let WrittenType { node } = self;
        drop(node);
    }
}

/// The forms of a written type.
#[cycle(tree)]
#[derive(Drop)]
pub enum WrittenTypeNode {
    /// `void`.
    Void {
        at: Place,
    },
    /// `T`, `p.T`, `T<A>`, `T?`: behind an import prefix or not, with type arguments or not.
    Named {
        at: Place,
        prefix: Option<Identifier>,
        name: Identifier,
        arguments: Option<TypeArguments>,
        nullable: bool,
    },
    /// `R Function<X>(A a, [B b])`, `?` behind it or not: the required parameters, and then those between brackets or braces.
    Function {
        at: Place,
        result: Option<WrittenType>,
        parts: Box<FunctionTypeParts>,
        nullable: bool,
    },
}

/// The parameters of a function type.
#[cycle(tree)]
#[derive(Drop)]
pub struct FunctionTypeParts {
    /// Its type parameters.
    pub type_parameters: Vec<TypeParameter>,
    /// The required parameters.
    pub parameters: Vec<ParameterType>,
    /// Those between brackets or braces.
    pub optional: Vec<Parameter>,
}

/// Type arguments with their brackets.
#[cycle(tree)]
pub struct TypeArguments {
    /// Its parts.
    pub node: Box<TypeArgumentsNode>,
}

impl Drop for TypeArguments {
    #[cycle(release)]
    fn drop(self) {
        let TypeArguments { node } = self;
        drop(node);
    }
}

/// The parts of type arguments.
#[cycle(tree)]
#[derive(Drop)]
pub struct TypeArgumentsNode {
    /// Its number and its range of text.
    pub at: Place,
    /// The types, at least one.
    pub types: Vec<WrittenType>,
}

/// A type parameter.
#[cycle(tree)]
pub struct TypeParameter {
    /// Its number and its range of text.
    pub at: Place,
    /// Its name.
    pub name: Name,
    /// What it extends, where that is written.
    pub bound: Option<WrittenType>,
}

impl Drop for TypeParameter {
    #[cycle(release)]
    fn drop(self) {
        let TypeParameter {
            at: _,
            name: _,
            bound: _,
        } = self;
    }
}

/// A required parameter of a function type. Its name declares nothing.
#[cycle(tree)]
pub struct ParameterType {
    /// Its number and its range of text.
    pub at: Place,
    /// Its type.
    pub written: WrittenType,
    /// Its name, where one is written.
    pub name: Option<Identifier>,
}

impl Drop for ParameterType {
    #[cycle(release)]
    fn drop(self) {
        let ParameterType {
            at: _,
            written: _,
            name: _,
        } = self;
    }
}

impl Model for WrittenType {
    ghost use Rattle.dart_tree.specs.Tree.{Tree};
    ghost use Rattle.dart_tree.specs.TreeCode.{tree_code};
    ghost use Rattle.dart_tree.specs.Numbers.{nodes_in};

    ghost Value = { Tree };

    ghost coded = { tree_code };

    ghost use Rattle.dart_tree.specs.View.{written_type_of};

    ghost view = { λ a. written_type_of a.node.value };

    ghost size = { nodes_in };

    ghost use Rattle.dart_tree.specs.Falls.{written_type_falls};

    ghost size_decreases = { λ a h. written_type_falls a.node.value };
}

impl Model for TypeArguments {
    ghost use Rattle.dart_tree.specs.Tree.{Tree};
    ghost use Rattle.dart_tree.specs.TreeCode.{tree_code};
    ghost use Rattle.dart_tree.specs.Numbers.{nodes_in};

    ghost Value = { Tree };

    ghost coded = { tree_code };

    ghost use Rattle.dart_tree.specs.Parts.{type_arguments_of};

    ghost view = { λ a. type_arguments_of a.node.value };

    ghost size = { nodes_in };

    ghost use Rattle.dart_tree.specs.Falls.{type_arguments_falls};

    ghost size_decreases = { λ a h. type_arguments_falls a.node.value };
}

impl Model for TypeParameter {
    ghost use Rattle.dart_tree.specs.Tree.{Tree};
    ghost use Rattle.dart_tree.specs.TreeCode.{tree_code};
    ghost use Rattle.dart_tree.specs.Numbers.{nodes_in};

    ghost Value = { Tree };

    ghost coded = { tree_code };

    ghost use Rattle.dart_tree.specs.Parts.{type_parameter_of};

    ghost view = { λ a. type_parameter_of a };

    ghost size = { nodes_in };

    ghost use Rattle.dart_tree.specs.Falls.{type_parameter_falls};

    ghost size_decreases = { λ a h. type_parameter_falls a };
}

impl Model for ParameterType {
    ghost use Rattle.dart_tree.specs.Tree.{Tree};
    ghost use Rattle.dart_tree.specs.TreeCode.{tree_code};
    ghost use Rattle.dart_tree.specs.Numbers.{nodes_in};

    ghost Value = { Tree };

    ghost coded = { tree_code };

    ghost use Rattle.dart_tree.specs.Parts.{parameter_type_of};

    ghost view = { λ a. parameter_type_of a };

    ghost size = { nodes_in };

    ghost use Rattle.dart_tree.specs.Falls.{parameter_type_falls};

    ghost size_decreases = { λ a h. parameter_type_falls a };
}
