//! Names as they are declared and mentioned.

use crate::places::{Place, Span};
use std::marker::Model;

/// An identifier where it declares something, or stands in a list of names.
///
/// It has a number of its own: a local is known by that of its name.
#[derive(Clone, Copy, Debug, PartialEq, Eq)]
pub struct Name {
    /// Its number and its range of text.
    pub at: Place,
    /// The place of its letters among the words of the text, from 0: equal for equal names.
    pub word: u32,
}

/// An identifier that is a mere part of a node, as the `m` of `r.m` or the `l` of `break l;`.
#[derive(Clone, Copy, Debug, PartialEq, Eq)]
pub struct Identifier {
    /// Its range of text.
    pub span: Span,
    /// The place of its letters among the words of the text, from 0: equal for equal names.
    pub word: u32,
}

/// The name of a constructor where it is declared: `C` or `C.n`.
#[derive(Clone, Copy, Debug, PartialEq, Eq)]
pub struct ConstructorName {
    /// Its number, and its range of text from `C` to the end.
    pub at: Place,
    /// The word of the class's name, `C`.
    pub class: u32,
    /// The `n`; None where the constructor has no name of its own.
    pub name: Option<Identifier>,
}

/// How arguments are given to a parameter.
#[derive(Clone, Copy, Debug, PartialEq, Eq)]
pub enum ParameterKind {
    /// By position, before any bracket.
    Positional,
    /// By position, between `[` and `]`: the argument may be left out.
    OptionalPositional,
    /// By name, between `{` and `}`.
    Named,
}

/// `@name` before a declaration, a member or a parameter.
#[derive(Drop)]
pub struct Annotation {
    /// Its number and its range of text.
    pub at: Place,
    /// What it names.
    pub name: Identifier,
}

/// A name in a list of names, or one that may be left out.
#[derive(Drop)]
pub struct ListedName {
    /// Its number and its range of text.
    pub at: Place,
    /// The place of its letters among the words of the text, from 0: equal for equal names.
    pub word: u32,
}

impl Model for Annotation {
    ghost use Rattle.dart_tree.specs.Tree.{Tree};
    ghost use Rattle.dart_tree.specs.TreeCode.{tree_code};

    ghost Value = { Tree };

    ghost coded = { tree_code };

    ghost use Rattle.dart_tree.specs.Parts.{annotation_of};

    ghost view = { λ a. annotation_of a };
}

impl Model for ListedName {
    ghost use Rattle.dart_tree.specs.Tree.{Tree};
    ghost use Rattle.dart_tree.specs.TreeCode.{tree_code};

    ghost Value = { Tree };

    ghost coded = { tree_code };

    ghost use Rattle.dart_tree.specs.Parts.{listed_name_of};

    ghost view = { λ a. listed_name_of a };
}
