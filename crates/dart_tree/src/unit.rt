//! Units and their items.

use crate::expressions::StringLiteral;
use crate::functions::{Function, VariableList};
use crate::members::Member;
use crate::names::{Annotation, ListedName, Name};
use crate::places::Place;
use crate::types::{TypeParameter, WrittenType};
use dart_tokens::{GroupFaults, LexFaults, Tokens, Words};
use std::marker::Model;

/// A directive or a declaration of a unit.
#[derive(Drop)]
pub struct Item {
    /// Its form, with its parts.
    pub node: ItemNode,
}

/// What is read where an item may stand: what derives nothing takes no box.
#[derive(Drop)]
pub enum ItemNode {
    /// A directive or a declaration.
    Read(Box<ReadItem>),
    /// What derives nothing.
    Error { at: Place },
}

/// The forms of a directive or a declaration.
#[derive(Drop)]
pub enum ReadItem {
    /// `abstract class C<X> extends S with M implements I { .. }`.
    Class {
        at: Place,
        metadata: Vec<Annotation>,
        is_abstract: bool,
        name: Name,
        type_parameters: Vec<TypeParameter>,
        superclass: Option<WrittenType>,
        mixins: Vec<WrittenType>,
        interfaces: Vec<WrittenType>,
        members: Vec<Member>,
    },
    /// `mixin M<X> on C implements I { .. }`.
    Mixin {
        at: Place,
        metadata: Vec<Annotation>,
        name: Name,
        type_parameters: Vec<TypeParameter>,
        constraints: Vec<WrittenType>,
        interfaces: Vec<WrittenType>,
        members: Vec<Member>,
    },
    /// `typedef T = A;`.
    TypeAlias {
        at: Place,
        metadata: Vec<Annotation>,
        name: Name,
        written: WrittenType,
    },
    /// A function of a library.
    Function {
        at: Place,
        metadata: Vec<Annotation>,
        function: Function,
    },
    /// `final int x = e, y;` of a library.
    Variables {
        at: Place,
        metadata: Vec<Annotation>,
        variables: VariableList,
    },
    /// `library a.b;`.
    Library {
        at: Place,
        names: Vec<ListedName>,
    },
    /// `import 'u' as p show a hide b;`.
    Import {
        at: Place,
        uri: StringLiteral,
        prefix: Option<ListedName>,
        combinators: Vec<Combinator>,
    },
    /// `export 'u' show a hide b;`.
    Export {
        at: Place,
        uri: StringLiteral,
        combinators: Vec<Combinator>,
    },
    /// `part 'u';`.
    Part {
        at: Place,
        uri: StringLiteral,
    },
    /// `part of 'u';`.
    PartOf {
        at: Place,
        uri: StringLiteral,
    },
    /// `part of a.b;`.
    PartOfLibrary {
        at: Place,
        names: Vec<ListedName>,
    },
}

/// Which names an import or an export brings.
#[derive(Drop)]
pub struct Combinator {
    /// Its form, with its parts.
    pub node: CombinatorNode,
}

/// The forms of a combinator.
#[derive(Drop)]
pub enum CombinatorNode {
    /// `show a, b`.
    Show { at: Place, names: Vec<ListedName> },
    /// `hide a, b`.
    Hide { at: Place, names: Vec<ListedName> },
}

/// The tree of a whole text.
#[derive(Drop)]
pub struct UnitTree {
    /// Its number and its range of text.
    pub at: Place,
    /// Its directives and declarations, in their order.
    pub items: Vec<Item>,
}

impl Model for Item {
    ghost use Rattle.dart_tree.specs.Tree.{Tree};
    ghost use Rattle.dart_tree.specs.TreeCode.{tree_code};

    ghost Value = { Tree };

    ghost coded = { tree_code };

    ghost use Rattle.dart_tree.specs.View.{item_of};

    ghost view = { λ a. item_of a.node };
}

impl Model for Combinator {
    ghost use Rattle.dart_tree.specs.Tree.{Tree};
    ghost use Rattle.dart_tree.specs.TreeCode.{tree_code};

    ghost Value = { Tree };

    ghost coded = { tree_code };

    ghost use Rattle.dart_tree.specs.View.{combinator_of};

    ghost view = { λ a. combinator_of a.node };
}

impl Model for UnitTree {
    ghost use Rattle.dart_tree.specs.Tree.{Tree};
    ghost use Rattle.dart_tree.specs.TreeCode.{tree_code};

    ghost Value = { Tree };

    ghost coded = { tree_code };

    ghost use Rattle.dart_tree.specs.Parts.{unit_tree_of};

    ghost view = { λ a. unit_tree_of a };
}
/// A text as it is read: its tree, and what its tree leaves out.
#[derive(Drop)]
pub struct Unit {
    /// Its tree.
    pub tree: UnitTree,
    /// Its tokens, in the order of the text.
    pub tokens: Tokens,
    /// Its lexemes, each once; trees and tokens hold them by their places here.
    pub words: Words,
    /// What is wrong with parts of the text, whatever its tokens mean.
    pub lexical_faults: LexFaults,
    /// The brackets with which something is wrong.
    pub group_faults: GroupFaults,
}
