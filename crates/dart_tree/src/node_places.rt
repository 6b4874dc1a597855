//! Where the nodes of several forms stand.

ghost use Rattle.std.specs.Prelude.{◌≡◌};
ghost use Rattle.dart_tree.specs.Places.{place_of};

use crate::expressions::{Expr, ExprNode, StringLiteral, StringLiteralNode};
use crate::functions::{Body, BodyNode, Function, FunctionNode};
use crate::members::{Member, MemberNode, ReadMember};
use crate::places::Place;
use crate::statements::{Stmt, StmtNode};
use crate::types::{WrittenType, WrittenTypeNode};
use crate::unit::{Item, ItemNode, ReadItem};

impl WrittenType {
    /// The written type's number and range of text, from its first to its last token.
    pub fn place(&self) -> Place
        ensures { result ≡ place_of self.now }
    {
        match &*self.node {
            WrittenTypeNode::Void { at } => *at,
            WrittenTypeNode::Named { at, .. } => *at,
            WrittenTypeNode::Function { at, .. } => *at,
        }
    }
}

impl Expr {
    /// The expression's number and range of text, from its first to its last token.
    pub fn place(&self) -> Place
        ensures { result ≡ place_of self.now }
    {
        match &*self.node {
            ExprNode::Integer { at, .. } => *at,
            ExprNode::Text { at, .. } => *at,
            ExprNode::Boolean { at, .. } => *at,
            ExprNode::Null { at } => *at,
            ExprNode::This { at } => *at,
            ExprNode::Super { at } => *at,
            ExprNode::Identifier { at, .. } => *at,
            ExprNode::Parenthesis { at, .. } => *at,
            ExprNode::New { at, .. } => *at,
            ExprNode::List { at, .. } => *at,
            ExprNode::SetOrMap { at, .. } => *at,
            ExprNode::Function { at, .. } => *at,
            ExprNode::GenericIdentifier { at, .. } => *at,
            ExprNode::Property { at, .. } => *at,
            ExprNode::Index { at, .. } => *at,
            ExprNode::NullCheck { at, .. } => *at,
            ExprNode::Call { at, .. } => *at,
            ExprNode::Unary { at, .. } => *at,
            ExprNode::Postfix { at, .. } => *at,
            ExprNode::Binary { at, .. } => *at,
            ExprNode::TypeTest { at, .. } => *at,
            ExprNode::TypeCast { at, .. } => *at,
            ExprNode::Conditional { at, .. } => *at,
            ExprNode::Assignment { at, .. } => *at,
            ExprNode::Throw { at, .. } => *at,
            ExprNode::Cascade { at, .. } => *at,
            ExprNode::CascadedName { at, .. } => *at,
            ExprNode::CascadedIndex { at, .. } => *at,
        }
    }
}

impl StringLiteral {
    /// The string's number and range of text, from its first to its last token.
    pub fn place(&self) -> Place
        ensures { result ≡ place_of self.now }
    {
        match &self.node {
            StringLiteralNode::Simple { at, .. } => *at,
            StringLiteralNode::Interpolated { at, .. } => *at,
        }
    }
}

impl Body {
    /// The body's number and range of text, from its first to its last token.
    pub fn place(&self) -> Place
        ensures { result ≡ place_of self.now }
    {
        match &self.node {
            BodyNode::Block { at, .. } => *at,
            BodyNode::Expression { at, .. } => *at,
            BodyNode::Empty { at } => *at,
            BodyNode::Native { at } => *at,
        }
    }
}

impl Function {
    /// The function's number and range of text, from its first to its last token.
    pub fn place(&self) -> Place
        ensures { result ≡ place_of self.now }
    {
        match &*self.node {
            FunctionNode::Getter { at, .. } => *at,
            FunctionNode::Setter { at, .. } => *at,
            FunctionNode::Plain { at, .. } => *at,
        }
    }
}

impl Stmt {
    /// The statement's number and range of text, from its first to its last token.
    pub fn place(&self) -> Place
        ensures { result ≡ place_of self.now }
    {
        match &*self.node {
            StmtNode::Block { at, .. } => *at,
            StmtNode::Variables { at, .. } => *at,
            StmtNode::Function { at, .. } => *at,
            StmtNode::Expression { at, .. } => *at,
            StmtNode::If { at, .. } => *at,
            StmtNode::While { at, .. } => *at,
            StmtNode::Do { at, .. } => *at,
            StmtNode::For { at, .. } => *at,
            StmtNode::ForIn { at, .. } => *at,
            StmtNode::ForInAssignment { at, .. } => *at,
            StmtNode::Switch { at, .. } => *at,
            StmtNode::Try { at, .. } => *at,
            StmtNode::Return { at, .. } => *at,
            StmtNode::Break { at, .. } => *at,
            StmtNode::Continue { at, .. } => *at,
            StmtNode::Rethrow { at } => *at,
            StmtNode::Labeled { at, .. } => *at,
            StmtNode::Error { at } => *at,
        }
    }
}

impl Member {
    /// The member's number and range of text, from its first to its last token.
    pub fn place(&self) -> Place
        ensures { result ≡ place_of self.now }
    {
        let form = match &self.node {
            MemberNode::Read(form) => form,
            MemberNode::Error { at } => return *at,
        };
        match &**form {
            ReadMember::Constructor { at, .. } => *at,
            ReadMember::Factory { at, .. } => *at,
            ReadMember::Method { at, .. } => *at,
            ReadMember::Fields { at, .. } => *at,
            ReadMember::Operator { at, .. } => *at,
        }
    }
}

impl Item {
    /// The item's number and range of text, from its first to its last token.
    pub fn place(&self) -> Place
        ensures { result ≡ place_of self.now }
    {
        let form = match &self.node {
            ItemNode::Read(form) => form,
            ItemNode::Error { at } => return *at,
        };
        match &**form {
            ReadItem::Class { at, .. } => *at,
            ReadItem::Mixin { at, .. } => *at,
            ReadItem::TypeAlias { at, .. } => *at,
            ReadItem::Function { at, .. } => *at,
            ReadItem::Variables { at, .. } => *at,
            ReadItem::Library { at, .. } => *at,
            ReadItem::Import { at, .. } => *at,
            ReadItem::Export { at, .. } => *at,
            ReadItem::Part { at, .. } => *at,
            ReadItem::PartOf { at, .. } => *at,
            ReadItem::PartOfLibrary { at, .. } => *at,
        }
    }
}
