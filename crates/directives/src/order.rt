//! Directives that stand where they may not.

ghost use Rattle.std.specs.Prelude.{◌≡◌, ◌++◌, IfOk, OnOk};
ghost use Rattle.dart_tree.specs.Tree.{trees_of};
ghost use Rattle.directives.specs.Order.{has_part_of, is_directive, is_misplaced, misplaced_from, misplaced_in, misplaced_item, role_of, seen_after};

use dart_tree::{Item, ItemNode, ReadItem, Span};
use std::alloc::{AllocError, Global};
use std::marker::Model;

/// Places in a text, in its order.
#[derive(Drop)]
pub struct Spans {
    spans: Vec<Span>,
}

impl Model for Spans {
    ghost use Rattle.std.specs.Prelude.{List};
    ghost use Rattle.dart_tree.specs.declared.places.Span.{Span};

    ghost Value = { List Span };

    ghost view = { λ s. s.spans.items };
}

impl Spans {
    /// The places that the vector holds, which takes no memory.
    pub fn from_vec(spans: Vec<Span>) -> Spans
        ensures { result ≡ spans.items }
    {
        Spans { spans }
    }

    /// The places.
    pub fn as_slice(&self) -> &[Span]
        ensures { result.now ≡ self.now }
    {
        self.spans.as_slice()
    }
}

/// What an item is for the order of directives.
#[derive(Clone, Copy, PartialEq, Eq)]
pub(crate) enum Role {
    /// What derives nothing.
    Error,
    /// A declaration.
    Declaration,
    /// `library`.
    Library,
    /// An import or an export.
    Import,
    /// `part`.
    Part,
    /// `part of`.
    PartOf,
}

/// What stands before an item.
#[derive(Clone, Copy)]
pub(crate) struct Seen {
    /// A declaration.
    pub(crate) declaration: bool,
    /// A directive.
    pub(crate) directive: bool,
    /// A `part`.
    pub(crate) part: bool,
    /// A `part of`.
    pub(crate) part_of: bool,
}

/// What an item is for the order of directives.
fn role_of(item: &Item) -> Role
    ensures { result ≡ role_of item.now }
{
    let ItemNode::Read(node) = &item.node else {
        return Role::Error;
    };
    match &**node {
        ReadItem::Class { .. } => Role::Declaration,
        ReadItem::Mixin { .. } => Role::Declaration,
        ReadItem::TypeAlias { .. } => Role::Declaration,
        ReadItem::Function { .. } => Role::Declaration,
        ReadItem::Variables { .. } => Role::Declaration,
        ReadItem::Library { .. } => Role::Library,
        ReadItem::Import { .. } => Role::Import,
        ReadItem::Export { .. } => Role::Import,
        ReadItem::Part { .. } => Role::Part,
        ReadItem::PartOf { .. } => Role::PartOf,
        ReadItem::PartOfLibrary { .. } => Role::PartOf,
    }
}

/// Whether an item is a directive.
fn is_directive(role: Role) -> bool
    ensures { result ≡ is_directive role }
{
    match role {
        Role::Error => false,
        Role::Declaration => false,
        Role::Library => true,
        Role::Import => true,
        Role::Part => true,
        Role::PartOf => true,
    }
}

/// What stands before the next item.
fn seen_after(seen: Seen, role: Role) -> Seen
    ensures { result ≡ seen_after seen role }
{
    Seen {
        declaration: seen.declaration || role == Role::Declaration,
        directive: seen.directive || is_directive(role),
        part: seen.part || role == Role::Part,
        part_of: seen.part_of || role == Role::PartOf,
    }
}

/// Whether an item is a directive that may not stand behind what stands before it, in a unit that has a
/// `part of` or not.
fn is_misplaced(beside: bool, seen: Seen, role: Role) -> bool
    ensures { result ≡ is_misplaced beside seen role }
{
    match role {
        Role::Error => false,
        Role::Declaration => false,
        Role::Library => beside || seen.declaration || seen.directive,
        Role::Import => beside || seen.declaration || seen.part,
        Role::Part => beside || seen.declaration,
        Role::PartOf => seen.part_of || seen.declaration,
    }
}

/// Adds the place of an item, if it is a directive that may not stand there.
fn add_item(beside: bool, seen: Seen, item: &Item, spans: &mut Vec<Span>) -> Result<(), AllocError>
    ensures { OnOk result (spans.new.items ≡ spans.old.items ++ misplaced_item beside seen item.now) }
{
    if is_misplaced(beside, seen, role_of(item)) {
        spans.push(item.place().span)?;
    }
    Ok(())
}

/// Whether a `part of` is among the items.
fn has_part_of(items: &[Item]) -> bool
    ensures { result ≡ has_part_of (trees_of items.now) }
{
    for item in items {
        if role_of(item) == Role::PartOf {
            return true;
        }
    }
    false
}

/// Where the directives among these items stand that may not stand there.
pub(crate) fn misplaced_in(alloc: Global, items: &[Item]) -> Result<Spans, AllocError>
    ensures { IfOk result (λ spans. spans ≡ misplaced_in (trees_of items.now)) }
{
    let beside = has_part_of(items);
    let mut seen = Seen {
        declaration: false,
        directive: false,
        part: false,
        part_of: false,
    };
    let mut spans = Vec::new(alloc);
    for item in items {
        add_item(beside, seen, item, &mut spans)?;
        seen = seen_after(seen, role_of(item));
    }
    Ok(Spans::from_vec(spans))
}
