//! Which ranges of a text its interface part hides.

ghost use Rattle.std.specs.Prelude.{◌≡◌, [], ◌∷◌, ◌++◌, IfOk, OnOk};
ghost use Rattle.std.specs.List.{flat_map};
ghost use Rattle.interface_part.specs.Hidden.{hidden_body, hidden_in_function, hidden_in_variable, hidden_in_variables, hidden_in_member, hidden_in_item, hidden_in};

use dart_tree::{
    Body, BodyNode, Function, FunctionNode, Item, ItemNode, Member, MemberNode, ReadItem,
    ReadMember, Span, UnitTree, Variable, VariableList,
};
use std::alloc::{AllocError, Global};

/// The range of a body or an initializer, and whether it stands in a mixin.
#[derive(Clone, Copy, Debug, PartialEq, Eq)]
pub struct Hidden {
    /// Where the body or the initializer stands in the text.
    pub span: Span,
    /// Whether it is of a member of a mixin: then it is seen, if the word `super` stands in it.
    pub in_mixin: bool,
}

/// Adds the range of a body, unless it is `;` alone.
fn hide_body(parts: &mut Vec<Hidden>, in_mixin: bool, body: &Body) -> Result<(), AllocError>
    ensures { OnOk result (parts.new.items ≡ parts.old.items ++ hidden_body in_mixin body.now) }
{
    match &body.node {
        BodyNode::Block { at, .. } => hide(parts, in_mixin, at.span),
        BodyNode::Expression { at, .. } => hide(parts, in_mixin, at.span),
        BodyNode::Empty { .. } => Ok(()),
        BodyNode::Native { at } => hide(parts, in_mixin, at.span),
    }
}

/// Adds a range.
fn hide(parts: &mut Vec<Hidden>, in_mixin: bool, span: Span) -> Result<(), AllocError>
    ensures { OnOk result (parts.new.items ≡ parts.old.items ++ record { span = span; in_mixin = in_mixin } ∷ []) }
{
    parts.push(Hidden { span, in_mixin })?;
    Ok(())
}

/// Adds what a function hides.
fn hide_in_function(
    parts: &mut Vec<Hidden>,
    in_mixin: bool,
    function: &Function,
) -> Result<(), AllocError>
    ensures { OnOk result (parts.new.items ≡ parts.old.items ++ hidden_in_function in_mixin function.now) }
{
    match &*function.node {
        FunctionNode::Getter { body, .. } => hide_body(parts, in_mixin, body),
        FunctionNode::Setter { body, .. } => hide_body(parts, in_mixin, body),
        FunctionNode::Plain { body, .. } => hide_body(parts, in_mixin, body),
    }
}

/// Adds the range of a variable's initializer, if it has one.
fn hide_in_variable(
    parts: &mut Vec<Hidden>,
    in_mixin: bool,
    variable: &Variable,
) -> Result<(), AllocError>
    ensures { OnOk result (parts.new.items ≡ parts.old.items ++ hidden_in_variable in_mixin variable.now) }
{
    match &variable.initializer {
        Some(initializer) => hide(parts, in_mixin, initializer.place().span),
        None => Ok(()),
    }
}

/// Adds the ranges of initializers.
fn hide_initializers(
    parts: &mut Vec<Hidden>,
    in_mixin: bool,
    variables: &[Variable],
) -> Result<(), AllocError>
    ensures { OnOk result (parts.new.items ≡ parts.old.items ++ flat_map (hidden_in_variable in_mixin) variables.now) }
{
    for variable in variables {
        hide_in_variable(parts, in_mixin, variable)?;
    }
    Ok(())
}

/// Adds what variables hide.
#[tactic(auto, using(crate::proofs::Lists::list_of_trees))]
fn hide_in_variables(
    parts: &mut Vec<Hidden>,
    in_mixin: bool,
    variables: &VariableList,
) -> Result<(), AllocError>
    ensures { OnOk result (parts.new.items ≡ parts.old.items ++ hidden_in_variables in_mixin variables.now) }
{
    match &variables.written {
        Some(_) => hide_initializers(parts, in_mixin, variables.variables.as_slice()),
        None => Ok(()),
    }
}

/// Adds what a member hides.
fn hide_in_member(
    parts: &mut Vec<Hidden>,
    in_mixin: bool,
    member: &Member,
) -> Result<(), AllocError>
    ensures { OnOk result (parts.new.items ≡ parts.old.items ++ hidden_in_member in_mixin member.now) }
{
    let MemberNode::Read(node) = &member.node else {
        return Ok(());
    };
    match &**node {
        ReadMember::Constructor { body, .. } => hide_body(parts, in_mixin, body),
        ReadMember::Factory { body, .. } => hide_body(parts, in_mixin, body),
        ReadMember::Method { function, .. } => hide_in_function(parts, in_mixin, function),
        ReadMember::Fields { variables, .. } => hide_in_variables(parts, in_mixin, variables),
        ReadMember::Operator { body, .. } => hide_body(parts, in_mixin, body),
    }
}

/// Adds what members hide.
fn hide_in_members(
    parts: &mut Vec<Hidden>,
    in_mixin: bool,
    members: &[Member],
) -> Result<(), AllocError>
    ensures { OnOk result (parts.new.items ≡ parts.old.items ++ flat_map (hidden_in_member in_mixin) members.now) }
{
    for member in members {
        hide_in_member(parts, in_mixin, member)?;
    }
    Ok(())
}

/// Adds what an item hides.
#[tactic(auto, using(crate::proofs::Lists::list_of_trees))]
fn hide_in_item(parts: &mut Vec<Hidden>, item: &Item) -> Result<(), AllocError>
    ensures { OnOk result (parts.new.items ≡ parts.old.items ++ hidden_in_item item.now) }
{
    let ItemNode::Read(node) = &item.node else {
        return Ok(());
    };
    match &**node {
        ReadItem::Class { members, .. } => hide_in_members(parts, false, members.as_slice()),
        ReadItem::Mixin { members, .. } => hide_in_members(parts, true, members.as_slice()),
        ReadItem::Function { function, .. } => hide_in_function(parts, false, function),
        ReadItem::Variables { variables, .. } => hide_in_variables(parts, false, variables),
        ReadItem::TypeAlias { .. }
        | ReadItem::Library { .. }
        | ReadItem::Import { .. }
        | ReadItem::Export { .. }
        | ReadItem::Part { .. }
        | ReadItem::PartOf { .. }
        | ReadItem::PartOfLibrary { .. } => Ok(()),
    }
}

/// Adds what items hide.
fn hide_in_items(parts: &mut Vec<Hidden>, items: &[Item]) -> Result<(), AllocError>
    ensures { OnOk result (parts.new.items ≡ parts.old.items ++ flat_map hidden_in_item items.now) }
{
    for item in items {
        hide_in_item(parts, item)?;
    }
    Ok(())
}

/// What a unit hides, in reading order.
#[tactic(auto, using(crate::proofs::Lists::list_of_trees))]
pub fn hidden_in(alloc: Global, unit: &UnitTree) -> Result<Vec<Hidden>, AllocError>
    ensures { IfOk result (λ parts. parts.items ≡ hidden_in unit.now) }
{
    let mut parts = Vec::new(alloc);
    hide_in_items(&mut parts, unit.items.as_slice())?;
    Ok(parts)
}
