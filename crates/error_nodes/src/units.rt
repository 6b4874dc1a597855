//! The errors in units and their items.

ghost use Rattle.std.specs.Prelude.{◌≡◌, ◌++◌, OnOk, IfOk};
ghost use Rattle.dart_tree.specs.Tree.{trees_of};
ghost use Rattle.error_nodes.specs.Errors.{errors_of, errors_of_all};

use crate::expressions::add_from_string;
use crate::functions::{add_from_function, add_from_variable_list};
use crate::members::add_from_members;
use crate::types::{
    add_from_optional_written_type, add_from_type_parameters, add_from_written_type,
    add_from_written_types,
};
use dart_tree::{Item, ItemNode, Place, ReadItem, UnitTree};
use std::alloc::{AllocError, Global};

/// Adds the errors in an item.
pub(crate) fn add_from_item(item: &Item, errors: &mut Vec<Place>) -> Result<(), AllocError>
    ensures { OnOk result (errors.new.items ≡ errors.old.items ++ errors_of item.now) }
{
    let node = match &item.node {
        ItemNode::Read(node) => node,
        ItemNode::Error { at } => {
            errors.push(*at)?;
            return Ok(());
        }
    };
    match &**node {
        ReadItem::Class {
            type_parameters,
            superclass,
            mixins,
            interfaces,
            members,
            ..
        } => {
            add_from_type_parameters(type_parameters.as_slice(), errors)?;
            add_from_optional_written_type(superclass, errors)?;
            add_from_written_types(mixins.as_slice(), errors)?;
            add_from_written_types(interfaces.as_slice(), errors)?;
            add_from_members(members.as_slice(), errors)
        }
        ReadItem::Mixin {
            type_parameters,
            constraints,
            interfaces,
            members,
            ..
        } => {
            add_from_type_parameters(type_parameters.as_slice(), errors)?;
            add_from_written_types(constraints.as_slice(), errors)?;
            add_from_written_types(interfaces.as_slice(), errors)?;
            add_from_members(members.as_slice(), errors)
        }
        ReadItem::TypeAlias { written, .. } => add_from_written_type(written, errors),
        ReadItem::Function { function, .. } => add_from_function(function, errors),
        ReadItem::Variables { variables, .. } => add_from_variable_list(variables, errors),
        ReadItem::Library { .. } => Ok(()),
        ReadItem::Import { uri, .. } => add_from_string(uri, errors),
        ReadItem::Export { uri, .. } => add_from_string(uri, errors),
        ReadItem::Part { uri, .. } => add_from_string(uri, errors),
        ReadItem::PartOf { uri, .. } => add_from_string(uri, errors),
        ReadItem::PartOfLibrary { .. } => Ok(()),
    }
}

/// Adds the errors in items, one after the other.
pub(crate) fn add_from_items(items: &[Item], errors: &mut Vec<Place>) -> Result<(), AllocError>
    ensures { OnOk result (errors.new.items ≡ errors.old.items ++ errors_of_all (trees_of items.now)) }
{
    for item in items {
        add_from_item(item, errors)?;
    }
    Ok(())
}

/// Where the nodes of a text stand that derive nothing, in reading order. The error is want of memory.
pub fn error_nodes(alloc: Global, unit: &UnitTree) -> Result<Vec<Place>, AllocError>
    ensures { IfOk result (λ list. list.items ≡ errors_of unit.now) }
{
    let mut errors = Vec::new(alloc);
    add_from_items(unit.items.as_slice(), &mut errors)?;
    Ok(errors)
}
