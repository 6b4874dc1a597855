//! Reading the lists of statements in units and their items.

ghost use Rattle.std.specs.Prelude.{◌≡◌, ◌≤◌, OnOk};
ghost use Rattle.dart_tree.specs.Tree.{trees_of};
ghost use Rattle.unread_lists.specs.WithLists.{with_lists, all_with_lists};

use crate::expressions::read_string;
use crate::functions::{read_function, read_variable_list};
use crate::lists::ReadsLists;
use crate::members::read_members;
use crate::types::{
    read_optional_written_type, read_type_parameters, read_written_type, read_written_types,
};
use dart_tree::{Item, ItemNode, ReadItem, UnitTree};
use std::alloc::{AllocError, Global};

/// Reads the lists of statements in an item, where `room` nodes may lie on a way down from it.
pub fn read_item<R: ReadsLists>(
    reader: &R,
    alloc: Global,
    room: u32,
    item: &mut Item,
) -> Result<(), AllocError>
    requires limit { room ≤ 201 }
    requires sound { R.sound reader.now }
    ensures { OnOk result (item.new ≡ with_lists (R.lists reader.now) room item.old) }
{
    let ItemNode::Read(node) = &mut item.node else {
        return Ok(());
    };
    let inside = room.saturating_sub(1);
    match &mut **node {
        ReadItem::Class {
            type_parameters,
            superclass,
            mixins,
            interfaces,
            members,
            ..
        } => {
            read_type_parameters(reader, alloc, inside, type_parameters.as_mut_slice())?;
            read_optional_written_type(reader, alloc, inside, superclass)?;
            read_written_types(reader, alloc, inside, mixins.as_mut_slice())?;
            read_written_types(reader, alloc, inside, interfaces.as_mut_slice())?;
            read_members(reader, alloc, inside, members.as_mut_slice())
        }
        ReadItem::Mixin {
            type_parameters,
            constraints,
            interfaces,
            members,
            ..
        } => {
            read_type_parameters(reader, alloc, inside, type_parameters.as_mut_slice())?;
            read_written_types(reader, alloc, inside, constraints.as_mut_slice())?;
            read_written_types(reader, alloc, inside, interfaces.as_mut_slice())?;
            read_members(reader, alloc, inside, members.as_mut_slice())
        }
        ReadItem::TypeAlias { written, .. } => read_written_type(reader, alloc, inside, written),
        ReadItem::Function { function, .. } => read_function(reader, alloc, inside, function),
        ReadItem::Variables { variables, .. } => read_variable_list(
            reader, alloc, inside, variables,
        ),
        ReadItem::Library { .. } => Ok(()),
        ReadItem::Import { uri, .. } => read_string(reader, alloc, inside, uri),
        ReadItem::Export { uri, .. } => read_string(reader, alloc, inside, uri),
        ReadItem::Part { uri, .. } => read_string(reader, alloc, inside, uri),
        ReadItem::PartOf { uri, .. } => read_string(reader, alloc, inside, uri),
        ReadItem::PartOfLibrary { .. } => Ok(()),
    }
}

/// Reads the lists of statements in items, where `room` nodes may lie on a way down from each.
pub(crate) fn read_items<R: ReadsLists>(
    reader: &R,
    alloc: Global,
    room: u32,
    items: &mut [Item],
) -> Result<(), AllocError>
    requires limit { room ≤ 201 }
    requires sound { R.sound reader.now }
    ensures { OnOk result (trees_of items.new ≡ all_with_lists (R.lists reader.now) room (trees_of items.old)) }
{
    for item in items.iter_mut() {
        read_item(reader, alloc, room, item)?;
    }
    Ok(())
}

/// Reads the lists of statements in a unit, where `room` nodes may lie on a way down from it.
pub fn read_unit<R: ReadsLists>(
    reader: &R,
    alloc: Global,
    room: u32,
    unit: &mut UnitTree,
) -> Result<(), AllocError>
    requires limit { room ≤ 201 }
    requires sound { R.sound reader.now }
    ensures { OnOk result (unit.new ≡ with_lists (R.lists reader.now) room unit.old) }
{
    let inside = room.saturating_sub(1);
    read_items(reader, alloc, inside, unit.items.as_mut_slice())
}
