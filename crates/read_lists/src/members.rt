//! Reading the lists of statements in members of classes and mixins.

ghost use Rattle.std.specs.Prelude.{◌≡◌, ◌≤◌, OnOk};
ghost use Rattle.dart_tree.specs.Tree.{trees_of};
ghost use Rattle.unread_lists.specs.WithLists.{with_lists, all_with_lists};

use crate::expressions::{read_argument_list, read_expr};
use crate::functions::{read_body, read_function, read_parameter_list, read_variable_list};
use crate::lists::ReadsLists;
use crate::types::read_optional_written_type;
use dart_tree::{Initializer, InitializerNode, Member, MemberNode, ReadMember};
use std::alloc::{AllocError, Global};

/// Reads the lists of statements in an initializer, where `room` nodes may lie on a way down from it.
pub fn read_initializer<R: ReadsLists>(
    reader: &R,
    alloc: Global,
    room: u32,
    initializer: &mut Initializer,
) -> Result<(), AllocError>
    requires limit { room ≤ 201 }
    requires sound { R.sound reader.now }
    ensures { OnOk result (initializer.new ≡ with_lists (R.lists reader.now) room initializer.old) }
{
    match &mut initializer.node {
        InitializerNode::Field { value, .. } => read_expr(reader, alloc, room, value),
        InitializerNode::Super { arguments, .. } => read_argument_list(
            reader, alloc, room, arguments,
        ),
        InitializerNode::Redirection { arguments, .. } => read_argument_list(
            reader, alloc, room, arguments,
        ),
    }
}

/// Reads the lists of statements in initializers, where `room` nodes may lie on a way down from each.
pub(crate) fn read_initializers<R: ReadsLists>(
    reader: &R,
    alloc: Global,
    room: u32,
    initializers: &mut [Initializer],
) -> Result<(), AllocError>
    requires limit { room ≤ 201 }
    requires sound { R.sound reader.now }
    ensures { OnOk result (trees_of initializers.new ≡ all_with_lists (R.lists reader.now) room (trees_of initializers.old)) }
{
    for item in initializers.iter_mut() {
        read_initializer(reader, alloc, room, item)?;
    }
    Ok(())
}

/// Reads the lists of statements in a member, where `room` nodes may lie on a way down from it.
pub fn read_member<R: ReadsLists>(
    reader: &R,
    alloc: Global,
    room: u32,
    member: &mut Member,
) -> Result<(), AllocError>
    requires limit { room ≤ 201 }
    requires sound { R.sound reader.now }
    ensures { OnOk result (member.new ≡ with_lists (R.lists reader.now) room member.old) }
{
    let MemberNode::Read(node) = &mut member.node else {
        return Ok(());
    };
    let inside = room.saturating_sub(1);
    match &mut **node {
        ReadMember::Constructor {
            parameters,
            initializers,
            body,
            ..
        } => {
            read_parameter_list(reader, alloc, inside, parameters)?;
            read_initializers(reader, alloc, inside, initializers.as_mut_slice())?;
            read_body(reader, alloc, inside, body)
        }
        ReadMember::Factory {
            parameters,
            body,
            ..
        } => {
            read_parameter_list(reader, alloc, inside, parameters)?;
            read_body(reader, alloc, inside, body)
        }
        ReadMember::Method { function, .. } => read_function(reader, alloc, inside, function),
        ReadMember::Fields { variables, .. } => read_variable_list(
            reader, alloc, inside, variables,
        ),
        ReadMember::Operator {
            result,
            parameters,
            body,
            ..
        } => {
            read_optional_written_type(reader, alloc, inside, result)?;
            read_parameter_list(reader, alloc, inside, parameters)?;
            read_body(reader, alloc, inside, body)
        }
    }
}

/// Reads the lists of statements in members, where `room` nodes may lie on a way down from each.
pub(crate) fn read_members<R: ReadsLists>(
    reader: &R,
    alloc: Global,
    room: u32,
    members: &mut [Member],
) -> Result<(), AllocError>
    requires limit { room ≤ 201 }
    requires sound { R.sound reader.now }
    ensures { OnOk result (trees_of members.new ≡ all_with_lists (R.lists reader.now) room (trees_of members.old)) }
{
    for item in members.iter_mut() {
        read_member(reader, alloc, room, item)?;
    }
    Ok(())
}
