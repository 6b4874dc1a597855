//! What reads the lists of statements that a tree was read without.

ghost use Rattle.std.specs.Prelude.{◌≡◌, ◌≤◌, ℕ, OnOk};
ghost use Rattle.dart_tree.specs.Tree.{Trees, trees_of};
ghost use Rattle.dart_tree.specs.declared.places.Place.{Place as Where};
ghost use Rattle.unread_lists.specs.WithLists.{list_read};

use dart_tree::{Place, Stmt};
use std::alloc::{AllocError, Global};

/// What reads a list of statements where it stands.
///
/// `lists` says what is read: by the room that is left there, and the place of what stands for the
/// list, which has the range of its tokens.
pub trait ReadsLists {
    ghost lists: { Self → ℕ → Where → Trees };

    ghost sound: { Self → Type 0 };

    /// Puts the statements at a place, from each of which `room` nodes may lie on a way down, where
    /// what stands for them was. The error is want of memory.
    fn read(
        &self,
        alloc: Global,
        room: u32,
        at: &Place,
        statements: &mut Vec<Stmt>,
    ) -> Result<(), AllocError>
        requires limit { room ≤ 201 }
        requires sound { sound self.now }
        ensures { OnOk result (trees_of statements.new.items ≡ lists self.now room at.now) };
}

/// Reads a list of statements where `room` nodes may lie on a way down from each. An empty one stays.
pub(crate) fn read_list<R: ReadsLists>(
    reader: &R,
    alloc: Global,
    room: u32,
    statements: &mut Vec<Stmt>,
) -> Result<(), AllocError>
    requires limit { room ≤ 201 }
    requires sound { R.sound reader.now }
    ensures { OnOk result (trees_of statements.new.items ≡ list_read (R.lists reader.now) room (trees_of statements.old.items)) }
{
    let Some(first) = statements.first() else {
        return Ok(());
    };
    let at = first.place();
    reader.read(alloc, room, &at, statements)
}
