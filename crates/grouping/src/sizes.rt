//! The sizes of groups, set where they end.

ghost use Rattle.std.specs.Prelude.{◌≡◌, ◌<◌, ◌-◌, ◌^◌, [], length, suc, true, vec_len};
ghost use Rattle.dart_tokens.specs.Groups.{after_closing};
ghost use Rattle.dart_tokens.specs.Stack.{BeganBefore, bracket_of, is_closable};
ghost use Rattle.grouping.specs.SoFar.{closed_at, ended_at, sized_at};

use dart_tokens::{Bracket, GroupedToken, OpenGroups};

/// The group that the token at a place opens ends before another place, where a token closes it or not.
fn set_size(read: &mut Vec<GroupedToken>, place: u32, end: u32, closed: bool)
    requires { place < vec_len read.old }
    ensures size { read.new.items ≡ sized_at place (end - suc place) closed read.old.items }
    ensures count { vec_len read.new ≡ vec_len read.old }
{
    let width = end.saturating_sub(place).saturating_sub(1);
    let mut token = read[place as usize];
    token.width = width;
    token.is_closed = closed;
    read[place as usize] = token;
}

/// A bracket at a place closes the nearest open group of a kind, and ends those inside it.
pub fn close_groups(
    read: &mut Vec<GroupedToken>,
    around: &mut OpenGroups,
    bracket: Bracket,
    end: u32,
)
    requires began { BeganBefore (vec_len read.old) around.old }
    requires closable { is_closable (bracket_of bracket) around.old ≡ true }
    ensures read { read.new.items ≡ closed_at end (bracket_of bracket) around.old read.old.items }
    ensures around { around.new ≡ after_closing (Some (bracket_of bracket)) around.old }
    ensures count { vec_len read.new ≡ vec_len read.old }
{
    while let Some(group) = around.pop() {
        let closed = group.bracket == bracket;
        set_size(read, group.place, end, closed);
        if closed {
            return;
        }
    }
}

/// All groups end behind all tokens.
pub fn end_groups(read: &mut Vec<GroupedToken>, around: &mut OpenGroups)
    requires few { vec_len read.old < 2 ^ 32 }
    requires began { BeganBefore (vec_len read.old) around.old }
    ensures { read.new.items ≡ ended_at (vec_len read.old) around.old read.old.items }
{
    let end = read.len() as u32;
    while let Some(group) = around.pop() {
        set_size(read, group.place, end, false);
    }
}
