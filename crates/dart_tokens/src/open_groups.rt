//! The groups that are open at a place among tokens.

ghost use Rattle.std.specs.Prelude.{◌≡◌, [], ◌∷◌, OnErr, OnOk, MatchOption, is_some};
ghost use Rattle.dart_tokens.specs.Groups.{nearest};
ghost use Rattle.dart_tokens.specs.Stack.{bracket_of, closable, inside, is_among, open_of};

use crate::bracket::Bracket;
use std::alloc::{AllocError, Global};
use std::marker::Model;

/// A group that is open: its kind, and the place of the token that opens it, from 0.
#[derive(Clone, Copy, Debug)]
pub struct Open {
    pub bracket: Bracket,
    pub place: u32,
}

/// Some kinds of groups.
#[derive(Clone, Copy, Debug)]
pub struct Kinds {
    pub round: bool,
    pub square: bool,
    pub curly: bool,
    pub interpolation: bool,
}

impl Kinds {
    const NONE: Kinds = Kinds {
        round: false,
        square: false,
        curly: false,
        interpolation: false,
    };

    /// Whether the kind is among these.
    fn contains(self, bracket: Bracket) -> bool
        ensures { result ≡ is_among (bracket_of bracket) self }
    {
        match bracket {
            Bracket::Round => self.round,
            Bracket::Square => self.square,
            Bracket::Curly => self.curly,
            Bracket::Interpolation => self.interpolation,
        }
    }

    /// What can be closed inside a group, where these can be closed around it.
    fn inside(self, bracket: Bracket) -> Kinds
        ensures { result ≡ inside (bracket_of bracket) self }
    {
        match bracket {
            Bracket::Round => Kinds {
                round: true,
                ..self
            },
            Bracket::Square => Kinds {
                square: true,
                ..self
            },
            Bracket::Curly => Kinds {
                curly: true,
                ..self
            },
            Bracket::Interpolation => Kinds {
                interpolation: true,
                ..Kinds::NONE
            },
        }
    }
}

/// An open group, and the kinds of groups that a bracket right inside it can close.
#[derive(Clone, Copy, Debug)]
pub struct Level {
    pub group: Open,
    pub closable: Kinds,
}

/// Memory for so many groups is kept, however few are open.
const KEPT: usize = 1024;

/// Open groups, one in another. Much memory is given back as they end.
#[derive(Debug, Drop)]
pub struct OpenGroups {
    levels: Vec<Level>,
}

impl Model for OpenGroups {
    ghost use Rattle.std.specs.Prelude.{List};
    ghost use Rattle.dart_tokens.specs.Groups.{Open};
    ghost use Rattle.dart_tokens.specs.Stack.{AreTracked, groups_of};

    ghost Value = { List Open };

    ghost view = { λ s. groups_of s.levels.items };

    ghost invariant = { λ s. AreTracked s.levels.items };
}

impl OpenGroups {
    /// No group, which takes no memory.
    pub fn new(alloc: Global) -> OpenGroups
        ensures { result ≡ [] }
    {
        OpenGroups {
            levels: Vec::new(alloc),
        }
    }

    /// A bracket opens a group inside all others.
    pub fn push(&mut self, group: Open) -> Result<(), AllocError>
        ensures opened { OnOk result (self.new ≡ open_of group ∷ self.old) }
        ensures failed { OnErr result (self.new ≡ self.old) }
    {
        let around = self.closable();
        self.levels.push(Level {
            group,
            closable: around.inside(group.bracket),
        })?;
        Ok(())
    }

    /// The innermost group, which ends.
    pub fn pop(&mut self) -> Option<Open>
        ensures { MatchOption result ((self.old ≡ []) × (self.new ≡ [])) (λ group. self.old ≡ open_of group ∷ self.new) }
    {
        let level = self.levels.pop()?;
        self.give_back();
        Some(level.group)
    }

    /// Gives memory back where no more than half of it is used.
    fn give_back(&mut self)
        ensures { self.new ≡ self.old }
    {
        let room = self.levels.capacity();
        if room > KEPT && self.levels.len() <= room / 2 {
            self.levels.shrink_to(room / 4 * 3);
        }
    }

    /// Whether a closing bracket of the kind closes a group.
    pub fn can_close(&self, bracket: Bracket) -> bool
        ensures { result ≡ is_some (nearest (bracket_of bracket) self.now) }
    {
        self.closable().contains(bracket)
    }

    /// The kinds of groups that a bracket can close.
    fn closable(&self) -> Kinds
        ensures { result ≡ closable self.now }
    {
        match self.levels.last() {
            Some(level) => level.closable,
            None => Kinds::NONE,
        }
    }
}
