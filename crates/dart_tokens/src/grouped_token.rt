//! Tokens as the grammar reads them.

ghost use Rattle.std.specs.Prelude.{◌≡◌};
ghost use Rattle.dart_tokens.specs.Read.{past};

use crate::token::Kind;

/// A token with the group that it opens.
///
/// A bracket that closes no group is no token of the grammar. A group that no bracket closes is a
/// group all the same, so that what comes behind it is known by the number of tokens up to there.
#[derive(Clone, Copy, Debug, PartialEq, Eq)]
pub struct GroupedToken {
    /// What it is.
    pub kind: Kind,
    /// Whether a bracket closes the group that it opens; false where it opens none.
    pub is_closed: bool,
    /// The offset of its first UTF-16 code unit.
    pub start: u32,
    /// The offset past its last UTF-16 code unit.
    pub end: u32,
    /// The place of its lexeme among the words of the text, from 0.
    pub word: u32,
    /// How many tokens stand in the group that it opens; 0 where it opens none.
    pub width: u32,
}

impl GroupedToken {
    /// How many tokens stand between it and what comes behind its group: those in the group, and the
    /// bracket that closes it, if one does; 0 where it opens none.
    #[tactic(auto, unfolding(crate::specs::Read::past))]
    pub fn past(self) -> usize
        ensures { result ≡ past self }
    {
        let width = self.width as usize;
        if self.is_closed { width + 1 } else { width }
    }
}
