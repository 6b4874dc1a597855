//! Interface parts, as they are stored.

ghost use Rattle.std.specs.Prelude.{◌≡◌, [], ◌∷◌, ◌++◌, IfOk, length};
ghost use Rattle.interface_part.specs.Parts.{mark, lexeme};
ghost use Rattle.interface_part.specs.Pieces.{cut, letters_in};
ghost use Rattle.interface_part.specs.Same.{same_parts};

use dart_tokens::Kind;
use std::alloc::{AllocError, Global};
use std::marker::Model;

/// A part of an interface part, without its letters.
#[derive(Clone, Copy, Debug, PartialEq, Eq)]
enum Piece {
    /// The mark in the place of what is hidden.
    Mark,
    /// A lexeme: its kind, whether it is a `>` that the next token of the text follows without a
    /// gap, and how many bytes its letters have in UTF-8.
    Lexeme {
        kind: Kind,
        adjoins: bool,
        size: usize,
    },
}

/// The interface part of a unit, which contracts see as the list of its parts.
///
/// It holds no place of its unit's text, and owns its letters: those of two units can be compared,
/// and it may be kept longer than its unit.
#[derive(Debug, Drop)]
pub struct Interface {
    pieces: Vec<Piece>,
    letters: Vec<u8>,
}

impl Model for Interface {
    ghost use Rattle.std.specs.Prelude.{◌≡◌, List, length};
    ghost use Rattle.interface_part.specs.Parts.{Part};
    ghost use Rattle.interface_part.specs.Pieces.{cut, letters_in};

    ghost Value = { List Part };

    ghost view = { λ a. cut a.pieces.items a.letters.items };

    ghost invariant = { λ a. letters_in a.pieces.items ≡ length a.letters.items };
}

impl PartialEq for Interface {
    ghost use Rattle.interface_part.specs.Same.{same_parts, same_parts_laws};

    ghost eq = { same_parts };

    ghost laws = { same_parts_laws };

    fn eq(&self, other: &Interface) -> bool {
        are_same(
            self.pieces.as_slice(),
            self.letters.as_slice(),
            other.pieces.as_slice(),
            other.letters.as_slice(),
        )
    }
}

/// Whether pieces with their letters and others with theirs are the same parts.
fn are_same(pieces: &[Piece], letters: &[u8], others: &[Piece], more: &[u8]) -> bool
    requires full { letters_in pieces.now ≡ length letters.now }
    requires all { letters_in others.now ≡ length more.now }
    ensures { result ≡ same_parts (cut pieces.now letters.now) (cut others.now more.now) }
{
    pieces == others && letters == more
}

impl Interface {
    /// One without parts, which takes no memory.
    pub(crate) fn new(alloc: Global) -> Interface
        ensures { result ≡ [] }
    {
        Interface {
            pieces: Vec::new(alloc),
            letters: Vec::new(alloc),
        }
    }

    /// This one with a mark behind it.
    #[tactic(auto, using(crate::proofs::Cuts::letters_in_more, crate::proofs::Cuts::cut_mark))]
    pub(crate) fn with_mark(self) -> Result<Interface, AllocError>
        ensures { IfOk result (λ more. more ≡ self ++ mark ∷ []) }
    {
        let Interface {
            mut pieces,
            letters,
        } = self;
        pieces.push(Piece::Mark)?;
        Ok(Interface { pieces, letters })
    }

    /// This one with a lexeme behind it.
    #[tactic(auto, using(crate::proofs::Cuts::letters_in_more, crate::proofs::Cuts::cut_lexeme))]
    pub(crate) fn with_lexeme(
        self,
        kind: Kind,
        word: &[u8],
        adjoins: bool,
    ) -> Result<Interface, AllocError>
        ensures { IfOk result (λ more. more ≡ self ++ lexeme kind word.now adjoins ∷ []) }
    {
        let Interface {
            mut pieces,
            mut letters,
        } = self;
        let size = word.len();
        pieces.push(Piece::Lexeme {
            kind,
            adjoins,
            size,
        })?;
        letters.extend_from_slice(word)?;
        Ok(Interface { pieces, letters })
    }
}
