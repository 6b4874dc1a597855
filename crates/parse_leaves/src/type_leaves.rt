//! The parts of types that hold no other node.

ghost use Rattle.std.specs.Prelude.{◌≡◌, Some};
ghost use Rattle.grammar.specs.Descents.{take_type_name, take_question, take_annotation};
ghost use Rattle.parse_leaves.specs.Answers.{Finds};
ghost use Rattle.parse_leaves.specs.Places.{question_of, ends_of};

use crate::ahead::{heads, heads_field, heads_nullable, heads_qualified};
use crate::leaves::{name, token, type_word};
use crate::places::{identifier_at, place_over};
use dart_tokens::Kind;
use dart_tree::Annotation;
use grammar::{Setting, Token};

/// Where a type stands, as far as that decides what belongs to it.
#[derive(Clone, Copy, Debug, PartialEq, Eq)]
pub enum TypePlace {
    /// Anywhere else.
    Anywhere,
    /// Behind `is` or `as`, in an expression that stands there.
    Tested(Setting),
    /// In front of a name.
    Named,
}

/// A `?` comes next that belongs to a type.
fn heads_question(place: TypePlace, tokens: &[Token]) -> bool
    ensures { result ≡ question_of place tokens.now }
{
    match place {
        TypePlace::Anywhere => heads(tokens, Kind::Question),
        TypePlace::Tested(setting) => heads_nullable(setting, tokens),
        TypePlace::Named => heads(tokens, Kind::Question),
    }
}

/// The tail of a function type may end before these tokens.
pub fn heads_end(place: TypePlace, tokens: &[Token]) -> bool
    ensures { result ≡ ends_of place tokens.now }
{
    match place {
        TypePlace::Anywhere => true,
        TypePlace::Tested(_) => true,
        TypePlace::Named => heads_field(tokens),
    }
}

/// A `?` that belongs to a type, where it does.
#[tactic(auto, unfolding(grammar::specs::Descents::take_question))]
pub fn question(place: TypePlace, tokens: &[Token]) -> Option<(Option<Token>, &[Token])>
    ensures { Finds (λ x. (x.0, x.1.now)) result (take_question (question_of place) tokens.now) }
{
    if heads_question(place, tokens) {
        let (mark, rest) = token(tokens, Kind::Question)?;
        Some((Some(mark), rest))
    } else {
        Some((None, tokens))
    }
}

/// The name of a type: the prefix, if there is one, and the name.
#[tactic(auto, unfolding(grammar::specs::Descents::take_type_name))]
pub fn type_name(tokens: &[Token]) -> Option<(Option<Token>, Token, &[Token])>
    ensures { Finds (λ x. ((x.0, x.1), x.2.now)) result (take_type_name tokens.now) }
{
    if heads_qualified(tokens) {
        let (prefix, rest) = name(tokens)?;
        let (_, rest) = token(rest, Kind::Period)?;
        let (word, rest) = type_word(rest)?;
        Some((Some(prefix), word, rest))
    } else {
        let (word, rest) = type_word(tokens)?;
        Some((None, word, rest))
    }
}

/// An annotation.
#[tactic(auto, unfolding(grammar::specs::Descents::take_annotation))]
pub fn annotation(tokens: &[Token]) -> Option<(Annotation, &[Token])>
    ensures { Finds (λ x. (x.0, x.1.now)) result (take_annotation tokens.now) }
{
    let (_, rest) = token(tokens, Kind::At)?;
    let (word, rest) = name(rest)?;
    let at = place_over(tokens, rest);
    let name = identifier_at(word);
    Some((Annotation { at, name }, rest))
}
