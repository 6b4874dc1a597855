//! Laws of groups, marks and words, over their definitions alone.

ghost use Rattle.std.specs.Prelude.{◌≡◌, ◌≢◌, ◌↔◌, ◌<◌, ◌≤◌, ◌⊎◌, ℕ, All, Contains, IfSome, IsSomeAnd, IsTrue, bytes_eq, length, nat_eq, not, take};
ghost use Rattle.std.specs.List.{list_any, starts_with};
ghost use Rattle.dart_tokens.specs.Groups.{Interpolation, fault_at, faults_of};
ghost use Rattle.dart_tokens.specs.Marks.{first_mark, marks};
ghost use Rattle.dart_tokens.specs.Rows.{named_words};
ghost use Rattle.dart_tokens.specs.Words.{is_reserved, kind_of_word, names_of_no_type};
ghost use Rattle.dart_tokens.specs.Kinds.{is_identifier, is_reserved_word, names_no_type};
ghost use Rattle.dart_tokens.specs.Pairs.{ArePaired, CanClose, ClosesAround, ClosesGroup, EndsBehind, HasPartner, IsNearest, OpensGroup, closes_at, opens_at, partner_at};

use crate::groups::GroupFaultKind;
use crate::token::{Kind, Token};

/// Partners are mutual: where a token that closes a group has a partner, this one opens a group of the
/// same kind before it, and has it as partner.
pub fn partners_are_mutual(_tokens: &[Token])
    ensures { (opening closing : ℕ) → ClosesGroup _tokens.now closing → HasPartner _tokens.now closing opening → ArePaired _tokens.now opening closing }
{}

/// A bracket closes the nearest group that it can close: of its kind, open there, and begun behind
/// each interpolation that is open there, or with the last of them.
pub fn the_nearest_group_is_closed(_tokens: &[Token])
    ensures { (closing opening : ℕ) → ClosesGroup _tokens.now closing → (HasPartner _tokens.now closing opening ↔ IsNearest _tokens.now closing opening) }
{}

/// A bracket is unopened where there is no group that it can close.
pub fn an_unopened_bracket_can_close_no_group(_tokens: &[Token])
    ensures { (closing : ℕ) → Contains (faults_of _tokens.now) (fault_at closing GroupFaultKind.UnopenedGroup)
        ↔ (ClosesGroup _tokens.now closing × ((opening : ℕ) → CanClose _tokens.now closing opening → ⊥)) }
{}

/// A group ends behind the bracket that opens it: before the one that closes it, or a group around it,
/// or at the end of all tokens. What is no bracket has no partner.
pub fn a_group_ends_where_it_or_one_around_it_is_closed(_tokens: &[Token])
    ensures ends { (opening : ℕ) → OpensGroup _tokens.now opening → IsSomeAnd (partner_at _tokens.now opening) (EndsBehind _tokens.now opening) }
    ensures there { (opening end : ℕ) → OpensGroup _tokens.now opening → HasPartner _tokens.now opening end
        → ClosesAround _tokens.now end opening ⊎ (end ≡ length _tokens.now) }
    ensures others { (place : ℕ) → opens_at _tokens.now place ≡ None → closes_at _tokens.now place ≡ None → partner_at _tokens.now place ≡ None }
{}

/// Of two groups the later one lies in the earlier one, or begins behind its end.
pub fn groups_nest(_tokens: &[Token])
    ensures { (first second first_end second_end : ℕ) → first < second → OpensGroup _tokens.now first → OpensGroup _tokens.now second
        → HasPartner _tokens.now first first_end → HasPartner _tokens.now second second_end → (first_end < second) ⊎ (second_end ≤ first_end) }
{}

/// An interpolation ends at its own `}` or at the end of all tokens: no bracket inside it closes a
/// group that began before it, since groups nest.
pub fn an_interpolation_is_a_border(_tokens: &[Token])
    ensures { (opening end : ℕ) → opens_at _tokens.now opening ≡ Some Interpolation → HasPartner _tokens.now opening end
        → (closes_at _tokens.now end ≡ Some Interpolation) ⊎ (end ≡ length _tokens.now) }
{}

/// A group is unclosed where no bracket has the one that opens it as partner, and a bracket is
/// unopened where it has no partner.
pub fn faults_are_of_brackets_without_counterparts(_tokens: &[Token])
    ensures unclosed { (place : ℕ) → Contains (faults_of _tokens.now) (fault_at place GroupFaultKind.UnclosedGroup)
        ↔ (OpensGroup _tokens.now place × ((closing : ℕ) → ClosesGroup _tokens.now closing → partner_at _tokens.now closing ≢ Some place)) }
    ensures unopened { (place : ℕ) → Contains (faults_of _tokens.now) (fault_at place GroupFaultKind.UnopenedGroup)
        ↔ (ClosesGroup _tokens.now place × (partner_at _tokens.now place ≡ None)) }
{}

/// The mark at the start of a text is the longest that it begins with.
pub fn the_mark_is_the_longest(_text: &[u8])
    ensures among { IfSome (first_mark _text.now) (λ found. Contains marks (take found.1 _text.now, found.0)) }
    ensures longest { All (λ mark. IsTrue (starts_with nat_eq _text.now mark.0) → IsSomeAnd (first_mark _text.now) (λ found. length mark.0 ≤ found.1)) marks }
{}

/// A word that the grammar names has the kind beside it, and any other is an identifier.
pub fn words_have_their_kinds(_word: &[u8])
    ensures named { All (λ row. kind_of_word row.0 ≡ row.1) named_words }
    ensures others { IsTrue (list_any (λ row. bytes_eq _word.now row.0) named_words) ⊎ (kind_of_word _word.now ≡ Kind.Identifier) }
{}

/// A word that isn't reserved is an identifier, and no reserved one is. The identifiers that name no
/// types are the built-in ones other than `dynamic` and `Function`, and the words of asynchronous code.
pub fn words_are_identifiers_or_reserved(_word: &[u8])
    ensures identifier { is_identifier (kind_of_word _word.now) ≡ not (is_reserved _word.now) }
    ensures reserved { is_reserved_word (kind_of_word _word.now) ≡ is_reserved _word.now }
    ensures types { names_no_type (kind_of_word _word.now) ≡ list_any (λ row. bytes_eq _word.now row.0) names_of_no_type }
{}

/// Words are distinct: each kind is that of one word, but for the one of all other identifiers.
pub fn words_are_distinct(_word: &[u8], _other: &[u8])
    ensures { kind_of_word _word.now ≡ kind_of_word _other.now → (_word.now ≡ _other.now) ⊎ (kind_of_word _word.now ≡ Kind.Identifier) }
{}
