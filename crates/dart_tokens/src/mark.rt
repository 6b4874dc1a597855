//! Marks of punctuation.

ghost use Rattle.std.specs.Prelude.{◌≡◌, ◌≤◌, IfSome, length};
ghost use Rattle.dart_tokens.specs.Marks.{first_mark};

use crate::token::Kind;

/// The mark that a text begins with: its kind, and how many bytes it has; none, where it begins with
/// none. Of several the longest is taken.
pub fn mark_at(text: &[u8]) -> Option<(Kind, usize)>
    ensures mark { result ≡ first_mark text.now }
    ensures within { IfSome result (λ found. found.1 ≤ length text.now) }
{
    match text {
        [b'.', b'.', b'.', ..] => Some((Kind::PeriodPeriodPeriod, 3)),
        [b'?', b'.', b'.', ..] => Some((Kind::QuestionPeriodPeriod, 3)),
        [b'?', b'?', b'=', ..] => Some((Kind::QuestionQuestionEquals, 3)),
        [b'<', b'<', b'=', ..] => Some((Kind::LessLessEquals, 3)),
        [b'~', b'/', b'=', ..] => Some((Kind::TildeSlashEquals, 3)),
        [b'.', b'.', ..] => Some((Kind::PeriodPeriod, 2)),
        [b'?', b'.', ..] => Some((Kind::QuestionPeriod, 2)),
        [b'?', b'[', ..] => Some((Kind::QuestionBracket, 2)),
        [b'?', b'?', ..] => Some((Kind::QuestionQuestion, 2)),
        [b'=', b'=', ..] => Some((Kind::EqualsEquals, 2)),
        [b'=', b'>', ..] => Some((Kind::Arrow, 2)),
        [b'!', b'=', ..] => Some((Kind::BangEquals, 2)),
        [b'<', b'=', ..] => Some((Kind::LessEquals, 2)),
        [b'<', b'<', ..] => Some((Kind::LessLess, 2)),
        [b'+', b'+', ..] => Some((Kind::PlusPlus, 2)),
        [b'+', b'=', ..] => Some((Kind::PlusEquals, 2)),
        [b'-', b'-', ..] => Some((Kind::MinusMinus, 2)),
        [b'-', b'=', ..] => Some((Kind::MinusEquals, 2)),
        [b'*', b'=', ..] => Some((Kind::StarEquals, 2)),
        [b'/', b'=', ..] => Some((Kind::SlashEquals, 2)),
        [b'~', b'/', ..] => Some((Kind::TildeSlash, 2)),
        [b'%', b'=', ..] => Some((Kind::PercentEquals, 2)),
        [b'&', b'&', ..] => Some((Kind::AmpersandAmpersand, 2)),
        [b'&', b'=', ..] => Some((Kind::AmpersandEquals, 2)),
        [b'|', b'|', ..] => Some((Kind::BarBar, 2)),
        [b'|', b'=', ..] => Some((Kind::BarEquals, 2)),
        [b'^', b'=', ..] => Some((Kind::CaretEquals, 2)),
        [b'(', ..] => Some((Kind::OpenParenthesis, 1)),
        [b')', ..] => Some((Kind::CloseParenthesis, 1)),
        [b'[', ..] => Some((Kind::OpenBracket, 1)),
        [b']', ..] => Some((Kind::CloseBracket, 1)),
        [b'{', ..] => Some((Kind::OpenBrace, 1)),
        [b'}', ..] => Some((Kind::CloseBrace, 1)),
        [b',', ..] => Some((Kind::Comma, 1)),
        [b';', ..] => Some((Kind::Semicolon, 1)),
        [b':', ..] => Some((Kind::Colon, 1)),
        [b'.', ..] => Some((Kind::Period, 1)),
        [b'?', ..] => Some((Kind::Question, 1)),
        [b'=', ..] => Some((Kind::Equals, 1)),
        [b'!', ..] => Some((Kind::Bang, 1)),
        [b'<', ..] => Some((Kind::Less, 1)),
        [b'>', ..] => Some((Kind::Greater, 1)),
        [b'+', ..] => Some((Kind::Plus, 1)),
        [b'-', ..] => Some((Kind::Minus, 1)),
        [b'*', ..] => Some((Kind::Star, 1)),
        [b'/', ..] => Some((Kind::Slash, 1)),
        [b'~', ..] => Some((Kind::Tilde, 1)),
        [b'%', ..] => Some((Kind::Percent, 1)),
        [b'&', ..] => Some((Kind::Ampersand, 1)),
        [b'|', ..] => Some((Kind::Bar, 1)),
        [b'^', ..] => Some((Kind::Caret, 1)),
        [b'@', ..] => Some((Kind::At, 1)),
        [b'#', ..] => Some((Kind::Hash, 1)),
        _ => None,
    }
}
