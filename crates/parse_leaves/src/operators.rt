//! Operators.

ghost use Rattle.std.specs.Prelude.{◌≡◌, ◌≤◌, IfSome};
ghost use Rattle.grammar.specs.Tokens.{is, adjoins};
ghost use Rattle.grammar.specs.Operators.{level_of, signs, sign_in, shift_at, greater_at, sign_at, heads_sign, is_binary, take_binary, take_assignment};
ghost use Rattle.grammar.specs.Descents.{take_prefix, take_postfix};
ghost use Rattle.parse_leaves.specs.Answers.{Finds};
ghost use Rattle.parse_leaves.specs.Next.{level_of_word, next_level, is_level};

use crate::leaves::{first_tokens, tokens_behind};
use crate::places::{span_of, span_over};
use dart_tokens::Kind;
use dart_tree::{
    AssignmentOperator, BinaryOperator, BinaryOperatorKind, PostfixOperator, PostfixOperatorKind,
    UnaryOperator, UnaryOperatorKind,
};
use grammar::{Level, Sign, Token};

/// The level of an operator between two operands.
fn level_of(operator: BinaryOperatorKind) -> Level
    ensures { result ≡ level_of operator }
{
    match operator {
        BinaryOperatorKind::IfNull => Level::IfNull,
        BinaryOperatorKind::Or => Level::Or,
        BinaryOperatorKind::And => Level::And,
        BinaryOperatorKind::Equal => Level::Equality,
        BinaryOperatorKind::NotEqual => Level::Equality,
        BinaryOperatorKind::Less => Level::Relation,
        BinaryOperatorKind::Greater => Level::Relation,
        BinaryOperatorKind::LessOrEqual => Level::Relation,
        BinaryOperatorKind::GreaterOrEqual => Level::Relation,
        BinaryOperatorKind::BitOr => Level::BitOr,
        BinaryOperatorKind::BitXor => Level::BitXor,
        BinaryOperatorKind::BitAnd => Level::BitAnd,
        BinaryOperatorKind::ShiftLeft => Level::Shift,
        BinaryOperatorKind::ShiftRight => Level::Shift,
        BinaryOperatorKind::Add => Level::Sum,
        BinaryOperatorKind::Subtract => Level::Sum,
        BinaryOperatorKind::Multiply => Level::Product,
        BinaryOperatorKind::Divide => Level::Product,
        BinaryOperatorKind::TruncatingDivide => Level::Product,
        BinaryOperatorKind::Modulo => Level::Product,
    }
}

/// The operator of one lexeme.
fn sign_of(kind: Kind) -> Option<Sign>
    ensures { result ≡ sign_in signs kind }
{
    match kind {
        Kind::Star => Some(Sign::Binary(BinaryOperatorKind::Multiply)),
        Kind::Slash => Some(Sign::Binary(BinaryOperatorKind::Divide)),
        Kind::TildeSlash => Some(Sign::Binary(BinaryOperatorKind::TruncatingDivide)),
        Kind::Percent => Some(Sign::Binary(BinaryOperatorKind::Modulo)),
        Kind::Plus => Some(Sign::Binary(BinaryOperatorKind::Add)),
        Kind::Minus => Some(Sign::Binary(BinaryOperatorKind::Subtract)),
        Kind::LessLess => Some(Sign::Binary(BinaryOperatorKind::ShiftLeft)),
        Kind::Ampersand => Some(Sign::Binary(BinaryOperatorKind::BitAnd)),
        Kind::Caret => Some(Sign::Binary(BinaryOperatorKind::BitXor)),
        Kind::Bar => Some(Sign::Binary(BinaryOperatorKind::BitOr)),
        Kind::Less => Some(Sign::Binary(BinaryOperatorKind::Less)),
        Kind::LessEquals => Some(Sign::Binary(BinaryOperatorKind::LessOrEqual)),
        Kind::EqualsEquals => Some(Sign::Binary(BinaryOperatorKind::Equal)),
        Kind::BangEquals => Some(Sign::Binary(BinaryOperatorKind::NotEqual)),
        Kind::AmpersandAmpersand => Some(Sign::Binary(BinaryOperatorKind::And)),
        Kind::BarBar => Some(Sign::Binary(BinaryOperatorKind::Or)),
        Kind::QuestionQuestion => Some(Sign::Binary(BinaryOperatorKind::IfNull)),
        Kind::Equals => Some(Sign::Assign(None)),
        Kind::StarEquals => Some(Sign::Assign(Some(BinaryOperatorKind::Multiply))),
        Kind::SlashEquals => Some(Sign::Assign(Some(BinaryOperatorKind::Divide))),
        Kind::TildeSlashEquals => Some(Sign::Assign(Some(BinaryOperatorKind::TruncatingDivide))),
        Kind::PercentEquals => Some(Sign::Assign(Some(BinaryOperatorKind::Modulo))),
        Kind::PlusEquals => Some(Sign::Assign(Some(BinaryOperatorKind::Add))),
        Kind::MinusEquals => Some(Sign::Assign(Some(BinaryOperatorKind::Subtract))),
        Kind::LessLessEquals => Some(Sign::Assign(Some(BinaryOperatorKind::ShiftLeft))),
        Kind::AmpersandEquals => Some(Sign::Assign(Some(BinaryOperatorKind::BitAnd))),
        Kind::CaretEquals => Some(Sign::Assign(Some(BinaryOperatorKind::BitXor))),
        Kind::BarEquals => Some(Sign::Assign(Some(BinaryOperatorKind::BitOr))),
        Kind::QuestionQuestionEquals => Some(Sign::Assign(Some(BinaryOperatorKind::IfNull))),
        _ => None,
    }
}

/// The first token begins where the other ends.
fn adjoins(token: Token, other: Token) -> bool
    ensures { result ≡ adjoins token other }
{
    token.end == other.start
}

/// `>>=` or `>>`, and how many lexemes it has behind its first.
fn shift_at(first: Token, rest: &[Token]) -> (Sign, usize)
    ensures reading { result ≡ shift_at first rest.now }
    ensures few { result.1 ≤ 2 }
{
    match rest.split_first() {
        Some((next, _)) if adjoins(first, *next) && next.kind == Kind::Equals => {
            (Sign::Assign(Some(BinaryOperatorKind::ShiftRight)), 2)
        }
        _ => (Sign::Binary(BinaryOperatorKind::ShiftRight), 1),
    }
}

/// `>=`, `>>`, `>>=` or `>`, and how many lexemes it has behind its first.
fn greater_at(first: Token, rest: &[Token]) -> (Sign, usize)
    ensures reading { result ≡ greater_at first rest.now }
    ensures few { result.1 ≤ 2 }
{
    let Some((next, behind)) = rest.split_first() else {
        return (Sign::Binary(BinaryOperatorKind::Greater), 0);
    };
    if adjoins(first, *next) && next.kind == Kind::Equals {
        return (Sign::Binary(BinaryOperatorKind::GreaterOrEqual), 1);
    }
    if adjoins(first, *next) && next.kind == Kind::Greater {
        return shift_at(*next, behind);
    }
    (Sign::Binary(BinaryOperatorKind::Greater), 0)
}

/// The operator that comes next, and how many lexemes it has behind its first.
pub fn sign_at(tokens: &[Token]) -> Option<(Sign, usize)>
    ensures reading { result ≡ sign_at tokens.now }
    ensures few { IfSome result (λ x. x.1 ≤ 2) }
{
    let (first, rest) = tokens.split_first()?;
    if first.kind == Kind::Greater {
        return Some(greater_at(*first, rest));
    }
    match sign_of(first.kind) {
        Some(sign) => Some((sign, 0)),
        None => None,
    }
}

/// An operator of the level comes next.
pub fn heads_binary(tokens: &[Token], level: Level) -> bool
    ensures { result ≡ heads_sign (is_binary level) tokens.now }
{
    match sign_at(tokens) {
        Some((Sign::Binary(operator), _)) => level_of(operator) == level,
        Some((Sign::Assign(_), _)) => false,
        None => false,
    }
}

/// The level of `?`, `is` and `as`.
fn level_of_word(token: Token) -> Option<Level>
    ensures { result ≡ level_of_word token }
{
    if token.kind == Kind::Question {
        Some(Level::Conditional)
    } else if token.kind == Kind::Is || token.kind == Kind::As {
        Some(Level::Relation)
    } else {
        None
    }
}

/// The level that what comes next begins behind an operand, if it begins one.
pub fn next_level(tokens: &[Token]) -> Option<Level>
    ensures { result ≡ next_level tokens.now }
{
    let (first, _) = tokens.split_first()?;
    match sign_at(tokens) {
        Some((Sign::Binary(operator), _)) => Some(level_of(operator)),
        Some((Sign::Assign(_), _)) => None,
        None => level_of_word(*first),
    }
}

/// The level that comes next is this one.
pub fn is_level(found: Option<Level>, level: Level) -> bool
    ensures { result ≡ is_level level found }
{
    match found {
        Some(next) => next == level,
        None => false,
    }
}

/// An operator of the level.
pub fn binary_operator(tokens: &[Token], level: Level) -> Option<(BinaryOperator, &[Token])>
    ensures { Finds (λ x. (x.0, x.1.now)) result (take_binary level tokens.now) }
{
    let (sign, more) = sign_at(tokens)?;
    let span = span_over(first_tokens(tokens, more + 1));
    match sign {
        Sign::Binary(kind) => {
            if level_of(kind) == level {
                Some((
                    BinaryOperator { kind, span },
                    tokens_behind(tokens, more + 1),
                ))
            } else {
                None
            }
        }
        Sign::Assign(_) => None,
    }
}

/// An assignment operator.
pub fn assignment_operator(tokens: &[Token]) -> Option<(AssignmentOperator, &[Token])>
    ensures { Finds (λ x. (x.0, x.1.now)) result (take_assignment tokens.now) }
{
    let (sign, more) = sign_at(tokens)?;
    let span = span_over(first_tokens(tokens, more + 1));
    match sign {
        Sign::Binary(_) => None,
        Sign::Assign(compound) => Some((
            AssignmentOperator { compound, span },
            tokens_behind(tokens, more + 1),
        )),
    }
}

/// An operator that stands before its operand.
#[tactic(auto, unfolding(grammar::specs::Descents::take_prefix))]
pub fn prefix_operator(tokens: &[Token]) -> Option<(UnaryOperator, &[Token])>
    ensures { Finds (λ x. (x.0, x.1.now)) result (take_prefix tokens.now) }
{
    let (first, rest) = tokens.split_first()?;
    let span = span_of(*first);
    let kind = if first.kind == Kind::Minus {
        UnaryOperatorKind::Negate
    } else if first.kind == Kind::Bang {
        UnaryOperatorKind::Not
    } else if first.kind == Kind::Tilde {
        UnaryOperatorKind::Complement
    } else if first.kind == Kind::PlusPlus {
        UnaryOperatorKind::Increment
    } else if first.kind == Kind::MinusMinus {
        UnaryOperatorKind::Decrement
    } else {
        return None;
    };
    Some((UnaryOperator { kind, span }, rest))
}

/// An operator that stands behind its operand.
#[tactic(auto, unfolding(grammar::specs::Descents::take_postfix))]
pub fn postfix_operator(tokens: &[Token]) -> Option<(PostfixOperator, &[Token])>
    ensures { Finds (λ x. (x.0, x.1.now)) result (take_postfix tokens.now) }
{
    let (first, rest) = tokens.split_first()?;
    let span = span_of(*first);
    let kind = if first.kind == Kind::PlusPlus {
        PostfixOperatorKind::Increment
    } else if first.kind == Kind::MinusMinus {
        PostfixOperatorKind::Decrement
    } else {
        return None;
    };
    Some((PostfixOperator { kind, span }, rest))
}
