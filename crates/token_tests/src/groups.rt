//! Groups of long lists of tokens; words and marks.

use dart_tokens::Kind::{self, *};
use dart_tokens::{Token, group, is_reserved, kind_of_word, mark_at};
use std::alloc::{AllocError, Global};
use std::test::Fail;

fn token(kind: Kind, start: u32) -> Token {
    Token {
        kind,
        start,
        end: start,
        word: 0,
    }
}

/// So many tokens of one kind, and then so many of another.
fn runs(alloc: Global, count: u32, first: Kind, second: Kind) -> Result<Vec<Token>, AllocError> {
    let mut tokens = Vec::new(alloc);
    for place in 0..count {
        tokens.push(token(first, place))?;
    }
    for place in 0..count {
        tokens.push(token(second, place))?;
    }
    Ok(tokens)
}

/// A search of all open groups at each token would take hours.
#[test]
fn long_lists_take_linear_time(rt: HostRuntime) -> Result<(), Fail> {
    let table: [(Kind, Kind, u32, usize); 3] = [
        (OpenParenthesis, CloseParenthesis, 399_999, 0),
        (OpenParenthesis, CloseBracket, 400_000, 400_000),
        (InterpolationOpening, CloseBrace, 400_000, 400_000),
    ];
    for (first, second, partner, faults) in table {
        let tokens = runs(rt.alloc(), 200_000, first, second)?;
        assert!(rt; tokens.len() == 400_000);
        let groups = group(rt.alloc(), &tokens)?;
        assert_eq!(rt; groups.partner.as_slice().first(), Some(&Some(partner)));
        assert_eq!(rt; groups.faults.as_slice().len(), faults);
    }
    Ok(())
}

#[test]
fn words_and_marks_are_told_by_their_bytes(rt: HostRuntime) {
    let words: [(&str, Kind, bool); 5] = [
        ("with", With, true),
        ("asserts", Identifier, false),
        ("Function", Function, false),
        ("on", On, false),
        ("", Identifier, false),
    ];
    for (word, kind, reserved) in words {
        assert_eq!(rt; kind_of_word(word.as_bytes()), kind, "{word}");
        assert_eq!(rt; is_reserved(word.as_bytes()), reserved, "{word}");
        assert_eq!(rt; kind.is_reserved_word(), reserved, "{word}");
    }
    let marks: [(&str, Option<(Kind, usize)>); 3] = [
        ("..a", Some((PeriodPeriod, 2))),
        (">>=", Some((Greater, 1))),
        ("a", None),
    ];
    for (text, mark) in marks {
        assert_eq!(rt; mark_at(text.as_bytes()), mark, "{text}");
    }
}
