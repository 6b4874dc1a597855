//! Tokens with their groups, taken as they come.

ghost use Rattle.std.specs.Prelude.{◌≡◌, ◌<◌, ◌^◌, [], length};

use dart_tokens::Kind::{self, *};
use dart_tokens::{GroupFaultKind, Token};
use grouping::{Grouped, Grouping};
use std::alloc::{AllocError, Global};
use std::test::Fail;

// A token of this kind, whose words and ranges no group asks for.
fn token(kind: Kind) -> Token {
    Token {
        kind,
        start: 0,
        end: 1,
        word: 0,
    }
}

/// The kind of token that a letter stands for: a bracket is itself, `$` begins an interpolation, `;`
/// ends one, and any other letter is a name.
fn kind(letter: u8) -> Kind {
    match letter {
        b'(' => OpenParenthesis,
        b')' => CloseParenthesis,
        b'[' => OpenBracket,
        b']' => CloseBracket,
        b'{' => OpenBrace,
        b'}' => CloseBrace,
        b'$' => InterpolationOpening,
        b';' => InterpolationClosing,
        _ => Identifier,
    }
}

/// The tokens that these letters stand for.
fn tokens_of(alloc: Global, letters: &str) -> Result<Vec<Token>, AllocError> {
    let mut tokens = Vec::new(alloc);
    for letter in letters.as_bytes() {
        tokens.push(token(kind(*letter)))?;
    }
    Ok(tokens)
}

/// So many tokens of one kind, and as many of another behind them.
fn runs(alloc: Global, count: usize, first: Kind, second: Kind) -> Result<Vec<Token>, AllocError> {
    let mut tokens = Vec::new(alloc);
    for _ in 0..count {
        tokens.push(token(first))?;
    }
    for _ in 0..count {
        tokens.push(token(second))?;
    }
    Ok(tokens)
}

/// These tokens with their groups, by a grouping of none so far.
fn grouped(alloc: Global, none: Grouping, tokens: &[Token]) -> Result<Grouped, AllocError>
    requires none { none ≡ [] }
    requires few { length tokens.now < 2 ^ 32 }
{
    let mut grouping = none;
    for token in tokens {
        grouping.push(*token)?;
    }
    grouping.finish(alloc)
}

/// Of each token that is read its width and what is past, a digit each.
fn sizes_of(alloc: Global, grouped: &Grouped) -> Result<String, Fail> {
    let mut sizes = String::new(alloc);
    for token in grouped.tokens.read() {
        let (width, past) = (token.width, token.past());
        sizes.push_str(&format!(in alloc; " {width}{past}")?)?;
    }
    Ok(sizes)
}

/// The faults, each with `u` for a group that no bracket closes and `n` for a bracket that closes none.
fn faults_of(alloc: Global, grouped: &Grouped) -> Result<String, Fail> {
    let mut faults = String::new(alloc);
    for fault in grouped.faults.as_slice() {
        let letter = match fault.kind {
            GroupFaultKind::UnclosedGroup => "u",
            GroupFaultKind::UnopenedGroup => "n",
        };
        let place = fault.token;
        faults.push_str(&format!(in alloc; " {letter}{place}")?)?;
    }
    Ok(faults)
}

/// Each row: tokens, the sizes of the groups of those that are read, and the faults.
#[test]
fn groups_end_where_one_around_them_is_closed(rt: HostRuntime) -> Result<(), Fail> {
    let table: [(&str, &str, &str); 9] = [
        ("", "", ""),
        ("(a)", " 12 00 00", ""),
        ("(a", " 11 00", " u0"),
        ("a)b", " 00 00", " n1"),
        ("([)]", " 12 00 00", " u1 n3"),
        ("($)a;b)", " 45 12 00 00 00 00", " n2"),
        ("({[a)b", " 34 22 11 00 00 00", " u1 u2"),
        ("])(})", " 01 00", " n0 n1 n3"),
        ("[(]($}", " 12 00 00 11 00", " u1 u3 u4 n5"),
    ];
    for (letters, sizes, faults) in table {
        let tokens = tokens_of(rt.alloc(), letters)?;
        assert!(rt; tokens.len() == letters.len());
        assert!(rt; tokens.len() < 100);
        let found = grouped(rt.alloc(), Grouping::new(rt.alloc()), &tokens)?;
        assert_eq!(rt; sizes_of(rt.alloc(), &found)?.as_str(), sizes, "{letters}");
        assert_eq!(rt;
            faults_of(rt.alloc(), &found)?.as_str(),
            faults,
            "{letters}"
        );
    }
    Ok(())
}

/// A search of all open groups at each token would take hours.
#[test]
fn long_runs_of_brackets_take_linear_time(rt: HostRuntime) -> Result<(), Fail> {
    let table: [(Kind, Kind, usize); 3] = [
        (OpenParenthesis, CloseParenthesis, 0),
        (OpenParenthesis, CloseBracket, 400_000),
        (InterpolationOpening, CloseBrace, 400_000),
    ];
    for (first, second, faults) in table {
        let tokens = runs(rt.alloc(), 200_000, first, second)?;
        assert!(rt; tokens.len() == 400_000);
        let room = Grouping::with_room(rt.alloc(), 400_000)?;
        let found = grouped(rt.alloc(), room, &tokens)?;
        assert_eq!(rt; found.faults.as_slice().len(), faults);
    }
    Ok(())
}
