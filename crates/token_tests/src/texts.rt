//! Texts and strings: what they are read as.

use crate::rows::{TOKENS_TEXT, text_rows, token_rows, value_rows};
use dart_scan::{scan, string_value};
use dart_text::Text;
use dart_tokens::{Kind, LexFault, LexFaultKind, Scanned, Token};
use std::alloc::Global;
use std::test::Fail;

fn code_of(kind: LexFaultKind) -> &'static str {
    match kind {
        LexFaultKind::UnterminatedComment => "unterminated_comment",
        LexFaultKind::UnterminatedString => "unterminated_string",
        LexFaultKind::BadEscape => "bad_escape",
        LexFaultKind::IllegalCharacter => "illegal_character",
        LexFaultKind::ProfileIdentifier => "profile_identifier",
    }
}

/// One word more, with a blank before it if it isn't the first.
fn push_word(told: &mut String, word: &str) -> Result<(), Fail> {
    if !told.is_empty() {
        told.push_str(" ")?;
    }
    told.push_str(word)?;
    Ok(())
}

fn push_token(told: &mut String, scanned: &Scanned, token: Token) -> Result<(), Fail> {
    match scanned.words.as_slice().get(token.word as usize) {
        Some(word) => push_word(told, word.as_str()),
        None => push_word(told, "no word"),
    }
}

fn push_fault(alloc: Global, told: &mut String, fault: LexFault) -> Result<(), Fail> {
    let code = code_of(fault.kind);
    let length = fault.end.saturating_sub(fault.start);
    let word = format!(in alloc; "{}@{}+{}", code, fault.start, length)?;
    push_word(told, word.as_str())
}

/// What a text is read as.
fn scanned(alloc: Global, text: &str) -> Result<Scanned, Fail> {
    let text = Text::from_str(alloc, text)?;
    let scanned = scan(alloc, &text)?;
    Ok(scanned)
}

/// The lexemes of a text, and its faults as `code@offset+length`.
fn told(alloc: Global, text: &str) -> Result<String, Fail> {
    let scanned = scanned(alloc, text)?;
    let mut told = String::new(alloc);
    for token in scanned.tokens.as_slice() {
        push_token(&mut told, &scanned, *token)?;
    }
    for fault in scanned.faults.as_slice() {
        push_fault(alloc, &mut told, *fault)?;
    }
    Ok(told)
}

/// The units that a lexeme of a string stands for.
fn value(alloc: Global, kind: Kind, lexeme: &str) -> Result<Vec<u16>, Fail> {
    let value = string_value(alloc, kind, lexeme)?;
    Ok(value)
}

#[test]
fn texts_are_read_as_their_rows_say(rt: HostRuntime) -> Result<(), Fail> {
    for (text, expected) in text_rows() {
        let found = told(rt.alloc(), text)?;
        assert_eq!(rt; found.as_str(), *expected);
    }
    Ok(())
}

#[test]
fn strings_have_the_values_of_their_rows(rt: HostRuntime) -> Result<(), Fail> {
    for (kind, lexeme, expected) in value_rows() {
        let found = value(rt.alloc(), *kind, lexeme)?;
        assert_eq!(rt; found.as_slice(), *expected);
    }
    Ok(())
}

#[test]
fn tokens_have_kinds_places_and_words(rt: HostRuntime) -> Result<(), Fail> {
    let found = scanned(rt.alloc(), TOKENS_TEXT)?;
    assert_eq!(rt; found.tokens.as_slice(), token_rows());
    assert_eq!(rt; found.words.as_slice().len(), 10);
    Ok(())
}
