//! Texts and strings, and what they are read as.

use dart_tokens::{Kind, Token};

/// A text, and its lexemes with its faults, as `code@offset+length`.
pub type TextRow = (&'static str, &'static str);

/// The kind of a lexeme of a string, the lexeme, and the code units that it stands for.
pub type ValueRow = (Kind, &'static str, &'static [u16]);

/// Every mark of punctuation.
const MARKS: &str =
    "( ) [ ] { } , ; : . .. ... ?. ?.. ?[ ? ?? ??= = == => ! != < <= << <<= > + ++ += - -- -= * *= / /= ~ ~/ ~/= % %= & && &= | || |= ^ ^= @ #";

/// The longest lexemes, strings with their parts, and faults.
pub fn text_rows() -> &'static [TextRow] {
    &[
        (MARKS, MARKS),
        ("", ""),
        (">>=", "> > ="),
        (">==", "> =="),
        ("a?..b", "a ?.. b"),
        ("?...", "?.. ."),
        ("....", "... ."),
        ("a?.b?[0]", "a ?. b ?[ 0 ]"),
        ("~/=~/~", "~/= ~/ ~"),
        ("???=", "?? ? ="),
        ("<<<=", "<< <="),
        ("===", "== ="),
        ("=>>", "=> >"),
        ("a+++b", "a ++ + b"),
        ("1.5 .5 1e9 1.5e-3 1E+2 0", "1.5 .5 1e9 1.5e-3 1E+2 0"),
        ("1.e3", "1 . e3"),
        ("1..2", "1 .. 2"),
        ("1.2.3", "1.2 .3"),
        ("1e+", "1 e +"),
        ("0x1F 0XaB 0x1e5", "0x1F 0XaB 0x1e5"),
        ("0xg 0x", "0 xg 0 x"),
        ("0x1.5", "0x1 .5"),
        ("12if", "12 if"),
        ("_a $b c$d e1", "_a $b c$d e1"),
        ("a//b\nc//d\re//", "a c e"),
        ("a/*b/*c*/d*/e/**/", "a e"),
        ("/*/ */a/b", "a / b"),
        ("''\"\"''''''", "'' \"\" ''''''"),
        ("'''a'b''c'''", "'''a'b''c'''"),
        ("\"\"\"\n\"\"\"", "\"\"\"\n\"\"\""),
        ("r'a'r\"b\"r 'c'", "r'a' r\"b\" r 'c'"),
        ("r'''\\'''", "r'''\\'''"),
        ("r'$a${b}\\'", "r'$a${b}\\'"),
        ("'\\''\"\\\"\"", "'\\'' \"\\\"\""),
        ("'\\\\'a", "'\\\\' a"),
        ("'\\$a\\${b}'", "'\\$a\\${b}'"),
        ("'a${b}c'", "'a ${ b } c'"),
        ("'$a$b'", "' $ a $ b '"),
        ("'$a-$b'", "' $ a - $ b '"),
        ("'$this.x'", "' $ this .x'"),
        ("'$if$x'", "'$if $ x '"),
        ("'$''$1''$$a'", "'$' '$1' '$ $ a '"),
        ("'$a$b$'", "' $ a $ b $'"),
        ("'${a}${b}'", "' ${ a } ${ b } '"),
        ("'${{a}}'", "' ${ { a } } '"),
        ("'${'}'}'", "' ${ '}' } '"),
        ("'${'${'x'}'}'", "' ${ ' ${ 'x' } ' } '"),
        ("\"${m[\"k\"]}\"", "\" ${ m [ \"k\" ] } \""),
        ("'${a/*}*/}'", "' ${ a } '"),
        ("'''${\n'a'\n}'''", "''' ${ 'a' } '''"),
        ("\u{feff}a", "a"),
        ("a\u{feff}b", "a b profile_identifier@1+1"),
        ("aé", "a profile_identifier@1+1"),
        ("é😀x", "x profile_identifier@0+3"),
        ("``", "illegal_character@0+1 illegal_character@1+1"),
        ("a\\\u{0}", "a illegal_character@1+1 illegal_character@2+1"),
        ("'😀'`", "'😀' illegal_character@4+1"),
        ("/*😀*/`", "illegal_character@6+1"),
        ("a/*b", "a unterminated_comment@1+3"),
        ("/*/**/*", "unterminated_comment@0+7"),
        ("'a", "'a unterminated_string@0+2"),
        ("r'a", "r'a unterminated_string@1+2"),
        (
            "'a\nb\"",
            "'a b \" unterminated_string@0+2 unterminated_string@4+1",
        ),
        ("'a\r`", "'a unterminated_string@0+2 illegal_character@3+1"),
        ("'''a\n'", "'''a\n' unterminated_string@0+6"),
        ("r'\\''", "r'\\' ' unterminated_string@4+1"),
        ("'a${b\n}", "'a${b } unterminated_string@0+5"),
        ("'${'", "'${' unterminated_string@0+4"),
        ("'${/*'", "'${/*' unterminated_string@0+6"),
        ("'''${'a'", "'''${'a' unterminated_string@0+8"),
        ("'\\x4é`", "'\\x4é` unterminated_string@0+6"),
        ("'\\x4'", "'\\x4' bad_escape@1+3"),
        ("'\\x'", "'\\x' bad_escape@1+2"),
        ("'\\u12'", "'\\u12' bad_escape@1+4"),
        ("'\\u{}'", "'\\u{}' bad_escape@1+4"),
        ("'\\u{110000}'", "'\\u{110000}' bad_escape@1+10"),
        ("'\\u{1234567}'", "'\\u{1234567}' bad_escape@1+11"),
        ("'\\u{41'", "'\\u{41' bad_escape@1+5"),
        ("'\\x4\\u1'", "'\\x4\\u1' bad_escape@1+3 bad_escape@4+3"),
        ("'😀\\x4'", "'😀\\x4' bad_escape@3+3"),
        (
            "'\\x4$a\\x5$b\\x6'",
            "'\\x4 $ a \\x5 $ b \\x6' bad_escape@1+3 bad_escape@6+3 bad_escape@11+3",
        ),
        (
            "r'\\x4''\\\\x4''\\q\\uD800'",
            "r'\\x4' '\\\\x4' '\\q\\uD800'",
        ),
    ]
}

/// Strings and their values.
pub fn value_rows() -> &'static [ValueRow] {
    &[
        (Kind::StringLiteral, "''", &[]),
        (Kind::StringLiteral, "\"a'b\"", &[97, 39, 98]),
        (Kind::StringLiteral, "'''a'b'''", &[97, 39, 98]),
        (
            Kind::StringLiteral,
            "'é€😀'",
            &[0xE9, 0x20AC, 0xD83D, 0xDE00],
        ),
        (
            Kind::StringLiteral,
            "'\\n\\r\\f\\b\\t\\v'",
            &[10, 13, 12, 8, 9, 11],
        ),
        (Kind::StringLiteral, "'\\x41\\x7aB'", &[65, 122, 66]),
        (Kind::StringLiteral, "'\\u00E9\\uD800'", &[0xE9, 0xD800]),
        (
            Kind::StringLiteral,
            "'\\u{41}\\u{1F600}'",
            &[65, 0xD83D, 0xDE00],
        ),
        (
            Kind::StringLiteral,
            "'\\u{10FFFF}\\u{D800}'",
            &[0xDBFF, 0xDFFF, 0xD800],
        ),
        (
            Kind::StringLiteral,
            "'\\q\\$\\\\\\'\\é'",
            &[113, 36, 92, 39, 0xE9],
        ),
        (Kind::StringLiteral, "'\\x4g\\xg'", &[103, 103]),
        (
            Kind::StringLiteral,
            "'\\u12\\u{}\\u{110000}\\u{1234567}'",
            &[],
        ),
        (Kind::StringLiteral, "'\\u{41'", &[]),
        (Kind::StringLiteral, "' \\\na'", &[32, 10, 97]),
        (Kind::StringLiteral, "'''\na'''", &[97]),
        (Kind::StringLiteral, "'''\ra'''", &[97]),
        (Kind::StringLiteral, "'''\r\na'''", &[97]),
        (Kind::StringLiteral, "'''\n\ra'''", &[13, 97]),
        (Kind::StringLiteral, "''' \t\n\na'''", &[10, 97]),
        (Kind::StringLiteral, "\"\"\"\\ \\\t\\\r\na\"\"\"", &[97]),
        (Kind::StringLiteral, "''' \\a\n'''", &[32, 97, 10]),
        (Kind::StringLiteral, "''' \\\\\n'''", &[32, 92, 10]),
        (Kind::StringLiteral, "''' '''", &[32]),
        (Kind::StringLiteral, "'''a\r\nb'''", &[97, 13, 10, 98]),
        (Kind::StringLiteral, "r'\\n$a'", &[92, 110, 36, 97]),
        (Kind::StringLiteral, "r'''\\\na'''", &[97]),
        (Kind::StringLiteral, "r' \n'", &[32, 10]),
        (Kind::StringOpening, "'a", &[97]),
        (Kind::StringOpening, "'''\n", &[]),
        (Kind::StringPart, "\n\\x41", &[10, 65]),
        (Kind::StringClosing, "a'", &[97]),
        (Kind::StringClosing, "a\"\"\"", &[97]),
        (Kind::StringClosing, "\\''", &[39]),
        (Kind::StringClosing, "'''", &[]),
        (Kind::UnterminatedString, "'a", &[]),
        (Kind::Identifier, "a", &[]),
    ]
}

/// A text whose characters take one code unit or two.
pub const TOKENS_TEXT: &str = "if late a '😀$a' show 1 1. >";

/// The tokens of this text.
pub fn token_rows() -> &'static [Token] {
    &[
        Token {
            kind: Kind::If,
            start: 0,
            end: 2,
            word: 0,
        },
        Token {
            kind: Kind::Late,
            start: 3,
            end: 7,
            word: 1,
        },
        Token {
            kind: Kind::Identifier,
            start: 8,
            end: 9,
            word: 2,
        },
        Token {
            kind: Kind::StringOpening,
            start: 10,
            end: 13,
            word: 3,
        },
        Token {
            kind: Kind::InterpolationMark,
            start: 13,
            end: 14,
            word: 4,
        },
        Token {
            kind: Kind::Identifier,
            start: 14,
            end: 15,
            word: 2,
        },
        Token {
            kind: Kind::StringClosing,
            start: 15,
            end: 16,
            word: 5,
        },
        Token {
            kind: Kind::Show,
            start: 17,
            end: 21,
            word: 6,
        },
        Token {
            kind: Kind::Integer,
            start: 22,
            end: 23,
            word: 7,
        },
        Token {
            kind: Kind::Integer,
            start: 24,
            end: 25,
            word: 7,
        },
        Token {
            kind: Kind::Period,
            start: 25,
            end: 26,
            word: 8,
        },
        Token {
            kind: Kind::Greater,
            start: 27,
            end: 28,
            word: 9,
        },
    ]
}
