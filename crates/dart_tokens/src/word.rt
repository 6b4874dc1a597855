//! What token a word is.

ghost use Rattle.std.specs.Prelude.{◌≡◌, map};
ghost use Rattle.dart_tokens.specs.declared.token.Kind.TheVariants as kind;
ghost use Rattle.dart_tokens.specs.Rows.{words_from};
ghost use Rattle.dart_tokens.specs.Words.{is_reserved, kind_beside, kind_of_word};

use crate::token::Kind;

/// A word of the grammar, and its kind.
type Row = (&'static [u8], Kind);

// The words of the grammar by their first letters: reserved words first, then built-in identifiers,
// then others.

const A: [Row; 5] = [
    (b"assert", Kind::Assert),
    (b"abstract", Kind::Abstract),
    (b"as", Kind::As),
    (b"async", Kind::Async),
    (b"await", Kind::Await),
];

const B: [Row; 1] = [(b"break", Kind::Break)];

const C: [Row; 6] = [
    (b"case", Kind::Case),
    (b"catch", Kind::Catch),
    (b"class", Kind::Class),
    (b"const", Kind::Const),
    (b"continue", Kind::Continue),
    (b"covariant", Kind::Covariant),
];

const D: [Row; 4] = [
    (b"default", Kind::Default),
    (b"do", Kind::Do),
    (b"deferred", Kind::Deferred),
    (b"dynamic", Kind::Dynamic),
];

const E: [Row; 6] = [
    (b"else", Kind::Else),
    (b"enum", Kind::Enum),
    (b"extends", Kind::Extends),
    (b"export", Kind::Export),
    (b"extension", Kind::Extension),
    (b"external", Kind::External),
];

const UPPER_F: [Row; 1] = [(b"Function", Kind::Function)];

const F: [Row; 5] = [
    (b"false", Kind::False),
    (b"final", Kind::Final),
    (b"finally", Kind::Finally),
    (b"for", Kind::For),
    (b"factory", Kind::Factory),
];

const G: [Row; 1] = [(b"get", Kind::Get)];

const H: [Row; 1] = [(b"hide", Kind::Hide)];

const I: [Row; 6] = [
    (b"if", Kind::If),
    (b"in", Kind::In),
    (b"is", Kind::Is),
    (b"implements", Kind::Implements),
    (b"import", Kind::Import),
    (b"interface", Kind::Interface),
];

const L: [Row; 2] = [(b"late", Kind::Late), (b"library", Kind::Library)];

const M: [Row; 1] = [(b"mixin", Kind::Mixin)];

const N: [Row; 3] = [
    (b"new", Kind::New),
    (b"null", Kind::Null),
    (b"native", Kind::Native),
];

const O: [Row; 3] = [
    (b"operator", Kind::Operator),
    (b"of", Kind::Of),
    (b"on", Kind::On),
];

const P: [Row; 1] = [(b"part", Kind::Part)];

const R: [Row; 3] = [
    (b"rethrow", Kind::Rethrow),
    (b"return", Kind::Return),
    (b"required", Kind::Required),
];

const S: [Row; 6] = [
    (b"super", Kind::Super),
    (b"switch", Kind::Switch),
    (b"set", Kind::Set),
    (b"static", Kind::Static),
    (b"show", Kind::Show),
    (b"sync", Kind::Sync),
];

const T: [Row; 5] = [
    (b"this", Kind::This),
    (b"throw", Kind::Throw),
    (b"true", Kind::True),
    (b"try", Kind::Try),
    (b"typedef", Kind::Typedef),
];

const V: [Row; 2] = [(b"var", Kind::Var), (b"void", Kind::Void)];

const W: [Row; 2] = [(b"while", Kind::While), (b"with", Kind::With)];

const Y: [Row; 1] = [(b"yield", Kind::Yield)];

/// The kind of a word. One that the grammar does not name is an identifier.
pub fn kind_of_word(word: &[u8]) -> Kind
    ensures { result ≡ kind_of_word word.now }
{
    match word.first() {
        Some(first) => kind_among(word, rows_from(*first)),
        None => Kind::Identifier,
    }
}

/// The words of the grammar that begin with a byte.
fn rows_from(first: u8) -> &'static [Row]
    ensures { map (λ row. (row.0.now, row.1)) result.now ≡ words_from first }
{
    match first {
        b'a' => &A,
        b'b' => &B,
        b'c' => &C,
        b'd' => &D,
        b'e' => &E,
        b'F' => &UPPER_F,
        b'f' => &F,
        b'g' => &G,
        b'h' => &H,
        b'i' => &I,
        b'l' => &L,
        b'm' => &M,
        b'n' => &N,
        b'o' => &O,
        b'p' => &P,
        b'r' => &R,
        b's' => &S,
        b't' => &T,
        b'v' => &V,
        b'w' => &W,
        b'y' => &Y,
        _ => &[],
    }
}

/// The kind beside the word in a table; of a word that is not there, an identifier.
fn kind_among(word: &[u8], rows: &[Row]) -> Kind
    ensures { result ≡ kind_beside word.now kind.Identifier (map (λ row. (row.0.now, row.1)) rows.now) }
{
    for (name, kind) in rows {
        if word == *name {
            return *kind;
        }
    }
    Kind::Identifier
}

/// Whether a word is reserved, and so is no identifier.
pub fn is_reserved(word: &[u8]) -> bool
    ensures { result ≡ is_reserved word.now }
{
    kind_of_word(word).is_reserved_word()
}
