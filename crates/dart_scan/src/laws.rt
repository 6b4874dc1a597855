//! Laws of the pieces of a text, over their definitions alone.

ghost use Rattle.std.specs.Prelude.{◌≡◌, ◌⊎◌, ◌<◌, ◌≤◌, [], ◌∷◌, ◌++◌, length, take, drop, codes, false, All, IsTrue, IfSome, IsSomeAnd, List, None, Some, ℕ, slice_get};
ghost use Rattle.std.specs.List.{flat_map};
ghost use Rattle.std.specs.Option.{ForSome};
ghost use Rattle.std.specs.Str.{IsUtf8};
ghost use Rattle.dart_tokens.specs.Marks.{marks};
ghost use Rattle.dart_scan.specs.Characters.{is_within_line};
ghost use Rattle.dart_scan.specs.Lexemes.{begins, word_size, integer_size, double_size, mark_size};
ghost use Rattle.dart_scan.specs.Comments.{IsComment, comment_size};
ghost use Rattle.dart_scan.specs.Strings.{string_form};
ghost use Rattle.dart_scan.specs.Pieces.{Read, Spelled, lexeme_at, next_at, within_steps, pieces};
ghost use Rattle.dart_scan.specs.WholeStrings.{BeginsWith, IsString, unterminated};
ghost use Rattle.dart_scan.specs.Scanned.{tokens_of, words_of};
ghost use Rattle.dart_scan.specs.TokenPlaces.{IsPart};
ghost use Rattle.dart_scan.specs.LexemeClasses.{IsLexeme, IsFirstPiece};
ghost use Rattle.dart_scan.specs.declared.piece.Class.{Class};
ghost use Rattle.dart_scan.specs.Suspended.{pieces_behind};
ghost use Rattle.dart_tokens.specs.declared.token.Token.{Token};

/// The pieces of a text cover it, one after another without overlap, and none is empty.
pub fn pieces_cover_a_text(_text: &[u8])
    ensures cover { flat_map (λ piece. piece.1) (pieces _text.now) ≡ _text.now }
    ensures some { All (λ piece. 0 < length piece.1) (pieces _text.now) }
{}

/// Each piece of a text in UTF-8 is in UTF-8: none begins or ends within a character.
pub fn pieces_of_a_text_are_texts(_text: &[u8])
    ensures { IsUtf8 _text.now → All (λ piece. IsUtf8 piece.1) (pieces _text.now) }
{}

/// A lexeme is the longest at its place: no word, integer, double or mark that the text begins with
/// is longer. Of the marks of punctuation that it begins with, the longest is taken.
pub fn a_lexeme_is_the_longest(_text: &[u8])
    ensures word { word_size _text.now ≤ (lexeme_at _text.now).size }
    ensures integer { integer_size _text.now ≤ (lexeme_at _text.now).size }
    ensures double { double_size _text.now ≤ (lexeme_at _text.now).size }
    ensures mark { mark_size _text.now ≤ (lexeme_at _text.now).size }
    ensures marks { All (λ mark. IsTrue (begins _text.now mark.0) → length mark.0 ≤ mark_size _text.now) marks }
{}

/// Where no string begins, the first piece of a text is no shorter than any word, integer, double or
/// mark of punctuation with which the text begins.
pub fn a_piece_is_the_longest_lexeme(_text: &[u8], _lexeme: &[u8])
    ensures { (class : Class) (rest : List ℕ) (piece : Spelled) (more : List Spelled) → string_form _text.now ≡ None → _text.now ≡ _lexeme.now ++ rest
        → IsLexeme class _lexeme.now → pieces_behind _text.now ≡ piece ∷ more → length _lexeme.now ≤ length piece.1 }
{}

/// Where no string begins, a text begins with its first piece, which is of its class: a word, an
/// integer, a double, a mark, white space, a comment, characters beyond ASCII, or a character with
/// which no lexeme begins. The further pieces are those of what stands behind it.
pub fn a_first_piece_is_of_its_class(_text: &[u8])
    ensures { (piece : Spelled) (more : List Spelled) → string_form _text.now ≡ None → pieces_behind _text.now ≡ piece ∷ more
        → (rest : List ℕ) × (_text.now ≡ piece.1 ++ rest) × (more ≡ pieces_behind rest) × IsFirstPiece piece.0 piece.1 rest }
{}

/// Where a text begins with a whole string of the grammar, this one is read: up to the first quotes
/// that are no part of an escape, with the braces of each interpolation matched. Where none begins
/// with the quotes that stand there, all that it may reach is one piece.
pub fn a_string_is_whole_or_one_piece(_text: &[u8])
    ensures whole { ForSome (string_form _text.now) (λ form. (read : Read) → IsString form _text.now read → BeginsWith _text.now read) }
    ensures otherwise { ForSome (string_form _text.now) (λ form.
        ((read : Read) × IsString form _text.now read) ⊎ (((read : Read) → IsString form _text.now read → ⊥) × BeginsWith _text.now (unterminated form _text.now))) }
{}

/// A string of one quote, whether it ends or not, holds no line feed and no carriage return, in its
/// interpolations neither.
pub fn a_string_of_one_quote_stands_in_a_line(_text: &[u8])
    ensures { ForSome (string_form _text.now) (λ form. length form.quotes ≡ 1
        → All (λ byte. IsTrue (is_within_line byte)) (flat_map (λ piece. piece.1) (next_at (within_steps (length _text.now)) false _text.now).pieces)) }
{}

/// How far a comment goes is as the grammar of comments says. Where it ends after some bytes, from its
/// `/*` on, these are a comment; and a text that begins with a comment has this one there, none that
/// is shorter or longer.
pub fn a_comment_is_as_its_grammar_says(_text: &[u8], _comment: &[u8])
    ensures sound { IfSome (comment_size _text.now) (λ size. IsComment (take size (codes "/*" ++ _text.now))) }
    ensures complete { IsComment _comment.now → comment_size (drop 2 (_comment.now ++ _text.now)) ≡ Some (length _comment.now) }
{}

/// The tokens of a text rise: each takes a code unit at least, and ends before any later one begins, or
/// right there.
pub fn tokens_rise(_text: &[u8])
    ensures some { IsUtf8 _text.now → All (λ token. token.start < token.end) (tokens_of _text.now) }
    ensures apart { IsUtf8 _text.now → (first second : ℕ) (one other : Token) → first < second
        → slice_get (tokens_of _text.now) first ≡ Some one → slice_get (tokens_of _text.now) second ≡ Some other → one.end ≤ other.start }
{}

/// The word of a token is its lexeme: the part of the text from where it begins to where it ends.
pub fn a_word_is_its_lexeme(_text: &[u8])
    ensures { All (λ token. IsSomeAnd (slice_get (words_of _text.now) token.word) (IsPart _text.now token)) (tokens_of _text.now) }
{}
