//! Laws of interface parts, over their definitions alone.

ghost use Rattle.std.specs.Prelude.{◌≡◌, ◌↔◌, ℕ, Bool, List, IsTrue, Some, length, slice_get};
ghost use Rattle.std.specs.List.{filter};
ghost use Rattle.dart_tokens.specs.declared.token.Kind.{Kind};
ghost use Rattle.dart_tokens.specs.declared.token.Token.{Token};
ghost use Rattle.dart_tree.specs.declared.places.Span.{Span};
ghost use Rattle.dart_tree.specs.declared.unit.Unit.{Unit};
ghost use Rattle.interface_part.specs.declared.hidden.Hidden.{Hidden};
ghost use Rattle.interface_part.specs.declared.numbers.NumberRange.{NumberRange};
ghost use Rattle.interface_part.specs.Parts.{Part, lexeme};
ghost use Rattle.interface_part.specs.Interface.{interface_of, letters_of, parts_of};
ghost use Rattle.interface_part.specs.Numbers.{HasNumber, number_at, number_to, numbers_over, seen_tokens, span_at, span_of_token, span_over, tokens_by_number};
ghost use Rattle.interface_part.specs.Order.{RangesInOrder, TokensApart, TokensInOrder, is_lexeme, is_mark, marked, unmarked};
ghost use Rattle.interface_part.specs.Runs.{seen_of};
ghost use Rattle.interface_part.specs.Same.{same_parts};

/// Interface parts of two units are equal exactly where what is seen of the units is: the lexemes
/// before, between and behind what a mark stands for agree one by one, by kind, letters and the
/// adjacency of each `>`, whatever stands in its place and wherever it stands. Where tokens and
/// ranges stand in the order of the text, the lexemes of an interface part are those of the tokens
/// that begin within no range for which a mark stands, and it has as many marks as there are such
/// ranges. And two interface parts are the same exactly where they are equal.
pub fn interface_laws()
    ensures seen { (u v : Unit) → (interface_of u ≡ interface_of v) ↔ (seen_of u ≡ seen_of v) }
    ensures lexemes { (words : List (List ℕ)) (hidden : List Hidden) (tokens : List Token) → TokensInOrder 0 tokens → RangesInOrder 0 hidden
        → filter is_lexeme (parts_of words hidden tokens) ≡ unmarked words tokens hidden tokens }
    ensures marks { (words : List (List ℕ)) (hidden : List Hidden) (tokens : List Token) → TokensInOrder 0 tokens → RangesInOrder 0 hidden
        → length (filter is_mark (parts_of words hidden tokens)) ≡ length (marked tokens hidden) }
    ensures same { (parts others : List Part) → IsTrue (same_parts parts others) ↔ (parts ≡ others) }
{}

/// Numbers and tokens lead to each other. The part with the number of a token is its lexeme, and each
/// lexeme of an interface part has a token. Where tokens stand apart, the number of each token that is
/// seen is found at its start and at its end, and its place by its number; nothing else is found. So a
/// range of tokens that are seen and the numbers of its first and last lead to each other. And where
/// two units have the same interface part, each number is that of the same lexeme in both.
pub fn number_laws()
    ensures part { (u : Unit) (t : Token) (number : ℕ) → HasNumber (tokens_by_number u) t number
        → (adjoins : Bool) × (slice_get (interface_of u) number ≡ Some (lexeme t.kind (letters_of u.words t) adjoins)) }
    ensures token { (u : Unit) (number : ℕ) (kind : Kind) (letters : List ℕ) (adjoins : Bool) → slice_get (interface_of u) number ≡ Some (lexeme kind letters adjoins)
        → (t : Token) × HasNumber (tokens_by_number u) t number × (t.kind ≡ kind) × (letters_of u.words t ≡ letters) }
    ensures found { (u : Unit) (t : Token) (number : ℕ) → TokensApart 0 u.tokens → HasNumber (tokens_by_number u) t number
        → (number_at (seen_tokens u) t.start ≡ Some number) × (number_to (seen_tokens u) t.end ≡ Some number) × (span_at (seen_tokens u) number ≡ Some (span_of_token t)) }
    ensures at { (u : Unit) (offset number : ℕ) → number_at (seen_tokens u) offset ≡ Some number → (t : Token) × HasNumber (tokens_by_number u) t number × (t.start ≡ offset) }
    ensures to { (u : Unit) (offset number : ℕ) → number_to (seen_tokens u) offset ≡ Some number → (t : Token) × HasNumber (tokens_by_number u) t number × (t.end ≡ offset) }
    ensures place { (u : Unit) (number : ℕ) (span : Span) → span_at (seen_tokens u) number ≡ Some span → (t : Token) × HasNumber (tokens_by_number u) t number × (span ≡ span_of_token t) }
    ensures range { (u : Unit) (span : Span) (numbers : NumberRange) → TokensApart 0 u.tokens → (numbers_over (seen_tokens u) span ≡ Some numbers) ↔ (span_over (seen_tokens u) numbers ≡ Some span) }
    ensures same { (u v : Unit) → interface_of u ≡ interface_of v → (t : Token) (number : ℕ) → HasNumber (tokens_by_number u) t number
        → (there : Token) × HasNumber (tokens_by_number v) there number × (there.kind ≡ t.kind) × (letters_of v.words there ≡ letters_of u.words t) }
{}
