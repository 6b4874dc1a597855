//! The tokens that stand at a place of a text, found by the offsets at which tokens begin.

ghost use Rattle.std.specs.Prelude.{◌≡◌, ◌≤◌, true, false, nat_lt, length};
ghost use Rattle.std.specs.List.{AllWithin};
ghost use Rattle.std.specs.List.Sorted.{IsNonDecreasingBy};
ghost use Rattle.grammar.specs.Whole.{tokens_over as tokens_at};

use dart_tree::Place;
use grammar::Token;
use parse_leaves::{first_tokens, tokens_behind};

/// How many of the tokens begin before an offset.
pub(crate) fn starts_before(tokens: &[Token], offset: u32) -> usize
    requires ordered { IsNonDecreasingBy (λ t. t.start) tokens.now }
    ensures bound { result ≤ length tokens.now }
    ensures before { AllWithin (λ t. nat_lt t.start offset ≡ true) tokens.now 0 result }
    ensures behind { AllWithin (λ t. nat_lt t.start offset ≡ false) tokens.now result (length tokens.now) }
{
    tokens.partition_point(|token| token.start < offset)
}

/// So many tokens all begin before an offset, since the last of them does.
fn all_start_before(tokens: &[Token], count: usize, offset: u32) -> bool
    requires ordered { IsNonDecreasingBy (λ t. t.start) tokens.now }
    requires few { count ≤ length tokens.now }
    ensures { result ≡ true → AllWithin (λ t. nat_lt t.start offset ≡ true) tokens.now 0 count }
{
    if count == 0 {
        return true;
    }
    tokens[count - 1].start < offset
}

/// Behind so many tokens none begins before an offset, since the next one doesn't.
fn none_starts_before(tokens: &[Token], count: usize, offset: u32) -> bool
    requires ordered { IsNonDecreasingBy (λ t. t.start) tokens.now }
    ensures { result ≡ true → AllWithin (λ t. nat_lt t.start offset ≡ false) tokens.now count (length tokens.now) }
{
    if count >= tokens.len() {
        return true;
    }
    tokens[count].start >= offset
}

/// Of how many tokens at the front those that begin before an offset are searched for: a power of two,
/// the first with a token behind it that doesn't.
fn window(tokens: &[Token], offset: u32) -> usize {
    let mut size: usize = 1;
    let mut more = 64;
    while more > 0 {
        let Some(token) = tokens.get(size) else {
            return size;
        };
        if token.start >= offset {
            return size;
        }
        size = size.saturating_mul(2);
        more -= 1;
    }
    size
}

/// How many of the tokens begin before an offset, where at least `near` do. Contracts say nothing of
/// it: whoever asks looks at the tokens there.
fn likely_before(tokens: &[Token], near: usize, offset: u32) -> usize {
    let ahead = tokens_behind(tokens, near);
    let few = first_tokens(ahead, window(ahead, offset));
    near.saturating_add(few.partition_point(|token| token.start < offset))
}

/// How many of the tokens begin before an offset. It takes steps in the logarithm of how many more
/// than `near` these are, and where they are fewer in that of how many tokens there are.
pub fn starts_before_near(tokens: &[Token], near: usize, offset: u32) -> usize
    requires ordered { IsNonDecreasingBy (λ t. t.start) tokens.now }
    ensures bound { result ≤ length tokens.now }
    ensures before { AllWithin (λ t. nat_lt t.start offset ≡ true) tokens.now 0 result }
    ensures behind { AllWithin (λ t. nat_lt t.start offset ≡ false) tokens.now result (length tokens.now) }
{
    let likely = likely_before(tokens, near, offset);
    if likely <= tokens.len()
        && all_start_before(tokens, likely, offset)
        && none_starts_before(tokens, likely, offset)
    {
        return likely;
    }
    starts_before(tokens, offset)
}

/// The tokens of a text that stand at a place, behind those that begin before it, which are so many.
#[tactic(auto, using(crate::proofs::Starts::tokens_at, crate::proofs::Starts::ordered_behind))]
pub fn tokens_from<'k>(text: &'k [Token], first: usize, at: &Place) -> &'k [Token]
    requires ordered { IsNonDecreasingBy (λ t. t.start) text.now }
    requires bound { first ≤ length text.now }
    requires before { AllWithin (λ t. nat_lt t.start at.now.span.start ≡ true) text.now 0 first }
    requires behind { AllWithin (λ t. nat_lt t.start at.now.span.start ≡ false) text.now first (length text.now) }
    ensures { result.now ≡ tokens_at text.now at.now }
{
    let behind = tokens_behind(text, first);
    first_tokens(behind, starts_before_near(behind, 0, at.span.end))
}
