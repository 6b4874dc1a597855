//! What is wrong with the tree of a unit.

ghost use Rattle.std.specs.Prelude.{◌≡◌, ◌<◌, ◌≤◌, ◌^◌, true, false, nat_lt, length, map, IfOk};
ghost use Rattle.std.specs.List.{AllWithin};
ghost use Rattle.std.specs.List.Sorted.{IsNonDecreasingBy};
ghost use Rattle.dart_scan.specs.Scanned.{tokens_of};
ghost use Rattle.grammar.specs.Tokens.{grammar_tokens};
ghost use Rattle.segment_faults.specs.Nesting.{AreDeep};
ghost use Rattle.dart_parse.specs.Faults.{fault_over, tree_faults};

use crate::unit::read_tokens;
use dart_text::Text;
use dart_tree::{Place, Span, Unit};
use error_nodes::error_nodes;
use grammar::Token;
use parse_expr::{starts_before_near, tokens_from};
use segment_faults::{SegmentFault, deep_tokens, segment_fault};
use std::alloc::{AllocError, Global};

/// A segment of a text that derives nothing, and what is wrong with it.
#[derive(Clone, Copy, Debug, PartialEq, Eq)]
pub struct TreeFault {
    /// The range from its first to its last token.
    pub span: Span,
    /// What is wrong with it.
    pub fault: SegmentFault,
}

/// What is wrong with the segment over which an error stands, before which so many tokens begin.
fn fault_over(text: &[Token], deep: &[bool], first: usize, at: Place) -> TreeFault
    requires ordered { IsNonDecreasingBy (λ t. t.start) text.now }
    requires deep { AreDeep text.now deep.now }
    requires bound { first ≤ length text.now }
    requires before { AllWithin (λ t. nat_lt t.start at.span.start ≡ true) text.now 0 first }
    requires behind { AllWithin (λ t. nat_lt t.start at.span.start ≡ false) text.now first (length text.now) }
    ensures { result ≡ fault_over text.now at }
{
    let count = tokens_from(text, first, &at).len();
    TreeFault {
        span: at.span,
        fault: segment_fault(text, deep, first, count),
    }
}

/// What is wrong with the segments over which errors stand. Each is searched for from the one before
/// it on.
fn faults_over(
    alloc: Global,
    text: &[Token],
    errors: &[Place],
) -> Result<Vec<TreeFault>, AllocError>
    requires few { length text.now < 2 ^ 32 }
    requires ordered { IsNonDecreasingBy (λ t. t.start) text.now }
    ensures { IfOk result (λ faults. faults.items ≡ map (fault_over text.now) errors.now) }
{
    let deep = deep_tokens(alloc, text)?;
    let mut faults = Vec::new(alloc);
    let mut near = 0;
    for at in errors {
        let first = starts_before_near(text, near, at.span.start);
        faults.push(fault_over(text, &deep, first, *at))?;
        near = first;
    }
    Ok(faults)
}

/// What is wrong with the tree of the unit of a text: each segment that derives nothing, in the order of
/// the text. The error is want of memory.
pub fn tree_faults(alloc: Global, text: &Text, unit: &Unit) -> Result<Vec<TreeFault>, AllocError>
    requires tokens { unit.now.tokens ≡ tokens_of text.now }
    requires few { length unit.now.tokens < 2 ^ 32 }
    ensures { IfOk result (λ faults. faults.items ≡ tree_faults (grammar_tokens (tokens_of text.now)) unit.now.tree) }
{
    let errors = error_nodes(alloc, &unit.tree)?;
    if errors.is_empty() {
        return Ok(Vec::new(alloc));
    }
    faults_over(alloc, read_tokens(text, &unit.tokens), &errors)
}
