//! What is wrong with a segment.

ghost use Rattle.std.specs.Prelude.{◌≡◌, ◌+◌, ◌≤◌, length};
ghost use Rattle.segment_faults.specs.Faults.{fault_of, first_fault};
ghost use Rattle.segment_faults.specs.Nesting.{AreDeep};

use crate::fault::SegmentFault;
use crate::nesting::is_nested;
use crate::table::fault_at;
use grammar::Token;

/// What is wrong at the first place of the segment that fits the table.
fn first_fault(tokens: &[Token], first: usize, count: usize) -> Option<SegmentFault>
    requires within { first + count ≤ length tokens.now }
    ensures { result ≡ first_fault tokens.now first first count }
{
    for place in first..first + count {
        if let Some(fault) = fault_at(tokens, first, place) {
            return Some(fault);
        }
    }
    None
}

/// What is wrong with a segment of a text that derives nothing.
///
/// `first` is the place of its first token in the text, `count` how many tokens it has, those in its
/// groups among them, and `deep` is what `deep_tokens` gives for the text.
pub fn segment_fault(tokens: &[Token], deep: &[bool], first: usize, count: usize) -> SegmentFault
    requires deep { AreDeep tokens.now deep.now }
    requires within { first + count ≤ length tokens.now }
    ensures { result ≡ fault_of tokens.now first count }
{
    match first_fault(tokens, first, count) {
        Some(fault) => fault,
        None => {
            if is_nested(tokens, deep, first, count) {
                SegmentFault::Nesting
            } else {
                SegmentFault::Syntax
            }
        }
    }
}
