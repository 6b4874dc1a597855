//! Types, blocks and parameters, read by themselves.
//!
//! The table is a text: a line is a case, `WHAT DEPTH TEXT :: END`. What is read has its root, or the
//! node that has the parameters, at the depth; the end is the number of tokens before what is left, or
//! `none`, where there is no such thing. 201 nodes may lie on a way down from a root at depth 0.

ghost use Rattle.std.specs.List.Sorted.{IsNonDecreasingBy};

use crate::reading::are_in_order;
use dart_scan::scan_grouped;
use dart_text::Text;
use grammar::Token;
use parse_expr::{parse_block, parse_parameters, parse_type};
use std::alloc::{AllocError, Global};
use std::test::Fail;

const PARTS: &str = "\
type 3 int :: 1
type 3 List<int>? a :: 5
type 3 void Function(int a)b :: 6
type 200 int :: 1
type 200 List<int> :: 1
type 201 int :: none
type 10000 int :: none
type 3 (a) :: none
block 3 {a;}b :: 4
block 3 {else} :: 3
block 200 {} :: 2
block 201 {} :: none
block 3 a; :: none
parameters 3 (a,int b)c :: 6
parameters 3 (a :: 2
parameters 199 (int a) :: 4
parameters 200 (int a) :: none
parameters 200 (a) :: 3
parameters 201 (a) :: none
parameters 10000 (a) :: none
parameters 3 a :: none";

// Where what was read ends.
fn end_of<T: Drop>(found: Option<(T, usize)>) -> Option<usize> {
    match found {
        Some((_, end)) => Some(end),
        None => None,
    }
}

// Where a type, a block or parameters end that the tokens begin with.
fn end(alloc: Global, what: &str, tokens: &[Token], depth: u32) -> Result<Option<usize>, AllocError>
    requires ordered { IsNonDecreasingBy (λ t. t.start) tokens.now }
{
    match what {
        "type" => Ok(end_of(parse_type(alloc, tokens, 0, depth)?)),
        "block" => Ok(end_of(parse_block(alloc, tokens, 0, depth)?)),
        _ => Ok(end_of(parse_parameters(alloc, tokens, 0, depth)?)),
    }
}

// The end that is found of a case.
fn found(alloc: Global, case: &str) -> Result<String, Fail> {
    let (what, rest) = case.split_once(" ").ok_or("no depth")?;
    let (depth, text) = rest.split_once(" ").ok_or("no text")?;
    let text = Text::from_str(alloc, text)?;
    let scanned = scan_grouped(alloc, &text)?;
    let tokens = scanned.tokens.read();
    if !are_in_order(tokens) {
        return Ok(String::from_str(alloc, "out of order")?);
    }
    match end(alloc, what, tokens, depth.parse::<u32>()?)? {
        Some(end) => Ok(format!(in alloc; "{end}")?),
        None => Ok(String::from_str(alloc, "none")?),
    }
}

#[test]
fn parts_end_where_their_lines_say(rt: HostRuntime) -> Result<(), Fail> {
    for line in PARTS.lines() {
        let (case, end) = line.split_once(" :: ").ok_or("no end")?;
        let found = found(rt.alloc(), case)?;
        assert_eq!(rt; found.as_str(), end, "{case}");
    }
    Ok(())
}
