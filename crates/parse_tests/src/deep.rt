//! Texts that are nested as deep as a tree may be, and deeper.
//!
//! 201 nodes may lie on a way down from a root at depth 0, itself among them. The table is a text: a
//! line is a case, `TEXT :: NOTATION`, both as `nesting` has them.

use crate::nesting::written_out;
use crate::reading::read;
use std::alloc::Global;
use std::test::Fail;

// What is read while there is room. An operator, a selector or a section deepens what stands on its
// left, so a chain of them ends where it has no room; a block without room is an error.
const NESTED: &str = "\
~ 200 ( a ) ~ :: ~ 200 (parenthesis_ a ) ~
~ 201 ( a ) ~ :: ~ 0 ~ none ~ ~
~ 10000 ( a ) ~ :: ~ 0 ~ none ~ ~
~ 201 [ ~ ] ~ :: ~ 200 (list_ (list) ) ~
~ 202 [ ~ ] ~ :: ~ 0 ~ none ~ ~
~ 200 -_ a ~ ; :: ~ 200 (-_ a ) _..
~ 199 -_ a ~ ; :: ~ 199 (-_ a ) ;
~ 200 -_ a ~ ~ :: ~ 200 (-_ a ) ~
~ 201 -_ a ~ ~ :: ~ 0 ~ none ~ ~
~ 200 throw_ a ~ ~ :: ~ 200 (throw_ a ) ~
~ 201 throw_ a ~ ~ :: ~ 0 ~ none ~ ~
~ 200 ()=> a ~ ~ :: ~ 200 (closure_=>_ a ) ~
~ 201 ()=> a ~ ~ :: ~ 0 ~ none ~ ~
~ 200 ~ a -a ~ :: ~ 200 (-_ a _a) ~
~ 201 ~ a -a ~ :: ~ 200 (-_ a _a) _..
~ 10000 ~ a -a ~ :: ~ 200 (-_ a _a) _..
~ 300 ~ a .b ~ :: ~ 200 (._ a _b) _..
~ 300 ~ a ..b ~ :: ~ 200 (.._ a _.b) _..
~ 300 a?b: a ~ ~ :: ~ 200 (?_a_b_ a ) _..
~ 300 a= a ~ ~ :: ~ 200 (=_a_ a ) _..
~ 150 ()=>f( ~ ~ ; :: ~ 0 ~ (closure_=>_f) ~ _..
~ 150 ()=>a? ~ ~ a; :: ~ 0 ~ (closure_=>_a) ~ _..
~ 150 ()=>a+( ~ ~ ; :: ~ 0 ~ (closure_=>_a) ~ _..
~ 150 a?b:c..[ @ ] ; :: ~ 0 ~ (?_a_b_c) ~ _..
~ 60 ()=>f( a ) ; :: ~ 60 (closure_=>_(call_f_ a )) ;
~ 200 if(a) ; ~ ~ :: ~ 200 (if_a_ ; ) ~
~ 201 if(a) ; ~ ~ :: ~ 0 ~ none ~ ~
~ 200 a: ; ~ ~ :: ~ 200 (label_a_ ; ) ~
~ 201 a: ; ~ ~ :: ~ 0 ~ a ~ _..
~ 201 { ~ } ~ :: ~ 200 (block_{ (block_{}) }) ~
~ 202 { ~ } ~ :: ~ 201 (block_{ (error) }) ~
~ 10000 { ~ } ~ :: ~ 201 (block_{ (error) }) ~
~ 201 { ~ }@; ~ :: ~ 200 (block_{ (block_{}) _(error)}) _..
~ 202 { ~ }@; ~ :: ~ 201 (block_{ (error) _(error)}) _..
~ 10000 { ~ }@; ~ :: ~ 201 (block_{ (error) _(error)}) _..
~ 100 {(){ ~ };} ~ :: ~ 50 (block_{(closure_{ (block_{(error)_(error)}) });}) ~";

// The notation of a line's text is that of the line.
fn is_right(alloc: Global, line: &str) -> Result<bool, Fail> {
    let (text, notation) = line.split_once(" :: ").ok_or("no notation")?;
    let found = read(alloc, written_out(alloc, text)?.as_str(), 0)?;
    Ok(found.as_str() == written_out(alloc, notation)?.as_str())
}

#[test]
fn nested_texts_are_read_as_far_as_there_is_room(rt: HostRuntime) -> Result<(), Fail> {
    for line in NESTED.lines() {
        assert!(rt; is_right(rt.alloc(), line)?, "{line}");
    }
    Ok(())
}
