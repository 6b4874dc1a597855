//! Texts that are nested as deep as a tree may be, and deeper.
//!
//! A line is a case, `TEXT :: READING`, both as `nesting` has them.

use crate::nesting::written_out;
use crate::units::reading::read;
use std::alloc::Global;
use std::test::Fail;
use unit_notation::Ranges;

// Nodes may stand at most 200 deep, the unit being at depth 0, and an error at any depth. A statement of
// a function stands at 3 and one of a method at 4; a list of arguments adds nothing.
const NESTED: &str = "\
void_main(){print( 195 ( 1 ) );} :: (function_void_main_{(call_print_ 195 (parenthesis_ 1 ) );})
void_main(){print( 196 ( 1 ) );} :: (function_void_main_{ 0 ~ (error) ~ })_::_Nesting@12+401
class_C{f(){print( 194 ( 1 ) );}} :: (class_C_{(function_f_{(call_print_ 194 (parenthesis_ 1 ) );})})
class_C{f(){print( 195 ( 1 ) );}} :: (class_C_{(function_f_{ 0 ~ (error) ~ })})_::_Nesting@12+399
var_a= 198 ( 1 ) ; :: (var_a= 198 (parenthesis_ 1 ) )
var_a= 199 ( 1 ) ; :: ~ 0 ~ (error) ~ _::_Nesting@0+406
class_C{var_a= 197 ( 1 ) ;} :: (class_C_{(var_a= 197 (parenthesis_ 1 ) )})
class_C{var_a= 198 ( 1 ) ;} :: (class_C_{ 0 ~ (error) ~ })_::_Nesting@8+404
f() 199 { ~ } ~ :: (function_f_{ 198 (block_{ ~ }) })
f() 200 { ~ } ~ :: (function_f_{ 198 (block_{ (error) }) })_::_Nesting@202+2";

// The reading of a line's text is that of the line.
fn is_right(alloc: Global, line: &str) -> Result<bool, Fail> {
    let (text, reading) = line.split_once(" :: ").ok_or("no reading")?;
    let found = read(alloc, written_out(alloc, text)?.as_str(), Ranges::Hidden)?;
    Ok(found.as_str() == written_out(alloc, reading)?.as_str())
}

#[test]
fn nested_texts_are_read_as_far_as_there_is_room(rt: HostRuntime) -> Result<(), Fail> {
    for line in NESTED.lines() {
        assert!(rt; is_right(rt.alloc(), line)?, "{line}");
    }
    Ok(())
}
