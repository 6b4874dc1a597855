//! Texts and their diagnostics, worked out by hand from the rules.
//!
//! The tables are texts, which are read when the tests run: a line is a case, `TEXT :: ANSWER`. In the
//! text `¶` is a line feed.

use check_library::check;
use dart_text::Text;
use judgement::Fault;
use std::alloc::{AllocError, Global};
use std::test::Fail;

// Units, and what is wrong with them by the rules: each diagnostic as `CODE@OFFSET+LENGTH`.
const UNITS: &str = "\
void main() {} ::
void main(){int a=1;int b=a;b=a;print(b);a;print(0x1F);}// ::
void main(){int x; print(x);} :: UnassignedRead@25+1
void main(){int x;x=1;x;} ::
void main(){int x;x=x;x;} :: UnassignedRead@20+1
void main(){int x=x;} :: ReferencedBeforeDeclaration@18+1
void main(){x=1;int x;} :: ReferencedBeforeDeclaration@12+1
void main(){x;int x;} :: ReferencedBeforeDeclaration@12+1
void main(){x=1;} :: UndefinedName@12+1
void main(){y;x;y;} :: UndefinedName@12+1 UndefinedName@14+1 UndefinedName@16+1
void main(){x=y;} :: UndefinedName@12+1 UndefinedName@14+1
void main(){int x;int x;x;} :: DuplicateDefinition@22+1 UnassignedRead@24+1
void main(){int x;int x=1;x;} :: DuplicateDefinition@22+1 UnassignedRead@26+1
void main(){int x=1;int x=y;x;} :: DuplicateDefinition@24+1 UndefinedName@26+1
void main(){9223372036854775807;} ::
void main(){int x=9223372036854775808;x;} :: IntegerLiteralOutOfRange@18+19
void main(){0xFFFFFFFFFFFFFFFF;0X10000000000000000;} :: IntegerLiteralOutOfRange@31+19
/*😀/**/*/void main(){int x;x;} :: UnassignedRead@28+1
import 'b.dart';void main(){x;} :: NotBuilt@0+16 NotBuilt@16+15
library a.b; export 'c.dart';part 'd.dart'; :: NotBuilt@0+12 NotBuilt@13+16 NotBuilt@29+14
part of a.b; :: NotBuilt@0+12
part of r\"a.dart\";void main(){} :: NotBuilt@0+18
import'b.dart'as as show show,main hide hide,int;export''show a show b; :: NotBuilt@0+49 NotBuilt@49+22
/**/ import 'b.dart' /**/ ; :: NotBuilt@5+22
void main(){int import=1;import=2;} ::
void main(){int? x=null;if(((x)!=null)){print(x+1);}} ::
void main(){int? x;if(x!=(null)){print(x+1);}} :: UncheckedNullableUse@40+1
void main(){bool b=(1);} :: InvalidAssignment@19+3
void main(){print((y));} :: UndefinedName@19+1
void main(){if((1)){}} :: ConditionNotBool@15+3
void main(){print(1+(true));} :: ArgumentType@20+6
\u{feff}void\tmain\r¶(// a¶){x;} :: UndefinedName@20+1";

// Texts with other forms, which aren't checked yet, and with segments that derive nothing.
const OTHERS: &str = "\
void main(){}void main(){} :: NotBuilt@0+13 NotBuilt@13+13
 ::
int main(){} :: NotBuilt@0+12
void main(){int x} :: SyntaxError@12+5
void main(){int int;} :: NotBuilt@0+21
void main(){int main;} :: NotBuilt@0+22
void main(){int if;} :: SyntaxError@12+7
void main(){int bool;} :: NotBuilt@0+22
void main(){print=1;} :: NotBuilt@0+21
void main(){null=1;} :: NotBuilt@0+20
void main(){bool? x;} :: NotBuilt@0+21
void main(){1+2+3;} ::
void main(){if(x)x;} :: NotBuilt@0+20
void main(){if(x){}else x;} :: NotBuilt@0+27
void main(){else{}} :: SyntaxError@12+6
void main(){x==1;} :: NotBuilt@0+18
void main(){1.5;} :: ProfileDouble@12+4
void main(){1e5;} :: ProfileDouble@12+4
void main(){'a';} :: NotBuilt@0+17
void main(){int class=1;} :: SyntaxError@12+12
void main(){print(#a);} :: ProfileSymbol@12+10
import 'b.dart';int main(){} :: NotBuilt@0+16 NotBuilt@16+12
import 'b.dart' :: SyntaxError@0+15
import 'b.dart' as; :: SyntaxError@0+19
import 'b.dart' as p as q; :: SyntaxError@0+26
import 'b.dart' show; :: SyntaxError@0+21
import 'b.dart' show a,; :: SyntaxError@0+24
import 'b.dart',a; :: SyntaxError@0+18
import 'b.dart' 'c.dart'; :: SyntaxError@0+25
import b; :: SyntaxError@0+9
export 'b.dart' as p; :: SyntaxError@0+21
library; :: SyntaxError@0+8
library a.; :: SyntaxError@0+11
library 'a'; :: SyntaxError@0+12
part b; :: SyntaxError@0+7
part of; :: SyntaxError@0+8
import 'b${1}.dart';void main(){} :: NotBuilt@0+20
void main(){}import 'b.dart'; :: NotBuilt@13+16
void f(){int = ;}void main(){print(true+1);} :: NotBuilt@0+17 SyntaxError@9+7 UndefinedOperator@39+1
void main(){print(1);int = ;print(true+1);} :: SyntaxError@21+7 UndefinedOperator@38+1
void main(){int x;int = ;x;} :: SyntaxError@18+7 UnassignedRead@25+1
a b c void main(){1+true;} d :: SyntaxError@0+26 SyntaxError@27+1
void main(){assert(1<2);} :: ProfileAssert@12+12
enum E{a}void main(){} :: ProfileEnum@0+9
int x=1;void main(){print(x);} :: NotBuilt@0+8 NotBuilt@8+22
int x=1;void main(){int x=2;print(x);} :: NotBuilt@0+8 NotBuilt@8+30
void main(){print;} :: NotBuilt@0+19
void main(){String;num;} :: NotBuilt@0+24
import 'b.dart';void main(){int x=1;print(x+true);} :: NotBuilt@0+16 ArgumentType@44+4
import 'b.dart'as p;void main(){p;} :: NotBuilt@0+20 NotBuilt@20+15
import 'dart:core' as c;void main(){int x=1;print(x);} :: NotBuilt@0+24 NotBuilt@24+30
import 'dart:core' hide print;void main(){print(1);} :: NotBuilt@0+30 NotBuilt@30+22
import 'dart\\x3acore' show int;void main(){int x=1;} :: NotBuilt@0+31 NotBuilt@31+21
import 'dart:core';void main(){print(1);} :: NotBuilt@0+19
import 'dart:core' as c;void main(){} :: NotBuilt@0+24
import'b.dart'hide print;void main(){print(1);} :: NotBuilt@0+25
part 'b.dart';void main(){x;} :: NotBuilt@0+14 NotBuilt@14+15
part of 'b.dart';void main(){x;} :: NotBuilt@0+17 NotBuilt@17+15
export 'b.dart';void main(){x;} :: NotBuilt@0+16 UndefinedName@28+1
library a;void main(){x;} :: NotBuilt@0+10 UndefinedName@22+1
class print{}void main(){print(1);} :: NotBuilt@0+13 NotBuilt@13+22
mixin int{}void main(){int x=1;} :: NotBuilt@0+11 NotBuilt@11+21
typedef bool=int;void main(){bool x=true;} :: NotBuilt@0+17 NotBuilt@17+25
@override void main(){} :: NotBuilt@0+23
void main<T>(){} :: NotBuilt@0+16
void main([int x]){} :: NotBuilt@0+20
main(){} :: NotBuilt@0+8
void main()=>1; :: NotBuilt@0+15
void main(){main();} :: NotBuilt@0+20
void get main{} :: NotBuilt@0+15
void set main(x){} :: NotBuilt@0+18
var a,main;void main(){} :: NotBuilt@0+11 NotBuilt@11+13
void f(){}void main(){f();} :: NotBuilt@0+10 NotBuilt@10+17
void main(){print(1,2);} :: NotBuilt@0+24
void main(){print();} :: NotBuilt@0+21
void main(){print(a:1);} :: NotBuilt@0+24
void main(){print<int>(1);} :: NotBuilt@0+27
void main(){int x=1,y=2;} :: NotBuilt@0+25
void main(){final int x=1;} :: NotBuilt@0+27
void main(){var x=1;} :: NotBuilt@0+21
void main(){p.int x;} :: NotBuilt@0+21
void main(){int x;x+=1;} :: NotBuilt@0+24
void main(){int x;int y=x=1;} :: NotBuilt@0+29
void main(){(x)=1;} :: NotBuilt@0+19
void main(){;} :: NotBuilt@0+14";

// Texts in which lexemes or groups are wrong.
const LEXEMES: &str = "\
void main(){int get=1;int async=get;async;} ::
void main(){ :: UnclosedGroup@11+1
void main(){print(1); :: UnclosedGroup@11+1
void main(){{print(1);} :: UnclosedGroup@11+1
void main(){if(true){print(1); :: UnclosedGroup@11+1 UnclosedGroup@20+1
void main(){if(true){print(x); :: UnclosedGroup@11+1 UnclosedGroup@20+1 UndefinedName@27+1
void main(){}} :: UnopenedGroup@13+1
)]void main(){print(1)];} :: UnopenedGroup@0+1 UnopenedGroup@1+1 UnopenedGroup@22+1
void main(){print(1;} :: SyntaxError@12+8 UnclosedGroup@17+1
void main(){print([1);} :: NotBuilt@0+23 UnclosedGroup@18+1
void main(){print(a?[1);} :: NotBuilt@0+25 UnclosedGroup@19+2
void main(){print('${(}');} :: SyntaxError@12+14 UnclosedGroup@21+1
void main(){é;} :: NotBuilt@0+15 ProfileIdentifier@12+1
void main(){int xé😀=1;x;} :: ProfileIdentifier@17+3
 \u{feff}void main(){} :: ProfileIdentifier@1+1
void main(){print(1 \\);} :: IllegalCharacter@20+1
void main(){/*😀} :: UnclosedGroup@11+1 UnterminatedComment@12+5
void main(){print('a¶);} :: NotBuilt@0+24 UnterminatedString@18+2
void main(){r'a;} :: UnclosedGroup@11+1 SyntaxError@12+5 UnterminatedString@13+4
void main(){print('\\xAg');} :: NotBuilt@0+27 BadEscape@19+3
import 'b¶;void main(){} :: NotBuilt@0+11 UnterminatedString@7+2
import'\\xg'; :: NotBuilt@0+12 BadEscape@7+2
)import 'b.dart'];void main(){} :: UnopenedGroup@0+1 NotBuilt@1+17 UnopenedGroup@16+1
void main(){'😀\\u{110000}';} :: NotBuilt@0+28 BadEscape@15+10";

// How many blocks lie one in another, and what is wrong then: no node lies deeper than 200.
const NESTED: &str = "\
198 ::
199 :: ProfileNesting@210+2
10000 :: ProfileNesting@210+19604";

// Texts, whether something of them is judged, and the numbers of the nodes of their typed trees: the parts of a
// node come before it. A unit has 0, its first function 1 to 5 with what stands before its body, and the body 6.
const TYPED: &str = "\
void main(){} :: main 6
void main(){int x;x=1;} :: main 10 7 15 13 12 6
void main(){int x=7;print(x);} :: main 12 10 7 18 14 13 6
void main(){if(true){}else{1;}} :: main 8 9 12 11 10 7 6
void main(){while(1<2){(3);}} :: main 9 10 8 14 13 12 11 7 6
void main(){ :: main 6
void main(){1+;} :: main 6
void main(){1;2+;print(3);} :: main 8 7 15 11 10 6
import 'b.dart';void main(){} :: main 8
int x=1;void main(){} :: main 12
void main(){1-2;} :: none
 :: none
import 'b.dart'; :: none";

// What a table gives for its texts.
#[derive(Clone, Copy)]
enum Asked {
    Diagnostics,
    // The diagnostics of as many blocks in one another.
    Blocks,
    Nodes,
}

// A diagnostic, behind a blank.
fn fault_told(alloc: Global, fault: &Fault) -> Result<String, AllocError> {
    let start = fault.span.start;
    let length = fault.span.end.saturating_sub(start);
    format!(in alloc; " {:?}@{start}+{length}", fault.code)
}

// The path of a text that is checked, and its diagnostics in their order.
fn diagnostics(alloc: Global, text: &str) -> Result<String, Fail> {
    let text = Text::from_str(alloc, text)?;
    let checked = check(alloc, "/a.dart", &text)?;
    let mut told = String::from_str(alloc, checked.path.as_str())?;
    for fault in checked.diagnostics.as_slice() {
        told.push_str(&fault_told(alloc, fault)?)?;
    }
    Ok(told)
}

// Whether something of a text is judged, and the numbers of the nodes of its typed tree, in their order.
fn nodes(alloc: Global, text: &str) -> Result<String, Fail> {
    let text = Text::from_str(alloc, text)?;
    let checked = check(alloc, "/a.dart", &text)?;
    let judged = if checked.main().is_some() {
        "main"
    } else {
        "none"
    };
    let mut told = format!(in alloc; "{} {judged}", checked.path.as_str())?;
    for node in &checked.typed {
        told.push_str(&format!(in alloc; " {}", node.node.0)?)?;
    }
    Ok(told)
}

// A unit in which so many blocks lie one in another, the first in that of `main`.
fn nested_blocks(alloc: Global, count: &str) -> Result<String, Fail> {
    let count = count.parse::<usize>()?;
    let opening = "{".repeat(alloc, count)?;
    let closing = "}".repeat(alloc, count)?;
    Ok(format!(in alloc; "void main(){{{opening}{closing}}}")?)
}

// What is asked of a text, behind the path under which it is checked.
fn told(alloc: Global, asked: Asked, text: &str) -> Result<String, Fail> {
    match asked {
        Asked::Diagnostics => diagnostics(alloc, text),
        Asked::Blocks => diagnostics(alloc, &nested_blocks(alloc, text)?),
        Asked::Nodes => nodes(alloc, text),
    }
}

// Whether a text has the answer of its line.
fn is_right(alloc: Global, asked: Asked, line: &str) -> Result<bool, Fail> {
    let (text, answer) = line.split_once(" ::").ok_or("no answer")?;
    let text = text.replace(alloc, "¶", "\n")?;
    let answer = format!(in alloc; "/a.dart{answer}")?;
    Ok(told(alloc, asked, &text)?.as_str() == answer.as_str())
}

#[test]
fn texts_have_the_answers_of_their_lines(rt: HostRuntime) -> Result<(), Fail> {
    for (asked, table) in [
        (Asked::Diagnostics, UNITS),
        (Asked::Diagnostics, OTHERS),
        (Asked::Diagnostics, LEXEMES),
        (Asked::Blocks, NESTED),
        (Asked::Nodes, TYPED),
    ] {
        for line in table.lines() {
            assert!(rt; is_right(rt.alloc(), asked, line)?, "{line}");
        }
    }
    Ok(())
}
