//! Bodies of `main` and their diagnostics, worked out by hand from the rules; and names in scopes.
//!
//! The table is a text, which is read when the test runs: a line is a case, `BODY :: DIAGNOSTICS`. A
//! diagnostic is `CODE@START-END`, in the body.

use crate::libraries::{MAIN, library_of};
use check_library::check;
use dart_tree::{Name, NodeId, Place, Span};
use flow_model::LocalId;
use judgement::Fault;
use resolve::NamesInScope;
use std::alloc::{AllocError, Global};
use std::test::Fail;

// What names mean, and where they have a value.
const NAMES: &str = "\
x;int x;x;int x;y; :: ReferencedBeforeDeclaration@0-1 UnassignedRead@8-9 DuplicateDefinition@14-15 UndefinedName@16-17
int? x;bool x=1;x+1; :: DuplicateDefinition@12-13 InvalidAssignment@14-15 UncheckedNullableUse@17-18
int x=1;int x=2;{int x=3;int x=4;x;}x; :: DuplicateDefinition@12-13 DuplicateDefinition@29-30
int? x=1;{x;int x;x;}x; :: ReferencedBeforeDeclaration@10-11 UnassignedRead@18-19
{x;int x=1;} :: ReferencedBeforeDeclaration@1-2
x=1;int x=2; :: ReferencedBeforeDeclaration@0-1
int x=1;{int y=x;int x=2;y;} :: ReferencedBeforeDeclaration@15-16
int x=1;{int x=2;}{int x=3;}x; ::
{int x=1;}x; :: UndefinedName@10-11
int x=x; :: ReferencedBeforeDeclaration@6-7
int x;x=x; :: UnassignedRead@8-9
int x;x=1;x=x+1; ::
int x;if(1<2){x=1;}x; :: UnassignedRead@19-20
int x;if(1<2){x=1;}else{x=2;}x; ::
int x;if(true){x=1;}x; ::
int x;while(1<2){x=1;}x; :: UnassignedRead@22-23
bool x=(1);(y); :: InvalidAssignment@7-10 UndefinedName@12-13
int x=y;x=z; :: UndefinedName@6-7 UndefinedName@10-11
int? x=1;x=true;x; :: InvalidAssignment@11-15
int x=1;x=null; :: InvalidAssignment@10-14";

// Literals, operators and conditions.
const VALUES: &str = "\
9223372036854775807;0xFFFFFFFFFFFFFFFF;0Xff; ::
9223372036854775808; :: IntegerLiteralOutOfRange@0-19
0XFFFFFFFFFFFFFFFF;0x10000000000000000; :: IntegerLiteralOutOfRange@19-38
9223372036854775808+true; :: IntegerLiteralOutOfRange@0-19
true<1; :: UndefinedOperator@4-5
1<null; :: ArgumentType@2-6
1+(true); :: ArgumentType@2-8
y+null; :: UndefinedName@0-1
null+y; :: UncheckedNullableUse@4-5 UndefinedName@5-6
1!=y; :: UndefinedName@3-4
true!=1;null!=null; ::
int x=1<2; :: InvalidAssignment@6-9
bool x=1+2; :: InvalidAssignment@7-10
bool x=1<2;if(x){}while(x){x=2<1;} ::
int x=1;if(x){}while(x){} :: ConditionNotBool@11-12 ConditionNotBool@21-22
if(null){} :: ConditionNotBool@3-7
if(y){} :: UndefinedName@3-4
if(1+2){} :: ConditionNotBool@3-6
while((1)){} :: ConditionNotBool@6-9
print(null);print(1<true); :: ArgumentType@20-24";

// Locals that may be null, branches and loops.
const PROMOTIONS: &str = "\
int? x;if(x!=null){x+1;}else{x+1;}x+1; :: UncheckedNullableUse@30-31 UncheckedNullableUse@35-36
int? x;if(((x)!=null)){x+1;}else{x+1;}x+1; :: UncheckedNullableUse@34-35 UncheckedNullableUse@39-40
int? x;if((x)!=null){x+1;} ::
int? x;if(null!=(x)){x+1;} ::
int? x;if(x!=(null)){x+1;}else{x+1;} :: UncheckedNullableUse@22-23 UncheckedNullableUse@32-33
int? x;if((null)!=x){x+1;} :: UncheckedNullableUse@22-23
int? x;int? y;if(x!=y){x+1;} :: UncheckedNullableUse@24-25
int? x=1;x+1;while(1){x+1;x=null;}x+1; :: ConditionNotBool@19-20 UncheckedNullableUse@23-24 UncheckedNullableUse@35-36
int? x=1;while(x!=null){x+1;x=null;}x+1; :: UncheckedNullableUse@37-38
int? x=1;while(1<2){x+1;x=null;} :: UncheckedNullableUse@21-22
int? x=1;while(1<2){x+1;}x+1; ::
int? x=1;while(1<2){x+1;{int x=2;x=3;x;}} ::
int? x=1;if(1<2){x=null;}x+1; :: UncheckedNullableUse@26-27
int? x;if(1<2){x=1;}else{x=2;}x+1; ::
int? x;if(x!=null){}else{x=1;}x+1; ::
int? x;if(x!=null){}else{while(true){}}x+1; ::
int x;if(1<2){while(true){}}else{x=1;}x; ::
int x;while(true){}x; :: UnassignedRead@19-20
int? x=1;while(true){x=null;x+1;} :: UncheckedNullableUse@29-30";

// A diagnostic, behind a blank.
fn fault_told(alloc: Global, fault: &Fault) -> Result<String, AllocError> {
    let before = MAIN.len() as u32;
    let start = fault.span.start.saturating_sub(before);
    let end = fault.span.end.saturating_sub(before);
    format!(in alloc; " {:?}@{start}-{end}", fault.code)
}

// The diagnostics of a body, in their order.
fn diagnostics(alloc: Global, body: &str) -> Result<String, Fail> {
    let checked = check(alloc, "/a.dart", &library_of(alloc, body)?)?;
    let mut told = String::new(alloc);
    for fault in checked.diagnostics.as_slice() {
        told.push_str(&fault_told(alloc, fault)?)?;
    }
    Ok(told)
}

#[test]
fn bodies_have_the_diagnostics_of_their_lines(rt: HostRuntime) -> Result<(), Fail> {
    for table in [NAMES, VALUES, PROMOTIONS] {
        for line in table.lines() {
            let (body, answer) = line.split_once(" ::").ok_or("no answer")?;
            assert_eq!(rt; diagnostics(rt.alloc(), body)?.as_str(), answer, "{body}");
        }
    }
    Ok(())
}

// Two words of a text.
const X: u32 = 7;

const Y: u32 = 3;

// A word that is declared, with a number.
fn name(number: u32, word: u32) -> Name {
    let span = Span { start: 0, end: 1 };
    let at = Place {
        node: NodeId(number),
        span,
    };
    Name { at, word }
}

// Around a scope that declares a name twice, and in it.
#[test]
fn names_mean_again_what_they_meant_before(rt: HostRuntime) -> Result<(), Fail> {
    let alloc = rt.alloc();
    let mut names = NamesInScope::new(alloc);
    let outer = names.enter(alloc, &[name(10, X)])?;
    let inner = names.enter(alloc, &[name(20, X), name(30, X)])?;
    assert_eq!(rt; names.local(X), Some(LocalId(20)));
    assert_eq!(rt; names.local(Y), None);
    names.leave(inner)?;
    assert_eq!(rt; names.local(X), Some(LocalId(10)));
    names.leave(outer)?;
    assert_eq!(rt; names.local(X), None);
    Ok(())
}
