//! Bodies of `main` and what their typed trees say, worked out by hand from the rules.
//!
//! A row is `NODE TYPE ELEMENT KNOWN`, with `-` where an expression's type, or what a node names, isn't
//! there. KNOWN is what is known of one local before the node, after it, where it is true and where it is
//! false; at the end, what is the same as before it is left out. That is `.` where the local isn't in
//! scope, and else its current type, with `-` behind it where the local may have no value; `#` stands
//! before what isn't reached. A body has the number 6, and its first statement 7.

use crate::libraries::{library_of, name_of};
use check_library::check;
use dart_types::DartType;
use flow_model::{Flow, LocalId};
use judgement::{Meaning, TypedNode};
use std::alloc::{AllocError, Global};
use std::test::Fail;

// The number of the name in a first statement `int x..` or `int? x..`.
const X: LocalId = LocalId(11);

// A local is tested for null, and written behind the branch.
const BRANCH: &str = "int? x;if(x!=null){x+1;}else{x+1;}x=1;true;(x);";

const IN_BRANCH: &str = "\
10 - x . int?
7 - - . int?
14 int? x int?
15 Null - int?
13 bool - int? int? int int?
19 int x int
20 int - int
18 int - int
17 - - int
16 - - int
24 int? x int?
25 int - int?
23 int - int?
22 - - int?
21 - - int?
12 - - int?
29 int - int?
27 int x int? int
26 - - int? int
31 bool - int int int #int
30 - - int
34 int x int
33 int x int
32 - - int
6 - - .";

// A loop writes a local, so that its head forgets what the local was promoted to.
const LOOP: &str = "int? x=1;while(x!=null){x=null;}x;";

const IN_LOOP: &str = "\
12 int - .
10 - x . int
7 - - . int
15 int? x int?
16 Null - int?
14 bool - int? int? int int?
21 Null - int
19 Null x int int?
18 - - int int?
17 - - int int?
13 - - int int?
23 int? x int?
22 - - int?
6 - - .";

// Nothing is reached behind a loop whose condition is `true`.
const ENDLESS: &str = "int x;while(true){x=1;}x;";

const IN_ENDLESS: &str = "\
10 - x . int-
7 - - . int-
13 bool - int- int- int- #int-
18 int - int-
16 int x int- int
15 - - int- int
14 - - int- int
12 - - int- #int-
20 invalid x #int-
19 - - #int-
6 - - . #.";

// One branch writes a local, and the other declares one.
const ARMS: &str = "int x;if(1<2){x=1;}else{int y=2;}print(3);";

const IN_ARMS: &str = "\
10 - x . int-
7 - - . int-
14 int - int-
15 int - int-
13 bool - int-
20 int - int-
18 int x int- int
17 - - int- int
16 - - int- int
27 int - int-
25 - local int-
22 - - int-
21 - - int-
12 - - int-
33 int - int-
29 void print int-
28 - - int-
6 - - .";

// A call of `print` with a value that a diagnostic leaves open is left open too.
const UNASSIGNED: &str = "int x;print(x);";

const IN_UNASSIGNED: &str = "\
10 - x . int-
7 - - . int-
17 invalid x int-
13 invalid print int-
12 - - int-
6 - - .";

// What a node names.
fn element_told(element: &Option<Meaning>) -> &'static str {
    match element {
        None => "-",
        Some(Meaning::Local(var)) => {
            if *var == X {
                return "x";
            }
            "local"
        }
        Some(Meaning::Print) => "print",
        Some(Meaning::Nothing) => "nothing",
        Some(Meaning::Class(_)) => "class",
        Some(Meaning::Other) => "other",
    }
}

fn type_told(ty: &Option<DartType>) -> &'static str {
    match ty {
        Some(ty) => name_of(ty),
        None => "-",
    }
}

// What is known of the local.
fn known_told(alloc: Global, flow: &Flow) -> Result<String, AllocError> {
    let reached = if flow.reachable() { "" } else { "#" };
    let (ty, assigned) = match flow.current(X) {
        None => (".", ""),
        Some(ty) => {
            let assigned = if flow.is_assigned(X) { "" } else { "-" };
            (name_of(ty), assigned)
        }
    };
    format!(in alloc; "{reached}{ty}{assigned}")
}

// A node, by its row.
fn node_told(alloc: Global, node: &TypedNode) -> Result<String, AllocError> {
    let ty = type_told(&node.ty);
    let element = element_told(&node.element);
    let mut told = format!(in alloc; "{} {ty} {element}", node.node.0)?;
    let mut last = String::new(alloc);
    let mut left_out = String::new(alloc);
    for flow in [&node.before, &node.after, &node.when_true, &node.when_false] {
        let known = known_told(alloc, flow)?;
        left_out.push_str(" ")?;
        left_out.push_str(&known)?;
        if known.as_str() != last.as_str() {
            told.push_str(&left_out)?;
            left_out.clear();
        }
        last = known;
    }
    Ok(told)
}

// The nodes of the typed tree of a body, a row each.
fn nodes_told(alloc: Global, body: &str) -> Result<String, Fail> {
    let checked = check(alloc, "/a.dart", &library_of(alloc, body)?)?;
    let mut told = String::new(alloc);
    for node in &checked.typed {
        told.push_str(&node_told(alloc, node)?)?;
        told.push_str("\n")?;
    }
    Ok(told)
}

#[test]
fn nodes_say_what_is_known(rt: HostRuntime) -> Result<(), Fail> {
    for (body, rows) in [
        (BRANCH, IN_BRANCH),
        (LOOP, IN_LOOP),
        (ENDLESS, IN_ENDLESS),
        (ARMS, IN_ARMS),
        (UNASSIGNED, IN_UNASSIGNED),
    ] {
        assert_eq!(rt;
            nodes_told(rt.alloc(), body)?.as_str().trim_end(),
            rows,
            "{body}"
        );
    }
    Ok(())
}
