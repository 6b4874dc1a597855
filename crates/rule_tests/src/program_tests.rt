//! Bodies of `main` and their core programs, worked out by hand from the rows of elaboration.
//!
//! Points are in the order of their numbers, from 0: `TERM | FACTS`. A term is its name, its slots and
//! operands, and the points that come next. The facts are those of slots, with `+` where the slot has a
//! value for certain and `-` where it hasn't, before its type, which is left out where nothing is said of
//! it but what the slot declares. The slot of a node has the number of the node from the body on, which has 0: in
//! `int x=1;x;` that is 5 for the local, whose name is the sixth node, and 8 for its value behind it.

mod points;

ghost use Rattle.std.specs.Prelude.{◌≡◌, Some, option_map};
ghost use Rattle.check_library.specs.Checked.{IsFaultless, main_of_checked};

use crate::libraries::library_of;
use check_library::{Checked, check, no_diagnostics_means_no_faults};
use core_check::{AcceptRefusal, Accepted, accept};
use core_machine::{Machine, Turn};
use core_rows::core_row_laws;
use dart_tree::Body;
use elaborate::elaborate;
use points::{point_told, site_told};
use std::alloc::{AllocError, Global};
use std::test::Fail;

// Bodies, and the points of their programs.
const STATEMENTS: [(&str, &[&str]); 11] = [
    ("", &["end |", "goto 0 |"]),
    ("1;true;{}", &["end |", "goto 0 |"]),
    ("print(1);", &["end |", "output 1 0 |", "goto 1 |"]),
    (
        "print(0xFFFFFFFFFFFFFFFF);",
        &["end |", "output -1 0 |", "goto 1 |"],
    ),
    (
        "print(9223372036854775807+1);",
        &[
            "end |",
            "output s6 0 | s6+",
            "add s6 9223372036854775807 1 1 |",
            "goto 2 |",
        ],
    ),
    (
        "int x=5;print(x);",
        &[
            "end |",
            "output s12 0 | s5+ s12+",
            "store s12 s5 1 | s5+",
            "initialize s5 5 2 |",
            "goto 3 |",
        ],
    ),
    (
        "int x;x=1;print(x);",
        &[
            "end |",
            "output s15 0 | s5+ s15+",
            "store s15 s5 1 | s5+",
            "store s5 1 2 |",
            "declare s5 3 |",
            "goto 4 |",
        ],
    ),
    (
        "int? x;print(x);",
        &[
            "end |",
            "output s11 0 | s5+ s11+",
            "store s11 s5 1 | s5+",
            "initialize s5 null 2 |",
            "goto 3 |",
        ],
    ),
    (
        "bool b=1<2;b=(true);",
        &[
            "end |",
            "store s5 true 0 | s5+",
            "initialize s5 s6 1 | s6+",
            "less s6 1 2 2 |",
            "goto 3 |",
        ],
    ),
    (
        "int x=1;{int x=2;print((x));}x;",
        &[
            "end |",
            "store s22 s5 0 | s5+",
            "output s20 1 | s5+ s12+ s20+",
            "store s20 s12 2 | s5+ s12+",
            "initialize s12 2 3 | s5+",
            "initialize s5 1 4 |",
            "goto 5 |",
        ],
    ),
    // Both sides are read before they are added, and the left one is held while the right one is read.
    (
        "int x=1;int y=2;print(x+y);",
        &[
            "end |",
            "output s18 0 | s5+ s11+ s18+",
            "add s18 s19 s20 1 | s5+ s11+ s19+ s20+",
            "store s20 s11 2 | s5+ s11+ s19+",
            "store s19 s5 3 | s5+ s11+",
            "initialize s11 2 4 | s5+",
            "initialize s5 1 5 |",
            "goto 6 |",
        ],
    ),
];

// Branches, loops, and what isn't reached.
const WAYS: [(&str, &[&str]); 10] = [
    ("if(true){}", &["end |", "branch true 0 0 |", "goto 1 |"]),
    (
        "if(1!=2){}else{print(3);}",
        &[
            "end |",
            "output 3 0 |",
            "branch s2 0 1 | s2+",
            "not_equal s2 1 2 2 |",
            "goto 3 |",
        ],
    ),
    (
        "int? x;if(x!=null){print(x);}",
        &[
            "end |",
            "output s16 0 | s5+int s16+",
            "store s16 s5 1 | s5+int",
            "test_null s5 0 2 | s5+",
            "initialize s5 null 3 |",
            "goto 4 |",
        ],
    ),
    (
        "int? x=1;if((null!=(x))){print(1);}",
        &[
            "end |",
            "output 1 0 | s5+int",
            "test_null s5 0 1 | s5+int",
            "initialize s5 1 2 |",
            "goto 3 |",
        ],
    ),
    // A comparison with `(null)` is no test of a local.
    (
        "int? x;if(x!=(null)){}",
        &[
            "end |",
            "branch s7 0 0 | s5+ s7+",
            "not_equal s7 s8 null 1 | s5+ s8+",
            "store s8 s5 2 | s5+",
            "initialize s5 null 3 |",
            "goto 4 |",
        ],
    ),
    (
        "int? x;if(x!=null){print(x+1);}else{x=4;print(x+1);}print(x);",
        &[
            "end |",
            "output s37 0 | s5+int s37+",
            "store s37 s5 1 | s5+int",
            "output s29 2 | s5+int s29+",
            "add s29 s30 1 3 | s5+int s30+",
            "store s30 s5 4 | s5+int",
            "store s5 4 5 | s5+",
            "output s16 2 | s5+int s16+",
            "add s16 s17 1 7 | s5+int s17+",
            "store s17 s5 8 | s5+int",
            "test_null s5 6 9 | s5+",
            "initialize s5 null 10 |",
            "goto 11 |",
        ],
    ),
    (
        "int x=0;while(x<3){x=x+1;}print(x);",
        &[
            "end |",
            "output s23 0 | s5+ s23+",
            "store s23 s5 1 | s5+",
            "goto 9 | s5+",
            "store s5 s15 3 | s5+ s15+",
            "add s15 s16 1 4 | s5+ s16+",
            "store s16 s5 5 | s5+",
            "branch s8 6 2 | s5+ s8+",
            "less s8 s9 3 7 | s5+ s9+",
            "store s9 s5 8 | s5+",
            "initialize s5 0 3 |",
            "goto 10 |",
        ],
    ),
    (
        "while(true){}",
        &[
            "end | unreached",
            "goto 2 |",
            "branch true 1 0 |",
            "goto 1 |",
        ],
    ),
    (
        "while(true){}print(1);",
        &[
            "end | unreached",
            "output 1 0 | unreached",
            "goto 3 |",
            "branch true 2 1 |",
            "goto 2 |",
        ],
    ),
    (
        "int x;if(1<2){while(true){}}else{x=1;}x;",
        &[
            "end |",
            "store s20 s5 0 | s5+",
            "store s5 1 1 |",
            "goto 4 |",
            "branch true 3 1 |",
            "branch s7 3 2 | s7+",
            "less s7 1 2 5 |",
            "declare s5 6 |",
            "goto 7 |",
        ],
    ),
];

// Bodies, and where the nodes stand that their points are made from, each as its text; `-` where it is none.
const SITES: [(&str, &[&str]); 3] = [
    ("int x=5;print(x);", &["-", "print(x)", "x", "x=5", "-"]),
    (
        "int? x;if((x)!=null){x=1;}",
        &["-", "x=1", "(x)!=null", "x", "-"],
    ),
    (
        "int x=1;while(x<2){x=x+1;}",
        &[
            "-",
            "while(x<2){x=x+1;}",
            "x=x+1",
            "x+1",
            "x",
            "while(x<2){x=x+1;}",
            "x<2",
            "x",
            "x=1",
            "-",
        ],
    ),
];

// Bodies, and what their runs print within a hundred steps, in which `/` is a line feed; `..` where they go on.
const RUNS: &str = "\
1;{true;} ::
print(0xFFFFFFFFFFFFFFFF);print(9223372036854775807+1); :: -1/-9223372036854775808/
int x=1;int y=2;print(x+y);print(x); :: 3/1/
int x=1;{int x=2;print((x));}print(x); :: 2/1/
int x;if(1<2){x=1;}else{x=2;}print(x); :: 1/
bool b=1<2;if(b){b=(false);}print(b);print(b!=true); :: false/true/
int? x;print(x);if(x!=null){print(x+1);}else{x=4;print(x+1);}print(x); :: null/5/4/
int? x=7;if((null!=(x))){print(x);}else{print(1);} :: 7/
int x=0;while(x<3){x=x+1;print(x);}print(true); :: 1/2/3/true/
int x=0;while(x!=2){x=x+1;int y=x+x;print(y);} :: 2/4/
int x;if(2<1){while(true){}}else{x=1;}print(x); :: 1/
while(true){}print(1); :: ..";

// The core program of a body in whose library nothing is wrong, if it is accepted.
fn program_of(alloc: Global, checked: &Checked, body: &Body) -> Result<Accepted, Fail>
    requires faultless { IsFaultless checked.now }
    requires body { option_map (λ main. main.1) (main_of_checked checked.now) ≡ Some body.now }
{
    let program = elaborate(alloc, checked, body)?;
    core_row_laws(&checked.rows);
    match accept(alloc, program) {
        Ok(accepted) => Ok(accepted),
        Err(AcceptRefusal::Rejected { .. }) => Err("rejected".into()),
        Err(AcceptRefusal::Memory) => Err(AllocError.into()),
    }
}

// The core program of a body.
fn program_in(alloc: Global, body: &str) -> Result<Accepted, Fail> {
    let text = library_of(alloc, body)?;
    let checked = check(alloc, "/a.dart", &text)?;
    no_diagnostics_means_no_faults(text.as_str().as_bytes());
    if !checked.diagnostics.as_slice().is_empty() {
        return Err("something is wrong".into());
    }
    match checked.main() {
        Some(body) => program_of(alloc, &checked, body),
        None => Err("no main".into()),
    }
}

// What is asked of the points of a program.
#[derive(Clone, Copy)]
enum Asked {
    Points,
    Sites,
}

// What is told of each point of a body's program, a line each.
fn told(alloc: Global, asked: Asked, body: &str) -> Result<String, Fail> {
    let accepted = program_in(alloc, body)?;
    let mut told = String::new(alloc);
    for point in &accepted.program().points {
        let line = match asked {
            Asked::Points => point_told(alloc, point)?,
            Asked::Sites => site_told(alloc, body, point)?,
        };
        told.push_str(&line)?;
        told.push_str("\n")?;
    }
    Ok(told)
}

// Lines, each with its end.
fn joined(alloc: Global, lines: &[&str]) -> Result<String, AllocError> {
    let mut joined = String::new(alloc);
    for line in lines {
        joined.push_str(line)?;
        joined.push_str("\n")?;
    }
    Ok(joined)
}

#[test]
fn programs_have_the_points_of_their_rows(rt: HostRuntime) -> Result<(), Fail> {
    let alloc = rt.alloc();
    let tables = [
        (Asked::Points, STATEMENTS.as_slice()),
        (Asked::Points, WAYS.as_slice()),
        (Asked::Sites, SITES.as_slice()),
    ];
    for (asked, rows) in tables {
        for (body, lines) in rows {
            let expected = joined(alloc, lines)?;
            assert_eq!(rt;
                told(alloc, asked, body)?.as_str(),
                expected.as_str(),
                "{body}"
            );
        }
    }
    Ok(())
}

// What the run of a body prints.
fn printed(alloc: Global, body: &str) -> Result<String, Fail> {
    let mut machine = Machine::new(alloc, program_in(alloc, body)?)?;
    let mut turn = Turn::Went;
    for _ in 0..100u32 {
        turn = machine.step()?;
    }
    let printed = String::from_utf8_lossy(alloc, &machine.take_output())?;
    let printed = printed.replace(alloc, "\n", "/")?;
    let end = if turn == Turn::Done { "" } else { ".." };
    Ok(format!(in alloc; "{printed}{end}")?)
}

#[test]
fn programs_print_what_their_lines_say(rt: HostRuntime) -> Result<(), Fail> {
    for line in RUNS.lines() {
        let (body, answer) = line.split_once(" ::").ok_or("no answer")?;
        assert_eq!(rt;
            printed(rt.alloc(), body)?.as_str(),
            answer.trim_start(),
            "{body}"
        );
    }
    Ok(())
}
