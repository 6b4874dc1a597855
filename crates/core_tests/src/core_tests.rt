//! Core programs: which are accepted, what the others are refused for, and what a run prints.
//!
//! The programs are texts, which are read when the tests run. A point is a text as `4 store x 2 9`: the
//! number of what is known there, which is a line of `KNOWN`; the term by its name; then its slots and
//! operands; and the points that come next. The slots are x and z of the type `int?`, y of the type
//! `int`, and t of the type `bool`. Other operands are values.

ghost use Rattle.std.specs.Prelude.{◌≡◌, [], IfOk};
ghost use Rattle.core_check.specs.WellFormed.{IsWellFormed};

use core_check::{
    AcceptRefusal, Accepted, accept, faults_are_clauses_that_fail, is_well_formed,
    rows_of_no_class_leave_nothing_out,
};
use core_ir::{
    CoreFunction, CoreProgram, Facts, FunctionId, Held, Known, Operand, Point, PointId, SharedFact,
    SlotFact, SlotId, Term, Value,
};
use core_machine::{
    Machine, Turn, a_run_that_is_over_stays, each_way_to_go_wrong_is_taken, misuse_goes_wrong,
    never_wrong, steps_add_to_what_was_printed,
};
use dart_types::{BOOL, DartType, INT, Rows, TypeNode};
use std::alloc::{AllocError, Global};
use std::test::Fail;

// What is known at points, numbered from 0: whether a run may come there; and of x, y, z and t, in this
// order, `+` where the slot has a value for certain and `-` where it hasn't, before the type of the value,
// `n` for `int?`, `i` for `int` and `b` for `bool`, or before `*` where the slot is shared. A slot of which
// nothing is known isn't listed, unless `=` stands for `-`.
const KNOWN: &str = "\
reached -n -i -n -b
reached +n -i -n -b
reached +n +i -n -b
reached +n +i +i -b
reached +n +i +i +b
reached +i +i +i +b
unreached +n +i +i +b
reached +* +i +i +b
reached -n -i -n +b
reached =n -i -n =b
reached -* -i -n -b
reached -i -i -n -b";

// The points of this program, numbered from 0, whose loop begins at the point 3:
// `int? x = null; int y = 0; int? z = 1;
// while (y < 3) { if (x != null) { y = x + 1; } else { x = 2; y = y + z; } } print(y);`
const POINTS: &str = "\
0 initialize x null 1
1 initialize y 0 2
2 initialize z 1 3
3 goto 4
3 less t y 3 5
4 branch t 6 10
4 test_null x 8 7
5 add y x 1 3
4 store x 2 9
4 add y y z 3
4 output y 11
4 end";

// Points that stand in place of those of the program, `NUMBER:POINT`, with semicolons between them; and
// what becomes of the program then: it is ill formed, or rejected at a point, with the type that was
// asked for and the one that was found, or it takes these steps, up to a hundred, and prints this, in
// which `/` is a line feed.
const CHANGED: &str = "\
-- a loop with a test for null
3:3 goto 4 = 12 points, 19 steps: 3/
-- a constant that never lets the loop end
5:4 branch true 6 10;10:6 output x 11 = 12 points, 100 steps: 
-- a term goes to its own point, or names a point or a slot that there is none of
3:3 goto 3 = ill formed
3:3 goto 12 = ill formed
3:3 store s4 null 4 = ill formed
-- it prints a slot that has no value
10:3 output t 11 = rejected at 10: invalid, invalid
-- it stores null into an int
8:4 store y null 9 = rejected at 8: int, Null
-- it adds to what may be null
7:4 add y x 1 3 = rejected at 7: int, nullable
-- it branches on an int
5:4 branch y 6 10 = rejected at 5: bool, int
-- it takes a null back to the head of the loop, where `z` is an int
9:4 store z null 3 = rejected at 9: int, Null
-- it takes a slot without a value back there
9:4 declare y 3 = rejected at 9: invalid, invalid
-- it goes where no run is said to come
10:6 output y 11 = rejected at 5: invalid, invalid
-- it narrows a slot that is shared
6:7 test_null x 8 7 = rejected at 6: int, nullable
-- something is assigned at the entry, and no run comes there
0:1 initialize x null 1 = rejected at 0: invalid, invalid
0:6 initialize x null 1 = rejected at 0: invalid, invalid
-- slots are listed at the entry of which nothing is known; or one is shared there, or has not its declared type
0:9 initialize x null 1 = 12 points, 19 steps: 3/
0:10 initialize x null 1 = rejected at 0: invalid, invalid
0:11 initialize x null 1 = rejected at 0: invalid, invalid";

// Terms, and what a program prints that does the term and then prints the slot which it writes.
const OPERATORS: &str = "\
-- Sums wrap.
add x 9223372036854775807 1 = -9223372036854775808
add x -9223372036854775807 -2 = 9223372036854775807
add x 40 2 = 42
-- Values are told apart by kind and by value.
not_equal t null null = false
not_equal t null 0 = true
not_equal t null false = true
not_equal t 7 7 = false
not_equal t 7 -7 = true
not_equal t 0 false = true
not_equal t true true = false
not_equal t true false = true";

// The words of a text that are still to be read.
#[derive(Drop)]
struct Words<'t> {
    rest: &'t str,
}

impl Words<'_> {
    // The next word; empty behind the last.
    fn next(&mut self) -> &str {
        let (word, rest) = self.rest.split_once(' ').unwrap_or((self.rest, ""));
        self.rest = rest;
        word
    }

    fn number(&mut self) -> Result<u32, Fail> {
        Ok(self.next().parse::<u32>()?)
    }

    fn point(&mut self) -> Result<PointId, Fail> {
        Ok(PointId(self.number()?))
    }

    fn slot(&mut self) -> Result<SlotId, Fail> {
        match slot_of(self.next()) {
            Some(slot) => Ok(slot),
            None => Err("no slot".into()),
        }
    }

    fn operand(&mut self) -> Result<Operand, Fail> {
        operand_of(self.next())
    }
}

// The slot of a word; `s4` is one that there isn't.
fn slot_of(word: &str) -> Option<SlotId> {
    match word {
        "x" => Some(SlotId(0)),
        "y" => Some(SlotId(1)),
        "z" => Some(SlotId(2)),
        "t" => Some(SlotId(3)),
        "s4" => Some(SlotId(4)),
        _ => None,
    }
}

// The slot of a word, or its value.
fn operand_of(word: &str) -> Result<Operand, Fail> {
    if let Some(slot) = slot_of(word) {
        return Ok(Operand::Slot(slot));
    }
    let value = match word {
        "null" => Value::Null,
        "true" => Value::Boolean(true),
        "false" => Value::Boolean(false),
        _ => Value::Integer(word.parse::<i64>()?),
    };
    Ok(Operand::Constant(value))
}

// A term that writes what it makes of two operands, by its name.
fn binary(name: &str, words: &mut Words<'_>) -> Result<Term, Fail> {
    let to = words.slot()?;
    let left = words.operand()?;
    let right = words.operand()?;
    let next = words.point()?;
    match name {
        "add" => Ok(Term::Add {
            to,
            left,
            right,
            next,
        }),
        "less" => Ok(Term::Less {
            to,
            left,
            right,
            next,
        }),
        "not_equal" => Ok(Term::NotEqual {
            to,
            left,
            right,
            next,
        }),
        _ => Err("no term".into()),
    }
}

// A term that gives a slot a value.
fn given(name: &str, words: &mut Words<'_>) -> Result<Term, Fail> {
    let slot = words.slot()?;
    let from = words.operand()?;
    let next = words.point()?;
    if name == "store" {
        return Ok(Term::Store {
            to: slot,
            from,
            next,
        });
    }
    Ok(Term::Initialize { slot, from, next })
}

// A term that goes one of two ways.
fn parting(name: &str, words: &mut Words<'_>) -> Result<Term, Fail> {
    let on = words.operand()?;
    let when_true = words.point()?;
    let when_false = words.point()?;
    match on {
        Operand::Slot(slot) if name == "test_null" => Ok(Term::TestNull {
            slot,
            null: when_true,
            other: when_false,
        }),
        _ => Ok(Term::Branch {
            on,
            when_true,
            when_false,
        }),
    }
}

// The term of a text.
fn term_in(text: &str) -> Result<Term, Fail> {
    let (name, rest) = text.split_once(' ').unwrap_or((text, ""));
    let mut words = Words { rest };
    match name {
        "store" | "initialize" => given(name, &mut words),
        "branch" | "test_null" => parting(name, &mut words),
        "declare" => {
            let slot = words.slot()?;
            let next = words.point()?;
            Ok(Term::Declare { slot, next })
        }
        "goto" => {
            let next = words.point()?;
            Ok(Term::Goto { next })
        }
        "output" => {
            let from = words.operand()?;
            let next = words.point()?;
            Ok(Term::Output { from, next })
        }
        "end" => Ok(Term::End),
        _ => binary(name, &mut words),
    }
}

// The point of a text.
fn point_in(alloc: Global, text: &str) -> Result<Point, Fail> {
    let (known, term) = text.split_once(' ').ok_or("no term")?;
    let term = term_in(term)?;
    let line = match KNOWN.lines().nth(known.parse::<usize>()?) {
        Some(line) => line,
        None => return Err("nothing known".into()),
    };
    let facts = facts_in(alloc, line)?;
    Ok(Point {
        function: FunctionId(0),
        site: None,
        facts,
        term,
    })
}

// The points of a text, one a line.
fn points_in(alloc: Global, text: &str) -> Result<Vec<Point>, Fail> {
    let mut points = Vec::new(alloc);
    for line in text.lines() {
        points.push(point_in(alloc, line)?)?;
    }
    Ok(points)
}

// The points of the program with these changed.
fn changed(alloc: Global, changes: &str) -> Result<Vec<Point>, Fail> {
    let mut points = points_in(alloc, POINTS)?;
    for change in changes.split(';') {
        let (number, point) = change.split_once(':').ok_or("no point")?;
        let number = number.parse::<usize>()?;
        let point = point_in(alloc, point)?;
        match points.get_mut(number) {
            Some(changed) => *changed = point,
            None => return Err("no such point".into()),
        }
    }
    Ok(points)
}

fn type_of(alloc: Global, letter: u8) -> Result<DartType, AllocError> {
    if letter == b'b' {
        return DartType::class(alloc, BOOL);
    }
    let ty = DartType::class(alloc, INT)?;
    if letter == b'n' {
        return DartType::nullable(alloc, ty);
    }
    Ok(ty)
}

// What is known of a slot, by its sign, its letter, and the letter of its declared type.
fn known_in(alloc: Global, sign: u8, letter: u8, declared: u8) -> Result<Known, AllocError> {
    let assigned = sign == b'+';
    let held = if letter == b'*' {
        Held::Shared
    } else if letter == declared && sign != b'=' {
        Held::Declared
    } else {
        Held::Own(type_of(alloc, letter)?)
    };
    Ok(Known { assigned, held })
}

// Puts what is known of the slot with this number at the end of the facts, if something is.
fn put(alloc: Global, facts: &mut Facts, number: usize, text: &str) -> Result<(), Fail> {
    let declared = match b"ninb".get(number) {
        Some(declared) => *declared,
        None => return Err("too many slots".into()),
    };
    let known = match text.as_bytes() {
        [sign, letter] => known_in(alloc, *sign, *letter, declared)?,
        _ => return Err("no sign and letter of a slot".into()),
    };
    let is_listed = known.assigned || !matches!(&known.held, Held::Declared);
    if is_listed {
        let slot = SlotId(number as u32);
        if !facts.takes(slot) {
            return Err("out of order".into());
        }
        let fact = SharedFact::new(alloc, SlotFact { slot, known })?;
        facts.push(fact)?;
    }
    Ok(())
}

// What is known at a point, by its line.
fn facts_in(alloc: Global, line: &str) -> Result<Facts, Fail> {
    let (word, slots) = line.split_once(' ').ok_or("no facts")?;
    let mut facts = Facts::new(alloc, word == "reached")?;
    let mut number = 0usize;
    for slot in slots.split(' ') {
        put(alloc, &mut facts, number, slot)?;
        number = number.saturating_add(1);
    }
    Ok(facts)
}

// The program of these points.
fn program(alloc: Global, points: Vec<Point>) -> Result<CoreProgram, Fail>
    ensures { IfOk result (λ p. p.rows.table.classes ≡ []) }
{
    let mut slots = Vec::new(alloc);
    for letter in b"ninb" {
        slots.push(type_of(alloc, *letter)?)?;
    }
    let mut functions = Vec::new(alloc);
    functions.push(CoreFunction {
        slots,
        entry: PointId(0),
    })?;
    Ok(CoreProgram {
        rows: Rows::none(alloc),
        functions,
        points,
        main: FunctionId(0),
    })
}

fn name(t: &DartType) -> &'static str {
    match &t.node {
        TypeNode::Invalid => "invalid",
        TypeNode::Never => "Never",
        TypeNode::Void => "void",
        TypeNode::Null => "Null",
        TypeNode::Interface { class, .. } => {
            if *class == BOOL {
                return "bool";
            }
            "int"
        }
        TypeNode::Function(_) => "function",
        TypeNode::Var(_) => "variable",
        TypeNode::Promoted { .. } => "promoted",
        TypeNode::Nullable(_) => "nullable",
    }
}

// How many steps a run takes, up to a hundred, and what it prints: taken after each step, or at the end.
fn run(alloc: Global, program: Accepted, after_each: bool) -> Result<String, AllocError> {
    never_wrong(&program);
    let points = program.program().points.len();
    let mut machine = Machine::new(alloc, program)?;
    let mut printed = Vec::new(alloc);
    let mut steps = 0;
    for step in 1..101u32 {
        steps = step;
        let turn = machine.step()?;
        if after_each || turn == Turn::Done {
            printed.extend_from_slice(&machine.take_output())?;
        }
        if turn == Turn::Done {
            break;
        }
    }
    let printed = String::from_utf8_lossy(alloc, &printed)?;
    let printed = printed.replace(alloc, "\n", "/")?;
    format!(in alloc; "{points} points, {steps} steps: {printed}")
}

// Laws of the program, which are proved.
fn laws_hold(program: &CoreProgram)
    requires { IsWellFormed program.now }
{
    faults_are_clauses_that_fail(program);
    a_run_that_is_over_stays(program);
    steps_add_to_what_was_printed(program);
    misuse_goes_wrong(program);
    each_way_to_go_wrong_is_taken(&program.rows);
}

// What becomes of the program of these points.
fn told(alloc: Global, points: Vec<Point>, after_each: bool) -> Result<String, Fail> {
    let program = program(alloc, points)?;
    rows_of_no_class_leave_nothing_out(&program.rows);
    if !is_well_formed(alloc, &program)? {
        return Ok(format!(in alloc; "ill formed")?);
    }
    laws_hold(&program);
    let told = match accept(alloc, program) {
        Ok(accepted) => run(alloc, accepted, after_each)?,
        Err(
            AcceptRefusal::Rejected {
                point,
                expected,
                found,
            },
        ) => {
            let expected = name(&expected);
            let found = name(&found);
            format!(in alloc; "rejected at {}: {expected}, {found}", point.0)?
        }
        Err(AcceptRefusal::Memory) => return Err(AllocError.into()),
    };
    Ok(told)
}

// Whether what becomes of a changed program is what its line says, however its output is taken.
fn is_changed(alloc: Global, line: &str) -> Result<bool, Fail> {
    let (changes, answer) = line.split_once(" = ").ok_or("no answer")?;
    let each = told(alloc, changed(alloc, changes)?, true)?;
    let once = told(alloc, changed(alloc, changes)?, false)?;
    Ok(each.as_str() == answer && (once.as_str() == answer))
}

// Whether a term gives the value that its line says. Where it has been done, the line 1 or 8 of what is
// known holds, by the slot that it writes.
fn is_operator(alloc: Global, line: &str) -> Result<bool, Fail> {
    let (term, value) = line.split_once(" = ").ok_or("no value")?;
    let (slot, facts) = if term.starts_with("add") {
        ("x", 1)
    } else {
        ("t", 8)
    };
    let points = format!(in alloc; "0 {term} 1\n{facts} output {slot} 2\n{facts} end")?;
    let told = told(alloc, points_in(alloc, &points)?, false)?;
    let answer = format!(in alloc; "3 points, 3 steps: {value}/")?;
    Ok(told.as_str() == answer.as_str())
}

// Whether a line is a comment, or right by its table.
fn is_right(alloc: Global, line: &str) -> Result<bool, Fail> {
    if line.starts_with("--") {
        return Ok(true);
    }
    if line.contains(':') {
        return is_changed(alloc, line);
    }
    is_operator(alloc, line)
}

#[test]
fn programs_are_accepted_and_run_as_their_rows_say(rt: HostRuntime) -> Result<(), Fail> {
    for table in [CHANGED, OPERATORS] {
        for line in table.lines() {
            assert!(rt; is_right(rt.alloc(), line)?, "{line}");
        }
    }
    Ok(())
}
