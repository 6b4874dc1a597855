//! Prints what the rules of types answer to the lines of its input, in the notation of `notation.rt`.
//!
//! A line is a question, its word first, then its cells with bars between them; it is printed with its
//! answer behind it. A line that is empty or begins with `--` is printed as it is. The answers that
//! stand in `stdout` were worked out by hand from the rules. The crate has no test function: what is
//! asked and what is answered is data, so that neither is proved.
//!
//! | Question | Answer |
//! |---|---|
//! | `put T\|XS\|TS` | T with types put in for variables, and how many types stand in it |
//! | `with S\|XS\|TS` | the superinterface S of a class with the parameters XS where these are TS |
//! | `same S\|TS\|S\|TS` | whether two superinterfaces are the same where the parameters X and Y are TS |
//! | `sub S\|T` | whether S is a subtype of T, and once more by the rule for `Object` where T is that |
//! | `invalid TS` | whether the invalid type stands in each |
//! | `upper S\|T`, `lower S\|T`, `without S\|T`, `non_null S` | the bound, or what is left of S |
//! | `infer XS\|R\|C\|FS\|AS` | the type arguments of a call with the type parameters XS, the result R, the context C, if any, the formals FS and arguments of the types AS |
//! | `context XS\|R\|C\|FS\|AS` | the context of the argument after those |
//! | `fits INDEX\|PARAMETERS\|SUPERTYPES\|DEPTH` | whether the row of a class of `dart:core` is well formed beside those of `Object`, of `Comparable` and of a Map with one parameter |
//! | `object PARAMETERS` | whether a row of `Object` with so many parameters is well formed |
//! | `declares LIBRARY` | whether a row of a type variable of the library is well formed |
//! | `rows WORD NUMBER` | how many rows of classes there are from then on (`large_rows.rt`) |
//! | `again` | whether the rows take the class with the letter y once more |
//! | `class LIBRARY\|INDEX`, `bound INDEX` | whether the class has a row, the variable a bound |
//! | `supers LIBRARY\|INDEX` | how many superinterfaces the class keeps |
//! | `told` | the classes that form too large a superinterface |
#![tactic(auto)]

mod calls;
mod cells;
mod large_rows;
mod letters;
mod notation;
mod printing;
mod questions;
mod row_questions;
mod sample_rows;
mod type_questions;

use crate::questions::answer;
use crate::sample_rows::sample_rows;
use std::io::Read;
use std::test::Fail;

fn main(rt: HostRuntime) -> Result<(), Fail> {
    let alloc = rt.alloc();
    let mut input = String::new(alloc);
    rt.stdin().read_to_string(&mut input)?;
    let mut rows = sample_rows(alloc)?;
    for line in input.lines() {
        if line.is_empty() || line.starts_with("--") {
            println!(rt; "{line}")?;
        } else {
            let said = answer(alloc, &mut rows, line)?;
            println!(rt; "{line} = {said}")?;
        }
    }
    Ok(())
}
