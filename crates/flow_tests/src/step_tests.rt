//! The steps of one local.
//!
//! A row is read from left to right. A letter of a type puts that type down, `?` and `&` make `T?`
//! and `X & T` of what lies there. `=` declares the local with the type. `t` is a test for the type,
//! `a` tells it without a test, `w` writes a value of it; `z` tells that the local isn't null, `c`
//! captures it, and `l` is a loop that writes it. `.` says that the local has the type now.

use crate::sample::{letter, local, or_null, rows};
use dart_types::{DartType, Rows, TypeNode};
use flow_model::{Flow, LocalId};
use std::alloc::Global;
use std::test::Fail;

/// The rows, one a line.
const ROWS: &str = "o?= o?. i?t i?. z i. nt i.
o= it i. dt i. ot i.
i?= z i. i?w i?. iw i. Nw i?. zl i?.
o?= iw o. i?t iw i. Nw i?. iw i.
o?= nt iw n. Nw o?. iw n.
o?= nt it sw o. dw n.
o?= nt da d. sa d.
i?= c z i?. iw i?. it i?. ia i?.
X= it Xi&. nt Xi&. z Xi&.
X= nt Xn&. it Xi&.
X= z Xo&. nt Xn&.
Y= z Y. it Yi&. st Yi&.
V= o?t o?. z o.
N= z E.";

// The local.
const X: LocalId = LocalId(7);

// What was read of a row.
#[derive(Drop)]
struct Reader {
    types: Vec<DartType>,
    flow: Flow,
}

impl Reader {
    fn step(&mut self, alloc: Global, rows: &Rows, mark: u8) -> Result<bool, Fail> {
        if let Some(t) = letter(alloc, mark)? {
            self.types.push(t)?;
            return Ok(true);
        }
        match mark {
            b' ' => {}
            b'z' => self.flow.non_null(alloc, rows, X)?,
            b'c' => self.flow.capture(alloc, &[X])?,
            b'l' => self.flow.conservative_join(alloc, &[X], &[])?,
            _ => {
                let t = self.last()?;
                return self.typed_step(alloc, rows, mark, t);
            }
        }
        Ok(true)
    }

    // A step that takes the last type.
    fn typed_step(
        &mut self,
        alloc: Global,
        rows: &Rows,
        mark: u8,
        t: DartType,
    ) -> Result<bool, Fail> {
        match mark {
            b'?' => self.types.push(or_null(alloc, t)?)?,
            b'&' => self.promote(alloc, t)?,
            b'=' => return self.declare(alloc, t),
            b't' => self.flow.promote(alloc, rows, X, &t)?,
            b'a' => self.flow.append(alloc, rows, X, &t)?,
            b'w' => self.flow.assign(alloc, rows, X, &t)?,
            b'.' => return Ok(self.has(&t)),
            _ => return Err("no letter of a step".into()),
        }
        Ok(true)
    }

    // The local, declared with the type.
    fn declare(&mut self, alloc: Global, t: DartType) -> Result<bool, Fail> {
        let declared = local(7, t);
        if self.flow.is_in_scope(declared.var) {
            return Ok(false);
        }
        self.flow.declare(alloc, &declared)?;
        Ok(true)
    }

    // Whether the local has the type now.
    fn has(&self, t: &DartType) -> bool {
        match self.flow.current(X) {
            Some(current) => current.is_same(t),
            None => false,
        }
    }

    fn promote(&mut self, alloc: Global, t: DartType) -> Result<(), Fail> {
        match self.last()?.node {
            TypeNode::Var(var) => {
                self.types.push(DartType::promoted(alloc, var, t)?)?;
                Ok(())
            }
            _ => Err("no variable stands before".into()),
        }
    }

    fn last(&mut self) -> Result<DartType, Fail> {
        match self.types.pop() {
            Some(t) => Ok(t),
            None => Err("no type stands before".into()),
        }
    }
}

// Whether the local has the types that the row says.
fn holds(alloc: Global, rows: &Rows, row: &str) -> Result<bool, Fail> {
    let mut reader = Reader {
        types: Vec::new(alloc),
        flow: Flow::start(alloc, &[])?,
    };
    for mark in row.as_bytes() {
        if !reader.step(alloc, rows, *mark)? {
            return Ok(false);
        }
    }
    Ok(true)
}

#[test]
fn a_local_has_the_types_that_the_rows_say(rt: HostRuntime) -> Result<(), Fail> {
    let alloc = rt.alloc();
    let rows = rows(alloc)?;
    for row in ROWS.lines() {
        assert!(rt; holds(alloc, &rows, row)?, "{row}");
    }
    Ok(())
}
