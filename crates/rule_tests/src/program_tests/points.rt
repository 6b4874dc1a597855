//! Points of core programs, as lines.

use crate::libraries::{MAIN, name_of};
use core_ir::{Facts, Held, Known, Operand, Point, SlotId, Term, Value};
use std::alloc::{AllocError, Global};

/// A point, as the tables write it.
pub(super) fn point_told(alloc: Global, point: &Point) -> Result<String, AllocError> {
    let mut told = term_told(alloc, point.term)?;
    told.push_str(" |")?;
    told.push_str(&facts_told(alloc, &point.facts)?)?;
    Ok(told)
}

/// The text of the node in a body that a point is made from.
pub(super) fn site_told(alloc: Global, body: &str, point: &Point) -> Result<String, AllocError> {
    let Some(site) = point.site else {
        return String::from_str(alloc, "-");
    };
    let start = (site.start as usize).saturating_sub(MAIN.len());
    let end = (site.end as usize).saturating_sub(MAIN.len());
    String::from_str(alloc, body.get(start..end).unwrap_or("no text"))
}

// What is known at a point, each slot behind a blank.
fn facts_told(alloc: Global, facts: &Facts) -> Result<String, AllocError> {
    let reached = if facts.is_reachable() {
        ""
    } else {
        " unreached"
    };
    let mut told = String::from_str(alloc, reached)?;
    for place in 0..facts.len() {
        let fact = facts.at(place);
        told.push_str(&fact_told(alloc, fact.slot, &fact.known)?)?;
    }
    Ok(told)
}

fn fact_told(alloc: Global, slot: SlotId, known: &Known) -> Result<String, AllocError> {
    let assigned = if known.assigned { "+" } else { "-" };
    let held = match &known.held {
        Held::Declared => "",
        Held::Own(ty) => name_of(ty),
        Held::Shared => "*",
    };
    format!(in alloc; " s{}{assigned}{held}", slot.0)
}

// An operand: `s` and the number of its slot, or its value.
fn operand_told(alloc: Global, operand: Operand) -> Result<String, AllocError> {
    match operand {
        Operand::Slot(slot) => format!(in alloc; "s{}", slot.0),
        Operand::Constant(Value::Null) => format!(in alloc; "null"),
        Operand::Constant(Value::Integer(number)) => format!(in alloc; "{number}"),
        Operand::Constant(Value::Boolean(value)) => format!(in alloc; "{value}"),
    }
}

// A term that writes what it makes of two operands, by its name.
fn binary_told(
    alloc: Global,
    name: &str,
    to: SlotId,
    left: Operand,
    right: Operand,
    next: u32,
) -> Result<String, AllocError> {
    let left = operand_told(alloc, left)?;
    let right = operand_told(alloc, right)?;
    format!(in alloc; "{name} s{} {left} {right} {next}", to.0)
}

// A term that gives a slot a value, by its name.
fn given_told(
    alloc: Global,
    name: &str,
    slot: SlotId,
    from: Operand,
    next: u32,
) -> Result<String, AllocError> {
    let from = operand_told(alloc, from)?;
    format!(in alloc; "{name} s{} {from} {next}", slot.0)
}

// A term with its operands, and the numbers of the points that come next.
fn term_told(alloc: Global, term: Term) -> Result<String, AllocError> {
    match term {
        Term::Store { to, from, next } => given_told(alloc, "store", to, from, next.0),
        Term::Initialize { slot, from, next } => {
            given_told(alloc, "initialize", slot, from, next.0)
        }
        Term::Declare { slot, next } => format!(in alloc; "declare s{} {}", slot.0, next.0),
        Term::Branch {
            on,
            when_true,
            when_false,
        } => {
            let on = operand_told(alloc, on)?;
            format!(in alloc; "branch {on} {} {}", when_true.0, when_false.0)
        }
        Term::TestNull { slot, null, other } => {
            format!(in alloc; "test_null s{} {} {}", slot.0, null.0, other.0)
        }
        Term::Goto { next } => format!(in alloc; "goto {}", next.0),
        Term::Output { from, next } => {
            let from = operand_told(alloc, from)?;
            format!(in alloc; "output {from} {}", next.0)
        }
        Term::End => format!(in alloc; "end"),
        Term::Add { .. } | Term::Less { .. } | Term::NotEqual { .. } => operator_told(alloc, term),
    }
}

// The same of an operator.
fn operator_told(alloc: Global, term: Term) -> Result<String, AllocError> {
    match term {
        Term::Add {
            to,
            left,
            right,
            next,
        } => binary_told(alloc, "add", to, left, right, next.0),
        Term::Less {
            to,
            left,
            right,
            next,
        } => binary_told(alloc, "less", to, left, right, next.0),
        Term::NotEqual {
            to,
            left,
            right,
            next,
        } => binary_told(alloc, "not_equal", to, left, right, next.0),
        _ => format!(in alloc; "no operator"),
    }
}
