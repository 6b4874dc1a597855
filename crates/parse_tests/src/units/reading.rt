//! What a text reads as, and what is wrong with it.

use dart_parse::{TreeFault, parse_unit, tree_faults};
use dart_text::{Text, TextRefusal};
use dart_tree::Unit;
use std::alloc::{AllocError, Global};
use std::fmt::Debug;
use tree_print::print;
use unit_notation::{Ranges, unit_text};
use work_counts::Work;

// Adds what is wrong with a range, `KIND@OFFSET+LENGTH`, behind ` :: ` or a blank.
fn add_fault<K: Debug + Copy>(
    alloc: Global,
    faults: &mut String,
    kind: K,
    start: u32,
    end: u32,
) -> Result<(), AllocError> {
    faults.push_str(if faults.is_empty() { " :: " } else { " " })?;
    let length = end.saturating_sub(start);
    faults.push_str(&format!(in alloc; "{kind:?}@{start}+{length}")?)?;
    Ok(())
}

// What is wrong with lexemes of a text, then with its brackets, and then with its tree, behind ` :: `;
// nothing where nothing is wrong.
fn faults_text(alloc: Global, unit: &Unit, in_tree: &[TreeFault]) -> Result<String, AllocError> {
    let mut faults = String::new(alloc);
    for each in unit.lexical_faults.as_slice() {
        add_fault(alloc, &mut faults, each.kind, each.start, each.end)?;
    }
    let tokens = unit.tokens.listed(alloc)?;
    for each in unit.group_faults.as_slice() {
        if let Some(token) = tokens.get(each.token as usize) {
            add_fault(alloc, &mut faults, each.kind, token.start, token.end)?;
        }
    }
    for each in in_tree {
        add_fault(
            alloc,
            &mut faults,
            each.fault,
            each.span.start,
            each.span.end,
        )?;
    }
    Ok(faults)
}

// The notation of a text that is printed from the tokens of this text and read again, without ranges.
// The errors are those of `read`.
pub fn read_printed(alloc: Global, text: &str) -> Result<String, TextRefusal> {
    let text = Text::from_str(alloc, text)?;
    let unit = parse_unit(alloc, &text, false, &mut Work::new())?;
    let printed = Text::from_str(alloc, &print(alloc, &unit)?)?;
    let again = parse_unit(alloc, &printed, false, &mut Work::new())?;
    Ok(unit_text(alloc, &again.words, &again.tree, Ranges::Hidden)?)
}

// The notation of a text, and ` :: ` and what is wrong with it, where something is. The errors are a
// text that is too long, and want of memory.
pub fn read(alloc: Global, text: &str, ranges: Ranges) -> Result<String, TextRefusal> {
    let text = Text::from_str(alloc, text)?;
    let unit = parse_unit(alloc, &text, false, &mut Work::new())?;
    let in_tree = tree_faults(alloc, &text, &unit)?;
    let mut reading = unit_text(alloc, &unit.words, &unit.tree, ranges)?;
    reading.push_str(&faults_text(alloc, &unit, &in_tree)?)?;
    Ok(reading)
}
