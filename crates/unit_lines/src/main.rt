//! Answers each line of its input, which asks something of a text. In a text `¶` stands for a line feed.
//!
//!     read TEXT           what it begins with, a statement or else an expression, in the notation of
//!                         `tree_notation`: `none` where it is neither, and ` ..` behind it where more follows
//!     faults TEXT         what is wrong with its tree: `ok`, or a fault behind the other, each as
//!                         `CODE@OFFSET+LENGTH` in UTF-16 code units from 0
//!     print TEXT          the text as its tokens are printed
//!     same TEXT ⇒ TEXT    whether other libraries may see a difference between two texts: `same` or `other`
//!
//! A text that is refused is answered by what its refusal says.
#![tactic(auto)]

use dart_parse::{TreeFault, parse_unit, tree_faults};
use dart_text::{Text, TextRefusal};
use dart_tree::Unit;
use interface_part::{Interface, interface_part};
use parse_tests::read;
use std::alloc::Global;
use std::io::{self, BufWriter, Read, Write};
use tree_print::print;
use work_counts::Work;

/// How far the root of what a text begins with lies below a unit: it stands in the block of a function.
const DEPTH: u32 = 3;

/// What a line is answered.
#[derive(Drop)]
enum Answer {
    Faults(Vec<TreeFault>),
    /// A notation, or a text as its tokens are printed.
    Written(String),
    Compared(bool),
    /// The line asks nothing that is known here.
    Unknown,
}

/// The text that is written so.
fn text_of(alloc: Global, written: &str) -> Result<Text, TextRefusal> {
    let lines = written.replace(alloc, "¶", "\n")?;
    Text::from_str(alloc, &lines)
}

/// What a text begins with.
fn beginning(alloc: Global, written: &str) -> Result<String, TextRefusal> {
    let lines = written.replace(alloc, "¶", "\n")?;
    read(alloc, &lines, DEPTH)
}

/// The unit of the text that is written so.
fn unit_of(alloc: Global, written: &str) -> Result<Unit, TextRefusal> {
    let text = text_of(alloc, written)?;
    Ok(parse_unit(alloc, &text, false, &mut Work::new())?)
}

/// What is wrong with the tree of a text.
fn faults_of(alloc: Global, written: &str) -> Result<Vec<TreeFault>, TextRefusal> {
    let text = text_of(alloc, written)?;
    let unit = parse_unit(alloc, &text, false, &mut Work::new())?;
    Ok(tree_faults(alloc, &text, &unit)?)
}

/// A text as its tokens are printed.
fn printed(alloc: Global, written: &str) -> Result<String, TextRefusal> {
    let unit = unit_of(alloc, written)?;
    let printed = print(alloc, &unit)?;
    Ok(printed.replace(alloc, "\n", "¶")?)
}

/// The interface part of a text.
fn interface_of(alloc: Global, written: &str) -> Result<Interface, TextRefusal> {
    let unit = unit_of(alloc, written)?;
    Ok(interface_part(alloc, &unit)?)
}

/// What a line is answered. The errors are a text that is too long, and want of memory.
fn answered(alloc: Global, line: &str) -> Result<Answer, TextRefusal> {
    if let Some(text) = line.strip_prefix("read ") {
        return Ok(Answer::Written(beginning(alloc, text)?));
    }
    if let Some(text) = line.strip_prefix("faults ") {
        return Ok(Answer::Faults(faults_of(alloc, text)?));
    }
    if let Some(text) = line.strip_prefix("print ") {
        return Ok(Answer::Written(printed(alloc, text)?));
    }
    let Some(texts) = line.strip_prefix("same ") else {
        return Ok(Answer::Unknown);
    };
    let Some((one, other)) = texts.split_once(" ⇒ ") else {
        return Ok(Answer::Unknown);
    };
    let is_same = interface_of(alloc, one)? == interface_of(alloc, other)?;
    Ok(Answer::Compared(is_same))
}

/// Writes faults in a row.
fn write_faults<W: Write>(out: &mut W, faults: &[TreeFault]) -> io::Result<()> {
    if faults.is_empty() {
        return writeln!(out, "ok");
    }
    for (index, fault) in faults.iter().enumerate() {
        let gap = if index == 0 { "" } else { " " };
        let length = fault.span.end.saturating_sub(fault.span.start);
        write!(out, "{gap}{:?}@{}+{length}", fault.fault, fault.span.start)?;
    }
    writeln!(out, "")
}

/// Writes what a line is answered.
fn write_answer<W: Write>(out: &mut W, answer: &Answer) -> io::Result<()> {
    match answer {
        Answer::Faults(faults) => write_faults(out, faults),
        Answer::Written(text) => writeln!(out, "{text}"),
        Answer::Compared(true) => writeln!(out, "same"),
        Answer::Compared(false) => writeln!(out, "other"),
        Answer::Unknown => writeln!(out, "no question"),
    }
}

fn main(rt: HostRuntime) -> io::Result<()> {
    let alloc = rt.alloc();
    let mut input = String::new(alloc);
    rt.stdin().read_to_string(&mut input)?;
    let mut out = BufWriter::new(alloc, io::writer(&rt))?;
    for line in input.lines() {
        match answered(alloc, line) {
            Ok(answer) => write_answer(&mut out, &answer)?,
            Err(refusal) => writeln!(out, "{refusal}")?,
        }
    }
    out.flush()
}
