//! Nested texts, and notations of them, in one line.
//!
//! They are written `FIRST COUNT BEFORE MIDDLE BEHIND LAST`: what stands first, so many times what stands
//! before the middle, the middle, as often what stands behind it, and what stands last. There `_` is a
//! blank, and `~` is nothing.

use std::alloc::Global;
use std::test::Fail;

// What is written so.
pub(crate) fn written_out(alloc: Global, written: &str) -> Result<String, Fail> {
    let written = written.replace(alloc, "~", "")?;
    let written = written.replace(alloc, " ", "\n")?;
    let written = written.replace(alloc, "_", " ")?;
    let mut parts = written.split("\n");
    let first = parts.next().ok_or("nothing first")?;
    let count = parts.next().ok_or("no count")?.parse::<usize>()?;
    let before = parts.next().ok_or("nothing before")?.repeat(alloc, count)?;
    let middle = parts.next().ok_or("no middle")?;
    let behind = parts.next().ok_or("nothing behind")?.repeat(alloc, count)?;
    let last = parts.next().ok_or("nothing last")?;
    Ok(format!(in alloc; "{first}{before}{middle}{behind}{last}")?)
}
