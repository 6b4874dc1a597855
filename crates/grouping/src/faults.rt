//! What is wrong with groups, by the tokens that the grammar reads and the brackets between them.

ghost use Rattle.std.specs.Prelude.{◌≡◌, ◌+◌, ◌<◌, ◌^◌, ◌++◌, ◌∷◌, [], IfOk, OnOk, drop, length, take};
ghost use Rattle.grouping.specs.Faults.{fault_of_read, faults_between, faults_of_read};

use dart_tokens::{GroupFault, GroupFaultKind, GroupedToken, UnopenedBracket, opens};
use std::alloc::{AllocError, Global};

/// Adds what is wrong with the token at a place.
fn add_fault(
    faults: &mut Vec<GroupFault>,
    place: u32,
    token: GroupedToken,
) -> Result<(), AllocError>
    ensures { OnOk result (faults.new.items ≡ faults.old.items ++ fault_of_read place token) }
{
    if opens(token.kind).is_some() && !token.is_closed {
        faults.push(GroupFault {
            kind: GroupFaultKind::UnclosedGroup,
            token: place,
        })?;
    }
    Ok(())
}

/// Adds what is wrong with tokens, of which the first has this place.
fn add_faults(
    faults: &mut Vec<GroupFault>,
    place: u32,
    read: &[GroupedToken],
) -> Result<(), AllocError>
    requires { place + length read.now < 2 ^ 32 }
    ensures { OnOk result (faults.new.items ≡ faults.old.items ++ faults_of_read place read.now) }
{
    for (index, token) in read.iter().enumerate() {
        add_fault(faults, place + index as u32, *token)?;
    }
    Ok(())
}

/// Adds what is wrong with the first of these tokens, so many of them, and answers the others.
fn add_first<'r>(
    faults: &mut Vec<GroupFault>,
    place: u32,
    read: &'r [GroupedToken],
    count: usize,
) -> Result<&'r [GroupedToken], AllocError>
    requires { place + length read.now < 2 ^ 32 }
    ensures added { OnOk result (faults.new.items ≡ faults.old.items ++ faults_of_read place (take count read.now)) }
    ensures others { IfOk result (λ others. others.now ≡ drop count read.now) }
{
    if count >= read.len() {
        add_faults(faults, place, read)?;
        return Ok(&[]);
    }
    let (first, others) = read.split_at(count);
    add_faults(faults, place, first)?;
    Ok(others)
}

/// What is wrong with tokens, and with the brackets between them.
pub fn faults(
    alloc: Global,
    read: &[GroupedToken],
    unopened: &[UnopenedBracket],
) -> Result<Vec<GroupFault>, AllocError>
    requires { length read.now + length unopened.now < 2 ^ 32 }
    ensures { IfOk result (λ faults. faults.items ≡ faults_between 0 0 read.now unopened.now) }
{
    let mut faults = Vec::new(alloc);
    let mut others = read;
    let mut place = 0;
    let mut before = 0;
    for bracket in unopened {
        let count = bracket.before.saturating_sub(before) as usize;
        let left = others.len();
        others = add_first(&mut faults, place, others, count)?;
        place += (left - others.len()) as u32;
        faults.push(GroupFault {
            kind: GroupFaultKind::UnopenedGroup,
            token: place,
        })?;
        place += 1;
        before = bracket.before;
    }
    add_faults(&mut faults, place, others)?;
    Ok(faults)
}
