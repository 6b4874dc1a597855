//! Classes in all orders over rows below, and those that lie over themselves.

use crate::{DeclaredClass, Unextended, Unsettled, are_in_order, extend_declared, settle};
use dart_types::{CORE, ClassId, ClassRow, DartType, LibId, Rows, TypeList, VarList};
use std::alloc::{AllocError, Global};
use std::test::Fail;

// The classes below: `Object`, one whose direct supertype that is, and one with that as direct supertype.
const O: u32 = 20_000;

const P: u32 = 20_001;

const Q: u32 = 20_002;

// The class of the library 1 with this number, from that of `Object` on the classes below.
fn id(number: u32) -> ClassId {
    match number.checked_sub(O) {
        None => ClassId {
            lib: LibId(1),
            index: number,
        },
        Some(index) => ClassId { lib: CORE, index },
    }
}

// A class with these direct supertypes.
fn class(alloc: Global, number: u32, supers: &[u32]) -> Result<DeclaredClass, AllocError> {
    let mut types = TypeList::new(alloc);
    for above in supers {
        types.push(DartType::class(alloc, id(*above))?)?;
    }
    Ok(DeclaredClass {
        id: id(number),
        params: VarList::new(alloc),
        supers: types,
    })
}

// Classes with these direct supertypes, numbered from the first number on.
fn classes(alloc: Global, first: u32, supers: &[&[u32]]) -> Result<Vec<DeclaredClass>, Fail> {
    let mut number = first;
    let mut classes = Vec::new(alloc);
    for above in supers {
        classes.push(class(alloc, number, above)?)?;
        number = number.saturating_add(1);
    }
    Ok(classes)
}

// A chain of classes, each before its supertype.
fn chain(alloc: Global, length: u32) -> Result<Vec<DeclaredClass>, Fail> {
    let mut classes = Vec::new(alloc);
    for number in 0..length {
        let above = if number == length - 1 { O } else { number + 1 };
        classes.push(class(alloc, number, &[above])?)?;
    }
    Ok(classes)
}

// The rows of declared classes, or why there are none. Classes in another order get none.
fn settled(
    alloc: Global,
    below: &Rows,
    classes: &[DeclaredClass],
) -> Result<Vec<ClassRow>, Unsettled> {
    if !are_in_order(classes) {
        return Err(Unsettled::Memory);
    }
    settle(alloc, below, classes)
}

// The rows below with classes of these direct supertypes over them, numbered from the first number on, or
// why there are none. Classes in another order get none.
fn extended(
    alloc: Global,
    below: &Rows,
    first: u32,
    supers: &[&[u32]],
) -> Result<Result<Rows, Unextended>, Fail> {
    let classes = classes(alloc, first, supers)?;
    if !are_in_order(&classes) {
        return Ok(Err(Unextended::Memory));
    }
    match extend_declared(alloc, below, &classes, Vec::new(alloc)) {
        Ok(extended) => Ok(Ok(extended.rows)),
        Err(refused) => Ok(Err(refused)),
    }
}

// The rows below, none where they aren't well formed.
fn core(alloc: Global) -> Result<Rows, Fail> {
    let none = Rows::none(alloc);
    match extended(alloc, &none, O, &[&[], &[O], &[P]])? {
        Ok(rows) => Ok(rows),
        Err(_) => Ok(none),
    }
}

// The depth of a class of these rows, None where there are no rows or none of the class.
fn depth_in(rows: &Result<Rows, Unextended>, number: u32) -> Option<u64> {
    match rows {
        Ok(rows) => rows.class(id(number)).map(|row| row.depth),
        Err(_) => None,
    }
}

// The depths of classes with these direct supertypes, or the class that is a supertype of itself.
fn answer(alloc: Global, below: &Rows, supers: &[&[u32]]) -> Result<String, Fail> {
    let mut text = String::new(alloc);
    match settled(alloc, below, &classes(alloc, 0, supers)?) {
        Ok(rows) => {
            for row in &rows {
                text.push_str(format!(in alloc; " {}", row.depth)?.as_str())?;
            }
        }
        Err(Unsettled::Cycle { class }) => {
            text.push_str(format!(in alloc; " cycle {}", class.index)?.as_str())?;
        }
        Err(Unsettled::Memory) => text.push_str(" memory")?,
    }
    Ok(text)
}

#[test]
fn depths_are_the_longest_ways_up(rt: HostRuntime) -> Result<(), Fail> {
    let alloc = rt.alloc();
    let below = core(alloc)?;
    let cases: [(&[&[u32]], &str); 9] = [
        (&[], ""),
        // Chains, each class behind its supertype and before it.
        (&[&[O], &[0], &[1]], " 1 2 3"),
        (&[&[1], &[2], &[O]], " 3 2 1"),
        // Two ways up, of one length and of others, and the supertypes of a class in both orders.
        (&[&[O], &[0], &[0], &[1, 2]], " 1 2 2 3"),
        (&[&[3, 1], &[2], &[O], &[O]], " 3 2 1 1"),
        (&[&[1, 3], &[2], &[O], &[O]], " 3 2 1 1"),
        // A class with no direct supertype, and one whose supertype has no row.
        (&[&[], &[7]], " 0 1"),
        // Classes below: `Object` has the depth 0, the others 1 and 2.
        (&[&[P], &[Q, 0], &[Q, O], &[2, 1]], " 2 3 3 4"),
        (&[&[P, Q, 1], &[P]], " 3 2"),
    ];
    for (supers, depths) in &cases {
        assert_eq!(rt; answer(alloc, &below, supers)?.as_str(), *depths);
    }
    Ok(())
}

#[test]
fn a_class_over_itself_is_named(rt: HostRuntime) -> Result<(), Fail> {
    let alloc = rt.alloc();
    let below = core(alloc)?;
    let cases: [(&[&[u32]], &str); 6] = [
        (&[&[0]], " cycle 0"),
        (&[&[O], &[0, 1]], " cycle 1"),
        (&[&[1], &[0]], " cycle 0"),
        (&[&[1], &[2], &[0]], " cycle 0"),
        // A class that leads to a cycle isn't named, nor is one behind it.
        (&[&[O], &[2], &[3], &[2], &[O]], " cycle 2"),
        (&[&[2, 1], &[O], &[O, 3], &[P, 2]], " cycle 2"),
    ];
    for (supers, named) in &cases {
        assert_eq!(rt; answer(alloc, &below, supers)?.as_str(), *named);
    }
    Ok(())
}

#[test]
fn rows_are_extended(rt: HostRuntime) -> Result<(), Fail> {
    let alloc = rt.alloc();
    let below = core(alloc)?;
    let rows = extended(alloc, &below, 0, &[&[1], &[P], &[Q, O]])?;
    assert_eq!(rt; depth_in(&rows, Q), Some(2));
    assert_eq!(rt; depth_in(&rows, 0), Some(3));
    assert_eq!(rt; depth_in(&rows, 2), Some(3));
    let cycle = extended(alloc, &below, 0, &[&[O], &[2], &[1]])?;
    let class = id(1);
    assert!(rt; matches!(&cycle, Err(Unextended::Cycle { class: named }) if *named == class));
    // A class that isn't `Object` and has no direct supertype.
    let unformed = extended(alloc, &below, 0, &[&[]])?;
    assert!(rt; matches!(&unformed, Err(Unextended::Unformed)));
    Ok(())
}

// As many classes as may be declared in one chain, each before its supertype.
#[test]
fn a_long_chain_is_settled(rt: HostRuntime) -> Result<(), Fail> {
    let alloc = rt.alloc();
    let below = core(alloc)?;
    let rows = settled(alloc, &below, &chain(alloc, 10_000)?)?;
    assert_eq!(rt; rows.len(), 10_000);
    for row in &rows {
        assert_eq!(rt;
            row.depth,
            10_000_u64.saturating_sub(u64::from(row.id.index))
        );
    }
    Ok(())
}
