//! Small graphs, a long chain and a large cycle.

ghost use Rattle.std.specs.Prelude.{◌<◌, IfOk};
ghost use Rattle.library_graph.specs.Paths.{AreWithin};

use library_graph::{Edge, Places, cycles, reached};
use std::alloc::{AllocError, Global};
use std::test::Fail;

/// The edges between pairs of places.
fn edges(alloc: Global, pairs: &[(u32, u32)], count: u32) -> Result<Vec<Edge>, AllocError>
    requires { 0 < count }
    ensures { IfOk result (λ edges. AreWithin edges.items count) }
{
    let mut edges = Vec::new(alloc);
    for (from, to) in pairs {
        edges.push(Edge {
            from: *from % count,
            to: *to % count,
        })?;
    }
    Ok(edges)
}

/// An edge from each place to the next.
fn chain(alloc: Global, count: u32) -> Result<Vec<Edge>, AllocError>
    ensures { IfOk result (λ edges. AreWithin edges.items count) }
{
    let mut edges = Vec::new(alloc);
    for to in 1..count {
        edges.push(Edge { from: to - 1, to })?;
    }
    Ok(edges)
}

/// An edge from each place to each.
fn all_to_all(alloc: Global, count: u32) -> Result<Vec<Edge>, AllocError>
    ensures { IfOk result (λ edges. AreWithin edges.items count) }
{
    let mut edges = Vec::new(alloc);
    for from in 0..count {
        for to in 0..count {
            edges.push(Edge { from, to })?;
        }
    }
    Ok(edges)
}

/// Places, with commas between them.
fn shown(alloc: Global, places: &Places) -> Result<String, AllocError> {
    let mut text = String::new(alloc);
    for place in places.as_slice() {
        if !text.is_empty() {
            text.push_str(",")?;
        }
        let place = format!(in alloc; "{place}")?;
        text.push_str(place.as_str())?;
    }
    Ok(text)
}

/// Cycles, with blanks between them.
fn shown_cycles(alloc: Global, pairs: &[(u32, u32)], count: u32) -> Result<String, AllocError>
    requires { 0 < count }
{
    let edges = edges(alloc, pairs, count)?;
    let found = cycles(alloc, edges.as_slice(), count)?;
    let mut text = String::new(alloc);
    for cycle in &found {
        if !text.is_empty() {
            text.push_str(" ")?;
        }
        let places = shown(alloc, cycle)?;
        text.push_str(places.as_str())?;
    }
    Ok(text)
}

/// The places that a place reaches.
fn shown_reached(
    alloc: Global,
    pairs: &[(u32, u32)],
    count: u32,
    from: u32,
) -> Result<String, AllocError>
    requires { from < count }
{
    let edges = edges(alloc, pairs, count)?;
    let found = reached(alloc, edges.as_slice(), count, from)?;
    shown(alloc, &found)
}

// Graphs whose cycles can stand in one order alone.
#[test]
fn cycles_come_after_what_they_reach(rt: HostRuntime) -> Result<(), Fail> {
    let alloc = rt.alloc();
    assert_eq!(rt; shown_cycles(alloc, &[], 1)?.as_str(), "0");
    assert_eq!(rt;
        shown_cycles(alloc, &[(0, 1), (1, 2)], 3)?.as_str(),
        "2 1 0"
    );
    assert_eq!(rt;
        shown_cycles(alloc, &[(2, 1), (1, 0)], 3)?.as_str(),
        "0 1 2"
    );
    assert_eq!(rt;
        shown_cycles(alloc, &[(0, 1), (1, 0), (2, 1)], 3)?.as_str(),
        "0,1 2"
    );
    assert_eq!(rt; shown_cycles(alloc, &[(0, 0), (0, 0)], 1)?.as_str(), "0");
    let two = [(4, 2), (2, 0), (0, 4), (3, 1), (1, 3), (0, 3)];
    assert_eq!(rt; shown_cycles(alloc, &two, 5)?.as_str(), "1,3 0,2,4");
    let none = cycles(alloc, &[], 0)?;
    assert!(rt; none.is_empty());
    Ok(())
}

#[test]
fn places_are_reached(rt: HostRuntime) -> Result<(), Fail> {
    let alloc = rt.alloc();
    let pairs = [(0, 1), (1, 3), (3, 1), (2, 0)];
    assert_eq!(rt; shown_reached(alloc, &pairs, 5, 0)?.as_str(), "0,1,3");
    assert_eq!(rt; shown_reached(alloc, &pairs, 5, 1)?.as_str(), "1,3");
    assert_eq!(rt; shown_reached(alloc, &pairs, 5, 2)?.as_str(), "0,1,2,3");
    assert_eq!(rt; shown_reached(alloc, &pairs, 5, 4)?.as_str(), "4");
    Ok(())
}

// As many libraries as may be asked for at once, in one line and in one cycle.
#[test]
fn large_graphs_are_searched(rt: HostRuntime) -> Result<(), Fail> {
    let alloc = rt.alloc();
    let line = chain(alloc, 10_000)?;
    let found = cycles(alloc, line.as_slice(), 10_000)?;
    assert_eq!(rt; found.len(), 10_000);
    let places = reached(alloc, line.as_slice(), 10_000, 1_000)?;
    assert_eq!(rt; places.into_vec().len(), 9_000);
    let whole = all_to_all(alloc, 1_000)?;
    let found = cycles(alloc, whole.as_slice(), 1_000)?;
    assert_eq!(rt; found.len(), 1);
    Ok(())
}
