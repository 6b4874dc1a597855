//! Which libraries lead to which.

ghost use Rattle.std.specs.Prelude.{◌≡◌, ◌++◌, IfOk, OnOk};
ghost use Rattle.library_graph.specs.Paths.{AreWithin};
ghost use Rattle.libraries.specs.Graph.{edge_at, edge_to, edges_from, edges_in, leads, leading_from};
ghost use Rattle.libraries.specs.Elements.{if_library};

use crate::aims::{Aim, AimKind, Aims};
use crate::heads::{Head, is_library_at};
use library_graph::Edge;
use std::alloc::{AllocError, Global};

/// Whether a directive leads to another library: an import or an export does.
fn leads(kind: AimKind) -> bool
    ensures { result ≡ leads kind }
{
    match kind {
        AimKind::Library => false,
        AimKind::Import => true,
        AimKind::Export => true,
        AimKind::Part => false,
        AimKind::PartOf => false,
        AimKind::PartOfName => false,
    }
}

/// The place of the library that a directive leads to.
fn leads_to(heads: &[Head], target: Option<usize>) -> Option<usize>
    ensures { result ≡ if_library heads.now target }
{
    match target {
        None => None,
        Some(place) => {
            if is_library_at(heads, place) {
                Some(place)
            } else {
                None
            }
        }
    }
}

/// Adds an edge to a place, if there is one and it is below the count.
fn add_edge(
    count: u32,
    from: u32,
    to: Option<usize>,
    edges: &mut Vec<Edge>,
) -> Result<(), AllocError>
    ensures { OnOk result (edges.new.items ≡ edges.old.items ++ edge_to count from to) }
{
    if let Some(to) = to {
        if to < count as usize {
            edges.push(Edge {
                from,
                to: to as u32,
            })?;
        }
    }
    Ok(())
}

/// Adds the edge that a directive of the library at a place is, if it is one.
fn add_aim(
    heads: &[Head],
    count: u32,
    from: u32,
    aim: &Aim,
    edges: &mut Vec<Edge>,
) -> Result<(), AllocError>
    ensures { OnOk result (edges.new.items ≡ edges.old.items ++ edge_at heads.now count from aim.now) }
{
    if leads(aim.kind) {
        return add_edge(count, from, leads_to(heads, aim.target), edges);
    }
    Ok(())
}

/// Adds the edges of the directives of the library at a place.
fn add_aims(
    heads: &[Head],
    count: u32,
    from: u32,
    aims: &[Aim],
    edges: &mut Vec<Edge>,
) -> Result<(), AllocError>
    ensures { OnOk result (edges.new.items ≡ edges.old.items ++ edges_in heads.now count from aims.now) }
{
    for aim in aims {
        add_aim(heads, count, from, aim, edges)?;
    }
    Ok(())
}

/// Adds the edges of the file at a place: of a library that to `dart:core`, which stands at the first
/// place, and those of its directives.
fn add_file(
    heads: &[Head],
    count: u32,
    from: usize,
    aims: &[Aim],
    edges: &mut Vec<Edge>,
) -> Result<(), AllocError>
    ensures { OnOk result (edges.new.items ≡ edges.old.items ++ leading_from heads.now count from aims.now) }
{
    if from < count as usize && is_library_at(heads, from) {
        add_edge(count, from as u32, Some(0), edges)?;
        return add_aims(heads, count, from as u32, aims, edges);
    }
    Ok(())
}

/// The edges of all files.
fn edges_from(
    alloc: Global,
    heads: &[Head],
    count: u32,
    all: &[Aims],
) -> Result<Vec<Edge>, AllocError>
    ensures { IfOk result (λ edges. edges.items ≡ edges_from heads.now count 0 all.now) }
{
    let mut edges = Vec::new(alloc);
    for (from, aims) in all.iter().enumerate() {
        add_file(heads, count, from, aims.as_slice(), &mut edges)?;
    }
    Ok(edges)
}

/// The edges among libraries, by their places: each leads to `dart:core`, which stands at the first
/// place, and to the libraries that it imports or exports. The error is want of memory.
pub fn edges_of(
    alloc: Global,
    heads: &[Head],
    count: u32,
    all: &[Aims],
) -> Result<Vec<Edge>, AllocError>
    ensures edges { IfOk result (λ edges. edges.items ≡ edges_from heads.now count 0 all.now) }
    ensures within { IfOk result (λ edges. AreWithin edges.items count) }
{
    let edges = edges_from(alloc, heads, count, all)?;
    Ok(edges)
}
