//! Tasks that depend on themselves over others.

ghost use Rattle.std.specs.Prelude.{◌≡◌, ◌<◌, ◌++◌, ◌∷◌, [], IfOk, OnOk, false, length, replicate, slice_index_or, slice_set};
ghost use Rattle.tb_cleaning.specs.Circles.{circles_of, circles_to, graph_of, within};
ghost use Rattle.tb_graph.specs.Leads.{leads};

use std::alloc::{AllocError, Global};
use tb_graph::Links;
use tb_values::Items;

/// For each task whether it depends on itself, of the places of those on which each depends. Tasks are looked at one by one only where
/// there is a circle.
pub(crate) fn circles_of(alloc: Global, links: &[Items<usize>]) -> Result<Vec<bool>, AllocError>
    ensures { IfOk result (λ marks. marks.items ≡ circles_of links.now) }
{
    let graph = graph_of(alloc, links)?;
    if graph.acyclic()? {
        return no_marks(alloc, graph.nodes());
    }
    marks_of(alloc, &graph)
}

fn no_marks(alloc: Global, nodes: usize) -> Result<Vec<bool>, AllocError>
    ensures { IfOk result (λ marks. marks.items ≡ replicate nodes false) }
{
    vec![in alloc; false; nodes]
}

fn graph_of(alloc: Global, links: &[Items<usize>]) -> Result<Links, AllocError>
    ensures { IfOk result (λ graph. graph ≡ graph_of links.now) }
{
    let mut graph = Links::new(alloc, links.len())?;
    for from in 0..links.len() {
        add_links(&mut graph, links.len(), from, places_at(links, from))?;
    }
    Ok(graph)
}

fn places_at(links: &[Items<usize>], place: usize) -> &[usize]
    requires { place < length links.now }
    ensures { result.now ≡ slice_index_or links.now place [] }
{
    links[place].as_slice()
}

/// Links a node to those of places that are nodes.
fn add_links(
    graph: &mut Links,
    nodes: usize,
    from: usize,
    places: &[usize],
) -> Result<(), AllocError>
    requires nodes { length graph.old ≡ nodes }
    requires from { from < nodes }
    ensures { OnOk result (graph.new ≡ slice_set graph.old from
        (slice_index_or graph.old from [] ++ within nodes places.now)) }
{
    for place in places {
        add_link(graph, nodes, from, *place)?;
    }
    Ok(())
}

fn add_link(graph: &mut Links, nodes: usize, from: usize, place: usize) -> Result<(), AllocError>
    requires nodes { length graph.old ≡ nodes }
    requires from { from < nodes }
    ensures { OnOk result (graph.new ≡ slice_set graph.old from
        (slice_index_or graph.old from [] ++ within nodes (place ∷ []))) }
{
    if place < nodes {
        graph.add(from, place)
    } else {
        Ok(())
    }
}

fn marks_of(alloc: Global, graph: &Links) -> Result<Vec<bool>, AllocError>
    ensures { IfOk result (λ marks. marks.items ≡ circles_to graph.now (length graph.now)) }
{
    let mut marks = Vec::with_capacity(alloc, graph.nodes())?;
    for node in 0..graph.nodes() {
        marks.push(is_in_circle(graph, node)?)?;
    }
    Ok(marks)
}

fn is_in_circle(graph: &Links, node: usize) -> Result<bool, AllocError>
    requires { node < length graph.now }
    ensures { IfOk result (λ is. is ≡ leads graph.now node node) }
{
    graph.reaches(node, node)
}
