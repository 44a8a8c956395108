ghost use Rattle.std.specs.Prelude.{◌≡◌, ◌<◌, ℕ, false, length, replicate, IfOk};
ghost use Rattle.std.specs.List.{list_any};
ghost use Rattle.tb_graph.specs.Walk.{IsIn, IsWellFormed};
ghost use Rattle.tb_graph.specs.Marks.{is_marked, AreMarks};
ghost use Rattle.tb_graph.specs.Blocked.{is_blocked, is_other_open, AreBlocking, marks_where};

use crate::links::targets_of;
use std::alloc::{AllocError, Global};
use tb_values::Items;

/// Marks for the nodes that are blocked.
pub(crate) fn blocked_nodes(
    alloc: Global,
    targets: &[Items<usize>],
    open_nodes: &[bool],
) -> Result<Vec<bool>, AllocError>
    ensures { IfOk result
        (λ marks. AreMarks (length targets.now)
        (is_blocked targets.now open_nodes.now) marks.items) }
{
    let mut marks = Vec::new(alloc);
    for node in 0..targets.len() {
        marks.push(is_node_blocked(targets, open_nodes, node))?;
    }
    Ok(marks)
}

fn is_node_blocked(targets: &[Items<usize>], open_nodes: &[bool], node: usize) -> bool
    requires { node < length targets.now }
    ensures { result ≡ is_blocked targets.now open_nodes.now node }
{
    is_open(open_nodes, node) && any_open(open_nodes, targets_of(targets, node))
}

fn any_open(open_nodes: &[bool], targets: &[usize]) -> bool
    ensures { result ≡ list_any (is_marked open_nodes.now) targets.now }
{
    targets.iter().any(|target| is_open(open_nodes, *target))
}

/// Whether a node is among those that are open.
fn is_open(open_nodes: &[bool], node: usize) -> bool
    ensures { result ≡ is_marked open_nodes.now node }
{
    match open_nodes.get(node) {
        Some(mark) => *mark,
        None => false,
    }
}

/// Marks for the nodes that are blocking.
pub(crate) fn blocking_nodes(
    alloc: Global,
    targets: &[Items<usize>],
    open_nodes: &[bool],
) -> Result<Vec<bool>, AllocError>
    requires well_formed { IsWellFormed targets.now }
    ensures { IfOk result (λ marks. AreBlocking targets.now open_nodes.now marks.items) }
{
    let mut marks = vec![in alloc; false; targets.len()]?;
    mark_blocking(targets, open_nodes, &mut marks);
    Ok(marks)
}

fn mark_blocking(targets: &[Items<usize>], open_nodes: &[bool], marks: &mut [bool])
    requires well_formed { IsWellFormed targets.now }
    requires blank { marks.old ≡ replicate (length targets.now) false }
    ensures { AreBlocking targets.now open_nodes.now marks.new }
{
    for node in 0..targets.len() {
        if is_open(open_nodes, node) {
            mark_open(marks, open_nodes, node, targets_of(targets, node));
        }
    }
}

/// Marks the targets of a node that are open, but not the node itself.
fn mark_open(marks: &mut [bool], open_nodes: &[bool], node: usize, targets: &[usize])
    requires { (t : ℕ) → IsIn t targets.now → t < length marks.old }
    ensures { marks.new ≡ marks_where (is_other_open open_nodes.now node) marks.old targets.now }
{
    for target in targets {
        if is_other_open(open_nodes, node, *target) {
            marks[*target] = true;
        }
    }
}

/// Whether a node is another one than this, and open.
fn is_other_open(open_nodes: &[bool], node: usize, other: usize) -> bool
    ensures { result ≡ is_other_open open_nodes.now node other }
{
    other != node && is_open(open_nodes, other)
}
