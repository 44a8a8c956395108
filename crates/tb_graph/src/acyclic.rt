ghost use Rattle.std.specs.Prelude.{◌≡◌, ◌↔◌, ◌<◌, ◌≤◌, ℕ, IsTrue, true, false, [], length, replicate, slice_index, EachIndex, IfOk, OnOk};
ghost use Rattle.tb_graph.specs.Walk.{IsIn, IsWellFormed, IsAcyclic};
ghost use Rattle.tb_graph.specs.Marks.{is_marked};
ghost use Rattle.tb_graph.specs.Taking.{AreCounts, AreTaken, occurrences, counts_with, counts_without, work_without};

use crate::links::targets_of;
use std::alloc::{AllocError, Global};
use tb_values::Items;

/// Whether no walk leads from a node to itself: whether all nodes can be taken off, each after those linked to it.
pub(crate) fn is_acyclic(alloc: Global, targets: &[Items<usize>]) -> Result<bool, AllocError>
    requires { IsWellFormed targets.now }
    ensures { IfOk result (λ answer. IsTrue answer ↔ IsAcyclic targets.now) }
{
    let mut counts = source_counts(alloc, targets)?;
    let taken = taken_nodes(alloc, targets, &mut counts)?;
    Ok(are_all_taken(&taken))
}

fn are_all_taken(taken: &[bool]) -> bool
    ensures { IsTrue result ↔ EachIndex taken.now (λ v. is_marked taken.now v ≡ true) }
{
    taken.iter().all(|mark| *mark)
}

/// For each node how many links lead to it.
fn source_counts(alloc: Global, targets: &[Items<usize>]) -> Result<Vec<usize>, AllocError>
    requires { IsWellFormed targets.now }
    ensures { IfOk result (λ counts. AreCounts targets.now [] counts.items) }
{
    let mut counts = vec![in alloc; 0; targets.len()]?;
    count_sources(targets, &mut counts)?;
    Ok(counts)
}

/// Counts the links to each node.
fn count_sources(targets: &[Items<usize>], counts: &mut [usize]) -> Result<(), AllocError>
    requires well_formed { IsWellFormed targets.now }
    requires blank { counts.old ≡ replicate (length targets.now) 0 }
    ensures { OnOk result (AreCounts targets.now [] counts.new) }
{
    for node in 0..targets.len() {
        count_targets(targets_of(targets, node), counts)?;
    }
    Ok(())
}

/// Adds one to the count of each target. A count that no memory could hold the links of is want of memory.
fn count_targets(targets: &[usize], counts: &mut [usize]) -> Result<(), AllocError>
    requires { (t : ℕ) → IsIn t targets.now → t < length counts.old }
    ensures { OnOk result (counts.new ≡ counts_with counts.old targets.now) }
{
    for target in targets {
        match counts[*target].checked_add(1) {
            Some(count) => counts[*target] = count,
            None => return Err(AllocError),
        }
    }
    Ok(())
}

/// Marks for the nodes that can be taken off, each once all nodes that are linked to it are.
fn taken_nodes(
    alloc: Global,
    targets: &[Items<usize>],
    counts: &mut [usize],
) -> Result<Vec<bool>, AllocError>
    requires well_formed { IsWellFormed targets.now }
    requires counts { AreCounts targets.now [] counts.old }
    ensures { IfOk result (λ taken. AreTaken targets.now taken.items) }
{
    let mut taken = vec![in alloc; false; targets.len()]?;
    take_off(alloc, targets, counts, &mut taken)?;
    Ok(taken)
}

/// Takes off each node once all nodes that are linked to it are taken off.
fn take_off(
    alloc: Global,
    targets: &[Items<usize>],
    counts: &mut [usize],
    taken: &mut [bool],
) -> Result<(), AllocError>
    requires well_formed { IsWellFormed targets.now }
    requires counts { AreCounts targets.now [] counts.old }
    requires blank { taken.old ≡ replicate (length targets.now) false }
    ensures { OnOk result (AreTaken targets.now taken.new) }
{
    let mut work = sources(alloc, counts)?;
    while let Some(node) = work.pop() {
        if !taken[node] {
            taken[node] = true;
            take_links(counts, &mut work, targets_of(targets, node))?;
        }
    }
    Ok(())
}

/// The nodes that no link leads to.
fn sources(alloc: Global, counts: &[usize]) -> Result<Vec<usize>, AllocError>
    ensures { IfOk result
        (λ work. (v : ℕ)
        → IsIn v work.items ↔ ((v < length counts.now) × (slice_index counts.now v ≡ 0))) }
{
    let mut work = Vec::new(alloc);
    for node in 0..counts.len() {
        if counts[node] == 0 {
            work.push(node)?;
        }
    }
    Ok(work)
}

/// Takes one off the count of each target, and adds those that have none left to the nodes to take off.
fn take_links(
    counts: &mut [usize],
    work: &mut Vec<usize>,
    targets: &[usize],
) -> Result<(), AllocError>
    requires within { (t : ℕ) → IsIn t targets.now → t < length counts.old }
    requires enough { (v : ℕ) → occurrences v targets.now ≤ slice_index counts.old v }
    ensures counts { OnOk result (counts.new ≡ counts_without counts.old targets.now) }
    ensures work { OnOk result
        (work.new.items ≡ work_without counts.old work.old.items targets.now) }
{
    for target in targets {
        counts[*target] -= 1;
        if counts[*target] == 0 {
            work.push(*target)?;
        }
    }
    Ok(())
}
