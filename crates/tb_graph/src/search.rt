ghost use Rattle.std.specs.Prelude.{◌≡◌, ◌<◌, ℕ, false, length, replicate, IfOk, OnOk};
ghost use Rattle.tb_graph.specs.Walk.{IsIn, IsWellFormed};
ghost use Rattle.tb_graph.specs.Search.{AreReached, marks_after, work_after};

use crate::links::targets_of;
use std::alloc::{AllocError, Global};
use tb_values::Items;

/// Marks for the nodes that can be reached from a node.
pub(crate) fn reached(
    alloc: Global,
    targets: &[Items<usize>],
    from: usize,
) -> Result<Vec<bool>, AllocError>
    requires well_formed { IsWellFormed targets.now }
    requires from { from < length targets.now }
    ensures { IfOk result (λ marks. AreReached targets.now from marks.items) }
{
    let mut marks = vec![in alloc; false; targets.len()]?;
    search(alloc, targets, from, &mut marks)?;
    Ok(marks)
}

/// Marks the nodes that can be reached from a node. Each node is looked at once, but the first perhaps twice.
fn search(
    alloc: Global,
    targets: &[Items<usize>],
    from: usize,
    marks: &mut [bool],
) -> Result<(), AllocError>
    requires well_formed { IsWellFormed targets.now }
    requires from { from < length targets.now }
    requires blank { marks.old ≡ replicate (length targets.now) false }
    ensures { OnOk result (AreReached targets.now from marks.new) }
{
    let mut work = vec![in alloc; from]?;
    while let Some(node) = work.pop() {
        mark_targets(marks, &mut work, targets_of(targets, node))?;
    }
    Ok(())
}

/// Marks the targets, and adds those that had no mark to the nodes to look at.
fn mark_targets(
    marks: &mut [bool],
    work: &mut Vec<usize>,
    targets: &[usize],
) -> Result<(), AllocError>
    requires { (t : ℕ) → IsIn t targets.now → t < length marks.old }
    ensures marks { OnOk result (marks.new ≡ marks_after marks.old targets.now) }
    ensures work { OnOk result (work.new.items ≡ work_after marks.old work.old.items targets.now) }
{
    for target in targets {
        if !marks[*target] {
            marks[*target] = true;
            work.push(*target)?;
        }
    }
    Ok(())
}
