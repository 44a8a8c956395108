//! The masks of a board's tasks.

ghost use Rattle.std.specs.Prelude.{◌≡◌, ◌↔◌, IsTrue, IfOk, map};
ghost use Rattle.tb_rows.specs.AsStored.{masks_of};
ghost use Rattle.tb_rows.specs.Rows.{mask_cell};

use std::alloc::{AllocError, Global};
use tb_board::{Board, is_template_task};
use tb_sql_tables::rows::TaskRow;
use tb_sweep::mask_of;
use tb_task::Task;

/// Whether each task of a board has the mask of its row.
pub(crate) fn have_masks(alloc: Global, board: &Board, rows: &[TaskRow]) -> Result<bool, AllocError>
    ensures { IfOk result
        (λ same. IsTrue same ↔ (masks_of rows.now ≡ map (mask_cell board.now) board.now.tasks)) }
{
    if rows.len() != board.tasks.len() {
        return Ok(false);
    }
    for (place, row) in rows.iter().enumerate() {
        if !has_mask(alloc, board, board.task_at(place), row)? {
            return Ok(false);
        }
    }
    Ok(true)
}

fn has_mask(alloc: Global, board: &Board, task: &Task, row: &TaskRow) -> Result<bool, AllocError>
    ensures { IfOk result (λ same. IsTrue same ↔ (row.now.mask ≡ mask_cell board.now task.now)) }
{
    if !is_template_task(task) {
        return Ok(row.mask.is_none());
    }
    let Some(stored) = &row.mask else {
        return Ok(false);
    };
    let mask = mask_of(alloc, board, task.id)?;
    Ok(stored.as_str() == mask.as_str())
}
