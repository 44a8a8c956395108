//! The instances of a board's templates.

ghost use Rattle.std.specs.Prelude.{◌≡◌, ◌≤◌, ◌↔◌, ◌++◌, IsTrue, IsPermutation, IsSorted, IfOk, OnOk, length};
ghost use Rattle.tb_rows.specs.RowOrders.{instance_order};
ghost use Rattle.tb_rows.specs.Rows.{board_instances, instance_rows};
ghost use Rattle.tb_rows.specs.TaskPlaces.{AreFor};
ghost use Rattle.tb_task.specs.Limits.{most_tasks};

use crate::linking::instance_row;
use crate::task_places::TaskPlaces;
use std::alloc::{AllocError, Global};
use tb_board::Board;
use tb_sql_tables::rows::InstanceRow;
use tb_task::Task;
use tb_values::Items;

/// Whether a board has these instances, in whatever order.
pub(crate) fn have_instances(
    alloc: Global,
    board: &Board,
    places: &TaskPlaces,
    rows: &[InstanceRow],
) -> Result<bool, AllocError>
    requires places { AreFor board.now places.now }
    requires few { length board.now.tasks ≤ most_tasks }
    ensures { IfOk result
        (λ same. IsTrue same ↔ IsPermutation rows.now (board_instances board.now)) }
{
    let wanted = in_order(board_instances(alloc, board, places)?.into_vec());
    let found = in_order(Vec::from_slice(alloc, rows)?);
    Ok(found == wanted)
}

/// The instances by template and number.
fn in_order(mut instances: Vec<InstanceRow>) -> Vec<InstanceRow>
    ensures same { IsPermutation instances.items result.items }
    ensures sorted { IsSorted instance_order result.items }
{
    instances.sort_unstable_by_key(|instance| {
        (
            instance.board,
            instance.template,
            instance.imask,
            instance.place,
        )
    });
    instances
}

/// All instances of a board.
fn board_instances(
    alloc: Global,
    board: &Board,
    places: &TaskPlaces,
) -> Result<Items<InstanceRow>, AllocError>
    requires places { AreFor board.now places.now }
    requires few { length board.now.tasks ≤ most_tasks }
    ensures { IfOk result (λ instances. instances ≡ board_instances board.now) }
{
    let mut instances = Items::new(alloc);
    for (place, task) in board.tasks.as_slice().iter().enumerate() {
        push_instance(&mut instances, board, places, place as u32 + 1, task.get())?;
    }
    Ok(instances)
}

/// A row where the task is an instance.
fn push_instance(
    instances: &mut Items<InstanceRow>,
    board: &Board,
    places: &TaskPlaces,
    place: u32,
    task: &Task,
) -> Result<(), AllocError>
    requires places { AreFor board.now places.now }
    requires few { length board.now.tasks ≤ most_tasks }
    ensures { OnOk result
        (instances.new ≡ instances.old ++ instance_rows board.now place task.now) }
{
    if let Some(row) = instance_row(board, places, place, task) {
        instances.push(row)?;
    }
    Ok(())
}
