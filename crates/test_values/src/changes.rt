//! The changes that commands list.

use crate::boards::{ann, opened};
use crate::finding::Finding;
use crate::given::{halves, id_of, moment_at};
use crate::tasks::read;
use std::alloc::{AllocError, Global};
use std::io;
use tb_board::{Change, World};
use tb_core::{Action, BoardCommand, Command, Decision, decide, look_for};
use tb_task::{Incoming, Moment, Task, TaskId};

/// What the completion of a task lists in a world to which a template was added: the moment, the task, and the template.
pub(crate) fn done(alloc: Global, given: &str) -> Finding {
    let (at, rest) = halves(given);
    let (id, json) = halves(rest);
    let (id, at) = (id_of(id)?, moment_at(at)?);
    let add = add(read(alloc, json)?);
    both(alloc, &add, &complete(id), at)
}

/// Adds a task under its own identifier.
fn add(task: Task) -> Command {
    let incoming = Incoming {
        task,
        named: true,
        raw_parent: None,
        raw_imask: None,
        raw_mask: None,
        dropped: 0,
    };
    Command::OnBoard {
        board: 1,
        command: BoardCommand::Add { incoming },
    }
}

fn complete(id: TaskId) -> Command {
    let action = Action::Done;
    Command::OnBoard {
        board: 1,
        command: BoardCommand::OnTask { id, action },
    }
}

/// The changes of one command, and of another one after it.
fn both(alloc: Global, one: &Command, other: &Command, at: Moment) -> Finding {
    let mut told = String::new(alloc);
    let world = opened(alloc)?;
    let decision = decided(alloc, &world, one, at)?;
    push_changes(&mut told, &decision)?;
    let world = world.changed(alloc, decision.changes.as_slice())?;
    push_changes(&mut told, &decided(alloc, &world, other, at)?)?;
    Ok(told)
}

fn decided(alloc: Global, world: &World, command: &Command, at: Moment) -> io::Result<Decision> {
    let seen = look_for(world, &ann(alloc)?.name, command)?;
    Ok(decide(alloc, &seen, command, at)?)
}

/// Tells in a line of each change.
fn push_changes(told: &mut String, decision: &Decision) -> Result<(), AllocError> {
    told.push_str("changes\n")?;
    for change in decision.changes.as_slice() {
        push_change(told, change)?;
    }
    Ok(())
}

/// Where a task is put.
fn push_change(told: &mut String, change: &Change) -> Result<(), AllocError> {
    match change {
        Change::PutTask { board, place, .. } => writeln!(told, "on board {board} at {place}"),
        _ => told.push_str("another\n"),
    }
}
