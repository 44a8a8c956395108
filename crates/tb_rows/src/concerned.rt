//! Which tasks of a board are concerned by changes.

ghost use Rattle.std.specs.Prelude.{◌≡◌, ◌++◌, [], IfOk, OnOk, length};
ghost use Rattle.std.specs.List.{flat_map, list_any};
ghost use Rattle.tb_rows.specs.Marks.{AreMarks, IsMarkedToo};
ghost use Rattle.tb_rows.specs.Rows.{rows_from};
ghost use Rattle.tb_rows.specs.TaskPlaces.{AreFor};
ghost use Rattle.tb_rows.specs.Steps.{changed_templates, gone_template, instance_template, is_among, is_changed, is_of_board, put_place, template_place};

use crate::task_places::TaskPlaces;
use std::alloc::{AllocError, Global};
use std::marker::Model;
use tb_board::{Board, Change};
use tb_task::{Task, TaskId};
use tb_values::Items;

/// A list of places, with a mark for each of so many places whether it is listed. A contract sees the list.
#[derive(Drop)]
pub(crate) struct PlaceList {
    listed: Items<usize>,
    marks: Vec<bool>,
}

impl Model for PlaceList {
    ghost use Rattle.std.specs.Prelude.{ℕ, List};
    ghost use Rattle.std.specs.Prelude.{length};
    ghost use Rattle.tb_rows.specs.Marks.{AreMarks};

    ghost Value = { List ℕ };

    ghost view = { λ s. s.listed };

    ghost invariant = { λ s. AreMarks s.listed (length s.marks.items) s.marks.items };
}

impl PlaceList {
    /// The places, with so many marks.
    pub(crate) fn of(
        alloc: Global,
        listed: Items<usize>,
        count: usize,
    ) -> Result<PlaceList, AllocError>
        ensures { IfOk result (λ list. list ≡ listed) }
    {
        let marks = marks_of(alloc, listed.as_slice(), count)?;
        Ok(PlaceList { listed, marks })
    }

    /// Whether a place is listed.
    pub(crate) fn has(&self, place: usize) -> bool
        ensures { result ≡ is_among self.now place }
    {
        match self.marks.get(place) {
            Some(mark) => *mark,
            None => is_among(self.listed.as_slice(), place),
        }
    }
}

fn is_among(places: &[usize], place: usize) -> bool
    ensures { result ≡ is_among places.now place }
{
    places.iter().any(|listed| *listed == place)
}

fn marks_of(alloc: Global, places: &[usize], count: usize) -> Result<Vec<bool>, AllocError>
    ensures { IfOk result (λ marks. AreMarks places.now (length marks.items) marks.items) }
{
    let mut marks = vec![in alloc; false; count]?;
    for place in places {
        mark_place(&mut marks, *place);
    }
    Ok(marks)
}

fn mark_place(marks: &mut [bool], place: usize)
    ensures { IsMarkedToo place marks.old marks.new }
{
    if place < marks.len() {
        marks[place] = true;
    }
}

/// The places at which the changes put tasks on a board.
pub(crate) fn put_places(
    alloc: Global,
    changes: &[Change],
    board: u32,
) -> Result<Items<usize>, AllocError>
    ensures { IfOk result (λ places. places ≡ flat_map (put_place board) changes.now) }
{
    let mut places = Items::new(alloc);
    for change in changes {
        push_put_place(&mut places, change, board)?;
    }
    Ok(places)
}

fn push_put_place(places: &mut Items<usize>, change: &Change, board: u32) -> Result<(), AllocError>
    ensures { OnOk result (places.new ≡ places.old ++ put_place board change.now) }
{
    if let Change::PutTask {
        board: number,
        place,
        ..
    } = change
    {
        if board == *number {
            places.push(*place)?;
        }
    }
    Ok(())
}

/// Whether one of the changes is of a board.
pub(crate) fn is_concerned(changes: &[Change], board: u32) -> bool
    ensures { result ≡ list_any (is_of_board board) changes.now }
{
    changes.iter().any(|change| is_of_board(change, board))
}

fn is_of_board(change: &Change, board: u32) -> bool
    ensures { result ≡ is_of_board board change.now }
{
    match change {
        Change::PutTask { board: number, .. } => board == *number,
        Change::SetTitle { board: number, .. } => board == *number,
        Change::SetGone { board: number, .. } => board == *number,
        Change::TakeGone { board: number, .. } => board == *number,
        Change::SetAhead { board: number, .. } => board == *number,
        _ => false,
    }
}

/// The places of the templates of which an instance or a gone place is changed, where there were so many
/// tasks, and tasks are put at these places.
pub(crate) fn changed_templates(
    alloc: Global,
    board: &Board,
    places: &TaskPlaces,
    old: usize,
    put: &PlaceList,
    changes: &[Change],
) -> Result<Items<usize>, AllocError>
    requires { AreFor board.now places.now }
    ensures { IfOk result
        (λ templates. templates ≡ changed_templates board.now old put.now changes.now) }
{
    let mut templates = Items::new(alloc);
    push_instance_templates(&mut templates, board, places, old, put)?;
    push_gone_templates(&mut templates, board, places, changes)?;
    Ok(templates)
}

fn push_instance_templates(
    templates: &mut Items<usize>,
    board: &Board,
    places: &TaskPlaces,
    old: usize,
    put: &PlaceList,
) -> Result<(), AllocError>
    requires { AreFor board.now places.now }
    ensures { OnOk result
        (templates.new ≡ templates.old
        ++ rows_from (instance_template board.now old put.now) 0 board.now.tasks) }
{
    for (place, task) in board.tasks.as_slice().iter().enumerate() {
        push_instance_template(templates, board, places, old, put, place, task.get())?;
    }
    Ok(())
}

fn push_instance_template(
    templates: &mut Items<usize>,
    board: &Board,
    places: &TaskPlaces,
    old: usize,
    put: &PlaceList,
    place: usize,
    task: &Task,
) -> Result<(), AllocError>
    requires { AreFor board.now places.now }
    ensures { OnOk result
        (templates.new ≡ templates.old ++ instance_template board.now old put.now place task.now) }
{
    if !is_changed(old, put, place) {
        return Ok(());
    }
    push_template(templates, board, places, task.parent)
}

fn is_changed(old: usize, put: &PlaceList, place: usize) -> bool
    ensures { result ≡ is_changed old put.now place }
{
    place >= old || put.has(place)
}

fn push_gone_templates(
    templates: &mut Items<usize>,
    board: &Board,
    places: &TaskPlaces,
    changes: &[Change],
) -> Result<(), AllocError>
    requires { AreFor board.now places.now }
    ensures { OnOk result
        (templates.new ≡ templates.old ++ flat_map (gone_template board.now) changes.now) }
{
    for change in changes {
        push_gone_template(templates, board, places, change)?;
    }
    Ok(())
}

fn push_gone_template(
    templates: &mut Items<usize>,
    board: &Board,
    places: &TaskPlaces,
    change: &Change,
) -> Result<(), AllocError>
    requires { AreFor board.now places.now }
    ensures { OnOk result (templates.new ≡ templates.old ++ gone_template board.now change.now) }
{
    match change {
        Change::SetGone {
            board: number,
            gone,
        } if board.number == *number => {
            push_template(templates, board, places, Some(gone.template))
        }
        Change::TakeGone {
            board: number,
            template,
            ..
        } if board.number == *number => { push_template(templates, board, places, Some(*template)) }
        _ => Ok(()),
    }
}

/// The place of a template on the board.
fn push_template(
    templates: &mut Items<usize>,
    board: &Board,
    places: &TaskPlaces,
    template: Option<TaskId>,
) -> Result<(), AllocError>
    requires { AreFor board.now places.now }
    ensures { OnOk result (templates.new ≡ templates.old ++ template_place board.now template) }
{
    let Some(id) = template else {
        return Ok(());
    };
    if let Some(place) = places.place_of(board, id) {
        templates.push(place)?;
    }
    Ok(())
}
