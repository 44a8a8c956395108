//! The bodies of replies, as JSON.
ghost use Rattle.std.specs.Prelude.{◌≡◌, IfOk};
ghost use Rattle.std.specs.Option.{option_map};
ghost use Rattle.serde_json.specs.View.{view};
ghost use Rattle.tb_task.specs.TaskId.{id_text};
ghost use Rattle.tb_calls.specs.Bodies.{added_body, answer_body, board_body, changed_body, field_name, person_body, refusal_body, refusal_name, refused_field, refused_place, swept_body, imported_body, todo_imported_body, detail_body};

use serde_json::{Value, json};
use std::alloc::{AllocError, Global};
use tb_board::Name;
use tb_core::{Answer, AnswerDetail, BoardAnswer, Refusal};
use tb_import::ImportCounts;
use tb_task::{Field, TaskId};

pub(crate) fn body_of_refusal(alloc: Global, refusal: Refusal) -> Result<Value, AllocError>
    ensures { IfOk result (λ body. view body ≡ refusal_body refusal) }
{
    let name = name_of_refusal(refusal);
    let number = refusal.number();
    let place = place_of_refusal(refusal);
    match (place, field_of_refusal(refusal)) {
        (Some(at), Some(field)) =>
            json!(in alloc; {"at": at, "field": field, "name": name, "refused": number}),
        (None, Some(field)) => json!(in alloc; {"field": field, "name": name, "refused": number}),
        (_, None) => json!(in alloc; {"name": name, "refused": number}),
    }
}

pub(crate) fn body_of_answer(alloc: Global, answer: &Answer) -> Result<Value, AllocError>
    ensures { IfOk result (λ body. view body ≡ answer_body answer.now) }
{
    match answer {
        Answer::OnBoard(answer) => body_on_board(alloc, answer, &answer.detail),
        Answer::OfPerson { name } => body_of_person(alloc, name),
        Answer::NewBoard { board } => body_of_board(alloc, *board),
    }
}

fn body_of_person(alloc: Global, name: &Name) -> Result<Value, AllocError>
    ensures { IfOk result (λ body. view body ≡ person_body name.now) }
{
    let name = name.as_str();
    json!(in alloc; {"person": name})
}

fn body_of_board(alloc: Global, board: u32) -> Result<Value, AllocError>
    ensures { IfOk result (λ body. view body ≡ board_body board) }
{
    json!(in alloc; {"board": board})
}

fn body_on_board(
    alloc: Global,
    answer: &BoardAnswer,
    detail: &AnswerDetail,
) -> Result<Value, AllocError>
    ensures { IfOk result (λ body. view body ≡ detail_body answer.now detail.now) }
{
    match detail {
        AnswerDetail::Added { id, dropped } => body_of_added(alloc, answer, *id, *dropped),
        AnswerDetail::Changed { id } => body_of_changed(alloc, answer, *id),
        AnswerDetail::Imported(counts) => body_of_import(alloc, answer, *counts),
        AnswerDetail::TodoImported { known, new } => body_of_todo_import(
            alloc, answer, *known, *new,
        ),
        AnswerDetail::Swept => body_of_sweep(alloc, answer),
    }
}

fn body_of_added(
    alloc: Global,
    answer: &BoardAnswer,
    id: TaskId,
    dropped: u32,
) -> Result<Value, AllocError>
    ensures { IfOk result (λ body. view body ≡ added_body answer.now (id_text id) dropped) }
{
    let uuid = id.text(alloc)?;
    body_with_uuid(alloc, answer, uuid.as_str(), dropped)
}

#[tactic(auto, unfolding(crate::specs::Bodies::added_body))]
fn body_with_uuid(
    alloc: Global,
    answer: &BoardAnswer,
    uuid: &str,
    dropped: u32,
) -> Result<Value, AllocError>
    ensures { IfOk result (λ body. view body ≡ added_body answer.now uuid.now dropped) }
{
    let added = answer.added;
    let board = answer.board;
    let more = answer.more;
    json!(in alloc; {"added": added, "board": board, "dropped": dropped, "more": more, "uuid": uuid})
}

fn body_of_changed(alloc: Global, answer: &BoardAnswer, id: TaskId) -> Result<Value, AllocError>
    ensures { IfOk result (λ body. view body ≡ changed_body answer.now (id_text id)) }
{
    let uuid = id.text(alloc)?;
    body_of_one(alloc, answer, uuid.as_str())
}

#[tactic(auto, unfolding(crate::specs::Bodies::changed_body))]
fn body_of_one(alloc: Global, answer: &BoardAnswer, uuid: &str) -> Result<Value, AllocError>
    ensures { IfOk result (λ body. view body ≡ changed_body answer.now uuid.now) }
{
    let added = answer.added;
    let board = answer.board;
    let more = answer.more;
    json!(in alloc; {"added": added, "board": board, "more": more, "uuid": uuid})
}

#[tactic(auto, unfolding(crate::specs::Bodies::imported_body))]
fn body_of_import(
    alloc: Global,
    answer: &BoardAnswer,
    counts: ImportCounts,
) -> Result<Value, AllocError>
    ensures { IfOk result (λ body. view body ≡ imported_body answer.now counts) }
{
    let added = answer.added;
    let board = answer.board;
    let dropped = counts.dropped;
    let known = counts.known;
    let more = answer.more;
    let new = counts.new;
    let orphans = counts.orphans;
    let unlinked = counts.unlinked;
    json!(in alloc; {"added": added, "board": board, "dropped": dropped, "known": known, "more": more, "new": new, "orphans": orphans, "unlinked": unlinked})
}

#[tactic(auto, unfolding(crate::specs::Bodies::todo_imported_body))]
fn body_of_todo_import(
    alloc: Global,
    answer: &BoardAnswer,
    known: usize,
    new: usize,
) -> Result<Value, AllocError>
    ensures { IfOk result (λ body. view body ≡ todo_imported_body answer.now known new) }
{
    let added = answer.added;
    let board = answer.board;
    let more = answer.more;
    json!(in alloc; {"added": added, "board": board, "known": known, "more": more, "new": new})
}

#[tactic(auto, unfolding(crate::specs::Bodies::swept_body))]
fn body_of_sweep(alloc: Global, answer: &BoardAnswer) -> Result<Value, AllocError>
    ensures { IfOk result (λ body. view body ≡ swept_body answer.now) }
{
    let added = answer.added;
    let board = answer.board;
    let more = answer.more;
    json!(in alloc; {"added": added, "board": board, "more": more})
}

fn name_of_refusal(refusal: Refusal) -> &'static str
    ensures { result.now ≡ refusal_name refusal }
{
    match refusal {
        Refusal::UnknownCaller => "UnknownCaller",
        Refusal::IdReused => "IdReused",
        Refusal::NoBoard => "NoBoard",
        Refusal::NotAllowed => "NotAllowed",
        Refusal::NoTask => "NoTask",
        Refusal::WrongStatus => "WrongStatus",
        Refusal::UuidTaken => "UuidTaken",
        Refusal::BadTask(_) | Refusal::BadTaskAt { .. } => "BadTask",
        Refusal::TemplateFixed => "TemplateFixed",
        Refusal::NoLink => "NoLink",
        Refusal::Cycle => "Cycle",
        Refusal::Full => "Full",
        Refusal::NoPerson => "NoPerson",
        Refusal::LastOwner => "LastOwner",
        Refusal::NameTaken => "NameTaken",
        Refusal::KeyDiffers => "KeyDiffers",
    }
}

fn field_of_refusal(refusal: Refusal) -> Option<&'static str>
    ensures { option_map (λ field. field.now) result ≡ refused_field refusal }
{
    match refusal {
        Refusal::BadTask(field) | Refusal::BadTaskAt { field, .. } => Some(name_of_field(field)),
        _ => None,
    }
}

/// Which task of a list is wrong.
fn place_of_refusal(refusal: Refusal) -> Option<usize>
    ensures { result ≡ refused_place refusal }
{
    match refusal {
        Refusal::BadTaskAt { at, .. } => Some(at),
        _ => None,
    }
}

fn name_of_field(field: Field) -> &'static str
    ensures { result.now ≡ field_name field }
{
    match field {
        Field::EmptyDescription => "EmptyDescription",
        Field::BadTag => "BadTag",
        Field::BadText => "BadText",
        Field::BadPair => "BadPair",
    }
}
