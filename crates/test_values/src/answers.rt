//! The words that name functions, and what each answers.

use crate::attributes::{self, tell_id};
use crate::finding::{Finding, missing, say, show};
use crate::given::{halves, id_of, moment_at, read_count, read_place, step_of, text_of};
use crate::lists::{items_of, ordered_of};
use crate::{
    boards, caches, changes, clients, graphs, histories, json, lists, machine, messages, rates,
    recurrences, scripts, tasks, texts, todo_lines,
};
use std::alloc::Global;
use tb_client::places_of;
use tb_task::{TaskId, is_attribute};
use tb_values::{Duplicate, Items, Text, read_number};

/// What the function that the word names answers.
pub fn answer(alloc: Global, word: &str, given: &str) -> Finding {
    let (first, rest) = halves(given);
    match word {
        "text" => texts::text(alloc, given),
        "shared" => texts::shared(alloc, given),
        "number" => {
            let text = text_of(alloc, rest)?;
            let number = read_number(text.as_str(), first.parse().unwrap_or(0));
            show(alloc, &number.ok_or(missing())?)
        }
        "written" => texts::written(alloc, given),
        "ordered" => lists::ordered(alloc, given),
        "ordered_has" => {
            let text = Text::from_str(alloc, first)?;
            show(alloc, &ordered_of(alloc, rest)?.contains(&text))
        }
        "ordered_same" => lists::ordered_same(alloc, given),
        "extra_taken" => lists::extra_taken(alloc, first, rest),
        "item" => {
            let items = Items::from_slice(alloc, items_of(alloc, rest)?.as_slice())?;
            say(
                alloc,
                items.get(read_place(first)).ok_or(missing())?.as_str(),
            )
        }
        "item_set" => lists::item_set(alloc, first, rest),
        "item_removed" => lists::item_removed(alloc, first, rest),
        "items_same" => lists::items_same(alloc, given),
        "bytes_same" => {
            let bytes = Items::from_slice(alloc, first.as_bytes())?;
            let others = Items::from_slice(alloc, rest.as_bytes())?;
            show(alloc, &bytes.is(&others.duplicate()?))
        }
        "room" => {
            let items = Items::<u64>::with_capacity(alloc, read_count(first).min(100))?;
            show(alloc, &items.is_empty())
        }
        _ => of_tasks(alloc, word, given),
    }
}

/// Tasks, and what they have: moments, identifiers, statuses, instances.
fn of_tasks(alloc: Global, word: &str, given: &str) -> Finding {
    let (first, rest) = halves(given);
    match word {
        "moment" => show(
            alloc,
            &moment_at(text_of(alloc, given)?.as_str())?.seconds(),
        ),
        "instant" => attributes::instant(alloc, given),
        "step" => show(alloc, &step_of(given)?),
        "identifier" => tell_id(alloc, TaskId::read(given)),
        "made" => tell_id(alloc, TaskId::made(board(first), rest.parse().unwrap_or(0))),
        "number_on" => show(
            alloc,
            &id_of(rest)?.number_on(board(first)).ok_or(missing())?,
        ),
        "space" => tell_id(alloc, Some(TaskId::space(board(given)))),
        "named" => attributes::named(alloc, given),
        "bytes" => attributes::bytes(alloc, given),
        "status" => attributes::status(alloc, given),
        "priority" => attributes::priority(alloc, given),
        "attribute" => show(alloc, &is_attribute(given)),
        "mark" => attributes::mark(alloc, given),
        "mask" => attributes::mask(alloc, given),
        "check" => tasks::tell_verdict(alloc, &tasks::read(alloc, given)?),
        "check_extra" => tasks::checked_with_extra(alloc, given),
        "check_long" => tasks::checked_with_length(alloc, given),
        "copy" => tasks::copied(alloc, given),
        "edit" => tasks::edit(alloc, given),
        "due" => recurrences::due_in(alloc, given),
        "wanted" => recurrences::is_wanted(alloc, given),
        "plan_wants" => recurrences::plan_wants(alloc, given),
        "instance" => recurrences::instance_in(alloc, given),
        _ => of_boards(alloc, word, given),
    }
}

/// The number of a board, or 0 for what is none.
fn board(text: &str) -> u32 {
    text.parse().unwrap_or(0)
}

/// Boards, worlds, graphs, and texts that come in.
fn of_boards(alloc: Global, word: &str, given: &str) -> Finding {
    match word {
        "chain" => graphs::chain(alloc, given),
        "nodes" | "acyclic" | "reaches" | "blocked" | "blocking" => {
            graphs::graph(alloc, word, given)
        }
        "urgency" => boards::urgency_in(alloc, given),
        "good" => boards::is_good(alloc, given),
        "good_without_roles" | "good_with_twin" | "good_with_reader" => {
            boards::is_good_otherwise(alloc, word)
        }
        "at_hand" => caches::at_hand(alloc, given),
        "replayed" => caches::replay(alloc, given),
        "done" => changes::done(alloc, given),
        "waits" => rates::waits(alloc, given),
        "keys" => rates::keys(alloc, given),
        "history" => histories::page(alloc, given),
        "todo_line" => todo_lines::line(alloc, given),
        "todo_tasks" => todo_lines::tasks(alloc, given),
        "task" => json::task(alloc, given),
        "many_tags" => json::many_tags(alloc, given),
        "edits" => json::edits(alloc, given),
        "import" => json::import(alloc, given),
        "stored" => json::stored(alloc, given),
        "stored_list" => json::stored_list(alloc, given),
        _ => of_machine(alloc, word, given),
    }
}

/// Messages, scripts, a client, and the machine.
fn of_machine(alloc: Global, word: &str, given: &str) -> Finding {
    let (first, rest) = halves(given);
    match word {
        "resource" => messages::resource(alloc, first, rest),
        "message" | "field" | "fronts" => messages::asked(alloc, word, first, rest),
        "script" | "script_fails" | "script_room" => scripts::script(alloc, word, given),
        "request" => clients::request(alloc, given),
        "places" => show(alloc, &places_of(alloc, &clients::parts_of(alloc, given)?)?),
        "exported" => clients::exported(alloc, given),
        "named_words" => clients::named(alloc, given),
        "clock" => machine::clock(alloc, given),
        "input" => machine::input(alloc, given),
        "line" => machine::line(alloc, given),
        "loopback" => machine::listened(alloc, given),
        _ => Ok(format!(in alloc; "no such word: {word}")?),
    }
}
