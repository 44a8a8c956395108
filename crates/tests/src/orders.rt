//! Orders of the command line: the words that ask for them, and what comes of imports and views on the boards of root.

use std::alloc::{AllocError, Global};
use std::io;
use tb_board::Key;
use tb_command_line::{Order, command_of};
use tb_desk::{Desk, ListKeep};
use tb_http::Message;
use tb_orders::{Ending, import_message, import_text, order_of, print_view};
use tb_program::Fault;
use tb_values::Items;
use test_scenes::Owner;
use test_scenes::ends::Narrow;
use test_values::finding::{Finding, ended, missing, show};
use test_values::given::{bytes_of, halves, now, read_place};
use test_values::messages::message_of;

/// How an order ended, if it is one of those that are carried out here.
type End = io::Result<Result<Ending, Fault>>;

/// The words of a text, which a space parts.
fn words_of(alloc: Global, text: &str) -> Result<Vec<&str>, AllocError> {
    if text.is_empty() {
        return Ok(Vec::new(alloc));
    }
    text.split(' ').collect(alloc)
}

pub(crate) fn words(alloc: Global, given: &str) -> Finding {
    let words = words_of(alloc, given)?;
    show(alloc, &command_of(alloc, words.as_slice(), &None))
}

/// The same, where the first word is the key that is kept elsewhere.
pub(crate) fn words_with(alloc: Global, given: &str) -> Finding {
    let (key, given) = given.split_once(' ').unwrap_or((given, ""));
    let kept = Key::read(alloc, key)?;
    let words = words_of(alloc, given)?;
    show(alloc, &command_of(alloc, words.as_slice(), &kept))
}

pub(crate) fn order(alloc: Global, given: &str) -> Finding {
    let words = words_of(alloc, given)?;
    show(alloc, &order_of(alloc, words.as_slice(), &None))
}

/// How each of several steps ends, and what it writes where there is so much room.
pub(crate) fn desk(alloc: Global, given: &str) -> Finding {
    let (room, steps) = halves(given);
    let mut desk = Desk::new(Owner::root(alloc)?.lists()?);
    let mut told = String::new(alloc);
    for step in steps.split('\t') {
        let mut writer = Narrow::of(alloc, read_place(room));
        let end = carried_out(alloc, &mut desk, step, &mut writer)?;
        writeln!(told, "{}", ended(alloc, &end, writer.taken)?.as_str())?;
    }
    Ok(told)
}

/// Carries out an order, whose text stands behind ` < `, or what a message asks for.
fn carried_out(alloc: Global, desk: &mut Desk<ListKeep>, step: &str, out: &mut Narrow) -> End {
    if step.starts_with("POST ") {
        let message = message_of(alloc, bytes_of(alloc, step)?.as_slice())?;
        return import(alloc, desk, &message, out);
    }
    let (words, text) = step.split_once(" < ").unwrap_or((step, ""));
    match order_of(alloc, words_of(alloc, words)?.as_slice(), &None) {
        Ok(Order::Import(order)) => {
            let text = Items::from_vec(bytes_of(alloc, text)?);
            import(alloc, desk, &import_message(alloc, &order, text)?, out)
        }
        Ok(Order::View(order)) => Ok(print_view(alloc, desk, &order, now()?, out)),
        _ => Err(missing()),
    }
}

fn import(alloc: Global, desk: &mut Desk<ListKeep>, message: &Message, out: &mut Narrow) -> End {
    Ok(import_text(alloc, desk, message, now()?, out))
}
